//! Polygons of few points, in one pass over their rows.
ghost use Rattle.std.specs.Prelude.{◌≡◌, ◌≤◌, ◌<◌, ◌+◌, ◌≤ℤ◌, ◌<ℤ◌, ◌∷◌, ◌++◌, [], true, length, ℤ, pos, negsuc, int_le, IfOk};
ghost use Rattle.std.specs.List.{insert};
ghost use Rattle.tb_geom.specs.declared.point.Point.{Point};
ghost use Rattle.tb_geom.specs.Pixels.{holds};
ghost use Rattle.tb_geom.specs.Rects.{in_plane};
ghost use Rattle.region_bytes.specs.Points.{in_rows};
ghost use Rattle.region_rows.specs.Edges.{differ, inside, is_odd, IsClimb, IsRow};
ghost use Rattle.region_rows.specs.Gaps.{IsPlace};
ghost use Rattle.region_rows.specs.Rows.{AreRows};
ghost use Rattle.shape_strips.specs.Bands.{edge_turns};
ghost use Rattle.pixel_rows.specs.Bounds.{AreBounds};
ghost use Rattle.shape_region.specs.Polygons.{are_in_plane, odd_edges};

use crate::long_turns::push_long_turns;
use crate::polygon_rows::bounds_around;
use arrayvec::ArrayVec;
use region_rows::Row;
use scan_region::Region;
use shape_strips::{BandStrip, Strip};
use std::alloc::{AllocError, Global};
use tb_geom::{LAST_SIDE, Point, Rect};

/// The columns at which a row begins and ends: one for each of 32 edges at most, and the last one of all.
type Crossings = ArrayVec<i32, 33>;

/// The region of a polygon of 32 points at most, by its first point and the others, in one pass over its rows.
pub fn pass_region(alloc: Global, first: Point, others: &[Point]) -> Result<Region, AllocError>
    requires first_in { in_plane first ≡ true }
    requires others_in { are_in_plane others.now ≡ true }
    requires few { length others.now ≤ 31 }
    ensures { IfOk result (λ region. (p : Point) → holds region p ≡ odd_edges first others.now first p) }
{
    let bounds = bounds_around(first, others);
    if bounds.is_empty() {
        return Ok(Region::empty(alloc));
    }
    let rows = pass_rows(alloc, first, others, bounds)?;
    Ok(Region::of_rows(rows))
}

/// The rows of inversion points of such a polygon within these bounds, from the top down.
fn pass_rows(
    alloc: Global,
    first: Point,
    others: &[Point],
    bounds: Rect,
) -> Result<Vec<Row>, AllocError>
    requires first_in { in_plane first ≡ true }
    requires others_in { are_in_plane others.now ≡ true }
    requires few { length others.now ≤ 31 }
    requires bounds { AreBounds (odd_edges first others.now first) bounds }
    requires order { bounds.top ≤ℤ bounds.bottom }
    ensures pixels { IfOk result (λ rows. (h v : ℤ)
        → in_rows rows.items h v ≡ odd_edges first others.now first (record { h = h; v = v })) }
    ensures rows { IfOk result (λ rows. AreRows rows.items) }
{
    let mut rows = Vec::new(alloc);
    let (mut above, mut row) = (Crossings::new(), Crossings::new());
    for v in bounds.top..bounds.bottom {
        row_crossings(&mut row, first, others, v);
        push_long_turns(alloc, &mut rows, v, above.as_slice(), row.as_slice())?;
        keep(&mut above, row.as_slice());
    }
    push_long_turns(alloc, &mut rows, bounds.bottom, above.as_slice(), &[])?;
    Ok(rows)
}

/// Makes `kept` these columns, for which there is room.
fn keep(kept: &mut Crossings, columns: &[i32])
    requires { length columns.now ≤ 33 }
    ensures { kept.new.items ≡ columns.now }
{
    kept.clear();
    kept.try_extend_from_slice(columns).unwrap();
}

/// Makes `columns` those at which the row `v` of a polygon begins and ends, by its first point and the others.
fn row_crossings(columns: &mut Crossings, first: Point, others: &[Point], v: i32)
    requires first_in { in_plane first ≡ true }
    requires others_in { are_in_plane others.now ≡ true }
    requires few { length others.now ≤ 31 }
    ensures pixels { (h : ℤ) → inside columns.new.items h ≡ odd_edges first others.now first (record { h = h; v = v }) }
    ensures row { IsRow columns.new.items }
{
    way_crossings(columns, first, others, first, v);
    if is_odd(columns.len()) {
        columns.push(LAST_SIDE);
    }
}

/// Whether a number of columns is odd.
fn is_odd(count: usize) -> bool
    ensures { result ≡ is_odd count }
{
    count % 2 == 1
}

/// Makes `columns` the first ones that edges turn in the row `v`, on the way from one point along others to a last one,
/// without those that an even number of edges has.
fn way_crossings(columns: &mut Crossings, from: Point, others: &[Point], to: Point, v: i32)
    requires from_in { in_plane from ≡ true }
    requires others_in { are_in_plane others.now ≡ true }
    requires to_in { in_plane to ≡ true }
    requires few { length others.now ≤ 31 }
    ensures pixels { (h : ℤ) → h <ℤ pos 16383
        → inside columns.new.items h ≡ odd_edges from others.now to (record { h = h; v = v }) }
    ensures climb { IsClimb (negsuc 16384) columns.new.items (pos 16382) }
    ensures few { length columns.new.items ≤ 32 }
{
    columns.clear();
    let mut last = from;
    for &point in others {
        meet(columns, last, point, v);
        last = point;
    }
    meet(columns, last, to, v);
}

/// Turns a row from the first column on that an edge turns in the row `v`, if there is one. Most edges pass no row.
#[inline(always)]
fn meet(columns: &mut Crossings, from: Point, to: Point, v: i32)
    requires from_in { in_plane from ≡ true }
    requires to_in { in_plane to ≡ true }
    requires climb { IsClimb (negsuc 16384) columns.old.items (pos 16382) }
    requires room { length columns.old.items < 32 }
    ensures pixels { (h : ℤ) → h <ℤ pos 16383
        → inside columns.new.items h ≡ differ (edge_turns from to (record { h = h; v = v })) (inside columns.old.items h) }
    ensures climb { IsClimb (negsuc 16384) columns.new.items (pos 16382) }
    ensures few { length columns.new.items ≤ 1 + length columns.old.items }
{
    if passes_row(from, to, v) {
        cross(columns, from, to, v);
    }
}

/// Whether one end of an edge lies in the row `v` or above it, and the other below.
#[inline(always)]
fn passes_row(from: Point, to: Point, v: i32) -> bool
    ensures { result ≡ differ (int_le from.v v) (int_le to.v v) }
{
    (from.v <= v) != (to.v <= v)
}

/// Turns a row from the first column on that an edge turns in the row `v`, if there is one.
fn cross(columns: &mut Crossings, from: Point, to: Point, v: i32)
    requires from_in { in_plane from ≡ true }
    requires to_in { in_plane to ≡ true }
    requires climb { IsClimb (negsuc 16384) columns.old.items (pos 16382) }
    requires room { length columns.old.items < 32 }
    ensures pixels { (h : ℤ) → h <ℤ pos 16383
        → inside columns.new.items h ≡ differ (edge_turns from to (record { h = h; v = v })) (inside columns.old.items h) }
    ensures climb { IsClimb (negsuc 16384) columns.new.items (pos 16382) }
    ensures few { length columns.new.items ≤ 1 + length columns.old.items }
{
    let right = LAST_SIDE;
    let run = BandStrip { from, to, right }.run(v);
    if run.left < run.right {
        turn_from(columns, run.left);
    }
}

/// Turns a row from the column `x` on: takes the column away if it is one of these, and puts it in if it is not.
fn turn_from(columns: &mut Crossings, x: i32)
    requires low { negsuc 16384 <ℤ x }
    requires high { x ≤ℤ pos 16382 }
    requires climb { IsClimb (negsuc 16384) columns.old.items (pos 16382) }
    requires room { length columns.old.items < 33 }
    ensures pixels { (h : ℤ) → inside columns.new.items h ≡ differ (int_le x h) (inside columns.old.items h) }
    ensures climb { IsClimb (negsuc 16384) columns.new.items (pos 16382) }
    ensures few { length columns.new.items ≤ 1 + length columns.old.items }
{
    let (place, is_there) = place_of(columns.as_slice(), x);
    if is_there {
        columns.remove(place);
        return;
    }
    put_in(columns, place, x);
}

/// Puts a column in at a place, with those from there on one place further right.
fn put_in(columns: &mut Crossings, place: usize, x: i32)
    requires place { place ≤ length columns.old.items }
    requires room { length columns.old.items < 33 }
    ensures { columns.new.items ≡ insert columns.old.items place x }
{
    let last = open_place(columns.as_mut_slice(), place, x);
    columns.push(last);
}

/// Puts a column at a place, and those from there on one place further right, and gives the last one, which has no place.
#[inline(always)]
fn open_place(columns: &mut [i32], place: usize, x: i32) -> i32
    requires { place ≤ length columns.old }
    ensures { columns.new ++ result ∷ [] ≡ insert columns.old place x }
{
    let mut last = x;
    let mut at = place;
    while at < columns.len() {
        let column = columns[at];
        columns[at] = last;
        last = column;
        at += 1;
    }
    last
}

/// How many columns lie left of the column `x`, and whether it is one of them.
#[inline(always)]
fn place_of(columns: &[i32], x: i32) -> (usize, bool)
    ensures { IsPlace columns.now x result.0 result.1 }
{
    let mut place = 0;
    while place < columns.len() {
        let column = columns[place];
        if x <= column {
            return (place, x == column);
        }
        place += 1;
    }
    (place, false)
}
