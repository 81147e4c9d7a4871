//! The bytes of polygons.
ghost use Rattle.std.specs.Prelude.{◌≡◌, ◌<ℤ◌, true, ℤ, pos, MatchResult};
ghost use Rattle.tb_geom.specs.declared.point.Point.{Point};
ghost use Rattle.tb_geom.specs.Rects.{in_plane, rect_around};
ghost use Rattle.region_rows.specs.Edges.{differ, IsCoordinate};
ghost use Rattle.shape_strips.specs.Bands.{edge_turns};
ghost use Rattle.pixel_rows.specs.Columns.{has_column, is_edge};
ghost use Rattle.shape_region.specs.Polygons.{are_in_plane, odd_edges, polygon_holds, single_point};
ghost use Rattle.pixel_rows.specs.Bounds.{AreBounds};
ghost use Rattle.pixel_rows.specs.Told.{AreRegionBytes, IsNotTold};

use pixel_rows::{Columns, PixelRows, pixel_bytes};
use shape_strips::{BandStrip, Strip};
use std::alloc::Global;
use tb_geom::{LAST_SIDE, Point, Rect, Refusal};

/// The pixels of a polygon, by its points.
#[derive(Clone, Copy)]
struct PolygonRows<'a> {
    points: &'a [Point],
    ghost in_range: { are_in_plane points.now ≡ true },
}

impl PixelRows for PolygonRows<'_> {
    ghost pixels = { λ s. polygon_holds s.points.now };

    fn bounds(&self) -> Rect {
        polygon_bounds(self.points)
    }

    fn row(&self, v: i32) -> Columns {
        polygon_edges(self.points, v).turned(self.bounds())
    }

    fn turns(&self, _v: i32) -> bool {
        true
    }
}

/// A rectangle around the pixels of a polygon.
fn polygon_bounds(points: &[Point]) -> Rect
    requires { are_in_plane points.now ≡ true }
    ensures { AreBounds (polygon_holds points.now) result }
{
    match points {
        [first, rest @ ..] => bounds_around(*first, rest),
        [] => single(Point { h: 0, v: 0 }),
    }
}

/// The smallest rectangle around the points of a polygon, which has no pixel in the column or the row of the last ones.
pub fn bounds_around(first: Point, others: &[Point]) -> Rect
    requires first_in { in_plane first ≡ true }
    requires others_in { are_in_plane others.now ≡ true }
    ensures { AreBounds (odd_edges first others.now first) result }
{
    let mut bounds = single(first);
    for &point in others {
        bounds = widened(bounds, point);
    }
    bounds
}

/// The rectangle whose sides are those of a point. It encloses no pixel.
pub fn single(point: Point) -> Rect
    ensures { result ≡ single_point point }
{
    Rect {
        left: point.h,
        top: point.v,
        right: point.h,
        bottom: point.v,
    }
}

/// The rectangle that reaches to a point too.
fn widened(bounds: Rect, point: Point) -> Rect
    ensures { result ≡ rect_around bounds (single_point point) }
{
    Rect {
        left: bounds.left.min(point.h),
        top: bounds.top.min(point.v),
        right: bounds.right.max(point.h),
        bottom: bounds.bottom.max(point.v),
    }
}

/// The columns at which the row `v` of a polygon begins or ends, without the last column of all.
fn polygon_edges(points: &[Point], v: i32) -> Columns
    requires { are_in_plane points.now ≡ true }
    ensures { (h : ℤ) → IsCoordinate h → h <ℤ pos 16383 → has_column result h ≡ is_edge (polygon_holds points.now) h v }
{
    let mut columns = Columns::none();
    if let [first, rest @ ..] = points {
        flip_turns(&mut columns, *first, rest, *first, v);
    }
    columns
}

/// Flips the columns at which edges turn the row `v`, on the way from one point along others to a last one.
fn flip_turns(columns: &mut Columns, from: Point, others: &[Point], to: Point, v: i32)
    requires from_in { in_plane from ≡ true }
    requires others_in { are_in_plane others.now ≡ true }
    requires to_in { in_plane to ≡ true }
    ensures { (h : ℤ) → IsCoordinate h → h <ℤ pos 16383
        → has_column columns.new h ≡ differ (is_edge (odd_edges from others.now to) h v) (has_column columns.old h) }
{
    let mut last = from;
    for &point in others {
        flip_turn(columns, last, point, v);
        last = point;
    }
    flip_turn(columns, last, to, v);
}

/// Flips the first column that an edge turns in the row `v`, if there is one.
fn flip_turn(columns: &mut Columns, from: Point, to: Point, v: i32)
    requires from_in { in_plane from ≡ true }
    requires to_in { in_plane to ≡ true }
    ensures { (h : ℤ) → IsCoordinate h → h <ℤ pos 16383
        → has_column columns.new h ≡ differ (is_edge (edge_turns from to) h v) (has_column columns.old h) }
{
    let right = LAST_SIDE;
    let run = BandStrip { from, to, right }.run(v);
    if run.left < run.right {
        columns.flip(run.left);
    }
}

/// The bytes of the region of a polygon of these points, whose edges go from each to the next and from the last to the
/// first (*Inside Macintosh* I, "QuickDraw": `PaintPoly`), written row by row, without a region. For each row of their
/// box, all edges are gone through, and the columns of the box. TooLong where the bytes would be more than 32766, also
/// where memory is refused; else it refuses only for want of memory.
pub fn polygon_bytes(alloc: Global, points: &[Point]) -> Result<Vec<u8>, Refusal>
    requires { are_in_plane points.now ≡ true }
    ensures { MatchResult result (λ bytes. AreRegionBytes (polygon_holds points.now) bytes.items)
        (IsNotTold (polygon_holds points.now)) }
{
    pixel_bytes(alloc, &PolygonRows { points })
}
