//! The region of a set that tells its rows, and of the frame of a region.
ghost use Rattle.std.specs.Prelude.{◌≡◌, true, ℤ, pos, ◌-ℤ◌, IfOk, OnOk};
ghost use Rattle.tb_geom.specs.declared.point.Point.{Point};
ghost use Rattle.tb_geom.specs.Pixels.{holds};
ghost use Rattle.tb_geom.specs.Rects.{is_in_range};
ghost use Rattle.region_bytes.specs.Points.{in_rows};
ghost use Rattle.region_rows.specs.Edges.{inside, IsCoordinate, IsRow};
ghost use Rattle.region_rows.specs.Rows.{AreRows, IsPushed};
ghost use Rattle.pixel_rows.specs.Bounds.{AreBounds};
ghost use Rattle.pixel_rows.specs.Columns.{AreWithin, changes, has_column, row_turns};

use pixel_rows::{Columns, PixelRows, differ};
use region_rows::Row;
use scan_region::Region;
use std::alloc::{AllocError, Global};
use tb_geom::Rect;

/// The region of the pixels of a set, in its coordinate space, in one pass over its rows from the top down.
pub fn pixel_region<P: PixelRows>(alloc: Global, set: &P) -> Result<Region, AllocError>
    ensures { IfOk result (λ region. (p : Point) → holds region p ≡ P.pixels set.now p) }
{
    let rows = made_rows(alloc, set, set.bounds())?;
    Ok(Region::of_rows(rows))
}

/// The rows of inversion points of a set within these bounds, from the top down.
fn made_rows<P: PixelRows>(alloc: Global, set: &P, bounds: Rect) -> Result<Vec<Row>, AllocError>
    requires { AreBounds (P.pixels set.now) bounds }
    ensures pixels { IfOk result (λ rows. (h v : ℤ)
        → in_rows rows.items h v ≡ P.pixels set.now (record { h = h; v = v })) }
    ensures rows { IfOk result (λ rows. AreRows rows.items) }
{
    let mut rows = Vec::new(alloc);
    let mut above = Columns::none();
    for v in bounds.top..bounds.bottom + 1 {
        push_next(alloc, &mut rows, &mut above, set, v, bounds)?;
    }
    Ok(rows)
}

/// Adds the row `v` of the inversion points of a set, if there are any, and goes on from the row above.
fn push_next<P: PixelRows>(
    alloc: Global,
    rows: &mut Vec<Row>,
    above: &mut Columns,
    set: &P,
    v: i32,
    bounds: Rect,
) -> Result<(), AllocError>
    requires top { IsCoordinate v }
    requires bounds { AreBounds (P.pixels set.now) bounds }
    requires above { (h : ℤ) → has_column above.old h ≡ P.pixels set.now (record { h = h; v = v -ℤ pos 1 }) }
    ensures above { OnOk result ((h : ℤ) → has_column above.new h ≡ P.pixels set.now (record { h = h; v = v })) }
    ensures rows { OnOk result (IsPushed rows.old.items rows.new.items v (row_turns (P.pixels set.now) v)) }
{
    if !set.turns(v) {
        return Ok(());
    }
    let row = set.row(v);
    push_changes(alloc, rows, v, above, &row, bounds)?;
    *above = row;
    Ok(())
}

/// Adds the row `v` of the inversion points between the row above and its own, if there are any.
fn push_changes(
    alloc: Global,
    rows: &mut Vec<Row>,
    v: i32,
    above: &Columns,
    row: &Columns,
    bounds: Rect,
) -> Result<(), AllocError>
    requires in_range { is_in_range bounds ≡ true }
    requires above { AreWithin bounds.left bounds.right above.now }
    requires row { AreWithin bounds.left bounds.right row.now }
    ensures { OnOk result (IsPushed rows.old.items rows.new.items v (changes above.now row.now)) }
{
    let points = changed_columns(alloc, above, row, bounds)?;
    if points.is_empty() {
        return Ok(());
    }
    rows.push(Row::of(alloc, v, points.as_slice())?)?;
    Ok(())
}

/// The columns of the inversion points between two rows: those at which columns begin, or end, that are of one row
/// alone.
fn changed_columns(
    alloc: Global,
    above: &Columns,
    row: &Columns,
    bounds: Rect,
) -> Result<Vec<i32>, AllocError>
    requires in_range { is_in_range bounds ≡ true }
    requires above { AreWithin bounds.left bounds.right above.now }
    requires row { AreWithin bounds.left bounds.right row.now }
    ensures pixels { IfOk result (λ xs. (h : ℤ) → inside xs.items h ≡ changes above.now row.now h) }
    ensures row { IfOk result (λ xs. IsRow xs.items) }
{
    let mut points = Vec::new(alloc);
    let mut turned = false;
    for h in bounds.left..bounds.right + 1 {
        let turns = differ(above.differs_at(row, h), turned);
        if turns {
            points.push(h)?;
            turned = !turned;
        }
    }
    Ok(points)
}
