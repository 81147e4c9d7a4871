//! Regions of shapes, row by row.
ghost use Rattle.std.specs.Prelude.{◌≡◌, ℤ, ◌≤ℤ◌, IfOk, OnOk};
ghost use Rattle.tb_geom.specs.declared.point.Point.{Point};
ghost use Rattle.tb_geom.specs.Pixels.{holds};
ghost use Rattle.region_bytes.specs.Points.{in_rows};
ghost use Rattle.region_rows.specs.Edges.{inside, IsRow};
ghost use Rattle.region_rows.specs.Rows.{AreRows, IsPushed};
ghost use Rattle.shape_region.specs.Rows.{turns};
ghost use Rattle.pixel_rows.specs.Bounds.{AreBounds};

use crate::rows::Rows;
use crate::turns::turn_points;
use crate::two_runs::Edges;
use arrayvec::ArrayVec;
use region_rows::Row;
use scan_region::Region;
use std::alloc::{AllocError, Global};
use tb_geom::Rect;

/// The region of the pixels of a shape, in its coordinate space, in one pass over its rows.
pub fn form_region<R: Rows>(alloc: Global, form: &R) -> Result<Region, AllocError>
    ensures { IfOk result (λ region. (p : Point) → holds region p ≡ R.pixels form.now p) }
{
    let rows = made_rows(alloc, form, row_bounds(form))?;
    Ok(Region::of_rows(rows))
}

/// A rectangle around the pixels of a shape, whose top is not below its bottom.
pub fn row_bounds<R: Rows>(form: &R) -> Rect
    ensures bounds { AreBounds (R.pixels form.now) result }
    ensures order { result.top ≤ℤ result.bottom }
{
    let bounds = form.bounds();
    if bounds.is_empty() {
        return Rect {
            left: 0,
            top: 0,
            right: 0,
            bottom: 0,
        };
    }
    bounds
}

/// The edges of the row `v` of a shape.
pub fn row_edges<R: Rows>(form: &R, v: i32) -> Edges
    ensures pixels { (h : ℤ) → inside result.items h ≡ R.pixels form.now (record { h = h; v = v }) }
    ensures row { IsRow result.items }
{
    form.two_runs(v).edges()
}

/// The rows of inversion points of a shape within these bounds, from the top down.
fn made_rows<R: Rows>(alloc: Global, form: &R, bounds: Rect) -> Result<Vec<Row>, AllocError>
    requires bounds { AreBounds (R.pixels form.now) bounds }
    requires order { bounds.top ≤ℤ bounds.bottom }
    ensures pixels { IfOk result (λ rows. (h v : ℤ)
        → in_rows rows.items h v ≡ R.pixels form.now (record { h = h; v = v })) }
    ensures rows { IfOk result (λ rows. AreRows rows.items) }
{
    let mut rows = Vec::new(alloc);
    let mut above = ArrayVec::new();
    for v in bounds.top..bounds.bottom {
        let row = row_edges(form, v);
        push_turns(alloc, &mut rows, v, &above, &row)?;
        above = row;
    }
    push_turns(alloc, &mut rows, bounds.bottom, &above, &ArrayVec::new())?;
    Ok(rows)
}

/// Adds the row `v` of the inversion points between the row above and its own, if there are any.
fn push_turns(
    alloc: Global,
    rows: &mut Vec<Row>,
    v: i32,
    above: &Edges,
    row: &Edges,
) -> Result<(), AllocError>
    requires above { IsRow above.now.items }
    requires row { IsRow row.now.items }
    ensures { OnOk result (IsPushed rows.old.items rows.new.items v (turns above.now.items row.now.items)) }
{
    let points = turn_points(above, row);
    if points.is_empty() {
        return Ok(());
    }
    rows.push(Row::of(alloc, v, points.as_slice())?)?;
    Ok(())
}
