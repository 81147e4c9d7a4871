//! The bytes of the regions of shapes, row by row.
ghost use Rattle.std.specs.Prelude.{◌≡◌, ◌∷◌, ◌++◌, [], List, ℤ, ◌≤ℤ◌, All, MatchResult};
ghost use Rattle.tb_geom.specs.declared.point.Point.{Point};
ghost use Rattle.region_bytes.specs.Points.{PointRow, IsInRange, row_points};
ghost use Rattle.region_bytes.specs.Writing.{IsWritten, AreWritten};
ghost use Rattle.region_rows.specs.Edges.{IsCoordinate, IsRow};
ghost use Rattle.region_rows.specs.Rows.{IsPushed};
ghost use Rattle.shape_region.specs.Rows.{turns};
ghost use Rattle.pixel_rows.specs.Bounds.{AreBounds};
ghost use Rattle.pixel_rows.specs.Told.{AreRegionBytes, IsNotTold};
ghost use Rattle.pixel_rows.specs.Written.{AreWrittenRows};

use crate::making::{row_bounds, row_edges};
use crate::rows::Rows;
use crate::turns::turn_points;
use crate::two_runs::Edges;
use arrayvec::ArrayVec;
use region_bytes::{END, RegionWriter};
use std::alloc::Global;
use tb_geom::{Point, Rect, Refusal};

/// The bytes of the region of the pixels of a shape (*Inside Macintosh* I, "QuickDraw": the type `Region`), written row
/// by row, without the region. TooLong where they would be more than 32766, also where memory is refused; else it
/// refuses only for want of memory.
pub fn form_bytes<R: Rows>(alloc: Global, form: &R) -> Result<Vec<u8>, Refusal>
    ensures { MatchResult result (λ bytes. AreRegionBytes (R.pixels form.now) bytes.items)
        (IsNotTold (R.pixels form.now)) }
{
    written_rows(alloc, form, row_bounds(form)).finish(alloc)
}

/// The rows of inversion points of a shape within these bounds, written from the top down.
fn written_rows<R: Rows>(alloc: Global, form: &R, bounds: Rect) -> RegionWriter
    requires bounds { AreBounds (R.pixels form.now) bounds }
    requires order { bounds.top ≤ℤ bounds.bottom }
    ensures { AreWrittenRows (R.pixels form.now) result }
{
    let mut out = RegionWriter::new(alloc);
    let mut above = ArrayVec::new();
    for v in bounds.top..bounds.bottom {
        let row = row_edges(form, v);
        write_turns(&mut out, v, &above, &row);
        above = row;
    }
    write_turns(&mut out, bounds.bottom, &above, &ArrayVec::new());
    out.word(END);
    out
}

/// Writes the row `v` of the inversion points between the row above and its own, if there are any.
fn write_turns(out: &mut RegionWriter, v: i32, above: &Edges, row: &Edges)
    requires top { IsCoordinate v }
    requires above { IsRow above.now.items }
    requires row { IsRow row.now.items }
    ensures { (rows : List PointRow) → AreWritten out.old rows
        → (more : List PointRow) × IsPushed rows more v (turns above.now.items row.now.items) × AreWritten out.new more }
{
    let points = turn_points(above, row);
    if points.is_empty() {
        return;
    }
    write_row(out, v, points.as_slice());
}

/// Writes a row.
fn write_row(out: &mut RegionWriter, v: i32, columns: &[i32])
    requires { IsInRange (v, columns.now) }
    ensures { (rows : List PointRow) → AreWritten out.old rows
        → AreWritten out.new (rows ++ (v, columns.now) ∷ []) }
{
    out.word(v);
    write_columns(out, v, columns);
    out.word(END);
}

/// Writes the columns of the points of the row `v`.
fn write_columns(out: &mut RegionWriter, v: i32, columns: &[i32])
    requires { All IsCoordinate columns.now }
    ensures { (words : List ℤ) (points : List Point) → IsWritten out.old words points
        → IsWritten out.new (words ++ columns.now) (points ++ row_points (v, columns.now)) }
{
    for &h in columns {
        out.point(Point { h, v });
    }
}
