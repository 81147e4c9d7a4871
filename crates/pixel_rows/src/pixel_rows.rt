//! The bytes of sets of pixels that tell their rows, row by row.
ghost use Rattle.std.specs.Prelude.{◌≡◌, ◌∷◌, ◌++◌, [], ◌↔◌, true, false, List, ℤ, pos, ◌-ℤ◌, IsTrue, MatchResult};
ghost use Rattle.tb_geom.specs.declared.point.Point.{Point};
ghost use Rattle.tb_geom.specs.Points.{PixelSet};
ghost use Rattle.tb_geom.specs.Rects.{is_in_range};
ghost use Rattle.region_bytes.specs.Points.{PointRow};
ghost use Rattle.region_bytes.specs.Writing.{IsWritten, AreWritten};
ghost use Rattle.region_rows.specs.Edges.{IsCoordinate};
ghost use Rattle.region_rows.specs.Rows.{IsPushed};
ghost use Rattle.pixel_rows.specs.Bounds.{AreBounds};
ghost use Rattle.pixel_rows.specs.Columns.{AreWithin, IsSteady, changes, has_column, row_turns};
ghost use Rattle.pixel_rows.specs.Told.{AreRegionBytes, IsNotTold};
ghost use Rattle.pixel_rows.specs.Written.{AreWrittenChanges, AreWrittenRows};

use crate::columns::{Columns, differ};
use region_bytes::{END, RegionWriter};
use std::alloc::Global;
use tb_geom::{Point, Rect, Refusal};

/// A set of pixels that tells its rows, however many runs these have.
pub trait PixelRows {
    ghost pixels: { Self → PixelSet };

    /// A rectangle in range around its pixels.
    fn bounds(&self) -> Rect
        ensures { AreBounds (pixels self.now) result };

    /// The columns in which the row `v` has its pixels.
    fn row(&self, v: i32) -> Columns
        requires { IsCoordinate v }
        ensures { (h : ℤ) → has_column result h ≡ pixels self.now (record { h = h; v = v }) };

    /// Whether the row `v` may have other pixels than the row above.
    fn turns(&self, v: i32) -> bool
        requires { IsCoordinate v }
        ensures { result ≡ false → IsSteady (pixels self.now) v };
}

/// The bytes of the region of a set of pixels, written row by row, without the region. TooLong where they would be more
/// than 32766, also where memory is refused; else it refuses only for want of memory.
pub fn pixel_bytes<P: PixelRows>(alloc: Global, set: &P) -> Result<Vec<u8>, Refusal>
    ensures { MatchResult result (λ bytes. AreRegionBytes (P.pixels set.now) bytes.items)
        (IsNotTold (P.pixels set.now)) }
{
    written_pixels(alloc, set, set.bounds()).finish(alloc)
}

/// The rows of inversion points of a set of pixels within these bounds, written from the top down.
fn written_pixels<P: PixelRows>(alloc: Global, set: &P, bounds: Rect) -> RegionWriter
    requires { AreBounds (P.pixels set.now) bounds }
    ensures { AreWrittenRows (P.pixels set.now) result }
{
    let mut out = RegionWriter::new(alloc);
    let mut above = Columns::none();
    for v in bounds.top..bounds.bottom + 1 {
        write_next(&mut out, &mut above, set, v, bounds);
    }
    out.word(END);
    out
}

/// Writes the row `v` of the inversion points of a set of pixels, if there are any, and goes on from the row above.
fn write_next<P: PixelRows>(
    out: &mut RegionWriter,
    above: &mut Columns,
    set: &P,
    v: i32,
    bounds: Rect,
)
    requires top { IsCoordinate v }
    requires bounds { AreBounds (P.pixels set.now) bounds }
    requires above { (h : ℤ) → has_column above.old h ≡ P.pixels set.now (record { h = h; v = v -ℤ pos 1 }) }
    ensures above { (h : ℤ) → has_column above.new h ≡ P.pixels set.now (record { h = h; v = v }) }
    ensures rows { (rows : List PointRow) → AreWritten out.old rows
        → (more : List PointRow) × IsPushed rows more v (row_turns (P.pixels set.now) v) × AreWritten out.new more }
{
    if !set.turns(v) {
        return;
    }
    let row = set.row(v);
    write_changes(out, v, above, &row, bounds);
    *above = row;
}

/// Writes the row `v` of the inversion points between the row above and its own, if there are any.
fn write_changes(out: &mut RegionWriter, v: i32, above: &Columns, row: &Columns, bounds: Rect)
    requires top { IsCoordinate v }
    requires in_range { is_in_range bounds ≡ true }
    requires above { AreWithin bounds.left bounds.right above.now }
    requires row { AreWithin bounds.left bounds.right row.now }
    ensures { (rows : List PointRow) → AreWritten out.old rows
        → (more : List PointRow) × IsPushed rows more v (changes above.now row.now) × AreWritten out.new more }
{
    if !has_change(above, row, bounds) {
        return;
    }
    out.word(v);
    write_points(out, v, above, row, bounds);
    out.word(END);
}

/// Whether a column is one of a row or of that above, and not of both.
fn has_change(above: &Columns, row: &Columns, bounds: Rect) -> bool
    requires above { AreWithin bounds.left bounds.right above.now }
    requires row { AreWithin bounds.left bounds.right row.now }
    ensures { IsTrue result ↔ ((h : ℤ) × (changes above.now row.now h ≡ true)) }
{
    for h in bounds.left..bounds.right {
        if above.differs_at(row, h) {
            return true;
        }
    }
    false
}

/// Writes the columns of the inversion points between two rows: those at which columns begin, or end, that are of one
/// row alone.
fn write_points(out: &mut RegionWriter, v: i32, above: &Columns, row: &Columns, bounds: Rect)
    requires in_range { is_in_range bounds ≡ true }
    requires above { AreWithin bounds.left bounds.right above.now }
    requires row { AreWithin bounds.left bounds.right row.now }
    ensures { (words : List ℤ) (points : List Point) → IsWritten out.old words points
        → AreWrittenChanges out.new v (changes above.now row.now) words points }
{
    let mut turned = false;
    for h in bounds.left..bounds.right + 1 {
        let turns = differ(above.differs_at(row, h), turned);
        if turns {
            out.point(Point { h, v });
            turned = !turned;
        }
    }
}
