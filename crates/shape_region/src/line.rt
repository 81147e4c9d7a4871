//! Regions of lines, and of the frames of polygons.
ghost use Rattle.std.specs.Prelude.{◌≡◌, ◌&&◌, true, false, IfOk, IfErr, Err};
ghost use Rattle.std.specs.List.{list_all};
ghost use Rattle.tb_geom.specs.declared.point.Point.{Point};
ghost use Rattle.tb_geom.specs.Pixels.{holds};
ghost use Rattle.shape_strips.specs.Lines.{line_holds, pen_fits};
ghost use Rattle.shape_region.specs.Polygons.{frame_polygon_holds, some_line};

use crate::strip_region;
use scan_region::Region;
use shape_strips::{LineStrip, Pen};
use std::alloc::{AllocError, Global};
use tb_geom::{Point, Refusal};

/// Whether the pen fits at both points.
fn fits_at_both(from: Point, to: Point, pen: Pen) -> bool
    ensures { result ≡ (pen_fits pen from && pen_fits pen to) }
{
    pen.fits_at(from) && pen.fits_at(to)
}

/// The pixels of a line that a pen draws, which hangs below and right of the line (*Inside Macintosh* I, "QuickDraw":
/// `LineTo`). A pen without width or height draws nothing. OutOfRange exactly where an end lies outside -16384..=16383,
/// or a pixel of the pen there past 16382; else it refuses only for want of memory.
pub fn line_region(alloc: Global, from: Point, to: Point, pen: Pen) -> Result<Region, Refusal>
    ensures pixels { IfOk result (λ region. (p : Point) → holds region p ≡ line_holds from to pen p) }
    ensures out_of_range { (pen_fits pen from && pen_fits pen to) ≡ false → result ≡ Err Refusal.OutOfRange }
    ensures refused { (pen_fits pen from && pen_fits pen to) ≡ true → IfErr result (λ e. e ≡ Refusal.NoMemory) }
{
    if !fits_at_both(from, to, pen) {
        return Err(Refusal::OutOfRange);
    }
    Ok(strip_region(alloc, &LineStrip { from, to, pen })?)
}

/// The frame of a polygon of these points: the lines from each to the next and from the last to the first (*Inside
/// Macintosh* I, "QuickDraw": `FramePoly`). That of one point is the pen there. OutOfRange exactly where a point lies
/// outside -16384..=16383, or a pixel of the pen there past 16382; else it refuses only for want of memory.
pub fn frame_polygon_region(alloc: Global, points: &[Point], pen: Pen) -> Result<Region, Refusal>
    ensures pixels { IfOk result (λ region. (p : Point) → holds region p ≡ frame_polygon_holds points.now pen p) }
    ensures out_of_range { list_all (pen_fits pen) points.now ≡ false → result ≡ Err Refusal.OutOfRange }
    ensures refused { list_all (pen_fits pen) points.now ≡ true → IfErr result (λ e. e ≡ Refusal.NoMemory) }
{
    if !fits_at_all(points, pen) {
        return Err(Refusal::OutOfRange);
    }
    let [first, rest @ ..] = points else {
        return Ok(Region::empty(alloc));
    };
    Ok(lines_region(alloc, *first, rest, *first, pen)?)
}

/// Whether all points lie in -16384..=16383, and all pixels of the pen at each of them in -16384..=16382.
pub fn fits_at_all(points: &[Point], pen: Pen) -> bool
    ensures { result ≡ list_all (pen_fits pen) points.now }
{
    points.iter().all(|point| pen.fits_at(*point))
}

/// The lines on the way from one point along others to a last one: those of the first half of them and of the second.
fn lines_region(
    alloc: Global,
    from: Point,
    others: &[Point],
    to: Point,
    pen: Pen,
) -> Result<Region, AllocError>
    requires from_in { pen_fits pen from ≡ true }
    requires others_in { list_all (pen_fits pen) others.now ≡ true }
    requires to_in { pen_fits pen to ≡ true }
    ensures { IfOk result (λ region. (p : Point) → holds region p ≡ some_line from others.now to pen p) }
{
    let (before, after) = others.split_at(others.len() / 2);
    let [middle, after @ ..] = after else {
        return strip_region(alloc, &LineStrip { from, to, pen });
    };
    let first = lines_region(alloc, from, before, *middle, pen)?;
    let second = lines_region(alloc, *middle, after, to, pen)?;
    first.union(alloc, &second)
}
