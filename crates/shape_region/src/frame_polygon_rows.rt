//! The bytes of frames of polygons.
ghost use Rattle.std.specs.Prelude.{◌≡◌, ◌||◌, true, ℤ, MatchResult};
ghost use Rattle.std.specs.List.{list_all};
ghost use Rattle.shape_strips.specs.Lines.{line_holds, pen_fits};
ghost use Rattle.pixel_rows.specs.Columns.{has_column};
ghost use Rattle.shape_region.specs.Polygons.{frame_polygon_holds, some_line};
ghost use Rattle.pixel_rows.specs.Bounds.{AreBounds};
ghost use Rattle.pixel_rows.specs.Told.{AreRegionBytes, IsNotTold};

use crate::polygon_rows::single;
use crate::strip::placed_run;
use pixel_rows::{Columns, PixelRows, pixel_bytes};
use shape_strips::{LineStrip, Pen, Strip};
use std::alloc::Global;
use tb_geom::{Point, Rect, Refusal};

/// The pixels of the frame of a polygon, by its points.
#[derive(Clone, Copy)]
struct FramePolygonRows<'a> {
    points: &'a [Point],
    pen: Pen,
    ghost fits: { list_all (pen_fits pen) points.now ≡ true },
}

impl PixelRows for FramePolygonRows<'_> {
    ghost pixels = { λ s. frame_polygon_holds s.points.now s.pen };

    fn bounds(&self) -> Rect {
        frame_bounds(self.points, self.pen)
    }

    fn row(&self, v: i32) -> Columns {
        let mut row = Columns::none();
        if let [first, rest @ ..] = self.points {
            put_lines(&mut row, *first, rest, *first, self.pen, v);
        }
        row
    }

    fn turns(&self, _v: i32) -> bool {
        true
    }
}

/// A rectangle around the frame of a polygon.
fn frame_bounds(points: &[Point], pen: Pen) -> Rect
    requires { list_all (pen_fits pen) points.now ≡ true }
    ensures { AreBounds (frame_polygon_holds points.now pen) result }
{
    match points {
        [first, rest @ ..] => lines_bounds(*first, rest, *first, pen),
        [] => single(Point { h: 0, v: 0 }),
    }
}

/// A rectangle around the lines on the way from one point along others to a last one.
fn lines_bounds(from: Point, others: &[Point], to: Point, pen: Pen) -> Rect
    requires from_in { pen_fits pen from ≡ true }
    requires others_in { list_all (pen_fits pen) others.now ≡ true }
    requires to_in { pen_fits pen to ≡ true }
    ensures { AreBounds (some_line from others.now to pen) result }
{
    let mut bounds = single(Point { h: 0, v: 0 });
    let mut last = from;
    for &point in others {
        bounds = bounds.union(line_bounds(last, point, pen));
        last = point;
    }
    bounds.union(line_bounds(last, to, pen))
}

/// A rectangle around a line.
fn line_bounds(from: Point, to: Point, pen: Pen) -> Rect
    requires from_in { pen_fits pen from ≡ true }
    requires to_in { pen_fits pen to ≡ true }
    ensures { AreBounds (line_holds from to pen) result }
{
    LineStrip { from, to, pen }.bounds()
}

/// Puts in the columns that the row `v` has of the lines on the way from one point along others to a last one.
fn put_lines(row: &mut Columns, from: Point, others: &[Point], to: Point, pen: Pen, v: i32)
    requires from_in { pen_fits pen from ≡ true }
    requires others_in { list_all (pen_fits pen) others.now ≡ true }
    requires to_in { pen_fits pen to ≡ true }
    ensures { (h : ℤ) → has_column row.new h
        ≡ (some_line from others.now to pen (record { h = h; v = v }) || has_column row.old h) }
{
    let mut last = from;
    for &point in others {
        put_line(row, last, point, pen, v);
        last = point;
    }
    put_line(row, last, to, pen, v);
}

/// Puts in the columns that the row `v` has of a line.
fn put_line(row: &mut Columns, from: Point, to: Point, pen: Pen, v: i32)
    requires from_in { pen_fits pen from ≡ true }
    requires to_in { pen_fits pen to ≡ true }
    ensures { (h : ℤ) → has_column row.new h
        ≡ (line_holds from to pen (record { h = h; v = v }) || has_column row.old h) }
{
    let line = LineStrip { from, to, pen };
    row.put_run(placed_run(&line, line_bounds(from, to, pen), v));
}

/// The bytes of the region of the frame of a polygon of these points: the lines from each to the next and from the last to
/// the first (*Inside Macintosh* I, "QuickDraw": `FramePoly`), written row by row, without a region. That of one point
/// is the pen there. For each row of their box, all lines are gone through, and the columns of the box. TooLong where
/// the bytes would be more than 32766, also where memory is refused; else it refuses only for want of memory.
pub fn frame_polygon_bytes(alloc: Global, points: &[Point], pen: Pen) -> Result<Vec<u8>, Refusal>
    requires { list_all (pen_fits pen) points.now ≡ true }
    ensures { MatchResult result (λ bytes. AreRegionBytes (frame_polygon_holds points.now pen) bytes.items)
        (IsNotTold (frame_polygon_holds points.now pen)) }
{
    pixel_bytes(alloc, &FramePolygonRows { points, pen })
}
