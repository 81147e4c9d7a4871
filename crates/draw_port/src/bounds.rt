//! Rectangles of so many pixels, and of lines.
ghost use Rattle.std.specs.Prelude.{◌&&◌, ◌+ℤ◌, pos};
ghost use Rattle.tb_geom.specs.Rects.{between};
ghost use Rattle.draw_port.specs.Places.{HasNear};
ghost use Rattle.draw_port.specs.Ops.{row_holds, column_holds};

use crate::shapes::Line;
use tb_geom::{Point, Rect};

/// The rectangle of this many columns and rows from a point on, as far as numbers of 32 bits go.
pub fn rect_from(start: Point, width: u16, height: u16) -> Rect
    ensures { HasNear result (λ p. between start.h p.h (start.h +ℤ pos width)
        && between start.v p.v (start.v +ℤ pos height)) }
{
    Rect {
        left: start.h,
        top: start.v,
        right: start.h.saturating_add(i32::from(width)),
        bottom: start.v.saturating_add(i32::from(height)),
    }
}

/// The pixels of a line to the right.
pub fn row_bounds(line: Line) -> Rect
    ensures { HasNear result (row_holds line) }
{
    rect_from(line.start, line.count, 1)
}

/// The pixels of a line down.
pub fn column_bounds(line: Line) -> Rect
    ensures { HasNear result (column_holds line) }
{
    rect_from(line.start, 1, line.count)
}
