//! Drawing the two diagonals of a square.
ghost use Rattle.std.specs.Prelude.{◌≡◌, ◌&&◌, pos, ◌+ℤ◌, ◌-ℤ◌, ◌≤ℤ◌};
ghost use Rattle.std.specs.Ordering.{int_eq};
ghost use Rattle.tb_geom.specs.declared.point.Point.{Point};
ghost use Rattle.tb_geom.specs.Rects.{between, rect_holds};
ghost use Rattle.bit_blit.specs.Draws.{Draws};
ghost use Rattle.draw_port.specs.Canvases.{canvas_holds, canvas_point, SameFrame};
ghost use Rattle.draw_port.specs.Ops.{shade_value};
ghost use Rattle.looks.specs.Marks.{all_black, cross_holds};
ghost use Rattle.looks.specs.Diagonals.{is_row, falls, rises};

use crate::rects::sides;
use bit_map::{Mode, Pattern};
use draw_port::Canvas;
use tb_geom::Rect;

/// Draws both diagonals of a rectangle in black, row by row.
pub(crate) fn cross(canvas: &mut Canvas<'_>, rect: Rect)
    ensures same_map { canvas.new.map.ghost_name ≡ canvas.old.map.ghost_name }
    ensures same_frame { SameFrame canvas.old canvas.new }
    ensures drawn { Draws (λ p. canvas_holds canvas.old p && cross_holds rect (canvas_point canvas.old p))
        (λ p d. shade_value all_black (canvas_point canvas.old p) d)
        canvas.old.map.now canvas.new.map.now }
{
    for row in 0..rows(rect) {
        cross_row(canvas, rect, row);
    }
}

/// Draws the pixels of one row, counted from the first.
fn cross_row(canvas: &mut Canvas<'_>, rect: Rect, row: u32)
    ensures same_map { canvas.new.map.ghost_name ≡ canvas.old.map.ghost_name }
    ensures same_frame { SameFrame canvas.old canvas.new }
    ensures drawn { Draws (λ p. canvas_holds canvas.old p
        && (is_row rect row (canvas_point canvas.old p) && cross_holds rect (canvas_point canvas.old p)))
        (λ p d. shade_value all_black (canvas_point canvas.old p) d)
        canvas.old.map.now canvas.new.map.now }
{
    canvas.fill(falling(rect, row), Pattern::BLACK, Mode::Copy);
    canvas.fill(rising(rect, row), Pattern::BLACK, Mode::Copy);
}

/// A count of rows that leaves none of the rectangle's out.
fn rows(rect: Rect) -> u32
    ensures { rect.bottom ≤ℤ (rect.top +ℤ pos result) }
{
    distance(rect.top, rect.bottom).max(0) as u32
}

/// How far `to` lies from `from`.
fn distance(from: i32, to: i32) -> i64
    ensures value { result ≡ to -ℤ from }
    ensures high { result ≤ℤ pos 4294967295 }
{
    i64::from(to) - i64::from(from)
}

/// The pixel of the diagonal that goes down from the first column, in a row. It is empty where the
/// diagonal has left the rectangle.
fn falling(rect: Rect, row: u32) -> Rect
    ensures { (p : Point) → rect_holds result p ≡ falls rect row p }
{
    pixel(rect, further(rect.left, row), further(rect.top, row))
}

/// The same of the diagonal that goes down from the last column.
fn rising(rect: Rect, row: u32) -> Rect
    ensures { (p : Point) → rect_holds result p ≡ rises rect row p }
{
    pixel(rect, last_less(rect.right, row), further(rect.top, row))
}

/// The column or the row so far behind another.
fn further(place: i32, by: u32) -> i64
    ensures { result ≡ place +ℤ pos by }
{
    i64::from(place) + i64::from(by)
}

/// The last column but so many of those before a place.
fn last_less(place: i32, by: u32) -> i64
    ensures { result ≡ place -ℤ pos 1 -ℤ pos by }
{
    i64::from(place) - 1 - i64::from(by)
}

/// The pixel in a column and a row. It is empty where the rectangle does not have it.
fn pixel(rect: Rect, h: i64, v: i64) -> Rect
    ensures { (p : Point) → rect_holds result p ≡ (rect_holds rect p && (int_eq p.h h && int_eq p.v v)) }
{
    if has(rect, h, v) {
        let column = h as i32;
        let row = v as i32;
        Rect {
            left: column,
            top: row,
            right: column + 1,
            bottom: row + 1,
        }
    } else {
        sides(0, 0, 0, 0)
    }
}

/// Whether the rectangle has the pixel.
fn has(rect: Rect, h: i64, v: i64) -> bool
    ensures { result ≡ (between rect.left h rect.right && between rect.top v rect.bottom) }
{
    is_between(rect.left, h, rect.right) && is_between(rect.top, v, rect.bottom)
}

/// low <= x < high
fn is_between(low: i32, x: i64, high: i32) -> bool
    ensures { result ≡ between low x high }
{
    i64::from(low) <= x && x < i64::from(high)
}
