//! Where a text stands.
ghost use Rattle.std.specs.Prelude.{◌≡◌, ◌+ℤ◌, ◌≤ℤ◌, pos, negsuc};
ghost use Rattle.tb_geom.specs.Rects.{is_in_range, is_coordinate};
ghost use Rattle.text_record.specs.Placings.{is_near, is_span, is_sized, is_width, widened, box_of, is_placing};

use tb_geom::{FIRST_SIDE, LAST_SIDE, Rect};

/// Where lines stand in the destination (*Inside Macintosh* I, "TextEdit", "Justification").
#[derive(Clone, Copy, Debug, PartialEq, Eq, Drop)]
pub enum Justification {
    Left,
    Middle,
    Right,
}

/// Where a text stands, in the coordinates of its window. The destination begins at column `left` and row `top`, and
/// lines have `width` columns; its bottom plays no part. What shows of it is what lies in the view (*Inside Macintosh* I,
/// "TextEdit", "The Destination and View Rectangles").
#[derive(Clone, Copy, Debug, PartialEq, Eq, Drop)]
pub struct Placing {
    pub left: i32,
    pub top: i32,
    pub width: u16,
    pub view: Rect,
}

/// Whether a number lies in -16777216..=16777215.
pub(crate) fn is_near(x: i32) -> bool
    ensures { result ≡ is_near x }
{
    -16777216 <= x && x <= 16777215
}

/// Whether there are 1..=1024 pixels from one side to another.
fn is_span(low: i32, high: i32) -> bool
    ensures { result ≡ is_span low high }
{
    let long = i64::from(high) - i64::from(low);
    1 <= long && long <= 1024
}

/// Whether a rectangle has 1..=1024 columns and rows.
fn is_sized(rect: Rect) -> bool
    ensures { result ≡ is_sized rect }
{
    is_span(rect.left, rect.right) && is_span(rect.top, rect.bottom)
}

/// Whether lines may be so wide.
fn is_width(width: u16) -> bool
    ensures { result ≡ is_width width }
{
    1 <= width && width <= 16383
}

/// Whether `x`, moved by `d`, is the coordinate of a side.
fn stays_in_range(x: i32, d: i32) -> bool
    ensures { result ≡ is_coordinate (x +ℤ d) }
{
    let moved = x.saturating_add(d);
    FIRST_SIDE <= moved && moved <= LAST_SIDE
}

/// Whether the sides of a rectangle with 3 columns and rows more on each side are coordinates.
fn stays_widened(rect: Rect) -> bool
    ensures { result ≡ is_in_range (widened rect) }
{
    stays_in_range(rect.left, -3)
        && (stays_in_range(rect.top, -3)
            && (stays_in_range(rect.right, 3) && stays_in_range(rect.bottom, 3)))
}

/// Whether the sides of the box of a record with this view are coordinates.
fn has_box(framed: bool, view: Rect) -> bool
    ensures { result ≡ is_in_range (box_of framed view) }
{
    if framed {
        stays_widened(view)
    } else {
        view.is_in_range()
    }
}

/// A rectangle with 3 columns and rows more on each side.
pub(crate) fn widened(rect: Rect) -> Rect
    requires left { negsuc 16383 ≤ℤ rect.left }
    requires top { negsuc 16383 ≤ℤ rect.top }
    requires right { rect.right ≤ℤ pos 16383 }
    requires bottom { rect.bottom ≤ℤ pos 16383 }
    ensures { result ≡ widened rect }
{
    Rect {
        left: rect.left - 3,
        top: rect.top - 3,
        right: rect.right + 3,
        bottom: rect.bottom + 3,
    }
}

impl Placing {
    /// Whether a text may stand so: left and top lie in -16777216..=16777215, the width in 1..=16383, the view has
    /// 1..=1024 columns and rows, and the sides of its box lie in -16384..=16383. The box is the view, or where framed
    /// the view with 3 more on each side.
    pub fn is_allowed(self, framed: bool) -> bool
        ensures { result ≡ is_placing framed self }
    {
        is_near(self.left)
            && (is_near(self.top)
                && (is_width(self.width) && (is_sized(self.view) && has_box(framed, self.view))))
    }
}
