//! The lines of outlines: eight rectangles, of which no two share a pixel.
ghost use Rattle.std.specs.Prelude.{◌≡◌, pos, ◌+ℤ◌, ◌-ℤ◌, ◌++◌, replicate};
ghost use Rattle.std.specs.Int.{int_min, int_max};
ghost use Rattle.tb_geom.specs.declared.point.Point.{Point};
ghost use Rattle.tb_geom.specs.Rects.{empty_rect};
ghost use Rattle.draw_port.specs.Ops.{frame_holds};
ghost use Rattle.def_iface.specs.Lines.{AreApart, line_holds, inside, sides_around, frame_lines};

use tb_geom::Rect;

/// A line of no pixel.
pub const NO_LINE: Rect = Rect {
    left: 0,
    top: 0,
    right: 0,
    bottom: 0,
};

/// The outermost pixels of a rectangle, as lines: its first row, its last one, its first and its last column between
/// these, and four lines of no pixel.
pub fn frame_lines(bounds: Rect) -> [Rect; 8]
    ensures value { result ≡ frame_lines bounds }
    ensures apart { AreApart result }
    ensures pixels { (p : Point) → line_holds result p ≡ frame_holds bounds p }
{
    lines_around(bounds, inside(bounds))
}

/// What a rectangle has beside one inside it, as lines: above, below, left and right of that, and four lines of no pixel.
fn lines_around(bounds: Rect, inside: Rect) -> [Rect; 8]
    ensures { result ≡ sides_around bounds inside ++ replicate 4 empty_rect }
{
    [
        Rect {
            bottom: inside.top,
            ..bounds
        },
        Rect {
            top: inside.bottom,
            ..bounds
        },
        Rect {
            left: bounds.left,
            right: inside.left,
            ..inside
        },
        Rect {
            left: inside.right,
            right: bounds.right,
            ..inside
        },
        NO_LINE,
        NO_LINE,
        NO_LINE,
        NO_LINE,
    ]
}

/// What is left of a rectangle without its outermost pixels.
fn inside(bounds: Rect) -> Rect
    ensures { result ≡ inside bounds }
{
    let (left, right) = without_ends(bounds.left, bounds.right);
    let (top, bottom) = without_ends(bounds.top, bounds.bottom);
    Rect {
        left,
        top,
        right,
        bottom,
    }
}

/// Where the numbers from `first` on and below `end` begin and end without the first and the last of them.
fn without_ends(first: i32, end: i32) -> (i32, i32)
    ensures begin { result.0 ≡ int_min end (first +ℤ pos 1) }
    ensures end { result.1 ≡ int_max result.0 (end -ℤ pos 1) }
{
    let begin = end.min(first.saturating_add(1));
    (begin, begin.max(end.saturating_sub(1)))
}
