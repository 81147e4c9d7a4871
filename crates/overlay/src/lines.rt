//! One line of an outline on a map.
//!
//! A column of pixels goes by single pixels, since only every other one of them changes and each lies in another word.
ghost use Rattle.std.specs.Prelude.{◌≡◌, ◌+ℤ◌, pos, true};
ghost use Rattle.tb_geom.specs.declared.point.Point.{Point};
ghost use Rattle.tb_geom.specs.Rects.{rect_holds};
ghost use Rattle.bit_map.specs.Bits.{is_point, on_map};
ghost use Rattle.bit_map.specs.Modes.{xor_bit};
ghost use Rattle.bit_map.specs.Patterns.{pattern_bit, gray};
ghost use Rattle.bit_blit.specs.Draws.{Draws};

use bit_blit::{Ink, draw_rect};
use bit_map::{BitMap, Mode, Pattern};
use tb_geom::{Point, Rect};

/// Gray, to be inverted where it is black.
const GRAY: Ink = Ink {
    pattern: Pattern::GRAY,
    offset: Point { h: 0, v: 0 },
    mode: Mode::Xor,
};

/// Inverts each pixel of a line that the map has and where gray is black.
pub(crate) fn draw_line(map: &mut BitMap, line: Rect)
    ensures { Draws (rect_holds line) (λ p old. xor_bit (pattern_bit gray p) old) map.old map.new }
{
    let shared = map.bounds().sect(line);
    if shared.right.saturating_sub(shared.left) != 1 {
        draw_rect(map, line, &GRAY);
        return;
    }
    draw_column(map, shared);
}

/// Inverts the pixels of a column of the map where gray is black.
fn draw_column(map: &mut BitMap, column: Rect)
    requires narrow { column.right ≡ column.left +ℤ pos 1 }
    requires within { (p : Point) → rect_holds column p ≡ true → on_map map.old p ≡ true }
    ensures { Draws (rect_holds column) (λ p old. xor_bit (pattern_bit gray p) old) map.old map.new }
{
    let mut black = Pattern::GRAY.bit(Point {
        h: column.left,
        v: column.top,
    });
    for v in column.top..column.bottom {
        turn_where(black, map, Point { h: column.left, v });
        black = !black;
    }
}

/// Inverts a pixel of the map, where gray is black there.
fn turn_where(black: bool, map: &mut BitMap, point: Point)
    requires { on_map map.old point ≡ true }
    ensures { Draws (is_point point) (λ _ old. xor_bit black old) map.old map.new }
{
    if black {
        let old = map.get(point);
        map.set(point, !old);
    }
}
