//! A gray outline on a map.
ghost use Rattle.std.specs.Prelude.{◌≡◌};
ghost use Rattle.std.specs.Int.{int_max};
ghost use Rattle.bit_map.specs.Bits.{Bits};
ghost use Rattle.bit_map.specs.Modes.{xor_bit};
ghost use Rattle.bit_map.specs.Patterns.{pattern_bit, gray};
ghost use Rattle.bit_blit.specs.Draws.{Draws};
ghost use Rattle.def_iface.specs.Lines.{AreApart};
ghost use Rattle.overlay.specs.Outlines.{IsOutlined, outline_holds};

use crate::Overlay;
use crate::lines::draw_line;
use bit_map::BitMap;
use tb_geom::Rect;

impl Overlay {
    /// Shows a base image of the same size with the outline of these lines, of which no two share a pixel, below the first
    /// `bar` rows.
    pub fn outline(&mut self, base: &BitMap, bar: i32, lines: &[Rect; 8])
        requires width { self.old.front.width ≡ base.now.width }
        requires height { self.old.front.height ≡ base.now.height }
        requires apart { AreApart lines.now }
        ensures { IsOutlined bar lines.now base.now self.new.front }
    {
        self.show(base);
        draw_outline(&mut self.front, bar, lines);
    }

    /// Shows the outline of other lines in place of that of these, by drawing both: an outline over itself is none.
    pub fn outline_again(&mut self, bar: i32, old: &[Rect; 8], new: &[Rect; 8])
        requires old { AreApart old.now }
        requires new { AreApart new.now }
        ensures { (base : Bits) → IsOutlined bar old.now base self.old.front
            → IsOutlined bar new.now base self.new.front }
    {
        draw_outline(&mut self.front, bar, old);
        draw_outline(&mut self.front, bar, new);
    }
}

/// Inverts each pixel of these lines, of which no two share one, that the map has below the first `bar` rows and where gray
/// is black. It takes no memory.
pub fn draw_outline(map: &mut BitMap, bar: i32, lines: &[Rect; 8])
    requires { AreApart lines.now }
    ensures { Draws (outline_holds bar lines.now) (λ p old. xor_bit (pattern_bit gray p) old) map.old map.new }
{
    for line in lines {
        draw_line(map, below(*line, bar));
    }
}

/// What of a line lies below the first `bar` rows.
fn below(line: Rect, bar: i32) -> Rect
    ensures { result ≡ record line { top = int_max line.top bar } }
{
    Rect {
        top: line.top.max(bar),
        ..line
    }
}
