//! Drawing on strips, and on rectangles with rounded corners.
ghost use Rattle.std.specs.Prelude.{◌≡◌, true, ◌&&◌};
ghost use Rattle.tb_geom.specs.Rects.{between, is_in_range};
ghost use Rattle.bit_map.specs.Modes.{mode_bit};
ghost use Rattle.bit_map.specs.Patterns.{pattern_bit};
ghost use Rattle.bit_blit.specs.Draws.{Draws};
ghost use Rattle.shape_strips.specs.Rounds.{round_holds};
ghost use Rattle.draw_port.specs.Canvases.{canvas_holds, canvas_point, SameFrame};
ghost use Rattle.draw_port.specs.Ops.{shade_value};

use crate::canvas::Canvas;
use crate::clipped::row_of;
use crate::shapes::Shade;
use bit_map::{Mode, Pattern};
use scan_region::Span;
use shape_strips::{Corner, RoundStrip, Strip};
use tb_geom::Rect;

impl Canvas<'_> {
    /// Puts the pattern, whose origin is the canvas's own, down by the mode on a rectangle with rounded corners
    /// (*Inside Macintosh* I, "QuickDraw": `FillRoundRect`).
    pub fn round(&mut self, rect: Rect, corner: Corner, pattern: Pattern, mode: Mode)
        requires { is_in_range rect ≡ true }
        ensures same_map { self.new.map.ghost_name ≡ self.old.map.ghost_name }
        ensures same_frame { SameFrame self.old self.new }
        ensures drawn { Draws (λ p. canvas_holds self.old p && round_holds rect corner (canvas_point self.old p))
            (λ p old. mode_bit mode (pattern_bit pattern (canvas_point self.old p)) old)
            self.old.map.now self.new.map.now }
    {
        self.strip(&RoundStrip { rect, corner }, pattern, mode);
    }

    /// Puts the pattern, whose origin is the canvas's own, down by the mode on the pixels of a strip, run by run. Only
    /// the rows that the canvas has are looked at.
    pub fn strip<S: Strip>(&mut self, strip: &S, pattern: Pattern, mode: Mode)
        ensures same_map { self.new.map.ghost_name ≡ self.old.map.ghost_name }
        ensures same_frame { SameFrame self.old self.new }
        ensures drawn { Draws (λ p. canvas_holds self.old p && S.pixels strip.now (canvas_point self.old p))
            (λ p old. mode_bit mode (pattern_bit pattern (canvas_point self.old p)) old)
            self.old.map.now self.new.map.now }
    {
        let rows = self.reach().sect(strip.bounds());
        self.strip_rows(strip, rows, &Shade { pattern, mode });
    }

    /// Puts the shade down on the pixels of a strip in the rows of a rectangle, run by run.
    fn strip_rows<S: Strip>(&mut self, strip: &S, rows: Rect, shade: &Shade)
        ensures same_map { self.new.map.ghost_name ≡ self.old.map.ghost_name }
        ensures same_frame { SameFrame self.old self.new }
        ensures drawn { Draws (λ p. canvas_holds self.old p && (S.pixels strip.now (canvas_point self.old p)
            && between rows.top (canvas_point self.old p).v rows.bottom))
            (λ p old. shade_value shade.now (canvas_point self.old p) old)
            self.old.map.now self.new.map.now }
    {
        for v in rows.top..rows.bottom {
            let run = strip.run(v);
            let span = Span {
                v,
                left: run.left,
                right: run.right,
            };
            self.draw(row_of(span), shade);
        }
    }
}
