//! Rectangles with rounded corners as marks.
ghost use Rattle.std.specs.Prelude.{◌≡◌, ◌&&◌};
ghost use Rattle.bit_map.specs.Modes.{mode_bit};
ghost use Rattle.bit_blit.specs.Draws.{Draws};
ghost use Rattle.draw_port.specs.Canvases.{canvas_holds, canvas_point, SameFrame};
ghost use Rattle.draw_port.specs.Ops.{shade_value};
ghost use Rattle.looks.specs.Rounded.{rounded_holds, rounded, rounded_inside};

use draw_port::{Canvas, Shade};
use shape_strips::{Corner, InsideStrip, Pen, RoundStrip};
use tb_geom::Rect;

/// A rectangle with rounded corners, or what a frame of one pixel leaves of it. It has no pixel where a side of the
/// rectangle lies outside -16384..=16383.
#[derive(Clone, Copy)]
pub struct Rounded {
    pub rect: Rect,
    /// The size of the oval whose quarters are the corners.
    pub corner: Corner,
    /// The frame is left out.
    pub inside: bool,
}

impl Rounded {
    /// All of it.
    pub fn whole(rect: Rect, corner: Corner) -> Rounded
        ensures { result ≡ rounded rect corner }
    {
        Rounded {
            rect,
            corner,
            inside: false,
        }
    }

    /// What a frame of one pixel leaves.
    pub fn inside_of(rect: Rect, corner: Corner) -> Rounded
        ensures { result ≡ rounded_inside rect corner }
    {
        Rounded {
            rect,
            corner,
            inside: true,
        }
    }
}

/// Puts a shade down on its pixels.
pub(crate) fn round(canvas: &mut Canvas<'_>, rounded: Rounded, shade: Shade)
    ensures same_map { canvas.new.map.ghost_name ≡ canvas.old.map.ghost_name }
    ensures same_frame { SameFrame canvas.old canvas.new }
    ensures drawn { Draws (λ p. canvas_holds canvas.old p && rounded_holds rounded (canvas_point canvas.old p))
        (λ p d. shade_value shade (canvas_point canvas.old p) d)
        canvas.old.map.now canvas.new.map.now }
{
    let rect = rounded.rect;
    let corner = rounded.corner;
    if !rect.is_in_range() {
        return;
    }
    if rounded.inside {
        let pen = Pen {
            width: 1,
            height: 1,
        };
        canvas.strip(
            &InsideStrip { rect, corner, pen },
            shade.pattern,
            shade.mode,
        );
    } else {
        canvas.round(rect, corner, shade.pattern, shade.mode);
    }
}
