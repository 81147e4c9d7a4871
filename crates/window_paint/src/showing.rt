//! What controls, lists and text records show, and what another selection inverts.
ghost use Rattle.std.specs.Prelude.{◌≡◌, ℕ, true, not, if◌then◌else◌, List};
ghost use Rattle.tb_geom.specs.Points.{PixelSet};
ghost use Rattle.tb_geom.specs.Rects.{in_plane};
ghost use Rattle.bit_blit.specs.Draws.{Draws};
ghost use Rattle.draw_port.specs.Canvases.{canvas_holds, canvas_point, SameFrame};
ghost use Rattle.desk_layers.specs.declared.part.Part.{Part};
ghost use Rattle.window_paint.specs.White.{all_white};

use bit_map::{Mode, Pattern};
use desk_layers::Part;
use draw_port::Canvas;

/// Whoever keeps the controls, lists and text records of windows, and so can draw them.
pub trait Showing {
    /// They are as they are between calls.
    ghost is_whole: { Self → Type 0 };

    /// What a control, a list or a text record shows in a font, in its window's own coordinates.
    ghost shows: { Self → List ℕ → Part → PixelSet };

    /// Gives each pixel of the canvas the value that this control, list or text record has there in the canvas's font. The canvas's
    /// origin is the window's 0 0.
    fn draw(&self, part: Part, canvas: &mut Canvas<'_>)
        requires whole { is_whole self.now }
        requires origin { in_plane canvas.old.origin ≡ true }
        ensures same_map { canvas.new.map.ghost_name ≡ canvas.old.map.ghost_name }
        ensures same_frame { SameFrame canvas.old canvas.new }
        ensures drawn { Draws (canvas_holds canvas.old)
            (λ p _. shows self.now canvas.old.font.now part (canvas_point canvas.old p))
            canvas.old.map.now canvas.new.map.now };
}

/// Whoever keeps the selection of a list, and so can invert what a change of it highlights otherwise.
pub trait Toggling {
    /// The list is as it is between calls.
    ghost is_ready: { Self → Type 0 };

    /// The pixels that are inverted, in a font, in the window's own coordinates.
    ghost toggles: { Self → List ℕ → PixelSet };

    /// Inverts these pixels of the canvas, in the canvas's font. The canvas's origin is the window's 0 0.
    fn invert(&self, canvas: &mut Canvas<'_>)
        requires ready { is_ready self.now }
        requires origin { in_plane canvas.old.origin ≡ true }
        ensures same_map { canvas.new.map.ghost_name ≡ canvas.old.map.ghost_name }
        ensures same_frame { SameFrame canvas.old canvas.new }
        ensures drawn { Draws (canvas_holds canvas.old)
            (λ p d. if toggles self.now canvas.old.font.now (canvas_point canvas.old p) then not d else d)
            canvas.old.map.now canvas.new.map.now };
}

/// Controls, lists and text records that nobody keeps: they show white.
#[derive(Clone, Copy, Debug, PartialEq, Eq)]
pub struct NothingShown;

impl Showing for NothingShown {
    ghost is_whole = { λ _. Unit {0} };

    ghost shows = { λ _ _. all_white };

    fn draw(&self, _part: Part, canvas: &mut Canvas<'_>) {
        canvas.fill_all(Pattern::WHITE, Mode::Copy);
    }
}
