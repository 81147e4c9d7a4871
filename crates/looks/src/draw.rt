//! Drawing a look on a canvas.
ghost use Rattle.std.specs.Prelude.{◌≡◌, ◌≤◌, length};
ghost use Rattle.bit_blit.specs.Draws.{Draws};
ghost use Rattle.draw_port.specs.Canvases.{canvas_holds, canvas_point, SameFrame};
ghost use Rattle.looks.specs.Letters.{lettering};
ghost use Rattle.looks.specs.Marks.{look_bit};

use crate::paint::draw_step;
use crate::step::Step;
use bit_map::{Mode, Pattern};
use draw_port::Canvas;

/// Gives each pixel of the canvas the value that the look has there, with a text of at most 65535
/// characters in the canvas's font.
pub fn draw_look(canvas: &mut Canvas<'_>, steps: &[Step], text: &[u8])
    requires { length text.now ≤ 65535 }
    ensures same_map { canvas.new.map.ghost_name ≡ canvas.old.map.ghost_name }
    ensures same_frame { SameFrame canvas.old canvas.new }
    ensures drawn { Draws (canvas_holds canvas.old)
        (λ p _. look_bit (lettering canvas.old.font.now text.now) steps.now (canvas_point canvas.old p))
        canvas.old.map.now canvas.new.map.now }
{
    canvas.fill_all(Pattern::WHITE, Mode::Copy);
    for step in steps {
        draw_step(canvas, *step, text);
    }
}
