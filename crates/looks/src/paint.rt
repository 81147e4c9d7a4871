//! Drawing one step of a look.
ghost use Rattle.std.specs.Prelude.{◌≡◌, ◌≤◌, true, ◌&&◌, length};
ghost use Rattle.bit_blit.specs.Draws.{Draws};
ghost use Rattle.draw_port.specs.Canvases.{canvas_holds, canvas_point, SameFrame};
ghost use Rattle.draw_port.specs.Ops.{frame_holds, shade_value};
ghost use Rattle.looks.specs.Letters.{lettering};
ghost use Rattle.looks.specs.Marks.{step_value, mark_holds, mark_value};

use crate::cross::cross;
use crate::pen::{pen_point, plate_rect};
use crate::rounded::round;
use crate::step::{Mark, Step};
use bit_map::{Mode, Pattern};
use draw_port::{Canvas, Op, Shade, Shape, placed_within};
use tb_geom::Rect;

/// Draws a step over what stands there, with a text of at most 65535 characters. The step's coordinates
/// are the canvas's.
pub fn draw_step(canvas: &mut Canvas<'_>, step: Step, text: &[u8])
    requires { length text.now ≤ 65535 }
    ensures same_map { canvas.new.map.ghost_name ≡ canvas.old.map.ghost_name }
    ensures same_frame { SameFrame canvas.old canvas.new }
    ensures drawn { Draws (canvas_holds canvas.old)
        (λ p d. step_value (lettering canvas.old.font.now text.now) (canvas_point canvas.old p) d step)
        canvas.old.map.now canvas.new.map.now }
{
    if step.on {
        let mut part = Canvas {
            map: &mut *canvas.map,
            clip: placed_within(canvas.clip, step.cut, canvas.origin),
            origin: canvas.origin,
            cut: canvas.cut,
            font: canvas.font,
        };
        mark(&mut part, step.mark, text);
    }
}

/// Draws a mark.
fn mark(canvas: &mut Canvas<'_>, mark: Mark, text: &[u8])
    requires { length text.now ≤ 65535 }
    ensures same_map { canvas.new.map.ghost_name ≡ canvas.old.map.ghost_name }
    ensures same_frame { SameFrame canvas.old canvas.new }
    ensures drawn { Draws (λ p. canvas_holds canvas.old p
        && mark_holds (lettering canvas.old.font.now text.now) mark (canvas_point canvas.old p))
        (λ p d. mark_value mark (canvas_point canvas.old p) d)
        canvas.old.map.now canvas.new.map.now }
{
    match mark {
        Mark::Fill(rect, shade) => canvas.fill(rect, shade.pattern, shade.mode),
        Mark::Frame(rect, shade) => frame(canvas, rect, shade),
        Mark::Behind(plate) => {
            let rect = plate_rect(canvas.font.width(text), plate);
            canvas.fill(rect, Pattern::WHITE, Mode::Copy);
        }
        Mark::Text(place) => {
            let pen = pen_point(canvas.font, text, place);
            canvas.text(text, pen, Mode::Or);
        }
        Mark::Cross(rect) => cross(canvas, rect),
        Mark::Round(rounded, shade) => round(canvas, rounded, shade),
    }
}

/// Puts a shade down on the outermost pixels of a rectangle.
fn frame(canvas: &mut Canvas<'_>, rect: Rect, shade: Shade)
    ensures same_map { canvas.new.map.ghost_name ≡ canvas.old.map.ghost_name }
    ensures same_frame { SameFrame canvas.old canvas.new }
    ensures drawn { Draws (λ p. canvas_holds canvas.old p && frame_holds rect (canvas_point canvas.old p))
        (λ p d. shade_value shade (canvas_point canvas.old p) d)
        canvas.old.map.now canvas.new.map.now }
{
    canvas.paint(&Op {
        clip: None,
        shape: Shape::Frame(rect, shade),
    });
}
