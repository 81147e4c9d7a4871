//! All that a record shows.
ghost use Rattle.std.specs.Prelude.{◌≡◌, ◌&&◌};
ghost use Rattle.tb_geom.specs.Rects.{rect_holds};
ghost use Rattle.bit_blit.specs.Draws.{Draws};
ghost use Rattle.draw_port.specs.Canvases.{canvas_holds, canvas_point, SameFrame};
ghost use Rattle.text_paint.specs.Shown.{with_lines, with_selection, text_shown};

use crate::frame::draw_frame;
use crate::lines::draw_lines;
use crate::selected::Selection;
use crate::selection::invert_selection;
use draw_port::{Canvas, placed_within};
use text_record::TextRecord;

/// Draws the lines, and inverts the selection, over what stands on the canvas.
fn draw_text(text: &TextRecord, canvas: &mut Canvas<'_>)
    ensures same_map { canvas.new.map.ghost_name ≡ canvas.old.map.ghost_name }
    ensures same_frame { SameFrame canvas.old canvas.new }
    ensures drawn { Draws (canvas_holds canvas.old)
        (λ p d. with_selection text.now (canvas_point canvas.old p)
        (with_lines canvas.old.font.now text.now (canvas_point canvas.old p) d))
        canvas.old.map.now canvas.new.map.now }
{
    draw_lines(text, canvas);
    invert_selection(text, Selection::of(text), canvas);
}

/// The same, in the view alone.
fn draw_view(text: &TextRecord, canvas: &mut Canvas<'_>)
    ensures same_map { canvas.new.map.ghost_name ≡ canvas.old.map.ghost_name }
    ensures same_frame { SameFrame canvas.old canvas.new }
    ensures drawn { Draws
        (λ p. canvas_holds canvas.old p && rect_holds text.now.view (canvas_point canvas.old p))
        (λ p d. with_selection text.now (canvas_point canvas.old p)
        (with_lines canvas.old.font.now text.now (canvas_point canvas.old p) d))
        canvas.old.map.now canvas.new.map.now }
{
    let view = text.placing().view;
    let clip = placed_within(canvas.clip, view, canvas.origin);
    let mut there = Canvas {
        map: &mut *canvas.map,
        clip,
        origin: canvas.origin,
        cut: canvas.cut,
        font: canvas.font,
    };
    draw_text(text, &mut there);
}

/// Gives each pixel of the canvas, whose origin is the 0 0 of the record's window, the value that the record shows there in
/// the canvas's font (TEUpdate): in the view the text with its selection, and elsewhere white, but for the frame. The widths
/// and the metrics of the record have to be those of that font for its glyphs to stand side by side.
pub fn draw_text_record(text: &TextRecord, canvas: &mut Canvas<'_>)
    ensures same_map { canvas.new.map.ghost_name ≡ canvas.old.map.ghost_name }
    ensures same_frame { SameFrame canvas.old canvas.new }
    ensures drawn { Draws (canvas_holds canvas.old)
        (λ p _. text_shown canvas.old.font.now text.now (canvas_point canvas.old p))
        canvas.old.map.now canvas.new.map.now }
{
    draw_frame(text, canvas);
    draw_view(text, canvas);
}
