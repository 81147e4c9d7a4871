//! The frame round the view.
ghost use Rattle.std.specs.Prelude.{◌≡◌, ◌≤ℤ◌, ◌+ℤ◌, pos, negsuc, not, ◌&&◌};
ghost use Rattle.tb_geom.specs.Rects.{rect_holds};
ghost use Rattle.bit_blit.specs.Draws.{Draws};
ghost use Rattle.draw_port.specs.Canvases.{canvas_holds, canvas_point, SameFrame};
ghost use Rattle.text_record.specs.Placings.{box_of};
ghost use Rattle.text_paint.specs.Shown.{inset, frame_holds};

use bit_map::{Mode, Pattern};
use draw_port::{Canvas, placed_within};
use tb_geom::Rect;
use text_record::TextRecord;

/// A rectangle without its outermost pixels.
fn inset(rect: Rect) -> Rect
    requires left_from { negsuc 16386 ≤ℤ rect.left }
    requires right_to { rect.right ≤ℤ pos 16386 }
    requires top_from { negsuc 16386 ≤ℤ rect.top }
    requires bottom_to { rect.bottom ≤ℤ pos 16386 }
    requires columns { (rect.left +ℤ pos 1) ≤ℤ rect.right }
    requires rows { (rect.top +ℤ pos 1) ≤ℤ rect.bottom }
    ensures { result ≡ inset rect }
{
    Rect {
        left: rect.left + 1,
        top: rect.top + 1,
        right: rect.right - 1,
        bottom: rect.bottom - 1,
    }
}

/// Draws a canvas black, and white in the box without its outermost pixels.
fn fill_around(text: &TextRecord, canvas: &mut Canvas<'_>)
    ensures same_map { canvas.new.map.ghost_name ≡ canvas.old.map.ghost_name }
    ensures same_frame { SameFrame canvas.old canvas.new }
    ensures drawn { Draws (canvas_holds canvas.old)
        (λ p _. not (rect_holds (inset (box_of text.now.framed text.now.view)) (canvas_point canvas.old p)))
        canvas.old.map.now canvas.new.map.now }
{
    canvas.fill_all(Pattern::BLACK, Mode::Copy);
    canvas.fill(inset(text.bounds()), Pattern::WHITE, Mode::Copy);
}

/// Draws the box of a record: its outermost pixels black, and the others white.
fn draw_box(text: &TextRecord, canvas: &mut Canvas<'_>)
    ensures same_map { canvas.new.map.ghost_name ≡ canvas.old.map.ghost_name }
    ensures same_frame { SameFrame canvas.old canvas.new }
    ensures drawn { Draws
        (λ p. canvas_holds canvas.old p && rect_holds (box_of text.now.framed text.now.view) (canvas_point canvas.old p))
        (λ p _. not (rect_holds (inset (box_of text.now.framed text.now.view)) (canvas_point canvas.old p)))
        canvas.old.map.now canvas.new.map.now }
{
    let clip = placed_within(canvas.clip, text.bounds(), canvas.origin);
    let mut there = Canvas {
        map: &mut *canvas.map,
        clip,
        origin: canvas.origin,
        cut: canvas.cut,
        font: canvas.font,
    };
    fill_around(text, &mut there);
}

/// Gives each pixel of the canvas the value that it has without the text: white, and black on the frame.
pub(crate) fn draw_frame(text: &TextRecord, canvas: &mut Canvas<'_>)
    ensures same_map { canvas.new.map.ghost_name ≡ canvas.old.map.ghost_name }
    ensures same_frame { SameFrame canvas.old canvas.new }
    ensures drawn { Draws (canvas_holds canvas.old)
        (λ p _. frame_holds text.now (canvas_point canvas.old p))
        canvas.old.map.now canvas.new.map.now }
{
    canvas.fill_all(Pattern::WHITE, Mode::Copy);
    if text.is_framed() {
        draw_box(text, canvas);
    }
}
