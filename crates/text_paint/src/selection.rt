//! The selection.
ghost use Rattle.std.specs.Prelude.{◌≡◌, ◌<◌, ◌&&◌, not, if◌then◌else◌};
ghost use Rattle.bit_blit.specs.Draws.{Draws};
ghost use Rattle.draw_port.specs.Canvases.{canvas_holds, canvas_point, SameFrame};
ghost use Rattle.text_paint.specs.Selected.{is_toggled, reselected};
ghost use Rattle.text_paint.specs.Shown.{line_count, some_line, part_holds, with_selection};

use crate::parts::{caret_rect, has_part, part_rect};
use crate::selected::Selection;
use draw_port::{Canvas, placed_within};
use text_record::TextRecord;

/// Inverts the highlight. Its parts on two lines share no row, so that none is inverted twice.
fn invert_highlight(text: &TextRecord, selected: Selection, canvas: &mut Canvas<'_>)
    ensures same_map { canvas.new.map.ghost_name ≡ canvas.old.map.ghost_name }
    ensures same_frame { SameFrame canvas.old canvas.new }
    ensures drawn { Draws (canvas_holds canvas.old)
        (λ p d. if some_line (line_count text.now)
        (λ j. part_holds (reselected selected text.now) j (canvas_point canvas.old p))
        then not d else d)
        canvas.old.map.now canvas.new.map.now }
{
    for number in 0..text.line_count() {
        invert_part(text, selected, number, canvas);
    }
}

/// Inverts the part of the highlight on a line.
fn invert_part(text: &TextRecord, selected: Selection, number: usize, canvas: &mut Canvas<'_>)
    requires { number < line_count text.now }
    ensures same_map { canvas.new.map.ghost_name ≡ canvas.old.map.ghost_name }
    ensures same_frame { SameFrame canvas.old canvas.new }
    ensures drawn { Draws (λ p. canvas_holds canvas.old p
        && part_holds (reselected selected text.now) number (canvas_point canvas.old p))
        (λ _ d. not d)
        canvas.old.map.now canvas.new.map.now }
{
    if has_part(text, selected, number) {
        canvas.invert(part_rect(text, selected, number));
    }
}

/// Inverts what shows of a selection of an active record: the highlight, or the caret that is on.
pub(crate) fn invert_selection(text: &TextRecord, selected: Selection, canvas: &mut Canvas<'_>)
    ensures same_map { canvas.new.map.ghost_name ≡ canvas.old.map.ghost_name }
    ensures same_frame { SameFrame canvas.old canvas.new }
    ensures drawn { Draws (canvas_holds canvas.old)
        (λ p d. with_selection (reselected selected text.now) (canvas_point canvas.old p) d)
        canvas.old.map.now canvas.new.map.now }
{
    if !selected.active {
        return;
    }
    if selected.start < selected.end {
        invert_highlight(text, selected, canvas);
    } else if selected.caret {
        canvas.invert(caret_rect(text, selected));
    }
}

/// Inverts what shows of one selection, and then what shows of the record's own, so that a pixel of both stays.
fn invert_both(text: &TextRecord, was: Selection, canvas: &mut Canvas<'_>)
    ensures same_map { canvas.new.map.ghost_name ≡ canvas.old.map.ghost_name }
    ensures same_frame { SameFrame canvas.old canvas.new }
    ensures drawn { Draws (canvas_holds canvas.old)
        (λ p d. with_selection text.now (canvas_point canvas.old p)
        (with_selection (reselected was text.now) (canvas_point canvas.old p) d))
        canvas.old.map.now canvas.new.map.now }
{
    invert_selection(text, was, canvas);
    invert_selection(text, Selection::of(text), canvas);
}

/// Inverts on a canvas, whose origin is the 0 0 of the record's window, what shows otherwise of a record whose selection was
/// another one: where the record showed that one, it shows its own afterwards. No line is drawn.
pub fn toggle_selection(text: &TextRecord, was: Selection, canvas: &mut Canvas<'_>)
    ensures same_map { canvas.new.map.ghost_name ≡ canvas.old.map.ghost_name }
    ensures same_frame { SameFrame canvas.old canvas.new }
    ensures drawn { Draws (canvas_holds canvas.old)
        (λ p d. if is_toggled was text.now (canvas_point canvas.old p) then not d else d)
        canvas.old.map.now canvas.new.map.now }
{
    let clip = placed_within(canvas.clip, text.placing().view, canvas.origin);
    let mut there = Canvas {
        map: &mut *canvas.map,
        clip,
        origin: canvas.origin,
        cut: canvas.cut,
        font: canvas.font,
    };
    invert_both(text, was, &mut there);
}
