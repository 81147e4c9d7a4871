//! The parts of lines that are inverted where a selection shows.
ghost use Rattle.std.specs.Prelude.{◌≡◌, ◌<◌};
ghost use Rattle.text_paint.specs.Selected.{reselected};
ghost use Rattle.text_paint.specs.Shown.{line_count, has_part, part_left, part_right, rows_between, caret_rect};

use crate::selected::Selection;
use tb_geom::Rect;
use text_record::TextRecord;

/// Whether the highlight has a part on a line.
pub(crate) fn has_part(text: &TextRecord, selected: Selection, number: usize) -> bool
    requires { number < line_count text.now }
    ensures { result ≡ has_part (reselected selected text.now) number }
{
    let line = text.line(number);
    selected.start.max(usize::from(line.start)) < selected.end.min(usize::from(line.end))
}

/// Where that part begins.
fn part_left(text: &TextRecord, selected: Selection, number: usize) -> i32
    requires { number < line_count text.now }
    ensures { result ≡ part_left (reselected selected text.now) number }
{
    if selected.start < usize::from(text.line(number).start) {
        text.edges().0
    } else {
        text.column_of(selected.start)
    }
}

/// Where that part ends.
fn part_right(text: &TextRecord, selected: Selection, number: usize) -> i32
    requires { number < line_count text.now }
    ensures { result ≡ part_right (reselected selected text.now) number }
{
    let count = text.line_count();
    if selected.end < usize::from(text.line(number).end) || number + 1 >= count {
        text.column_of(selected.end)
    } else {
        text.edges().1
    }
}

/// The rows of a line between two columns.
fn rows_between(text: &TextRecord, number: usize, left: i32, right: i32) -> Rect
    requires { number < line_count text.now }
    ensures { result ≡ rows_between text.now number left right }
{
    let top = text.line_top(number);
    Rect {
        left,
        top,
        right,
        bottom: top + i32::from(text.line_height()),
    }
}

/// The rectangle of the part of the highlight on a line.
pub(crate) fn part_rect(text: &TextRecord, selected: Selection, number: usize) -> Rect
    requires { number < line_count text.now }
    ensures { let r = reselected selected text.now in
        result ≡ rows_between r number (part_left r number) (part_right r number) }
{
    let left = part_left(text, selected, number);
    let right = part_right(text, selected, number);
    rows_between(text, number, left, right)
}

/// The rectangle of the caret.
pub(crate) fn caret_rect(text: &TextRecord, selected: Selection) -> Rect
    ensures { result ≡ caret_rect (reselected selected text.now) }
{
    let column = text.column_of(selected.start);
    rows_between(text, text.row_of(selected.start), column - 1, column)
}
