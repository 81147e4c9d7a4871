//! What is told of one text record.
ghost use Rattle.std.specs.Prelude.{◌≡◌, nat_abs, pos, nat_lt, length, if◌then◌else◌, None, Some};
ghost use Rattle.text_record.specs.Texts.{lines_of};
ghost use Rattle.text_mgr.specs.CallEdits.{is_outside};
ghost use Rattle.text_mgr.specs.TextRefusals.{is_line};
ghost use Rattle.text_mgr.specs.TextSteps.{info_of, line_told, place_told};

use crate::judging::is_outside;
use desk_call::{TextInfo, TextReply};
use tb_geom::Point;
use text_record::TextRecord;

/// The selection, whether the record is active and shown, how long its text is, how many lines it has, and where its destination
/// begins.
pub(crate) fn info_of(record: &TextRecord) -> TextReply
    ensures { result ≡ info_of record.now }
{
    let (start, end) = record.selection();
    let placing = record.placing();
    TextReply::Info(TextInfo {
        start: start as u16,
        end: end as u16,
        active: record.is_active(),
        shown: record.is_shown(),
        length: record.bytes().len() as u16,
        lines: record.line_count() as u16,
        left: placing.left,
        top: placing.top,
    })
}

/// Where a line begins and ends, by its number from 0 on, if there is such a line.
pub(crate) fn line_told(record: &TextRecord, number: i32) -> Option<TextReply>
    ensures { result ≡ (if is_line number record.now then Some (line_told (nat_abs number) record.now) else None) }
{
    if number < 0 || number as usize >= record.line_count() {
        return None;
    }
    let line = record.line(number as usize);
    Some(TextReply::Offsets(line.start, line.end))
}

/// The offset that a number of a call names: 0 to 32767, and no other.
pub(crate) fn offset_named(number: i32) -> Option<usize>
    ensures { result ≡ (if is_outside (pos 0) (pos 32767) number then None else Some (nat_abs number)) }
{
    if is_outside(0, 32767, number) {
        return None;
    }
    Some(number as usize)
}

/// The column of an offset and the row below its line, as far as the text goes.
pub(crate) fn place_told(record: &TextRecord, offset: usize) -> TextReply
    ensures { result ≡ place_told offset record.now }
{
    let at = offset.min(record.bytes().len());
    let row = record.row_of(at);
    TextReply::Place(Point {
        h: record.column_of(at),
        v: record.line_top(row) + i32::from(record.line_height()),
    })
}
