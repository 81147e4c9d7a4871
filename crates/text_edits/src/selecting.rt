//! Selecting with the mouse.
ghost use Rattle.std.specs.Prelude.{◌≡◌, ◌≤◌, length};
ghost use Rattle.text_record.specs.Places.{offset_at};
ghost use Rattle.text_edits.specs.Selecting.{is_clicked, word_of, anchor_at, anchor_of, extended, extended_to};

use tb_geom::Point;
use text_record::TextRecord;

/// How a click selects: a point, for shift an extension, for a double click words (*Inside Macintosh* I, "TextEdit",
/// "TEClick").
#[derive(Clone, Copy, Debug, PartialEq, Eq, Drop)]
pub enum ClickMode {
    Points,
    Extends,
    Words,
}

/// What stays selected while the mouse is held: the bytes from one offset up to another.
#[derive(Clone, Copy, Debug, PartialEq, Eq, Drop)]
pub struct Anchor {
    pub start: usize,
    pub end: usize,
}

/// Whether a click at a point of the window selects: the record is shown, and its view has the point.
pub fn is_clicked(record: &TextRecord, point: Point) -> bool
    ensures { result ≡ is_clicked record.now point }
{
    record.is_shown() && record.placing().view.contains(point)
}

/// The word at an offset.
fn word_of(record: &TextRecord, offset: usize) -> Anchor
    ensures value { result ≡ word_of record.now offset }
    ensures order { result.start ≤ result.end }
    ensures within { result.end ≤ length record.now.text.bytes }
{
    let (start, end) = record.word_at(offset);
    Anchor { start, end }
}

/// What stays selected while the mouse is held after a click at a point of the window (TEClick).
pub fn click_anchor(record: &TextRecord, point: Point, mode: ClickMode) -> Anchor
    ensures value { result ≡ anchor_of mode (offset_at record.now point) record.now }
    ensures order { result.start ≤ result.end }
    ensures within { result.end ≤ length record.now.text.bytes }
{
    let offset = record.offset_at(point);
    let (start, end) = record.selection();
    match mode {
        ClickMode::Points => point_at(offset),
        ClickMode::Extends => point_at(if offset < start { end } else { start }),
        ClickMode::Words => word_of(record, offset),
    }
}

/// A point of the text.
fn point_at(offset: usize) -> Anchor
    ensures { result ≡ anchor_at offset }
{
    Anchor {
        start: offset,
        end: offset,
    }
}

/// The selection while the mouse is held at a point of the window: from the anchor to the offset at the point, or to the
/// word there.
pub fn extended(record: &TextRecord, anchor: Anchor, mode: ClickMode, point: Point) -> Anchor
    requires order { anchor.start ≤ anchor.end }
    requires within { anchor.end ≤ length record.now.text.bytes }
    ensures value { result ≡ extended anchor mode point record.now }
    ensures order { result.start ≤ result.end }
    ensures within { result.end ≤ length record.now.text.bytes }
{
    let offset = record.offset_at(point);
    let reached = match mode {
        ClickMode::Words => word_of(record, offset),
        ClickMode::Points | ClickMode::Extends => point_at(offset),
    };
    Anchor {
        start: anchor.start.min(reached.start),
        end: anchor.end.max(reached.end),
    }
}

/// Selects what is selected while the mouse is held at a point of the window. The caret is on.
pub fn extend(record: &mut TextRecord, anchor: Anchor, mode: ClickMode, point: Point)
    requires order { anchor.start ≤ anchor.end }
    requires within { anchor.end ≤ length record.old.text.bytes }
    ensures { record.new ≡ extended_to anchor mode point record.old }
{
    let selected = extended(record, anchor, mode, point);
    record.choose(selected.start, selected.end);
}
