//! What of a text record shows otherwise once a call edited it.
ghost use Rattle.std.specs.Prelude.{ℕ, List, nat_abs};
ghost use Rattle.text_record.specs.Changes.{put};
ghost use Rattle.text_edits.specs.Edits.{inserted, keyed};
ghost use Rattle.text_mgr.specs.CallEdits.{edited};
ghost use Rattle.text_mgr.specs.Changing.{IsShownSo};

use crate::editing::key_of;
use desk_call::TextCall;
use strike_font::Font;
use text_paint::{Selection, change_row};
use text_record::TextRecord;

/// What of a text record may show otherwise.
#[derive(Clone, Copy)]
pub(crate) enum Change {
    /// Any of it.
    All,
    /// What lies from this row of the window on.
    From(i32),
    /// Its selection, which was this one, and nothing else.
    Selected(Selection),
}

/// What may show otherwise where the selected bytes are replaced, or others are put in front of them.
fn from_selection(record: &TextRecord, font: &Font) -> Change
    ensures put { (end : ℕ) (bytes : List ℕ)
        → IsShownSo result font.now record.now (put record.now.start end bytes record.now) }
    ensures inserted { (bytes : List ℕ)
        → IsShownSo result font.now record.now (inserted bytes record.now) }
{
    let (start, _) = record.selection();
    Change::From(change_row(record, start, font))
}

/// What may show otherwise where the selected bytes go, or where the selection is a point the byte before it.
fn from_backspace(record: &TextRecord, font: &Font) -> Change
    ensures { IsShownSo result font.now record.now (keyed 8 record.now) }
{
    let (start, end) = record.selection();
    if start == end {
        Change::From(change_row(record, start.saturating_sub(1), font))
    } else {
        from_selection(record, font)
    }
}

/// What may show otherwise where a key is typed, by the number of a call.
fn from_key(record: &TextRecord, number: i32, font: &Font) -> Change
    ensures { IsShownSo result font.now record.now (keyed (nat_abs number) record.now) }
{
    match key_of(number) {
        Some(8) => from_backspace(record, font),
        Some(28..=31) => Change::Selected(Selection::of(record)),
        Some(_) => from_selection(record, font),
        None => Change::All,
    }
}

/// What may show otherwise of a text record where a call edits it.
pub(crate) fn change_of(record: &TextRecord, call: &TextCall<'_>, font: &Font) -> Change
    ensures { (scrap : List ℕ) → IsShownSo result font.now record.now (edited call.now scrap record.now) }
{
    match call {
        TextCall::Insert(_) => from_selection(record, font),
        TextCall::Delete(_) => from_selection(record, font),
        TextCall::Cut(_) => from_selection(record, font),
        TextCall::Paste(_) => from_selection(record, font),
        TextCall::Key(typed) => from_key(record, typed.number, font),
        TextCall::Select(_) => Change::Selected(Selection::of(record)),
        TextCall::Activate(_) => Change::Selected(Selection::of(record)),
        TextCall::Idle(_) => Change::Selected(Selection::of(record)),
        _ => Change::All,
    }
}
