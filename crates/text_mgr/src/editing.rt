//! Edits of text records.
ghost use Rattle.std.specs.Prelude.{◌≡◌, ◌&&◌, [], ◌∷◌, Some, MatchResult, None, is_ok, is_some, not, pos, nat_abs, IfErr, if◌then◌else◌};
ghost use Rattle.std.specs.Option.{option_map_or};
ghost use Rattle.tb_geom.specs.Refusals.{first_refusal};
ghost use Rattle.window_mgr.specs.DeskStates.{Opened};
ghost use Rattle.text_edits.specs.Edits.{inserted, is_on_at, is_typed, keyed, with_text};
ghost use Rattle.text_record.specs.Changes.{blinked, is_too_long, justified};
ghost use Rattle.text_mgr.specs.CallEdits.{are_too_many, edit_refusals, edited, is_outside, scrap_after, text_edited};
ghost use Rattle.text_mgr.specs.Editing.{IsEditRefused, IsRefusedOrShort};
ghost use Rattle.text_mgr.specs.TextPlaces.{justification_of};
ghost use Rattle.text_mgr.specs.TextSteps.{IsTextStep, IsWhereRight};

use crate::changes::change_of;
use crate::judging::{are_too_many, is_outside, justification_of};
use crate::{DeskTexts, Texts};
use desk_call::{TextCall, TextOf, TextReply};
use tb_geom::Refusal;
use text_edits::{Scrap, cut, delete, idle, insert, key, paste, select, set_text};
use text_record::TextRecord;
use window_mgr::{DeskWindows, WindowManager};

/// Puts bytes in the place of all bytes of a record.
fn set_bytes(record: &mut TextRecord, bytes: &[u8]) -> Result<(), Refusal>
    ensures record { record.new ≡ (if is_ok result then with_text bytes.now record.old else record.old) }
    ensures judged { let refusals = (are_too_many bytes.now, Refusal.TooLong) ∷ [] in
        MatchResult result (λ _. first_refusal refusals ≡ None) (IsRefusedOrShort refusals) }
{
    if are_too_many(bytes) {
        return Err(Refusal::TooLong);
    }
    set_text(record, bytes)
}

/// Puts bytes in front of the selection of a record.
fn insert_bytes(record: &mut TextRecord, bytes: &[u8]) -> Result<(), Refusal>
    ensures record { record.new ≡ (if is_ok result then inserted bytes.now record.old else record.old) }
    ensures judged { let refusals = (are_too_many bytes.now, Refusal.TooLong)
        ∷ (is_too_long record.old.start record.old.start bytes.now record.old, Refusal.TooLong) ∷ [] in
        MatchResult result (λ _. first_refusal refusals ≡ None) (IsRefusedOrShort refusals) }
{
    if are_too_many(bytes) {
        return Err(Refusal::TooLong);
    }
    insert(record, bytes)
}

/// The byte of a key, by the number of a call, if it is one.
pub(crate) fn key_of(number: i32) -> Option<u8>
    ensures { result ≡ (if is_outside (pos 0) (pos 255) number then None else Some (nat_abs number)) }
{
    if is_outside(0, 255, number) {
        return None;
    }
    Some(number as u8)
}

/// Types a key in a record, by the number of a call.
fn type_key(record: &mut TextRecord, number: i32) -> Result<(), Refusal>
    ensures record { record.new ≡ (if is_ok result then keyed (nat_abs number) record.old else record.old) }
    ensures judged { let refusals = (is_outside (pos 0) (pos 255) number, Refusal.OutOfRange)
        ∷ (
          is_typed (nat_abs number)
              && is_too_long record.old.start record.old.end (nat_abs number ∷ []) record.old,
          Refusal.TooLong,
        ) ∷ [] in
        MatchResult result (λ _. first_refusal refusals ≡ None) (IsRefusedOrShort refusals) }
{
    match key_of(number) {
        Some(code) => key(record, code),
        None => Err(Refusal::OutOfRange),
    }
}

/// So many ticks have gone by, by the number of a call.
fn blink(record: &mut TextRecord, number: i32) -> Result<(), Refusal>
    ensures record { record.new ≡ (if is_ok result then blinked (is_on_at (nat_abs number)) record.old else record.old) }
    ensures allowed { is_ok result ≡ not (is_outside (pos 0) (pos 999999999) number) }
    ensures refused { IfErr result (λ e. e ≡ Refusal.OutOfRange) }
{
    if is_outside(0, 999999999, number) {
        return Err(Refusal::OutOfRange);
    }
    idle(record, number as u32);
    Ok(())
}

/// Gives lines another place in the destination, by the number of a call.
fn justify(record: &mut TextRecord, number: i32) -> Result<(), Refusal>
    ensures record { record.new
        ≡ option_map_or (λ j. justified j record.old) (justification_of number) record.old }
    ensures allowed { is_ok result ≡ is_some (justification_of number) }
    ensures refused { IfErr result (λ e. e ≡ Refusal.OutOfRange) }
{
    match justification_of(number) {
        Some(justification) => {
            record.justify(justification);
            Ok(())
        }
        None => Err(Refusal::OutOfRange),
    }
}

/// The text record that a call edits, if it is such a call.
pub(crate) fn text_edited(call: &TextCall<'_>) -> Option<TextOf>
    ensures { result ≡ text_edited call.now }
{
    match call {
        TextCall::Set(put) => Some(put.text),
        TextCall::Insert(put) => Some(put.text),
        TextCall::Delete(text) => Some(*text),
        TextCall::Key(typed) => Some(typed.text),
        TextCall::Cut(text) => Some(*text),
        TextCall::Paste(text) => Some(*text),
        TextCall::Select(chosen) => Some(chosen.text),
        TextCall::Activate(set) => Some(set.text),
        TextCall::Idle(ticks) => Some(ticks.text),
        TextCall::Justify(set) => Some(set.text),
        TextCall::Scroll(by) => Some(by.text),
        TextCall::ShowSelection(text) => Some(*text),
        _ => None,
    }
}

/// What a call makes of a text record and of the scrap. Where it is refused, it changes neither.
pub(crate) fn edit_record(
    record: &mut TextRecord,
    scrap: &mut Scrap,
    call: &TextCall<'_>,
) -> Result<(), Refusal>
    ensures record { record.new ≡ (if is_ok result then edited call.now scrap.old record.old else record.old) }
    ensures scrap { scrap.new ≡ (if is_ok result then scrap_after call.now scrap.old record.old else scrap.old) }
    ensures judged { MatchResult result
        (λ _. first_refusal (edit_refusals call.now scrap.old record.old) ≡ None)
        (IsEditRefused call.now scrap.old record.old) }
{
    match call {
        TextCall::Set(put) => set_bytes(record, put.bytes.as_slice()),
        TextCall::Insert(put) => insert_bytes(record, put.bytes.as_slice()),
        TextCall::Key(typed) => type_key(record, typed.number),
        TextCall::Cut(_) => cut(record, scrap),
        TextCall::Paste(_) => paste(record, scrap),
        TextCall::Select(chosen) => select(record, chosen.start, chosen.end),
        TextCall::Idle(ticks) => blink(record, ticks.number),
        TextCall::Justify(set) => justify(record, set.number),
        TextCall::Scroll(by) => record.scroll(by.columns, by.rows),
        TextCall::Delete(_) => {
            delete(record);
            Ok(())
        }
        TextCall::Activate(set) => {
            record.activate(set.flag);
            Ok(())
        }
        TextCall::ShowSelection(_) => {
            record.show_selection();
            Ok(())
        }
        _ => Ok(()),
    }
}

impl Texts {
    /// Edits a text record, and draws what shows otherwise of it where it is not to be redrawn.
    pub(crate) fn edit(
        &mut self,
        windows: &mut WindowManager,
        text: TextOf,
        call: &TextCall<'_>,
    ) -> Result<TextReply, Refusal>
        requires kept { ⟦<WindowManager as DeskWindows>⟧.IsKept windows.old }
        requires beside { ⟦<Self as DeskTexts>⟧.AreBeside windows.old self.old }
        requires edits { text_edited call.now ≡ Some text }
        ensures { (o : Opened) → ⟦<Self as DeskTexts>⟧.Leaves
            (IsWhereRight (IsTextStep call.now result)) windows.old o self.old windows.new o self.new }
    {
        let spot = self.spot(windows, text)?;
        let record = self.list.at_mut(spot.text);
        let change = change_of(record, call, windows.parts().font);
        edit_record(record, &mut self.scrap, call)?;
        self.show_change(windows, spot, change);
        Ok(TextReply::Done)
    }
}
