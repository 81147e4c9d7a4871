//! Edits.
ghost use Rattle.std.specs.Prelude.{◌≡◌, ◌≤◌, ◌-◌, ◌∷◌, [], true, false, length, is_ok, IsOk, IfOk, IfErr, nat_abs, if◌then◌else◌};
ghost use Rattle.text_record.specs.Changes.{is_too_long, put_refusal, blinked};
ghost use Rattle.text_edits.specs.Edits.{selected_bytes, with_text, inserted, deleted, pasted, is_selection, selected, is_on_at};

use crate::scrap::Scrap;
use tb_geom::Refusal;
use text_record::TextRecord;

/// Puts another text in the place of all, with the selection behind it (TESetText). TooLong where it has more than 32000
/// bytes, NoMemory where there is no memory for it.
pub fn set_text(record: &mut TextRecord, text: &[u8]) -> Result<(), Refusal>
    ensures record { record.new ≡ (if is_ok result then with_text text.now record.old else record.old) }
    ensures allowed { IfOk result (λ _.
        is_too_long 0 (length record.old.text.bytes) text.now record.old ≡ false) }
    ensures refused { IfErr result (λ e. e ≡ put_refusal 0 (length record.old.text.bytes) text.now record.old) }
{
    let all = record.bytes().len();
    record.put(0, all, text)
}

/// Puts bytes in before the selection, which stays on the same bytes (TEInsert). It is refused as `set_text` is.
pub fn insert(record: &mut TextRecord, text: &[u8]) -> Result<(), Refusal>
    ensures record { record.new ≡ (if is_ok result then inserted text.now record.old else record.old) }
    ensures allowed { IfOk result (λ _.
        is_too_long record.old.start record.old.start text.now record.old ≡ false) }
    ensures refused { IfErr result (λ e. e ≡ put_refusal record.old.start record.old.start text.now record.old) }
{
    let (start, end) = record.selection();
    record.put(start, start, text)?;
    record.choose(start + text.len(), end + text.len());
    Ok(())
}

/// Takes the selected bytes out (TEDelete).
pub fn delete(record: &mut TextRecord)
    ensures { record.new ≡ deleted record.old }
{
    let (start, end) = record.selection();
    let _ = record.put(start, end, b"");
}

/// Makes the selected bytes the scrap (TECopy). NoMemory where there is no memory for them.
pub fn copy(record: &TextRecord, scrap: &mut Scrap) -> Result<(), Refusal>
    ensures scrap { scrap.new ≡ (if is_ok result then selected_bytes record.now else scrap.old) }
    ensures refused { IfErr result (λ e. e ≡ Refusal.NoMemory) }
{
    let (start, end) = record.selection();
    scrap.set(&record.bytes()[start..end])
}

/// Makes the selected bytes the scrap, and takes them out (TECut); where the selection is a point, the scrap is empty then.
/// NoMemory where there is no memory for them: then nothing has changed.
pub fn cut(record: &mut TextRecord, scrap: &mut Scrap) -> Result<(), Refusal>
    ensures record { record.new ≡ (if is_ok result then deleted record.old else record.old) }
    ensures scrap { scrap.new ≡ (if is_ok result then selected_bytes record.old else scrap.old) }
    ensures refused { IfErr result (λ e. e ≡ Refusal.NoMemory) }
{
    copy(record, scrap)?;
    delete(record);
    Ok(())
}

/// Puts the scrap in the place of the selected bytes (TEPaste). It is refused as `set_text` is.
pub fn paste(record: &mut TextRecord, scrap: &Scrap) -> Result<(), Refusal>
    ensures record { record.new ≡ (if is_ok result then pasted scrap.now record.old else record.old) }
    ensures allowed { IfOk result (λ _.
        is_too_long record.old.start record.old.end scrap.now record.old ≡ false) }
    ensures refused { IfErr result (λ e. e ≡ put_refusal record.old.start record.old.end scrap.now record.old) }
{
    let (start, end) = record.selection();
    record.put(start, end, scrap.bytes())
}

/// Selects the bytes from one offset up to another, as far as the text goes (TESetSelect). OutOfRange exactly where the
/// offsets are not in order or one lies outside 0..=32767.
pub fn select(record: &mut TextRecord, start: i32, end: i32) -> Result<(), Refusal>
    ensures record { record.new ≡ (if is_ok result then selected (nat_abs start) (nat_abs end) record.old else record.old) }
    ensures allowed { is_ok result ≡ is_selection start end }
    ensures refused { IfErr result (λ e. e ≡ Refusal.OutOfRange) }
{
    if !is_selection(start, end) {
        return Err(Refusal::OutOfRange);
    }
    let all = record.bytes().len();
    record.choose((start as usize).min(all), (end as usize).min(all));
    Ok(())
}

/// Whether the numbers of a selection are in range.
fn is_selection(start: i32, end: i32) -> bool
    ensures { result ≡ is_selection start end }
{
    0 <= start && (start <= end && end <= 32767)
}

/// Turns the caret on or off, as it is at a time in ticks: on for 32 of them, and off for 32 (TEIdle).
pub fn idle(record: &mut TextRecord, ticks: u32)
    ensures { record.new ≡ blinked (is_on_at ticks) record.old }
{
    record.blink((ticks / 32) % 2 == 0);
}
