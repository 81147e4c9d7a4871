//! Keys.
ghost use Rattle.std.specs.Prelude.{◌≡◌, ◌≤◌, ◌&&◌, ◌∷◌, [], true, false, length, is_ok, IfOk, IfErr, if◌then◌else◌};
ghost use Rattle.text_record.specs.Changes.{is_too_long, put_refusal};
ghost use Rattle.text_edits.specs.Edits.{backspaced, left_of, right_of, above, below, is_typed, keyed};

use crate::edits::delete;
use tb_geom::Refusal;
use text_record::TextRecord;

/// The keys that put no byte.
const BACKSPACE: u8 = 8;

const LEFT: u8 = 28;

const RIGHT: u8 = 29;

const UP: u8 = 30;

const DOWN: u8 = 31;

/// Takes the selected bytes out, or where the selection is a point the byte before it.
fn backspace(record: &mut TextRecord)
    ensures { record.new ≡ backspaced record.old }
{
    let (start, end) = record.selection();
    if start == end {
        let _ = record.put(start.saturating_sub(1), start, b"");
    } else {
        delete(record);
    }
}

/// The offset to which the left arrow goes.
fn left_of(record: &TextRecord) -> usize
    ensures value { result ≡ left_of record.now }
    ensures within { result ≤ length record.now.text.bytes }
{
    let (start, end) = record.selection();
    if start == end {
        start.saturating_sub(1)
    } else {
        start
    }
}

/// The offset to which the right arrow goes.
fn right_of(record: &TextRecord) -> usize
    ensures value { result ≡ right_of record.now }
    ensures within { result ≤ length record.now.text.bytes }
{
    let (start, end) = record.selection();
    if start == end {
        (end + 1).min(record.bytes().len())
    } else {
        end
    }
}

/// The offset to which the up arrow goes.
fn above(record: &TextRecord) -> usize
    ensures value { result ≡ above record.now }
    ensures within { result ≤ length record.now.text.bytes }
{
    let (start, _) = record.selection();
    let row = record.row_of(start);
    if row == 0 {
        0
    } else {
        record.offset_on(row - 1, record.column_of(start))
    }
}

/// The offset to which the down arrow goes.
fn below(record: &TextRecord) -> usize
    ensures value { result ≡ below record.now }
    ensures within { result ≤ length record.now.text.bytes }
{
    let (_, end) = record.selection();
    let count = record.line_count();
    let row = record.row_of(end);
    if row + 1 < count {
        record.offset_on(row + 1, record.column_of(end))
    } else {
        record.bytes().len()
    }
}

/// Types a key (TEKey). Backspace, 8, takes the selected bytes out, or where the selection is a point the byte before it. The
/// arrows, 28 left, 29 right, 30 up and 31 down, move the selection, which is a point then. Any other byte is put in the
/// place of the selected ones: TooLong where the text would have more than 32000, NoMemory where there is no memory for it.
pub fn key(record: &mut TextRecord, key: u8) -> Result<(), Refusal>
    ensures record { record.new ≡ (if is_ok result then keyed key record.old else record.old) }
    ensures allowed { IfOk result (λ _.
        (is_typed key && is_too_long record.old.start record.old.end (key ∷ []) record.old) ≡ false) }
    ensures typed { IfErr result (λ _. is_typed key ≡ true) }
    ensures refused { IfErr result (λ e. e ≡ put_refusal record.old.start record.old.end (key ∷ []) record.old) }
{
    let (start, end) = record.selection();
    let place = match key {
        BACKSPACE => {
            backspace(record);
            return Ok(());
        }
        LEFT => left_of(record),
        RIGHT => right_of(record),
        UP => above(record),
        DOWN => below(record),
        _ => return record.put(start, end, &[key]),
    };
    record.choose(place, place);
    Ok(())
}
