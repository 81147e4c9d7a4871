//! What changes a record.
ghost use Rattle.std.specs.Prelude.{◌≡◌, ◌≤◌, ◌-◌, [], true, false, length, is_ok, IsOk, IfOk, IfErr, if◌then◌else◌};
ghost use Rattle.text_record.specs.Placings.{is_placing};
ghost use Rattle.text_record.specs.Changes.{put, is_too_long, put_refusal, chosen, activated, blinked, justified, shown_as, placed};

use crate::placing::{Justification, Placing};
use crate::record::TextRecord;
use tb_geom::Refusal;
use text_lines::MOST_TEXT;

impl TextRecord {
    /// Puts other bytes in the place of those from one offset up to another. The selection is then the point behind them,
    /// and the caret is on. TooLong where the text would have more than 32000 bytes, NoMemory where there is no memory for
    /// it; a text that does not get longer takes none.
    pub fn put(&mut self, start: usize, end: usize, other: &[u8]) -> Result<(), Refusal>
        requires order { start ≤ end }
        requires within { end ≤ length self.old.text.bytes }
        ensures record { self.new ≡ (if is_ok result then put start end other.now self.old else self.old) }
        ensures allowed { IfOk result (λ _. is_too_long start end other.now self.old ≡ false) }
        ensures refused { IfErr result (λ e. e ≡ put_refusal start end other.now self.old) }
        ensures shorter { length other.now ≤ end - start → IsOk result }
    {
        let rest = self.text.bytes().len() - (end - start);
        if rest.saturating_add(other.len()) > MOST_TEXT {
            return Err(Refusal::TooLong);
        }
        self.text.put(start, end, other)?;
        self.start = start + other.len();
        self.end = start + other.len();
        self.caret = true;
        Ok(())
    }

    /// Selects the bytes from one offset up to another. The caret is on.
    pub fn choose(&mut self, start: usize, end: usize)
        requires order { start ≤ end }
        requires within { end ≤ length self.old.text.bytes }
        ensures { self.new ≡ chosen start end self.old }
    {
        self.start = start;
        self.end = end;
        self.caret = true;
    }

    /// Makes the record active or not (TEActivate, TEDeactivate). The caret is on.
    pub fn activate(&mut self, active: bool)
        ensures { self.new ≡ activated active self.old }
    {
        self.active = active;
        self.caret = true;
    }

    /// Turns the caret on or off.
    pub fn blink(&mut self, caret: bool)
        ensures { self.new ≡ blinked caret self.old }
    {
        self.caret = caret;
    }

    /// Gives lines another place in the destination (TESetJust).
    pub fn justify(&mut self, justification: Justification)
        ensures { self.new ≡ justified justification self.old }
    {
        self.justification = justification;
    }

    /// Shows the record, or hides it.
    pub fn show(&mut self, shown: bool)
        ensures { self.new ≡ shown_as shown self.old }
    {
        self.shown = shown;
    }

    /// Gives the text another destination and another view, and breaks it into lines anew (TECalText). OutOfRange exactly
    /// where it may not stand so.
    pub fn place(&mut self, placing: Placing) -> Result<(), Refusal>
        ensures record { self.new ≡ (if is_ok result then placed placing self.old else self.old) }
        ensures allowed { is_ok result ≡ is_placing self.old.framed placing }
        ensures refused { IfErr result (λ e. e ≡ Refusal.OutOfRange) }
    {
        if !placing.is_allowed(self.framed) {
            return Err(Refusal::OutOfRange);
        }
        self.text.set_width(placing.width);
        self.left = placing.left;
        self.top = placing.top;
        self.view = placing.view;
        Ok(())
    }
}
