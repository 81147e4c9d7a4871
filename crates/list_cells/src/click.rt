//! What a click on a cell does to the selection.
ghost use Rattle.std.specs.Prelude.{◌≡◌, ◌≢◌, ◌-ℤ◌, IfOk, IfErr, OnErr, pos, int_le, true, false, if◌then◌else◌};
ghost use Rattle.list_cells.specs.Clicks.{click_of, flags_number, keys_of};

use tb_geom::Refusal;

/// The modifier keys among an event's modifiers.
const COMMAND_KEY: u16 = 0x0100;

const SHIFT_KEY: u16 = 0x0200;

/// How cells are selected (*Inside Macintosh* IV, "The List Manager Package", "Cell Selection Algorithm").
#[derive(Clone, Copy, Debug, PartialEq, Eq)]
pub struct SelectionFlags {
    /// At most one cell is selected (lOnlyOne).
    pub only_one: bool,
    /// A click with the Shift key selects its cell alone (lNoExtend).
    pub no_extend: bool,
    /// A click with the Shift key on a selected cell deselects it (lUseSense).
    pub use_sense: bool,
    /// An empty cell is not highlighted (lNoNilHilite).
    pub no_nil_hilite: bool,
}

/// Which modifier keys are down while the mouse is clicked.
#[derive(Clone, Copy, Debug, PartialEq, Eq)]
pub struct ClickKeys {
    /// The Command key (cmdKey).
    pub command: bool,
    /// The Shift key (shiftKey).
    pub shift: bool,
}

/// What a click on a cell does to the selection.
#[derive(Clone, Copy, Debug, PartialEq, Eq)]
pub enum Click {
    /// The cell is selected, and no other.
    SelectsAlone,
    /// The cell is selected where it was not and deselected where it was; the others stay.
    Toggles,
    /// The cell is deselected; the others stay.
    Deselects,
    /// Every cell of the smallest rectangle that holds the cell and all selected ones is selected.
    Extends,
}

/// Whether a part was put into a sum, and what is left of the sum without it, where all smaller parts together are less.
fn without(sum: i32, part: i32) -> (bool, i32)
    requires part { int_le (pos 0) part ≡ true }
    ensures { result ≡ (if int_le part sum then (true, sum -ℤ part) else (false, sum)) }
{
    if part <= sum {
        (true, sum - part)
    } else {
        (false, sum)
    }
}

impl ClickKeys {
    /// Which keys are down by the modifiers of an event: cmdKey is 0x0100 and shiftKey 0x0200 (*Inside Macintosh* I, "The
    /// Toolbox Event Manager", "Event Records").
    pub fn of_modifiers(modifiers: u16) -> ClickKeys
        ensures { result ≡ keys_of modifiers }
    {
        ClickKeys {
            command: modifiers & COMMAND_KEY != 0,
            shift: modifiers & SHIFT_KEY != 0,
        }
    }
}

impl SelectionFlags {
    /// The flags whose sum a number is: lOnlyOne is -128, lNoExtend 16, lUseSense 4 and lNoNilHilite 2. OutOfRange exactly where
    /// it is no such sum.
    pub fn of_number(number: i32) -> Result<SelectionFlags, Refusal>
        ensures sum { IfOk result (λ flags. flags_number flags ≡ number) }
        ensures no_sum { OnErr result ((flags : SelectionFlags) → flags_number flags ≢ number) }
        ensures refused { IfErr result (λ e. e ≡ Refusal.OutOfRange) }
    {
        let only_one = number < 0;
        let rest = if only_one { number + 128 } else { number };
        let (no_extend, rest) = without(rest, 16);
        let (use_sense, rest) = without(rest, 4);
        let (no_nil_hilite, rest) = without(rest, 2);
        if rest != 0 {
            return Err(Refusal::OutOfRange);
        }
        Ok(SelectionFlags {
            only_one,
            no_extend,
            use_sense,
            no_nil_hilite,
        })
    }

    /// What a click on a cell does, where `selected` says whether the cell is selected (LClick): with lOnlyOne, or with neither
    /// key, the cell is selected alone. The Command key goes before the Shift key.
    pub fn click(self, keys: ClickKeys, selected: bool) -> Click
        ensures { result ≡ click_of self keys selected }
    {
        if self.only_one {
            Click::SelectsAlone
        } else if keys.command {
            Click::Toggles
        } else if !keys.shift {
            Click::SelectsAlone
        } else if self.use_sense && selected {
            Click::Deselects
        } else if self.no_extend {
            Click::SelectsAlone
        } else {
            Click::Extends
        }
    }
}
