//! How controls are highlighted.
ghost use Rattle.std.specs.Prelude.{◌≡◌, nat_eq, pos, IfOk, IfErr, is_ok};
ghost use Rattle.control_values.specs.Highlights.{is_highlight, IsHighlight};
ghost use Rattle.control_values.specs.Parts.{number_of};

use crate::part::ControlPart;
use std::marker::Model;
use tb_geom::Refusal;

/// The highlighting of an inactive control.
const INACTIVE: u8 = 255;

/// The number from 0 to 255 that says nothing of highlighting.
const UNUSED: u8 = 254;

/// How a control is highlighted (*Inside Macintosh* I, "The Control Manager", "HiliteControl"), as a number: 0 not at all,
/// 1 to 253 the part of this part code, 255 as an inactive control. 254 is none.
#[derive(Clone, Copy, Debug, PartialEq, Eq)]
pub struct Highlight {
    number: u8,
}

impl Model for Highlight {
    ghost use Rattle.std.specs.Prelude.{ℕ};
    ghost use Rattle.control_values.specs.Highlights.{IsHighlight};

    ghost Value = { ℕ };

    ghost view = { λ h. h.number };

    ghost inverse = { λ n. record { number = n } };

    ghost invariant = { λ h. IsHighlight h.number };
}

impl Highlight {
    /// No highlighting.
    pub fn none() -> Highlight
        ensures { result ≡ 0 }
    {
        Highlight { number: 0 }
    }

    /// The highlighting of an inactive control.
    pub fn inactive() -> Highlight
        ensures { result ≡ 255 }
    {
        Highlight { number: INACTIVE }
    }

    /// The highlighting of this number. OutOfRange exactly where it is none of 0..=253 and 255.
    pub fn of_number(number: i32) -> Result<Highlight, Refusal>
        ensures value { IfOk result (λ h. pos h ≡ number) }
        ensures in_range { is_ok result ≡ is_highlight number }
        ensures refused { IfErr result (λ e. e ≡ Refusal.OutOfRange) }
    {
        let Ok(number) = u8::try_from(number) else {
            return Err(Refusal::OutOfRange);
        };
        if number == UNUSED {
            return Err(Refusal::OutOfRange);
        }
        Ok(Highlight { number })
    }

    /// The highlighting of a part.
    pub fn of_part(part: ControlPart) -> Highlight
        ensures { result ≡ number_of part }
    {
        Highlight {
            number: part.number(),
        }
    }

    /// The number of the highlighting: 0..=253 or 255.
    pub fn number(self) -> u8
        ensures value { result ≡ self }
        ensures told { IsHighlight self }
    {
        self.number
    }

    /// Whether an inactive control is highlighted so: one that no click finds.
    pub fn is_inactive(self) -> bool
        ensures { result ≡ nat_eq self 255 }
    {
        self == Highlight::inactive()
    }

    /// Whether this part is highlighted.
    pub fn shows(self, part: ControlPart) -> bool
        ensures { result ≡ nat_eq self (number_of part) }
    {
        self == Highlight::of_part(part)
    }
}
