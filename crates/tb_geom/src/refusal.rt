ghost use Rattle.std.specs.Prelude.{◌≡◌};
ghost use Rattle.tb_geom.specs.declared.refusal.Refusal.TheVariants.{NoMemory};

use std::alloc::{AllocError, AllocFailed};
use thiserror::Error;

/// Why a call refuses. A refused call has changed nothing. `Display` gives the number and the name,
/// as a reply of the script does.
#[derive(Clone, Copy, Debug, PartialEq, Eq, Error)]
pub enum Refusal {
    /// A growth of memory was refused.
    #[error("1 NoMemory")]
    NoMemory = 1,
    /// No window has this number.
    #[error("2 NoSuchWindow")]
    NoSuchWindow = 2,
    /// The window has no control of this number.
    #[error("3 NoSuchControl")]
    NoSuchControl = 3,
    /// No menu has this id.
    #[error("4 NoSuchMenu")]
    NoSuchMenu = 4,
    /// The window has no list of this number.
    #[error("5 NoSuchList")]
    NoSuchList = 5,
    /// The menu has no item of this number.
    #[error("6 NoSuchItem")]
    NoSuchItem = 6,
    /// The list has no such cell.
    #[error("7 NoSuchCell")]
    NoSuchCell = 7,
    /// A number lies outside its range.
    #[error("8 OutOfRange")]
    OutOfRange = 8,
    /// There are as many as there may be, or no number is left for one more.
    #[error("9 TooMany")]
    TooMany = 9,
    /// A text, a line or a list of bytes is longer than it may be.
    #[error("10 TooLong")]
    TooLong = 10,
    /// Another activity is open.
    #[error("11 Busy")]
    Busy = 11,
    /// The activity that this call belongs to is not open.
    #[error("12 NotBusy")]
    NotBusy = 12,
    /// The bytes are no FONT record.
    #[error("13 BadFont")]
    BadFont = 13,
    /// The bytes are no region.
    #[error("14 BadRegion")]
    BadRegion = 14,
    /// The line is none of the script's.
    #[error("15 BadSyntax")]
    BadSyntax = 15,
    /// No fresh definition of the kind is left.
    #[error("16 NoDefinition")]
    NoDefinition = 16,
    /// Pixels that are to count as drawn are not.
    #[error("17 StalePixels")]
    StalePixels = 17,
    /// The input could not be read.
    #[error("18 ReadFault")]
    ReadFault = 18,
    /// The output could not be written.
    #[error("19 WriteFault")]
    WriteFault = 19,
    /// No kind, mode or pattern has this name.
    #[error("20 NoSuchName")]
    NoSuchName = 20,
    /// The window has no text record of this number.
    #[error("21 NoSuchText")]
    NoSuchText = 21,
}

impl Refusal {
    ghost use Rattle.tb_geom.specs.Refusals.{name_of, number_of};

    /// The number that a reply gives, 1..=21.
    pub fn number(self) -> u8
        ensures { result ≡ number_of self }
    {
        self as u8
    }

    /// The name that a reply gives.
    pub fn name(self) -> &'static str
        ensures { result.now ≡ name_of self }
    {
        match self {
            Refusal::NoMemory => "NoMemory",
            Refusal::NoSuchWindow => "NoSuchWindow",
            Refusal::NoSuchControl => "NoSuchControl",
            Refusal::NoSuchMenu => "NoSuchMenu",
            Refusal::NoSuchList => "NoSuchList",
            Refusal::NoSuchItem => "NoSuchItem",
            Refusal::NoSuchCell => "NoSuchCell",
            Refusal::OutOfRange => "OutOfRange",
            Refusal::TooMany => "TooMany",
            Refusal::TooLong => "TooLong",
            Refusal::Busy => "Busy",
            Refusal::NotBusy => "NotBusy",
            Refusal::BadFont => "BadFont",
            Refusal::BadRegion => "BadRegion",
            Refusal::BadSyntax => "BadSyntax",
            Refusal::NoDefinition => "NoDefinition",
            Refusal::StalePixels => "StalePixels",
            Refusal::ReadFault => "ReadFault",
            Refusal::WriteFault => "WriteFault",
            Refusal::NoSuchName => "NoSuchName",
            Refusal::NoSuchText => "NoSuchText",
        }
    }
}

impl From<AllocError> for Refusal {
    ghost from_gives = { λ _ e. e ≡ NoMemory };

    fn from(_e: AllocError) -> Refusal {
        Refusal::NoMemory
    }
}

impl<T: Drop> From<AllocFailed<T>> for Refusal {
    ghost from_gives = { λ _ e. e ≡ NoMemory };

    fn from(_e: AllocFailed<T>) -> Refusal {
        Refusal::NoMemory
    }
}
