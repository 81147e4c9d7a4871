//! Transfer modes.
ghost use Rattle.std.specs.Prelude.{◌≡◌, IfSome, IfNone};
ghost use Rattle.bit_map.specs.Modes.{mode_bit, source_number, pattern_number, source_name, pattern_name};

/// How a source bit and the old bit make the new bit (*Inside Macintosh* I, "QuickDraw",
/// "Transfer Modes"). Black is true.
#[derive(Clone, Copy, Debug, PartialEq, Eq)]
pub enum Mode {
    /// The source.
    Copy = 0,
    /// Black where the source is black, and otherwise the old bit.
    Or = 1,
    /// The old bit, inverted where the source is black.
    Xor = 2,
    /// White where the source is black, and otherwise the old bit.
    Bic = 3,
    /// `Copy` of the inverted source.
    NotCopy = 4,
    /// `Or` of the inverted source.
    NotOr = 5,
    /// `Xor` of the inverted source.
    NotXor = 6,
    /// `Bic` of the inverted source.
    NotBic = 7,
}

impl Mode {
    /// The new bit, of a source bit and the old bit.
    pub fn apply(self, source: bool, old: bool) -> bool
        ensures { result ≡ mode_bit self source old }
    {
        match self {
            Mode::Copy => source,
            Mode::Or => source || old,
            Mode::Xor => source != old,
            Mode::Bic => old && !source,
            Mode::NotCopy => !source,
            Mode::NotOr => !source || old,
            Mode::NotXor => source == old,
            Mode::NotBic => old && source,
        }
    }

    /// The number of the mode for an image as the source, 0..=7: srcCopy to notSrcBic.
    pub fn source_number(self) -> u8
        ensures { result ≡ source_number self }
    {
        self as u8
    }

    /// The number of the mode for a pattern as the source, 8..=15: patCopy to notPatBic.
    pub fn pattern_number(self) -> u8
        ensures { result ≡ pattern_number self }
    {
        8 + self.source_number()
    }

    /// Its name for an image as the source: srcCopy to notSrcBic.
    pub fn source_name(self) -> &'static str
        ensures { result.now ≡ source_name self }
    {
        match self {
            Mode::Copy => "srcCopy",
            Mode::Or => "srcOr",
            Mode::Xor => "srcXor",
            Mode::Bic => "srcBic",
            Mode::NotCopy => "notSrcCopy",
            Mode::NotOr => "notSrcOr",
            Mode::NotXor => "notSrcXor",
            Mode::NotBic => "notSrcBic",
        }
    }

    /// Its name for a pattern as the source: patCopy to notPatBic.
    pub fn pattern_name(self) -> &'static str
        ensures { result.now ≡ pattern_name self }
    {
        match self {
            Mode::Copy => "patCopy",
            Mode::Or => "patOr",
            Mode::Xor => "patXor",
            Mode::Bic => "patBic",
            Mode::NotCopy => "notPatCopy",
            Mode::NotOr => "notPatOr",
            Mode::NotXor => "notPatXor",
            Mode::NotBic => "notPatBic",
        }
    }

    /// The mode with this name for an image as the source, letter by letter; None of any other word.
    pub fn from_source_name(name: &[u8]) -> Option<Mode>
        ensures found { IfSome result (λ mode. source_name mode ≡ name.now) }
        ensures unknown { IfNone result ((mode : Mode) → source_name mode ≡ name.now → ⊥) }
    {
        match name {
            b"srcCopy" => Some(Mode::Copy),
            b"srcOr" => Some(Mode::Or),
            b"srcXor" => Some(Mode::Xor),
            b"srcBic" => Some(Mode::Bic),
            b"notSrcCopy" => Some(Mode::NotCopy),
            b"notSrcOr" => Some(Mode::NotOr),
            b"notSrcXor" => Some(Mode::NotXor),
            b"notSrcBic" => Some(Mode::NotBic),
            _ => None,
        }
    }

    /// The mode with this name for a pattern as the source, letter by letter; None of any other word.
    pub fn from_pattern_name(name: &[u8]) -> Option<Mode>
        ensures found { IfSome result (λ mode. pattern_name mode ≡ name.now) }
        ensures unknown { IfNone result ((mode : Mode) → pattern_name mode ≡ name.now → ⊥) }
    {
        match name {
            b"patCopy" => Some(Mode::Copy),
            b"patOr" => Some(Mode::Or),
            b"patXor" => Some(Mode::Xor),
            b"patBic" => Some(Mode::Bic),
            b"notPatCopy" => Some(Mode::NotCopy),
            b"notPatOr" => Some(Mode::NotOr),
            b"notPatXor" => Some(Mode::NotXor),
            b"notPatBic" => Some(Mode::NotBic),
            _ => None,
        }
    }
}
