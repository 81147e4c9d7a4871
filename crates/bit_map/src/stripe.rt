//! Rows of patterns, put down by a mode.
ghost use Rattle.std.specs.Prelude.{◌≡◌, ◌+◌, ◌<◌, ◌%◌, ℕ, Bool};
ghost use Rattle.bit_map.specs.Modes.{mode_bit};
ghost use Rattle.bit_map.specs.Patterns.{pattern_bit, eighth_of, bit_of};
ghost use Rattle.bit_map.specs.Rules.{right_of, effects_bit};
ghost use Rattle.bit_map.specs.Words.{bit_in};

use crate::effect::Effects;
use crate::mode::Mode;
use crate::pattern::{Pattern, eighth};
use tb_geom::Point;

/// The row of eight bits from its place `first` on, and then from its place 0 on.
fn turned(row: u8, first: u8) -> u8
    requires { first < 8 }
    ensures { (j : ℕ) → j < 8 → bit_of result j ≡ bit_of row ((first + j) % 8) }
{
    (((u16::from(row) * 257) >> (8 - first)) % 256) as u8
}

/// The row of eight bits, repeated.
fn repeated(row: u8) -> u64
    ensures { (k : ℕ) → k < 64 → bit_in result k ≡ bit_of row (k % 8) }
{
    u64::from(row) * 0x0101_0101_0101_0101
}

impl Mode {
    /// What the mode makes of the bits of a word, of those of another as the source.
    pub fn effects(self, source: u64) -> Effects
        ensures { (k : ℕ) (old : Bool) → k < 64 → effects_bit result k old ≡ mode_bit self (bit_in source k) old }
    {
        let (keeps, turns) = match self {
            Mode::Copy => (0, source),
            Mode::Or => (!source, source),
            Mode::Xor => (u64::MAX, source),
            Mode::Bic => (!source, 0),
            Mode::NotCopy => (0, !source),
            Mode::NotOr => (source, !source),
            Mode::NotXor => (u64::MAX, !source),
            Mode::NotBic => (source, 0),
        };
        Effects { keeps, turns }
    }
}

impl Pattern {
    /// What putting the pattern down by the mode makes of the bits of a row, as it repeats word after
    /// word. The first of them lies at `start`, as seen from the pattern's origin.
    pub fn effects(self, mode: Mode, start: Point) -> Effects
        ensures { (k : ℕ) (old : Bool) → effects_bit result (k % 64) old
            ≡ mode_bit mode (pattern_bit self (right_of start k)) old }
    {
        let row = turned(self.rows[eighth(start.v) as usize], eighth(start.h));
        mode.effects(repeated(row))
    }
}
