//! What a mode makes of old bits, once the source bit is known.
ghost use Rattle.std.specs.Prelude.{◌≡◌, ◌<◌, ◌≤◌, ◌+◌, ◌*◌, ◌%◌, Bool, ℕ, length, slice_index};
ghost use Rattle.bit_map.specs.Modes.{mode_bit};
ghost use Rattle.bit_map.specs.Rules.{effect_bit, effects_bit, IsLaid};
ghost use Rattle.bit_map.specs.Words.{bit_in, place_bit};

use crate::mode::Mode;
use crate::words::full;
use std::simd::prelude::*;

/// What is done to each old bit alike: it is kept or cleared, and then turned or not. So one test for
/// each of two flags does for a whole run of bits.
#[derive(Clone, Copy, Debug, PartialEq, Eq)]
pub struct Effect {
    pub keeps: bool,
    pub turns: bool,
}

impl Effect {
    /// Each bit becomes the other one.
    pub const INVERT: Effect = Effect {
        keeps: true,
        turns: true,
    };

    /// Each bit becomes white.
    pub const WHITE: Effect = Effect {
        keeps: false,
        turns: false,
    };

    /// The new bit.
    pub fn of(self, old: bool) -> bool
        ensures { result ≡ effect_bit self old }
    {
        (old && self.keeps) != self.turns
    }
}

impl Mode {
    /// What the mode makes of old bits under this source bit.
    pub fn effect(self, source: bool) -> Effect
        ensures { (old : Bool) → effect_bit result old ≡ mode_bit self source old }
    {
        let of_white = self.apply(source, false);
        Effect {
            keeps: self.apply(source, true) != of_white,
            turns: of_white,
        }
    }
}

/// An effect for each bit of a word: which bits it keeps, and which it turns after that.
#[derive(Clone, Copy, Debug, PartialEq, Eq)]
pub struct Effects {
    pub keeps: u64,
    pub turns: u64,
}

impl Effects {
    /// The same effect for each bit.
    pub fn all(effect: Effect) -> Effects
        ensures { (k : ℕ) (old : Bool) → k < 64 → effects_bit result k old ≡ effect_bit effect old }
    {
        Effects {
            keeps: full(effect.keeps),
            turns: full(effect.turns),
        }
    }

    /// The new bits of a word.
    pub fn of(self, old: u64) -> u64
        ensures { (k : ℕ) → k < 64 → bit_in result k ≡ effects_bit self k (bit_in old k) }
    {
        self.turns ^ (old & self.keeps)
    }

    /// Gives each word of a run its new bits: eight at a time, and then one by one.
    pub fn lay(self, run: &mut [u64])
        ensures all { length run.new ≡ length run.old }
        ensures each { (n : ℕ) → n < 64 * length run.old
            → place_bit run.new n ≡ effects_bit self (n % 64) (place_bit run.old n) }
    {
        let eights = run.len() / 8;
        self.lay_eights(run, eights);
        self.lay_rest(run, 8 * eights);
    }

    /// Gives each of the first words of a run, eight times as many as there are eights, its new bits.
    fn lay_eights(self, run: &mut [u64], eights: usize)
        requires { 8 * eights ≤ length run.old }
        ensures { IsLaid self 0 (512 * eights) run.old run.new }
    {
        for k in 0..eights {
            self.lay_eight(run, 8 * k);
        }
    }

    /// Gives eight words their new bits.
    fn lay_eight(self, run: &mut [u64], at: usize)
        requires { at + 8 ≤ length run.old }
        ensures { IsLaid self (64 * at) (64 * at + 512) run.old run.new }
    {
        let lanes = self.of_eight(&run[at..at + 8]);
        lanes.copy_to_slice(&mut run[at..at + 8]);
    }

    /// The new bits of eight words.
    fn of_eight(self, words: &[u64]) -> u64x8
        requires { length words.now ≡ 8 }
        ensures all { length result ≡ 8 }
        ensures each { (j k : ℕ) → j < 8 → k < 64 → bit_in (slice_index result j) k
            ≡ effects_bit self k (bit_in (slice_index words.now j) k) }
    {
        u64x8::splat(self.turns) ^ (u64x8::from_slice(words) & u64x8::splat(self.keeps))
    }

    /// Gives each word of a run from one on its new bits.
    fn lay_rest(self, run: &mut [u64], first: usize)
        requires { first ≤ length run.old }
        ensures { IsLaid self (64 * first) (64 * length run.old) run.old run.new }
    {
        for k in first..run.len() {
            run[k] = self.of(run[k]);
        }
    }
}
