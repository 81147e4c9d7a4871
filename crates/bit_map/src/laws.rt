//! What the definition of a pattern's bit says.
ghost use Rattle.std.specs.Prelude.{◌≡◌, ◌<◌, ℕ, ℤ, pos, ◌+ℤ◌};
ghost use Rattle.bit_map.specs.Patterns.{eighth_of};

/// The first eight columns of a pattern are its own, and so are the first eight rows.
#[tactic(auto, using(crate::proofs::PatternLemmas::first_eight))]
pub fn patterns_begin_at_0()
    ensures { (n : ℕ) → n < 8 → eighth_of (pos n) ≡ n }
{}

/// They repeat every eight columns, and every eight rows, over the whole plane.
#[tactic(auto, using(crate::proofs::PatternLemmas::every_eight))]
pub fn patterns_repeat()
    ensures { (x : ℤ) → eighth_of (x +ℤ pos 8) ≡ eighth_of x }
{}
