//! A row of pixels as the columns at which it turns, one bit each.
ghost use Rattle.std.specs.Prelude.{◌≡◌, ◌⊎◌, ◌+◌, ◌<◌, ◌≤◌, ℕ, length, ℤ, Bool, pos, int_le, ◌≤ℤ◌, ◌<ℤ◌, ◌-ℤ◌, ◌+ℤ◌};
ghost use Rattle.region_rows.specs.Bits.{has_bit};
ghost use Rattle.region_rows.specs.Edges.{differ};
ghost use Rattle.region_rows.specs.Counts.{count_to};

use crate::bits::{flip, has_bit, next_bit};

/// The pixels of a row between two columns: whether it has the first one, and the place of the bit of that
/// column, after which comes a bit for each column right of it, set where the row turns from out to in or back.
#[derive(Clone, Copy)]
pub struct Line {
    /// The first column, and the one past the last.
    pub left: i32,
    pub right: i32,
    pub base: usize,
    pub first: bool,
    ghost order: { left ≤ℤ right },
    ghost room: { base + count_to left right ≤ 8192 },
}

impl Line {
    ghost use Rattle.region_rows.specs.Lines.{IsLine, IsLineTurn, place_in};

    /// The place of the bit of a column.
    fn place(&self, x: i32) -> usize
        requires low { self.now.left ≤ℤ x }
        requires high { x ≤ℤ self.now.right }
        ensures value { result ≡ place_in self.now x }
        ensures column { pos result ≡ pos self.now.base +ℤ (x -ℤ self.now.left) }
    {
        self.base + (x - self.left) as usize
    }

    /// Turns the row from the column `x` on.
    pub fn toggle(&mut self, words: &mut [u64], x: i32)
        requires { length words.old ≡ 128 }
        ensures line { (f : ℤ → Bool) → IsLine words.old self.old f
            → IsLine words.new self.new (λ h. differ (int_le x h) (f h)) }
        ensures apart { (k : ℕ) → (k < self.old.base) ⊎ (self.old.base + count_to self.old.left self.old.right ≤ k)
            → has_bit words.new k ≡ has_bit words.old k }
        ensures length { length words.new ≡ length words.old }
        ensures left { self.new.left ≡ self.old.left }
        ensures right { self.new.right ≡ self.old.right }
        ensures base { self.new.base ≡ self.old.base }
    {
        if x <= self.left {
            self.first = !self.first;
            return;
        }
        if x < self.right {
            flip(words, self.place(x));
        }
    }

    /// The column of the next turn right of `at`, or the limit if that comes first.
    pub fn turn(&self, words: &[u64], at: i32, limit: i32) -> i32
        requires size { length words.now ≡ 128 }
        requires left { self.now.left ≤ℤ at }
        requires order { at <ℤ limit }
        requires right { limit ≤ℤ self.now.right }
        ensures turn { (f : ℤ → Bool) → IsLine words.now self.now f → IsLineTurn f at limit result }
        ensures on { at <ℤ result }
        ensures up { result ≤ℤ limit }
    {
        let found = next_bit(words, self.place(at + 1), self.place(limit));
        self.left + (found - self.base) as i32
    }

    /// Whether the row turns at the column `x`.
    pub fn is_turn(&self, words: &[u64], x: i32) -> bool
        requires size { length words.now ≡ 128 }
        requires left { self.now.left <ℤ x }
        requires right { x <ℤ self.now.right }
        ensures { (f : ℤ → Bool) → IsLine words.now self.now f → result ≡ differ (f x) (f (x -ℤ pos 1)) }
    {
        has_bit(words, self.place(x))
    }
}
