//! What becomes of pixels.
ghost use Rattle.std.specs.Prelude.{◌≡◌, ◌≤◌, ◌*◌, Bool, length};
ghost use Rattle.tb_geom.specs.declared.point.Point.{Point};
ghost use Rattle.bit_map.specs.Rules.{right_of, IsRuled, IsRuledWord, HasColumns};

use crate::words::{bit_in, one_bit};
use tb_geom::Point;

/// What becomes of each pixel of a drawing.
pub trait Rule {
    ghost value: { Self → Point → Bool → Bool };

    /// The new bit of the pixel at `point`, in map coordinates, where the bit `old` stands.
    fn value(&self, point: Point, old: bool) -> bool
        ensures { result ≡ value self.now point old };

    /// The new bits of `count` pixels of a row from `start` on, where the bits `old` stand, both with
    /// the high bit left. What the other bits of the word become does not matter. A rule that knows more
    /// of such pixels than of one says it here.
    fn word(&self, start: Point, count: usize, old: u64) -> u64
        requires short { count ≤ 64 }
        requires columns { HasColumns start count }
        ensures ruled { IsRuledWord (value self.now) start count old result }
    {
        let mut new = 0;
        for k in 0..count {
            let bit = self.value(right_of(start, k), bit_in(old, k));
            new |= one_bit(k, bit);
        }
        new
    }

    /// Gives each bit of the words of a run in one row, whose first pixel lies at `start`, its new bit.
    /// A rule that knows more of its run than of one word says it here.
    fn words(&self, start: Point, run: &mut [u64])
        requires columns { HasColumns start (64 * length run.old) }
        ensures ruled { IsRuled (value self.now) start run.old run.new }
    {
        for (k, word) in run.iter_mut().enumerate() {
            *word = self.word(right_of(start, 64 * k), 64, *word);
        }
    }
}

/// The point `k` columns to the right.
pub fn right_of(start: Point, k: usize) -> Point
    requires { HasColumns start k }
    ensures { result ≡ right_of start k }
{
    Point {
        h: start.h + k as i32,
        v: start.v,
    }
}
