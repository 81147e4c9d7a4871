//! A walk along the rows of what the regions of a cut let through, all of them together.
ghost use Rattle.std.specs.Prelude.{◌≡◌, ◌∷◌, [], ◌++◌, ℤ, pos, length, map, ◌≤ℤ◌, ◌<ℤ◌, IfSome, IfNone};
ghost use Rattle.tb_geom.specs.Points.{PixelSet};

use crate::part::Part;
use crate::spans::Span;

/// A place in a row of what up to four parts let through.
#[derive(Drop)]
pub struct Walk<'a> {
    pub v: i32,
    pub at: i32,
    pub right: i32,
    pub first: Part<'a>,
    pub second: Part<'a>,
    pub third: Part<'a>,
    pub hole: Part<'a>,
    /// The bits of the parts' lines, one for each column: enough for four lines of 2,048 columns.
    pub words: [u64; 128],
    ghost size: { length words ≡ 128 },
}

impl Walk<'_> {
    ghost use Rattle.scan_region.specs.Parts.{HasSides, IsWalk, IsWalkTurn, runs_left, all_count};

    /// Whether all parts let the pixel at hand through.
    fn all_count(&self) -> bool
        ensures { result ≡ all_count self.now }
    {
        self.first.counts() && self.second.counts() && self.third.counts() && self.hole.counts()
    }

    /// The column of the next turn of any part, or the end of the row if that comes first.
    fn turn(&self) -> i32
        requires sides { (left : ℤ) × HasSides self.now left self.now.right }
        requires room { self.now.at <ℤ self.now.right }
        ensures { IsWalkTurn self.now result }
    {
        let to = self.hole.turn(&self.words, self.v, self.at, self.right);
        let to = self.third.turn(&self.words, self.v, self.at, to);
        let to = self.second.turn(&self.words, self.v, self.at, to);
        self.first.turn(&self.words, self.v, self.at, to)
    }

    /// Goes on to the column `to`, before which no part turns.
    fn pass(&mut self, to: i32)
        requires sides { (left : ℤ) × HasSides self.old left self.old.right }
        requires turn { IsWalkTurn self.old to }
        ensures walk { (s : PixelSet) → IsWalk self.old s → IsWalk self.new s }
        ensures sides { (left : ℤ) → HasSides self.old left self.old.right → HasSides self.new left self.old.right }
        ensures at { self.new.at ≡ to }
        ensures v { self.new.v ≡ self.old.v }
    {
        self.at = to;
        if self.right <= to {
            return;
        }
        self.first.pass(&self.words, self.v, to);
        self.second.pass(&self.words, self.v, to);
        self.third.pass(&self.words, self.v, to);
        self.hole.pass(&self.words, self.v, to);
    }

    /// The next run of the row.
    pub fn row_span(&mut self) -> Option<Span>
        requires { (left : ℤ) × HasSides self.old left self.old.right }
        ensures sides { (left : ℤ) → HasSides self.old left self.old.right → HasSides self.new left self.old.right }
        ensures walk { (s : PixelSet) → IsWalk self.old s → IsWalk self.new s }
        ensures v { self.new.v ≡ self.old.v }
        ensures some { IfSome result (λ span. (s : PixelSet) → IsWalk self.old s
            → runs_left self.old s ≡ span ∷ runs_left self.new s) }
        ensures row { IfSome result (λ span. span.v ≡ self.old.v) }
        ensures none { IfNone result ((s : PixelSet) → IsWalk self.old s → runs_left self.old s ≡ []) }
        ensures ended { IfNone result ((s : PixelSet) → runs_left self.new s ≡ []) }
    {
        while self.at < self.right {
            let left = self.at;
            let within = self.all_count();
            let right = self.turn();
            self.pass(right);
            if within {
                return Some(Span {
                    v: self.v,
                    left,
                    right,
                });
            }
        }
        None
    }

    /// Goes on to the first pixel of the row `v`, which does not lie above.
    #[inline(never)]
    pub fn down(&mut self, left: i32, v: i32)
        requires sides { HasSides self.old left self.old.right }
        requires order { self.old.v ≤ℤ v }
        requires row { v <ℤ pos 2147483647 }
        requires column { left <ℤ pos 2147483647 }
        ensures walk { (s : PixelSet) → IsWalk self.old s → IsWalk self.new s }
        ensures sides { HasSides self.new left self.old.right }
        ensures v { self.new.v ≡ v }
        ensures at { self.new.at ≡ left }
    {
        self.v = v;
        self.at = left;
        self.first.down(&mut self.words, left, v);
        self.second.down(&mut self.words, left, v);
        self.third.down(&mut self.words, left, v);
        self.hole.down(&mut self.words, left, v);
    }

    /// The rows from the row at hand up to this one have the same pixels.
    pub fn until(&self) -> i32
        requires { (left : ℤ) × HasSides self.now left self.now.right }
        ensures { (s : PixelSet) → IsWalk self.now s → (h w : ℤ) → self.now.v ≤ℤ w → w <ℤ result
            → s (record { h = h; v = w }) ≡ s (record { h = h; v = self.now.v }) }
    {
        let until = self.first.until(self.v);
        let until = until.min(self.second.until(self.v));
        let until = until.min(self.third.until(self.v));
        until.min(self.hole.until(self.v))
    }
}
