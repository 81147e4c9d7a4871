//! A walk from row to row, which keeps the runs of a row for the rows below it that are the same.
ghost use Rattle.std.specs.Prelude.{◌≡◌, ◌⊎◌, ◌++◌, ◌∷◌, [], ℤ, pos, ◌≤ℤ◌, ◌<ℤ◌, IfSome, IfNone};
ghost use Rattle.tb_geom.specs.Points.{PixelSet};
ghost use Rattle.scan_region.specs.Descents.{AreKept, IsDescent, IsDown, spans_left, spans_of};
ghost use Rattle.scan_region.specs.Parts.{HasSides, IsWalk, runs_left};

use crate::spans::Span;
use crate::walk::Walk;
use arrayvec::ArrayVec;

/// The columns of a run of pixels, with `left <= h < right`.
#[derive(Clone, Copy, Default)]
pub struct Run {
    pub left: i32,
    pub right: i32,
}

/// How many runs of a row are kept.
const MOST_RUNS: usize = 16;

/// A place among the runs of rows, from the top down.
#[derive(Drop)]
pub struct Descent<'a> {
    pub left: i32,
    /// The row at hand, with its first runs, and how many of these were told.
    pub v: i32,
    pub kept: ArrayVec<Run, MOST_RUNS>,
    pub told: usize,
    /// The runs of the row at hand that are not kept, or the end of a row above it.
    pub walk: Walk<'a>,
    /// The row after the row at hand. From there up to the row `until` each row has just the runs that are kept.
    pub next: i32,
    pub until: i32,
    pub bottom: i32,
}

/// Keeps the first runs of the row at hand, and tells up to which row all rows have just these.
#[inline(never)]
fn keep_runs(walk: &mut Walk<'_>, kept: &mut ArrayVec<Run, MOST_RUNS>) -> i32
    requires sides { (left : ℤ) × HasSides walk.old left walk.old.right }
    requires none { kept.old.items ≡ [] }
    ensures walk { (s : PixelSet) → IsWalk walk.old s → IsWalk walk.new s }
    ensures sides { (left : ℤ) → HasSides walk.old left walk.old.right
        → HasSides walk.new left walk.old.right }
    ensures v { walk.new.v ≡ walk.old.v }
    ensures runs { (s : PixelSet) → IsWalk walk.old s
        → runs_left walk.old s ≡ spans_of walk.old.v kept.new.items ++ runs_left walk.new s }
    ensures same { (s : PixelSet) → IsWalk walk.old s
        → AreKept s walk.old.at walk.old.right kept.new.items walk.old.v result }
    ensures whole { walk.old.v <ℤ result → (s : PixelSet) → runs_left walk.new s ≡ [] }
{
    while kept.len() < MOST_RUNS {
        let Some(span) = walk.row_span() else {
            return walk.until();
        };
        kept.push(Run {
            left: span.left,
            right: span.right,
        });
    }
    walk.v
}

impl Descent<'_> {
    /// The next run of the row at hand that is not kept.
    fn row_span(&mut self) -> Option<Span>
        requires { (s : PixelSet) × IsDescent self.old s }
        ensures descent { (s : PixelSet) → IsDescent self.old s → IsDescent self.new s }
        ensures some { IfSome result (λ span. (s : PixelSet) → IsDescent self.old s
            → runs_left self.old.walk s ≡ span ∷ runs_left self.new.walk s) }
        ensures none { IfNone result ((s : PixelSet) → IsDescent self.old s
            → (runs_left self.old.walk s ≡ []) × (runs_left self.new.walk s ≡ [])) }
        ensures kept { self.new ≡ record self.old { walk = self.new.walk } }
        ensures right { self.new.walk.right ≡ self.old.walk.right }
    {
        if self.v < self.until {
            return None;
        }
        self.walk.row_span()
    }

    /// Goes past the next rows that have no runs, where none are kept.
    #[inline(always)]
    fn pass_empty(&mut self)
        ensures descent { (s : PixelSet) → IsDescent self.old s → IsDescent self.new s }
        ensures spans { (s : PixelSet) → IsDescent self.old s → spans_left self.new s ≡ spans_left self.old s }
        ensures next { self.old.next ≤ℤ self.new.next }
        ensures bottom { self.new.bottom ≡ self.old.bottom }
        ensures past { self.old.kept.items ≡ [] → (self.old.until ≤ℤ self.new.next) ⊎
            (self.old.bottom ≤ℤ self.new.next) }
    {
        if self.kept.is_empty() && self.next < self.until && self.next < self.bottom {
            self.next = self.until.min(self.bottom);
        }
    }

    /// Goes on to the next row, and reads it.
    #[inline(never)]
    fn read_row(&mut self)
        requires descent { (s : PixelSet) × IsDescent self.old s }
        requires below { self.old.next <ℤ self.old.bottom }
        requires row { self.old.next <ℤ pos 2147483647 }
        ensures down { (s : PixelSet) → IsDescent self.old s → runs_left self.old.walk s ≡ []
            → IsDown self.old self.new s }
        ensures next { self.old.next <ℤ self.new.next }
        ensures bottom { self.new.bottom ≡ self.old.bottom }
    {
        self.v = self.next;
        self.next += 1;
        self.told = 0;
        self.walk.down(self.left, self.v);
        self.kept.clear();
        self.until = keep_runs(&mut self.walk, &mut self.kept);
        self.pass_empty();
    }

    /// Goes on to the next row, where all runs of the row at hand are told.
    fn step(&mut self)
        requires descent { (s : PixelSet) × IsDescent self.old s }
        requires below { self.old.next <ℤ self.old.bottom }
        requires row { self.old.next <ℤ pos 2147483647 }
        ensures down { (s : PixelSet) → IsDescent self.old s → runs_left self.old.walk s ≡ []
            → IsDown self.old self.new s }
        ensures next { self.old.next <ℤ self.new.next }
        ensures bottom { self.new.bottom ≡ self.old.bottom }
    {
        if self.until <= self.next {
            self.read_row();
            return;
        }
        self.v = self.next;
        self.next += 1;
        self.told = 0;
    }

    /// The next run.
    #[inline(always)]
    pub fn next_span(&mut self) -> Option<Span>
        requires { (s : PixelSet) × IsDescent self.old s }
        ensures descent { (s : PixelSet) → IsDescent self.old s → IsDescent self.new s }
        ensures some { IfSome result (λ span. (s : PixelSet) → IsDescent self.old s
            → spans_left self.old s ≡ span ∷ spans_left self.new s) }
        ensures none { IfNone result ((s : PixelSet) → IsDescent self.old s
            → (spans_left self.old s ≡ []) × (spans_left self.new s ≡ [])) }
    {
        'rows: loop {
            if let Some(run) = self.kept.get(self.told) {
                self.told += 1;
                return Some(Span {
                    v: self.v,
                    left: run.left,
                    right: run.right,
                });
            }
            if let Some(span) = self.row_span() {
                return Some(span);
            }
            if self.bottom <= self.next {
                return None;
            }
            self.step();
        }
    }
}
