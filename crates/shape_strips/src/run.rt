//! Runs of pixels in a row.
ghost use Rattle.std.specs.Prelude.{◌≡◌, ◌&&◌, ◌<◌, ℤ, pos, ◌+ℤ◌, ◌-ℤ◌, ◌≤ℤ◌, false};

/// The columns `left <= h < right` of a row, none where `right <= left`. Its coordinate space is that of the strip.
#[derive(Clone, Copy, Debug, PartialEq, Eq)]
pub struct Run {
    pub left: i32,
    pub right: i32,
}

impl Run {
    ghost use Rattle.shape_strips.specs.Runs.{run_holds};
    ghost use Rattle.shape_strips.specs.Lines.{some_below};

    /// The run without columns.
    pub fn empty() -> Run
        ensures { (h : ℤ) → run_holds result h ≡ false }
    {
        Run { left: 0, right: 0 }
    }

    /// The columns of both runs.
    pub fn sect(self, other: Run) -> Run
        ensures { (h : ℤ) → run_holds result h ≡ (run_holds self h && run_holds other h) }
    {
        Run {
            left: self.left.max(other.left),
            right: self.right.min(other.right),
        }
    }

    /// The columns that a pen of so many columns covers while its first one is one of the run's.
    pub(crate) fn widened(self, columns: u16) -> Run
        requires some { 0 < columns }
        requires right { self.right ≤ℤ pos 65536 }
        ensures { (h : ℤ) → run_holds result h ≡ some_below columns (λ i. run_holds self (h -ℤ pos i)) }
    {
        if self.right <= self.left {
            return Run::empty();
        }
        Run {
            left: self.left,
            right: self.right + (i32::from(columns) - 1),
        }
    }

    /// The columns that have one of the run's on the left and on the right.
    pub fn inner(self) -> Run
        ensures { (h : ℤ) → run_holds result h ≡ (run_holds self (h -ℤ pos 1) && run_holds self (h +ℤ pos 1)) }
    {
        Run {
            left: self.left.saturating_add(1),
            right: self.right.saturating_sub(1),
        }
    }
}
