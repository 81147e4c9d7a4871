//! Rows with two runs of pixels at most, and their edges.
ghost use Rattle.std.specs.Prelude.{◌≡◌, ◌&&◌, false, not, ℤ, ◌≤ℤ◌, true};
ghost use Rattle.tb_geom.specs.Rects.{between};
ghost use Rattle.region_rows.specs.Edges.{inside, IsCoordinate, IsRow};
ghost use Rattle.shape_strips.specs.Runs.{run_holds};
ghost use Rattle.shape_region.specs.Rows.{two_runs, ArePlaced};
ghost use Rattle.pixel_rows.specs.Bounds.{IsPlaced};

use arrayvec::ArrayVec;
use shape_strips::Run;

/// The columns of a row with two runs at most: from `first` up to `second`, and from `third` up to `last`. Either run
/// may have no column.
#[derive(Clone, Copy, Debug, PartialEq, Eq)]
pub struct TwoRuns {
    pub first: i32,
    pub second: i32,
    pub third: i32,
    pub last: i32,
}

/// The columns at which a row of two runs at most begins and ends.
pub type Edges = ArrayVec<i32, 4>;

impl TwoRuns {
    /// The row without columns.
    pub fn none() -> TwoRuns
        ensures placed { ArePlaced result }
        ensures pixels { (h : ℤ) → two_runs result h ≡ false }
    {
        TwoRuns {
            first: 0,
            second: 0,
            third: 0,
            last: 0,
        }
    }

    /// The row of one run.
    pub fn one(run: Run) -> TwoRuns
        requires { IsPlaced run }
        ensures placed { ArePlaced result }
        ensures pixels { (h : ℤ) → two_runs result h ≡ run_holds run h }
    {
        TwoRuns {
            first: run.left,
            second: run.right,
            third: run.right,
            last: run.right,
        }
    }

    /// The columns of a run that another one within it lacks.
    pub fn around(outer: Run, inner: Run) -> TwoRuns
        requires outer { IsPlaced outer }
        requires inner { IsPlaced inner }
        requires within { (h : ℤ) → run_holds inner h ≡ true → run_holds outer h ≡ true }
        ensures placed { ArePlaced result }
        ensures pixels { (h : ℤ) → two_runs result h ≡ (run_holds outer h && not (run_holds inner h)) }
    {
        if inner.right <= inner.left {
            return TwoRuns::one(outer);
        }
        TwoRuns {
            first: outer.left,
            second: inner.left,
            third: inner.right,
            last: outer.right,
        }
    }

    /// Its edges, from left to right: none where a run has no column, or where one run ends and the other begins.
    pub fn edges(self) -> Edges
        requires { ArePlaced self }
        ensures pixels { (h : ℤ) → inside result.items h ≡ two_runs self h }
        ensures row { IsRow result.items }
    {
        let TwoRuns {
            first,
            second,
            third,
            last,
        } = self;
        if first == second {
            return run_edges(third, last);
        }
        if third == last {
            return run_edges(first, second);
        }
        if second == third {
            return run_edges(first, last);
        }
        ArrayVec::from([first, second, third, last])
    }
}

/// The edges of the columns from `left` up to `right`, of which there may be none.
fn run_edges(left: i32, right: i32) -> Edges
    requires left_in { IsCoordinate left }
    requires right_in { IsCoordinate right }
    requires order { left ≤ℤ right }
    ensures pixels { (h : ℤ) → inside result.items h ≡ between left h right }
    ensures row { IsRow result.items }
{
    let mut edges = ArrayVec::new();
    if left == right {
        return edges;
    }
    edges.push(left);
    edges.push(right);
    edges
}
