//! The rows of the pixels of two rectangles.
ghost use Rattle.std.specs.Prelude.{◌≡◌, [], ◌∷◌, ◌||◌, ◌⊎◌, ℤ, ◌≤ℤ◌, ◌<ℤ◌, IfOk, IfNone, IfSome, OnOk};
ghost use Rattle.tb_geom.specs.declared.rect.Rect.{Rect};
ghost use Rattle.region_bytes.specs.Points.{in_rows};
ghost use Rattle.region_rows.specs.Edges.{inside, IsRow};
ghost use Rattle.region_rows.specs.Pairs.{around, alone, begun, columns, either, gone, pair_holds, AreTurnedFrom, IsPair, IsProper, IsRun};
ghost use Rattle.region_rows.specs.Rows.{two_rows, AreRows, IsPushed};

use crate::rect::rect_of;
use crate::row::Row;
use smallvec::SmallVec;
use std::alloc::{AllocError, Global};
use tb_geom::Rect;

/// The columns from `left` up to `right`.
#[derive(Clone, Copy)]
pub struct Run {
    pub left: i32,
    pub right: i32,
}

/// The edges of the columns from `first` up to `left`, and from `right` up to `last`.
#[inline(always)]
fn edges_around(alloc: Global, first: i32, left: i32, right: i32, last: i32) -> SmallVec<i32, 4>
    ensures { result.items ≡ around first left right last }
{
    if left <= first {
        if last <= right {
            return SmallVec::new(alloc);
        }
        return SmallVec::from_buf_and_len(alloc, [right, last, 0, 0], 2);
    }
    if last <= right {
        return SmallVec::from_buf_and_len(alloc, [first, left, 0, 0], 2);
    }
    SmallVec::from_buf(alloc, [first, left, right, last])
}

/// The edges of the columns that another run lacks, which may have none.
fn edges_alone(alloc: Global, own: Run, other: Run) -> SmallVec<i32, 4>
    requires { IsRun own }
    ensures pixels { (h : ℤ) → inside result.items h ≡ alone own other h }
    ensures row { IsRow result.items }
{
    let left = own.left.max(other.left);
    let right = own.right.min(other.right);
    if right <= left {
        return SmallVec::from_buf_and_len(alloc, [own.left, own.right, 0, 0], 2);
    }
    edges_around(alloc, own.left, left, right, own.right)
}

/// Adds the row `v` of the columns that another run lacks, if there are any.
fn push_alone(
    alloc: Global,
    rows: &mut Vec<Row>,
    v: i32,
    own: Run,
    other: Run,
) -> Result<(), AllocError>
    requires { IsRun own }
    ensures { OnOk result (IsPushed rows.old.items rows.new.items v (alone own other)) }
{
    let points = edges_alone(alloc, own, other);
    if points.is_empty() {
        return Ok(());
    }
    rows.push(Row::new(v, points))?;
    Ok(())
}

/// Adds the row `v` of the columns of a run.
fn push_run(alloc: Global, rows: &mut Vec<Row>, v: i32, run: Run) -> Result<(), AllocError>
    requires { IsRun run }
    ensures { OnOk result (IsPushed rows.old.items rows.new.items v (columns run)) }
{
    let points = SmallVec::from_buf_and_len(alloc, [run.left, run.right, 0, 0], 2);
    rows.push(Row::new(v, points))?;
    Ok(())
}

/// Adds the row `v` of the columns of either run: those around both but for the gap between them, if there is one.
fn push_either(alloc: Global, rows: &mut Vec<Row>, v: i32, a: Run, b: Run) -> Result<(), AllocError>
    requires a { IsRun a }
    requires b { IsRun b }
    ensures { OnOk result (IsPushed rows.old.items rows.new.items v (either a b)) }
{
    let both = Run {
        left: a.left.min(b.left),
        right: a.right.max(b.right),
    };
    let gap = Run {
        left: a.right.min(b.right),
        right: a.left.max(b.left),
    };
    push_alone(alloc, rows, v, both, gap)
}

/// The columns of a rectangle.
fn run_of(rect: Rect) -> Run
    requires { IsProper rect }
    ensures run { IsRun result }
    ensures columns { result ≡ record { left = rect.left; right = rect.right } }
{
    Run {
        left: rect.left,
        right: rect.right,
    }
}

/// Two rectangles.
#[derive(Clone, Copy)]
pub struct Pair {
    pub upper: Rect,
    pub lower: Rect,
}

/// The two rectangles, if they share rows, the first one begins no further down.
fn paired(upper: Rect, lower: Rect) -> Option<Pair>
    requires upper { IsProper upper }
    requires lower { IsProper lower }
    requires order { upper.top ≤ℤ lower.top }
    ensures pair { IfSome result IsPair }
    ensures same { IfSome result (λ pair. (pair.upper ≡ upper) × (pair.lower ≡ lower)) }
    ensures none { IfNone result (upper.bottom ≤ℤ lower.top) }
{
    if upper.bottom <= lower.top {
        return None;
    }
    Some(Pair { upper, lower })
}

/// The rectangles whose rows these are, if both are those of one, and the two share rows. The one that begins further
/// up comes first.
pub fn pair_of(a: &[Row], b: &[Row]) -> Option<Pair>
    requires a_rows { AreRows a.now }
    requires b_rows { AreRows b.now }
    ensures pair { IfSome result IsPair }
    ensures pixels { IfSome result (λ pair. (h v : ℤ) → pair_holds pair (record { h = h; v = v })
        ≡ (in_rows a.now h v || in_rows b.now h v)) }
    ensures none { IfNone result ((r s : Rect) → a.now ≡ two_rows r → b.now ≡ two_rows s
        → (r.bottom ≤ℤ s.top) ⊎ (s.bottom ≤ℤ r.top)) }
{
    let (first, second) = (rect_of(a)?, rect_of(b)?);
    if second.top < first.top {
        return paired(second, first);
    }
    paired(first, second)
}

/// Adds the rows in which two rectangles begin, the first one no further down.
fn push_tops(
    alloc: Global,
    rows: &mut Vec<Row>,
    first: Rect,
    second: Rect,
) -> Result<(), AllocError>
    requires first { IsProper first }
    requires second { IsProper second }
    requires order { first.top ≤ℤ second.top }
    ensures { OnOk result (AreTurnedFrom rows.old.items rows.new.items first.top second.top (begun first second)) }
{
    let (own, other) = (run_of(first), run_of(second));
    if first.top < second.top {
        push_run(alloc, rows, first.top, own)?;
        return push_alone(alloc, rows, second.top, other, own);
    }
    push_either(alloc, rows, first.top, own, other)
}

/// Adds the rows in which two rectangles end, the first one no further down.
fn push_bottoms(
    alloc: Global,
    rows: &mut Vec<Row>,
    first: Rect,
    last: Rect,
) -> Result<(), AllocError>
    requires first { IsProper first }
    requires last { IsProper last }
    requires order { first.bottom ≤ℤ last.bottom }
    ensures { OnOk result (AreTurnedFrom rows.old.items rows.new.items first.bottom last.bottom (gone first last)) }
{
    let (own, other) = (run_of(first), run_of(last));
    if first.bottom < last.bottom {
        push_alone(alloc, rows, first.bottom, own, other)?;
        return push_run(alloc, rows, last.bottom, other);
    }
    push_either(alloc, rows, first.bottom, own, other)
}

/// The rows of the pixels of such rectangles.
pub fn pair_rows(alloc: Global, pair: Pair) -> Result<Vec<Row>, AllocError>
    requires { IsPair pair }
    ensures pixels { IfOk result (λ rows. (h v : ℤ) → in_rows rows.items h v
        ≡ pair_holds pair (record { h = h; v = v })) }
    ensures rows { IfOk result (λ rows. AreRows rows.items) }
{
    let Pair { upper, lower } = pair;
    let mut rows = Vec::with_capacity(alloc, 4)?;
    push_tops(alloc, &mut rows, upper, lower)?;
    if lower.bottom < upper.bottom {
        push_bottoms(alloc, &mut rows, lower, upper)?;
        return Ok(rows);
    }
    push_bottoms(alloc, &mut rows, upper, lower)?;
    Ok(rows)
}
