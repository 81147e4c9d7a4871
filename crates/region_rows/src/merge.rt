//! The merge of the rows of two regions.
ghost use Rattle.std.specs.Prelude.{◌≡◌, [], false, ℕ, ◌+◌, ◌-◌, ◌%◌, ◌<◌, ◌≤◌, ◌&&◌, length, ℤ, IsTrue, IfSome};
ghost use Rattle.std.specs.Prelude.{IfNone, IfOk, OnOk};
ghost use Rattle.region_bytes.specs.Points.{in_rows};
ghost use Rattle.region_rows.specs.Edges.{applied, by_first, by_second, inside, kept, EndsBefore, IsCoordinate, IsEdges, IsRow};
ghost use Rattle.region_rows.specs.Rows.{with_row, AreRows, IsPushed};
ghost use Rattle.region_rows.specs.RowsAt.{IsNextRow, IsRead};

use crate::kernel::{Kept, keep_part};
use crate::operator::Operator;
use crate::row::Row;
use crate::turning::Turning;
use std::alloc::{AllocError, Global};

/// A row of two regions: the points of both there, none where a region has no such row, and the places of the rows after
/// it.
#[derive(Clone, Copy)]
pub struct RowRead<'a> {
    pub v: i32,
    pub in_a: &'a [i32],
    pub in_b: &'a [i32],
    pub i: usize,
    pub j: usize,
}

/// The next row of either region, where they are read up to `i` and `j`.
#[inline(always)]
fn next_row<'a>(a: &'a [Row], i: usize, b: &'a [Row], j: usize) -> Option<RowRead<'a>>
    requires a_rows { AreRows a.now }
    requires b_rows { AreRows b.now }
    ensures none { IfNone result ((length a.now ≤ i) × (length b.now ≤ j)) }
    ensures in_a { IfSome result (λ row. IsRead a.now i row.i row.v row.in_a.now) }
    ensures in_b { IfSome result (λ row. IsRead b.now j row.j row.v row.in_b.now) }
    ensures here { IfSome result (λ row. IsNextRow a.now i b.now j row.v) }
    ensures in_range { IfSome result (λ row. IsCoordinate row.v) }
    ensures on { IfSome result (λ row. (i ≤ row.i) × (j ≤ row.j)) }
    ensures further { IfSome result (λ row. (length a.now - row.i) + (length b.now - row.j)
        < (length a.now - i) + (length b.now - j)) }
{
    match (a.get(i), b.get(j)) {
        (Some(p), Some(q)) => {
            let (first, second) = (p.v(), q.v());
            if first < second {
                return Some(RowRead {
                    v: first,
                    in_a: p.points(),
                    in_b: &[],
                    i: i + 1,
                    j,
                });
            }
            if second < first {
                return Some(RowRead {
                    v: second,
                    in_a: &[],
                    in_b: q.points(),
                    i,
                    j: j + 1,
                });
            }
            Some(RowRead {
                v: first,
                in_a: p.points(),
                in_b: q.points(),
                i: i + 1,
                j: j + 1,
            })
        }
        (Some(p), None) => Some(RowRead {
            v: p.v(),
            in_a: p.points(),
            in_b: &[],
            i: i + 1,
            j,
        }),
        (None, Some(q)) => Some(RowRead {
            v: q.v(),
            in_a: &[],
            in_b: q.points(),
            i,
            j: j + 1,
        }),
        (None, None) => None,
    }
}

/// Adds a row of these points, if it has any.
#[inline(always)]
fn push_row(alloc: Global, rows: &mut Vec<Row>, v: i32, points: &[i32]) -> Result<(), AllocError>
    ensures { OnOk result (rows.new.items ≡ with_row rows.old.items v points.now) }
{
    if !points.is_empty() {
        rows.push(Row::of(alloc, v, points)?)?;
    }
    Ok(())
}

/// Whether no pixel of a row is one of the other row too, seen from the first and the last edges: there are none of the
/// other row, or one of the two ends left of the other one or where that begins.
#[inline(always)]
fn is_beside(points: &[i32], other: &[i32]) -> bool
    requires points { IsRow points.now }
    requires other { IsEdges other.now }
    ensures apart { IsTrue result → (h : ℤ) → (inside points.now h && inside other.now h) ≡ false }
    ensures empty { length other.now ≡ 0 → IsTrue result }
    ensures before { 1 < length points.now → 1 < length other.now → EndsBefore points.now other.now → IsTrue result }
    ensures after { 1 < length points.now → 1 < length other.now → length other.now % 2 ≡ 0
        → EndsBefore other.now points.now → IsTrue result }
{
    match (points, other) {
        ([first, .., last], [left, .., right]) => {
            last <= left || (right <= first && other.len() % 2 == 0)
        }
        (_, []) => true,
        _ => false,
    }
}

/// Adds a row of those of these points that are kept beside another row that has pixels among them, if there are any.
#[inline(never)]
fn push_among(
    alloc: Global,
    rows: &mut Vec<Row>,
    v: i32,
    points: &[i32],
    other: &[i32],
    what: Kept,
    room: &mut Vec<i32>,
) -> Result<(), AllocError>
    requires points { IsRow points.now }
    requires other { IsEdges other.now }
    ensures { OnOk result (IsPushed rows.old.items rows.new.items v
        (λ h. kept what (inside points.now h) (inside other.now h))) }
{
    keep_part(room, points, other, what)?;
    push_row(alloc, rows, v, room.as_slice())
}

/// Adds a row of those of these points that are kept beside another row, if there are any.
#[inline(always)]
fn push_part(
    alloc: Global,
    rows: &mut Vec<Row>,
    v: i32,
    points: &[i32],
    other: &[i32],
    what: Kept,
    room: &mut Vec<i32>,
) -> Result<(), AllocError>
    requires points { IsRow points.now }
    requires other { IsEdges other.now }
    ensures { OnOk result (IsPushed rows.old.items rows.new.items v
        (λ h. kept what (inside points.now h) (inside other.now h))) }
{
    if !is_beside(points, other) {
        return push_among(alloc, rows, v, points, other, what, room);
    }
    match what {
        Kept::Shared => Ok(()),
        Kept::Alone | Kept::All => push_row(alloc, rows, v, points),
    }
}

/// The row of pixels at hand of either side, and room for what is kept of a turn.
#[derive(Drop)]
pub struct Sides {
    pub of_a: Turning,
    pub of_b: Turning,
    points: Turning,
    second: Vec<i32>,
}

impl Sides {
    ghost use Rattle.region_rows.specs.Merges.{AreTurned, turns_of};

    /// Rows without pixels.
    fn new(alloc: Global) -> Sides
        ensures a { result.of_a.edges.items ≡ [] }
        ensures b { result.of_b.edges.items ≡ [] }
    {
        Sides {
            of_a: Turning::new(alloc),
            of_b: Turning::new(alloc),
            points: Turning::new(alloc),
            second: Vec::new(alloc),
        }
    }

    /// Turns both sides at their points `p` and `q` of a row, and adds the row of the points at which the
    /// combination turns: what turns of the first side, seen beside the second one as it was, and what
    /// turns of the second one, seen beside the first one as it is then.
    #[inline(never)]
    fn turn_both(
        &mut self,
        alloc: Global,
        rows: &mut Vec<Row>,
        v: i32,
        p: &[i32],
        q: &[i32],
        operator: Operator,
    ) -> Result<(), AllocError>
        requires p_row { IsRow p.now }
        requires q_row { IsRow q.now }
        requires a_edges { IsEdges self.old.of_a.edges.items }
        requires b_edges { IsEdges self.old.of_b.edges.items }
        ensures turned { OnOk result (AreTurned self.old self.new p.now q.now) }
        ensures pushed { OnOk result (IsPushed rows.old.items rows.new.items v
            (turns_of operator self.old p.now q.now)) }
    {
        let what = operator.by_first();
        keep_part(&mut self.points.edges, p, self.of_b.edges.as_slice(), what)?;
        self.of_a.turn(p)?;
        keep_part(
            &mut self.second,
            q,
            self.of_a.edges.as_slice(),
            operator.by_second(),
        )?;
        self.of_b.turn(q)?;
        self.points.turn(self.second.as_slice())?;
        push_row(alloc, rows, v, self.points.edges.as_slice())?;
        Ok(())
    }

    /// Turns the sides at their points `p` and `q` of a row, where either may have none, and adds the row
    /// of the points at which the combination turns.
    #[inline(always)]
    fn turn(
        &mut self,
        alloc: Global,
        rows: &mut Vec<Row>,
        v: i32,
        p: &[i32],
        q: &[i32],
        operator: Operator,
    ) -> Result<(), AllocError>
        requires p_row { IsRow p.now }
        requires q_row { IsRow q.now }
        requires a_edges { IsEdges self.old.of_a.edges.items }
        requires b_edges { IsEdges self.old.of_b.edges.items }
        ensures turned { OnOk result (AreTurned self.old self.new p.now q.now) }
        ensures pushed { OnOk result (IsPushed rows.old.items rows.new.items v
            (turns_of operator self.old p.now q.now)) }
    {
        if q.is_empty() {
            let (edges, what) = (self.of_b.edges.as_slice(), operator.by_first());
            push_part(alloc, rows, v, p, edges, what, &mut self.points.edges)?;
            self.of_a.turn(p)?;
            return Ok(());
        }
        if p.is_empty() {
            let (edges, what) = (self.of_a.edges.as_slice(), operator.by_second());
            push_part(alloc, rows, v, q, edges, what, &mut self.points.edges)?;
            self.of_b.turn(q)?;
            return Ok(());
        }
        self.turn_both(alloc, rows, v, p, q, operator)
    }
}

/// The rows of the pixels that the operator keeps of two regions. The rows of both are gone through from
/// the top down, with the edges that those up to there leave.
#[inline(never)]
pub fn merge_rows(
    alloc: Global,
    a: &[Row],
    b: &[Row],
    operator: Operator,
) -> Result<Vec<Row>, AllocError>
    requires a_rows { AreRows a.now }
    requires b_rows { AreRows b.now }
    ensures pixels { IfOk result (λ rows. (h v : ℤ) → in_rows rows.items h v
        ≡ applied operator (in_rows a.now h v) (in_rows b.now h v)) }
    ensures rows { IfOk result (λ rows. AreRows rows.items) }
{
    let mut rows = Vec::with_capacity(alloc, a.len().saturating_add(b.len()))?;
    let (mut i, mut j) = (0, 0);
    let mut sides = Sides::new(alloc);
    while let Some(row) = next_row(a, i, b, j) {
        sides.turn(alloc, &mut rows, row.v, row.in_a, row.in_b, operator)?;
        i = row.i;
        j = row.j;
    }
    Ok(rows)
}
