//! A row of pixels that turns at columns.
ghost use Rattle.std.specs.Prelude.{◌≡◌, [], ◌∷◌, not, ◌<◌, ◌≤◌, ◌+◌, ◌-◌, ◌++◌, length, take, drop, IsTrue, IsSome};
ghost use Rattle.std.specs.Prelude.{◌↔◌, OnOk, IfSome, ℤ, ◌<ℤ◌};
ghost use Rattle.region_rows.specs.Edges.{differ, inside, only, IsEdges};
ghost use Rattle.region_rows.specs.Gaps.{across, IsFree, IsGap, IsPlace};

use crate::kernel::push_all;
use std::alloc::{AllocError, Global};
use std::mem;

/// Makes `out` the edges of a row that is turned from each of these columns on.
#[inline(never)]
fn keep_turned(out: &mut Vec<i32>, edges: &[i32], columns: &[i32]) -> Result<(), AllocError>
    requires edges { IsEdges edges.now }
    requires columns { IsEdges columns.now }
    ensures pixels { OnOk result ((h : ℤ)
        → inside out.new.items h ≡ differ (inside edges.now h) (inside columns.now h)) }
    ensures edges { OnOk result (IsEdges out.new.items) }
{
    out.clear();
    let (mut xs, mut ys) = (edges, columns);
    while let ([x, after_x @ ..], [y, after_y @ ..]) = (xs, ys) {
        if x < y {
            out.push(*x)?;
            xs = after_x;
        } else if y < x {
            out.push(*y)?;
            ys = after_y;
        } else {
            xs = after_x;
            ys = after_y;
        }
    }
    if xs.is_empty() {
        push_all(out, ys)?;
        return Ok(());
    }
    push_all(out, xs)?;
    Ok(())
}

/// How many edges lie left of the column `x`, and whether there is one in it.
#[inline(always)]
fn place_of(edges: &[i32], x: i32) -> (usize, bool)
    ensures { IsPlace edges.now x result.0 result.1 }
{
    let mut place = 0;
    while place < edges.len() {
        let edge = edges[place];
        if x <= edge {
            return (place, x == edge);
        }
        place += 1;
    }
    (place, false)
}

/// Where two columns lie among the edges of a row that has none between them: how many edges lie left of both, and
/// which of the two are edges.
#[derive(Clone, Copy)]
pub struct Gap {
    pub place: usize,
    pub begins: bool,
    pub ends: bool,
}

/// Where the columns `left` and `right` lie, if the row has no edge between them.
#[inline(always)]
fn gap_of(edges: &[i32], left: i32, right: i32) -> Option<Gap>
    requires edges { IsEdges edges.now }
    requires order { left <ℤ right }
    ensures gap { IfSome result (IsGap edges.now left right) }
    ensures free { IsSome result ↔ IsFree edges.now left right }
{
    let (place, begins) = place_of(edges, left);
    let next = place + usize::from(begins);
    let ends = match edges.get(next) {
        Some(edge) if *edge < right => return None,
        Some(edge) => *edge == right,
        None => false,
    };
    Some(Gap {
        place,
        begins,
        ends,
    })
}

/// Puts two numbers at a place, and those from there on two places up, and gives the last two, which have no place.
#[inline(always)]
fn open_places(edges: &mut [i32], place: usize, x: i32, y: i32) -> (i32, i32)
    requires { place ≤ length edges.old }
    ensures { edges.new ++ result.0 ∷ result.1 ∷ [] ≡ take place edges.old ++ x ∷ y ∷ drop place edges.old }
{
    let (mut first, mut second) = (x, y);
    let mut at = place;
    while at < edges.len() {
        let edge = edges[at];
        edges[at] = first;
        first = second;
        second = edge;
        at += 1;
    }
    (first, second)
}

/// Puts the numbers after two places two places down. The last two places are not needed any more.
#[inline(always)]
fn close_places(edges: &mut [i32], place: usize)
    requires { place + 1 < length edges.old }
    ensures { take (length edges.new - 2) edges.new ≡ take place edges.old ++ drop (place + 2) edges.old }
{
    let mut at = place;
    while at + 2 < edges.len() {
        edges[at] = edges[at + 2];
        at += 1;
    }
}

/// Turns a row at the columns `left` and `right`, which lie at this gap: takes away those that are edges, and puts
/// those that are none.
#[inline(always)]
fn turn_gap(edges: &mut Vec<i32>, gap: Gap, left: i32, right: i32) -> Result<(), AllocError>
    requires { IsGap edges.old.items left right gap }
    ensures { OnOk result (edges.new.items ≡ across edges.old.items gap (only (not gap.begins) left)
        (only (not gap.ends) right)) }
{
    let place = gap.place;
    match (gap.begins, gap.ends) {
        (true, true) => {
            close_places(edges.as_mut_slice(), place);
            edges.pop();
            edges.pop();
        }
        (true, false) => edges[place] = right,
        (false, true) => edges[place] = left,
        (false, false) => {
            let (first, second) = open_places(edges.as_mut_slice(), place, left, right);
            edges.push(first)?;
            edges.push(second)?;
        }
    }
    Ok(())
}

/// Whether these are the edges of the pixels from the column `left` up to `right` alone.
#[inline(always)]
fn is_run(edges: &[i32], left: i32, right: i32) -> bool
    ensures { IsTrue result ↔ (edges.now ≡ left ∷ right ∷ []) }
{
    matches!(edges, [x, y] if *x == left && *y == right)
}

/// A row of pixels that turns: its edges, and room for those after the next turn.
#[derive(Drop)]
pub struct Turning {
    pub edges: Vec<i32>,
    room: Vec<i32>,
}

impl Turning {
    /// A row without pixels.
    pub fn new(alloc: Global) -> Turning
        ensures { result.edges.items ≡ [] }
    {
        Turning {
            edges: Vec::new(alloc),
            room: Vec::new(alloc),
        }
    }

    /// Turns the row from each of these columns on. Most often they are two, with no edge between them.
    #[inline(never)]
    fn turn_within(&mut self, columns: &[i32]) -> Result<(), AllocError>
        requires edges { IsEdges self.old.edges.items }
        requires columns { IsEdges columns.now }
        ensures pixels { OnOk result ((h : ℤ) → inside self.new.edges.items h
            ≡ differ (inside self.old.edges.items h) (inside columns.now h)) }
        ensures edges { OnOk result (IsEdges self.new.edges.items) }
    {
        if let [left, right] = columns {
            if let Some(gap) = gap_of(self.edges.as_slice(), *left, *right) {
                turn_gap(&mut self.edges, gap, *left, *right)?;
                return Ok(());
            }
        }
        keep_turned(&mut self.room, self.edges.as_slice(), columns)?;
        mem::swap(&mut self.edges, &mut self.room);
        Ok(())
    }

    /// Turns the row from each of these columns on. Most rows begin at two columns, and end there.
    #[inline(always)]
    pub fn turn(&mut self, columns: &[i32]) -> Result<(), AllocError>
        requires edges { IsEdges self.old.edges.items }
        requires columns { IsEdges columns.now }
        ensures pixels { OnOk result ((h : ℤ) → inside self.new.edges.items h
            ≡ differ (inside self.old.edges.items h) (inside columns.now h)) }
        ensures edges { OnOk result (IsEdges self.new.edges.items) }
    {
        let [left, right] = columns else {
            return self.turn_within(columns);
        };
        if self.edges.is_empty() {
            self.edges.push(*left)?;
            self.edges.push(*right)?;
            return Ok(());
        }
        if is_run(self.edges.as_slice(), *left, *right) {
            self.edges.clear();
            return Ok(());
        }
        self.turn_within(columns)
    }
}
