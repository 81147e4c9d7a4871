//! The row kernel: what is kept of a row beside another one.
ghost use Rattle.std.specs.Prelude.{◌≡◌, ◌≤◌, ◌&&◌, ◌++◌, length, OnOk, ℤ, ◌<ℤ◌, ◌≤ℤ◌};
ghost use Rattle.tb_geom.specs.Rects.{between};
ghost use Rattle.region_rows.specs.Cursor.{IsCountTo, IsCount};
ghost use Rattle.region_rows.specs.Edges.{alike, differ, inside, is_odd, kept, only, IsClimb, IsCoordinate, IsEdges, IsRow};

use std::alloc::AllocError;

/// Which pixels of a row are kept beside another one.
#[derive(Clone, Copy)]
pub enum Kept {
    /// Those that the other one has too.
    Shared,
    /// Those that the other one lacks.
    Alone,
    /// All.
    All,
}

/// How far a row has been read: the place of its next edge, and whether the pixels before that
/// edge are in the row.
#[derive(Clone, Copy)]
pub struct Cursor {
    pub next: usize,
    pub inside: bool,
}

impl Cursor {
    pub const START: Cursor = Cursor {
        next: 0,
        inside: false,
    };
}

/// Goes on past the edges up to the column `x`.
#[inline(always)]
pub fn count_to(edges: &[i32], from: Cursor, x: i32) -> Cursor
    requires within { from.next ≤ length edges.now }
    requires odd { is_odd from.next ≡ from.inside }
    ensures count { (w : ℤ) → w ≤ℤ x → IsCountTo edges.now from.next w → IsCount edges.now result.next x }
    ensures odd { is_odd result.next ≡ result.inside }
    ensures on { from.next ≤ result.next }
    ensures within { result.next ≤ length edges.now }
{
    let mut at = from;
    while at.next < edges.len() {
        if x < edges[at.next] {
            return at;
        }
        at = Cursor {
            next: at.next + 1,
            inside: !at.inside,
        };
    }
    at
}

/// Adds an edge, if it is one.
#[inline(always)]
fn push_if(edges: &mut Vec<i32>, is_edge: bool, x: i32) -> Result<(), AllocError>
    ensures { OnOk result (edges.new.items ≡ edges.old.items ++ only is_edge x) }
{
    if is_edge {
        edges.push(x)?;
        return Ok(());
    }
    Ok(())
}

/// Adds edges, of which there are few.
#[inline(always)]
pub fn push_all(out: &mut Vec<i32>, edges: &[i32]) -> Result<(), AllocError>
    ensures { OnOk result (out.new.items ≡ out.old.items ++ edges.now) }
{
    for &x in edges {
        out.push(x)?;
    }
    Ok(())
}

/// Adds the edges of the pixels from the column `left` up to `right` at which another row is in, where
/// `within`, and else out.
#[inline(always)]
fn add_run(
    out: &mut Vec<i32>,
    left: i32,
    right: i32,
    edges: &[i32],
    within: bool,
) -> Result<(), AllocError>
    requires edges { IsEdges edges.now }
    requires left_in { IsCoordinate left }
    requires right_in { IsCoordinate right }
    requires order { left <ℤ right }
    ensures climb { OnOk result ((low high : ℤ) → IsClimb low out.old.items high → high <ℤ left
        → IsClimb low out.new.items right) }
    ensures pixels { OnOk result ((h : ℤ) → inside out.new.items h
        ≡ differ (inside out.old.items h) (between left h right && alike within (inside edges.now h))) }
{
    let from = count_to(edges, Cursor::START, left);
    let to = count_to(edges, from, right - 1);
    push_if(out, within == from.inside, left)?;
    push_all(out, &edges[from.next..to.next])?;
    push_if(out, within == to.inside, right)?;
    Ok(())
}

/// Makes `out` the edges of the pixels of a row at which another one is in, where `within`, and else out.
#[inline(always)]
fn keep_runs(out: &mut Vec<i32>, row: &[i32], edges: &[i32], within: bool) -> Result<(), AllocError>
    requires row { IsRow row.now }
    requires edges { IsEdges edges.now }
    ensures pixels { OnOk result ((h : ℤ)
        → inside out.new.items h ≡ (inside row.now h && alike within (inside edges.now h))) }
    ensures row { OnOk result (IsRow out.new.items) }
{
    out.clear();
    let mut rest = row;
    while let [left, right, after @ ..] = rest {
        add_run(out, *left, *right, edges, within)?;
        rest = after;
    }
    Ok(())
}

/// Makes `out` the edges of the pixels of a row that are kept beside another one.
#[inline(always)]
pub fn keep_part(
    out: &mut Vec<i32>,
    row: &[i32],
    edges: &[i32],
    what: Kept,
) -> Result<(), AllocError>
    requires row { IsRow row.now }
    requires edges { IsEdges edges.now }
    ensures pixels { OnOk result ((h : ℤ)
        → inside out.new.items h ≡ kept what (inside row.now h) (inside edges.now h)) }
    ensures row { OnOk result (IsRow out.new.items) }
{
    match what {
        Kept::Shared => keep_runs(out, row, edges, true),
        Kept::Alone => keep_runs(out, row, edges, false),
        Kept::All => {
            out.clear();
            push_all(out, row)?;
            Ok(())
        }
    }
}
