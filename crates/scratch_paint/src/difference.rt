//! How far the screen is from the desk painted from nothing.
ghost use Rattle.std.specs.Prelude.{◌≡◌, ◌≤◌, ◌<◌, true, IfOk};
ghost use Rattle.bit_map.specs.Bits.{bit, on_map};
ghost use Rattle.desk_toolbox.specs.Boxed.{no_slots};
ghost use Rattle.scratch_paint.specs.Differences.{differs, row_differences, differences_of, difference_count};
ghost use Rattle.scratch_paint.specs.Screens.{IsAsLarge};

use crate::paint;
use bit_map::BitMap;
use desk_toolbox::{Desk, Toolbox};
use std::alloc::{AllocError, Global};
use tb_geom::Point;

/// How many pixels of the screen in no update region differ from the desk painted from nothing.
pub fn differences(alloc: Global, toolbox: &Toolbox) -> Result<usize, AllocError>
    requires { ⟦<Toolbox as Desk>⟧.IsDrawable toolbox.now }
    ensures { IfOk result (λ n. n ≡ difference_count (⟦<Toolbox as Desk>⟧.state_over toolbox.now no_slots)) }
{
    let painted = paint(alloc, toolbox)?;
    Ok(differences_from(toolbox, &painted))
}

/// How many differ from this map.
fn differences_from(toolbox: &Toolbox, painted: &BitMap) -> usize
    requires kept { ⟦<Toolbox as Desk>⟧.IsDrawable toolbox.now }
    requires large { IsAsLarge (⟦<Toolbox as Desk>⟧.state_over toolbox.now no_slots) painted.now }
    ensures { result ≡ differences_of
        (⟦<Toolbox as Desk>⟧.state_over toolbox.now no_slots)
        (bit painted.now) painted.now.width painted.now.height }
{
    let rows = painted.bounds().bottom as u16;
    let mut count = 0;
    for row in 0..rows {
        count += differences_in_row(toolbox, painted, row);
    }
    count
}

/// The same of a row.
fn differences_in_row(toolbox: &Toolbox, painted: &BitMap, row: u16) -> usize
    requires kept { ⟦<Toolbox as Desk>⟧.IsDrawable toolbox.now }
    requires large { IsAsLarge (⟦<Toolbox as Desk>⟧.state_over toolbox.now no_slots) painted.now }
    requires row { row < painted.now.height }
    ensures count { result ≡ row_differences
        (⟦<Toolbox as Desk>⟧.state_over toolbox.now no_slots)
        (bit painted.now) painted.now.width row }
    ensures few { result ≤ painted.now.width }
{
    let columns = painted.bounds().right as u16;
    let mut count = 0;
    for column in 0..columns {
        let point = Point {
            h: i32::from(column),
            v: i32::from(row),
        };
        if differs_at(toolbox, painted, point) {
            count += 1;
        }
    }
    count
}

/// Whether a pixel of the screen differs, and is in no update region.
fn differs_at(toolbox: &Toolbox, painted: &BitMap, point: Point) -> bool
    requires kept { ⟦<Toolbox as Desk>⟧.IsDrawable toolbox.now }
    requires large { IsAsLarge (⟦<Toolbox as Desk>⟧.state_over toolbox.now no_slots) painted.now }
    requires point { on_map painted.now point ≡ true }
    ensures { result ≡ differs (⟦<Toolbox as Desk>⟧.state_over toolbox.now no_slots) (bit painted.now) point }
{
    toolbox.screen().get(point) != painted.get(point) && !toolbox.windows().is_stale(point)
}
