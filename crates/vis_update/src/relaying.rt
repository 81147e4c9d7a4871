//! What a call changes on the screen that puts in, shows, hides, moves, sizes or takes out one layer of a window.
//!
//! No window moves, so the window's own area says all: what its content owns of the screen stays as it is. A layer that is
//! drawn afresh has no stale pixel afterwards. What another layer or the picture gains becomes white, and is stale.
ghost use Rattle.std.specs.Prelude.{◌≡◌, ℕ, ◌&&◌, List, Option, IfOk};
ghost use Rattle.tb_geom.specs.declared.point.Point.{Point};
ghost use Rattle.tb_geom.specs.Pixels.{holds};
ghost use Rattle.desk_layers.specs.declared.part.Part.{Part};
ghost use Rattle.desk_layers.specs.Desk.{LayeredDesk};
ghost use Rattle.desk_layers.specs.Change.{State};
ghost use Rattle.window_list.specs.declared.layer.Layer.{Layer};
ghost use Rattle.vis_update.specs.Relayings.{IsRelayered, IsRelaid, IsDrawn, IsGained, AreOfContent, region_has};

use scan_region::Region;
use std::alloc::{AllocError, Global};

/// What a call changes on the screen that changes the layers of one window, with all the memory that it needs. Regions lie
/// in the coordinates of the screen.
#[derive(Drop)]
pub struct Relaying {
    /// What of the window's content becomes white.
    pub erase: Region,
    /// What of it is stale afterwards: the window's new update region.
    pub update: Region,
    /// What of it is drawn afresh.
    pub draw: Region,
}

/// What changes where layers gain these pixels, and those that are drawn afresh, if there are any, lie within the content of
/// a window, of which this is visible and of that this is to be redrawn. Regions lie in the coordinates of the screen. Only
/// memory may run out.
pub fn relaying_of(
    alloc: Global,
    visible: &Region,
    update: &Region,
    gained: &Region,
    drawn: Option<&Region>,
) -> Result<Relaying, AllocError>
    ensures { IfOk result (λ r. (n : ℕ) (place : Point) (afresh : Option Part) (old new : List Layer)
        (before : State) (after : LayeredDesk)
        → AreOfContent before n visible.now update.now
        → IsGained place afresh old new gained.now → IsDrawn place afresh new drawn.entry
        → IsRelayered n place old new before.desk after
        → IsRelaid n afresh before after r) }
{
    let erase = visible.sect(alloc, gained)?;
    let draw = drawn_of(alloc, visible, drawn)?;
    let stale = update.union(alloc, &erase)?;
    let update = stale.less(alloc, &draw)?;
    Ok(Relaying {
        erase,
        update,
        draw,
    })
}

/// What the region has of what is drawn, if anything is.
fn drawn_of(alloc: Global, visible: &Region, drawn: Option<&Region>) -> Result<Region, AllocError>
    ensures { IfOk result (λ draw. (p : Point) → holds draw p ≡ (holds visible.now p && region_has drawn.entry p)) }
{
    match drawn {
        Some(drawn) => visible.sect(alloc, drawn),
        None => Ok(Region::empty(alloc)),
    }
}
