//! A scroll of a window's picture: it moves in the window's content, and no window moves.
//!
//! The picture has what the window shows of its content, less what the layers in front of it cover. A pixel of it that
//! came from the picture keeps its value, and is stale where it was; all others of it become white and stale. The
//! layers in front stay as they are.
ghost use Rattle.std.specs.Prelude.{ℕ, IfOk};
ghost use Rattle.desk_layers.specs.Change.{State};
ghost use Rattle.vis_update.specs.Areas.{IsArea, IsNear};
ghost use Rattle.vis_update.specs.Contents.{IsCovered, IsScrollPlan};

use crate::Area;
use crate::sweep::carried_by;
use scan_region::Region;
use std::alloc::{AllocError, Global};
use tb_geom::Point;

/// What a scroll of a window's picture changes on the screen, with all the memory that it needs.
#[derive(Drop)]
pub struct Scrolled {
    /// What of the picture was not its own before, and becomes white.
    pub erase: Region,
    /// What of the window's content is not yet drawn after the scroll.
    pub update: Region,
    /// Where pixels of the picture arrive.
    pub copied: Region,
}

/// The plan for a window whose picture moves by so much in its content. The area is what it has on the screen, and
/// `covered`, on the screen too, is what layers in front of the picture have of its content; elsewhere it may have any
/// pixels.
pub fn scroll_of(
    alloc: Global,
    area: &Area,
    covered: &Region,
    by: Point,
) -> Result<Scrolled, AllocError>
    requires near { IsNear area.now.visible }
    requires near_update { IsNear area.now.update }
    ensures { IfOk result (λ s. (before : State) (serial : ℕ) → IsArea before.desk before.stale serial area.now
        → IsCovered before.desk serial covered.now → IsScrollPlan serial by before s) }
{
    let picture = area.visible.diff(alloc, covered)?;
    let copied = carried_by(alloc, &picture, by, &picture)?;
    let erase = picture.diff(alloc, &copied)?;
    let others = area.update.diff(alloc, &picture)?;
    let moved = carried_by(alloc, &area.update, by, &copied)?;
    let update = others
        .joined(alloc, erase.copy(alloc)?)?
        .joined(alloc, moved)?;
    Ok(Scrolled {
        erase,
        update,
        copied,
    })
}
