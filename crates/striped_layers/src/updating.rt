//! Updates of windows of the library, layer by layer.
ghost use Rattle.std.specs.Prelude.{List, IfOk};
ghost use Rattle.def_iface.specs.WindowSlots.{WindowSlot};
ghost use Rattle.desk_call.specs.declared.activity.Activity.TheVariants.{Idle};

use crate::stripes::Stripes;
use desk_call::Activity;
use std::alloc::Global;
use tb_geom::Refusal;
use window_mgr::{DeskWindows, WindowManager};
use window_update::{DeskUpdates, UpdateCall, Updates};

/// What is kept for updates of these windows, with none open.
pub fn updates_for(alloc: Global, windows: &WindowManager) -> Result<Updates, Refusal>
    requires { ⟦<WindowManager as DeskWindows>⟧.IsKept windows.now }
    ensures { IfOk result (⟦<Updates as DeskUpdates>⟧.IsWhole Idle windows.now) }
{
    let sides = windows.screen().bounds();
    Ok(Updates::new(alloc, sides.right, sides.bottom)?)
}

/// Performs a call, if it may come.
pub fn update(
    windows: &mut WindowManager,
    updates: &mut Updates,
    activity: &mut Activity,
    call: &UpdateCall<'_>,
) -> Result<(), Refusal>
    requires kept { ⟦<WindowManager as DeskWindows>⟧.IsKept windows.old }
    requires whole { ⟦<Updates as DeskUpdates>⟧.IsWhole activity.old windows.old updates.old }
    ensures updates { ⟦<Updates as DeskUpdates>⟧.IsWhole activity.new windows.new updates.new }
    ensures windows { (slots : List WindowSlot) → ⟦<WindowManager as DeskWindows>⟧.IsWholeOver windows.old slots
        → ⟦<WindowManager as DeskWindows>⟧.IsWholeOver windows.new slots }
{
    activity.admit(call.nature().standing)?;
    let _done = updates.perform(windows, activity, call, &Stripes)?;
    Ok(())
}

/// Performs a call while no update is open. What is kept for updates ends with the call.
pub fn update_at_once(
    alloc: Global,
    windows: &mut WindowManager,
    call: &UpdateCall<'_>,
) -> Result<(), Refusal>
    requires { ⟦<WindowManager as DeskWindows>⟧.IsKept windows.old }
    ensures { (slots : List WindowSlot) → ⟦<WindowManager as DeskWindows>⟧.IsWholeOver windows.old slots
        → ⟦<WindowManager as DeskWindows>⟧.IsWholeOver windows.new slots }
{
    let mut updates = updates_for(alloc, windows)?;
    let mut activity = Activity::Idle;
    update(windows, &mut updates, &mut activity, call)
}
