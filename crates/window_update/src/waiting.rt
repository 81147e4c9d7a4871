//! Which window is to be updated first.
ghost use Rattle.std.specs.Prelude.{◌≡◌, ◌<◌, length, List};
ghost use Rattle.tb_geom.specs.Points.{PixelSet};
ghost use Rattle.def_iface.specs.WindowSlots.{WindowSlot};
ghost use Rattle.window_mgr.specs.DeskStates.{desk_state, is_updating};
ghost use Rattle.window_mgr.specs.Edits.{IsWindowAt};
ghost use Rattle.window_update.specs.Waiting.{IsWaiting, IsFirstToUpdate};

use def_iface::{Defined, TakenWindow};
use desk_call::Activity;
use window_mgr::{DeskWindows, WindowManager};

/// The serial of the first window, from the front, whose update region is not empty (*Inside Macintosh* I, "The Window
/// Manager", CheckUpdate). That of a window whose update is open is empty. Takes no memory.
pub fn first_to_update(windows: &WindowManager, activity: Activity) -> Option<u64>
    requires { ⟦<WindowManager as DeskWindows>⟧.IsKept windows.now }
    ensures { (begun : PixelSet) (slots : List WindowSlot) → IsFirstToUpdate
        (desk_state ⟦<TakenWindow as Defined>⟧.loan windows.now (record { activity = activity; begun = begun }) slots)
        result }
{
    let list = windows.list();
    for at in 0..list.len() {
        if is_waiting(windows, activity, at) {
            return Some(list.at(at).serial);
        }
    }
    None
}

/// Whether the window at this index is to be updated.
fn is_waiting(windows: &WindowManager, activity: Activity, at: usize) -> bool
    requires kept { ⟦<WindowManager as DeskWindows>⟧.IsKept windows.now }
    requires at { at < length windows.now.windows.records.items }
    ensures { (w : _) → IsWindowAt windows.now.windows.records.items at w → (begun : PixelSet) (slots : List WindowSlot)
        → IsWaiting w.serial
        (desk_state ⟦<TakenWindow as Defined>⟧.loan windows.now (record { activity = activity; begun = begun }) slots)
        result }
{
    if is_updating(activity, windows.list().at(at).serial) {
        return false;
    }
    !windows.area(at).update.is_empty()
}

/// Whether the update of this window is open.
fn is_updating(activity: Activity, window: u64) -> bool
    ensures { result ≡ is_updating window activity }
{
    match activity {
        Activity::Updating(open) => open == window,
        _ => false,
    }
}
