//! Definitions that are told how their windows stand.
ghost use Rattle.std.specs.Prelude.{◌≡◌, ◌<◌, length, map};
ghost use Rattle.window_mgr.specs.Edits.{IsWindowAt};
ghost use Rattle.window_frame.specs.Followers.{IsCaughtUp, IsCaughtUpBy, IsInformed, draws_told, is_behind};
ghost use Rattle.window_mgr.specs.Sparing.{Repaints};
ghost use Rattle.vis_update.specs.Records.{record_of};
ghost use Rattle.window_frame.specs.Followers.Flag.{Highlighting, Zooming};

use def_iface::{Defined, TakenWindow, WindowChange};
use desk_call::Standing;
use window_mgr::{DeskWindows, WindowManager};

/// Notifies definitions of how their windows stand, once a call of this standing was done: each that heard otherwise, and no other,
/// is told whether its window is highlighted, and whether it is zoomed, and has the frame drawn where that shows. After a call
/// that asks none is told anything. Takes no memory.
pub fn follow(windows: &mut WindowManager, standing: Standing)
    requires { ⟦<WindowManager as DeskWindows>⟧.IsKept windows.old }
    ensures told { ⟦<WindowManager as DeskWindows>⟧.LeavesState (IsCaughtUpBy standing) windows.old windows.new }
    ensures repainted { Repaints ⟦<TakenWindow as Defined>⟧.loan
        (is_behind (map (record_of ⟦<TakenWindow as Defined>⟧.loan) windows.old.windows.records.items)) windows.old
        windows.new }
{
    match standing {
        Standing::Asks => {}
        _ => inform_all(windows),
    }
}

/// Notifies the definition of each window, from front to back.
fn inform_all(windows: &mut WindowManager)
    requires { ⟦<WindowManager as DeskWindows>⟧.IsKept windows.old }
    ensures told { ⟦<WindowManager as DeskWindows>⟧.LeavesState IsCaughtUp windows.old windows.new }
    ensures repainted { Repaints ⟦<TakenWindow as Defined>⟧.loan
        (is_behind (map (record_of ⟦<TakenWindow as Defined>⟧.loan) windows.old.windows.records.items)) windows.old
        windows.new }
{
    let count = windows.list().len();
    for at in 0..count {
        notify_highlighting(windows, at);
        notify_zooming(windows, at);
    }
}

/// Notifies the definition of the window at this index of whether the window is highlighted, where it heard otherwise.
fn notify_highlighting(windows: &mut WindowManager, at: usize)
    requires kept { ⟦<WindowManager as DeskWindows>⟧.IsKept windows.old }
    requires at { at < length windows.old.windows.records.items }
    ensures told { (w : _) → IsWindowAt windows.old.windows.records.items at w
        → ⟦<WindowManager as DeskWindows>⟧.LeavesState (IsInformed Highlighting w.serial) windows.old windows.new }
    ensures repainted { (w : _) → IsWindowAt windows.old.windows.records.items at w
        → Repaints ⟦<TakenWindow as Defined>⟧.loan (draws_told Highlighting
        (record_of ⟦<TakenWindow as Defined>⟧.loan w)) windows.old windows.new }
{
    let window = windows.list().at(at);
    let highlighted = window.highlighted;
    if window.heard.highlighted != highlighted {
        windows.notify(at, WindowChange::Highlighted(highlighted));
    }
}

/// Notifies it of whether the window is zoomed, where it heard otherwise.
fn notify_zooming(windows: &mut WindowManager, at: usize)
    requires kept { ⟦<WindowManager as DeskWindows>⟧.IsKept windows.old }
    requires at { at < length windows.old.windows.records.items }
    ensures told { (w : _) → IsWindowAt windows.old.windows.records.items at w
        → ⟦<WindowManager as DeskWindows>⟧.LeavesState (IsInformed Zooming w.serial) windows.old windows.new }
    ensures repainted { (w : _) → IsWindowAt windows.old.windows.records.items at w
        → Repaints ⟦<TakenWindow as Defined>⟧.loan (draws_told Zooming (record_of ⟦<TakenWindow as Defined>⟧.loan w))
        windows.old windows.new }
{
    let window = windows.list().at(at);
    let is_zoomed = window.user_state.is_some();
    if window.heard.zoomed != is_zoomed {
        windows.notify(at, WindowChange::Zoomed(is_zoomed));
    }
}
