//! The end of a drag.
ghost use Rattle.std.specs.Prelude.{◌≡◌, []};
ghost use Rattle.desk_call.specs.Outlines.{IsOutlineKept};
ghost use Rattle.window_outline.specs.Outlining.{let_go_of};

use crate::dragging::{drop_of, is_in_gray};
use desk_call::{Activity, MoveWindow, OutlineCall};
use window_mgr::{DeskWindows, WindowManager};

/// The move by which a call ends a drag, while this is open: where the mouse button was released in the gray region.
pub fn let_go(windows: &WindowManager, activity: Activity, call: &OutlineCall) -> Option<MoveWindow>
    requires kept { ⟦<WindowManager as DeskWindows>⟧.IsKept windows.now }
    requires outline { IsOutlineKept activity }
    ensures { result ≡ let_go_of call.now activity (⟦<WindowManager as DeskWindows>⟧.desk windows.now []) }
{
    match (call, activity) {
        (OutlineCall::EndDrag(point), Activity::Dragging(dragged)) => {
            if point.is_in_range() && is_in_gray(windows, *point) {
                Some(drop_of(windows, dragged, *point))
            } else {
                None
            }
        }
        _ => None,
    }
}
