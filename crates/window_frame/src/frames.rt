//! The calls about a frame.
ghost use Rattle.std.specs.Prelude.{◌≡◌, None, length, nat_lt};
ghost use Rattle.tb_geom.specs.Points.{PixelSet};
ghost use Rattle.desk_call.specs.declared.frame.FrameCall.TheVariants as asks;
ghost use Rattle.desk_call.specs.Gates.{gate, frame_standing};
ghost use Rattle.window_mgr.specs.DeskStates.{Opened};
ghost use Rattle.window_mgr.specs.Refused.{longest_text};
ghost use Rattle.window_frame.specs.FrameSteps.{IsFrameStep};

use crate::goaway::{end_go_away, step_go_away, track_go_away};
use crate::{FrameCall, FrameReply, HiliteWindow, NewTitle};
use def_iface::WindowChange;
use desk_call::Activity;
use draw_port::LONGEST_TEXT;
use tb_geom::Refusal;
use window_mgr::{DeskWindows, WindowManager};

/// Performs one call on these windows, which may come while this is open, and gives its answer. A refused call changes nothing:
/// NoSuchWindow, OutOfRange and TooLong come in this order. Takes no memory.
pub fn perform(
    windows: &mut WindowManager,
    activity: &mut Activity,
    call: &FrameCall<'_>,
) -> Result<FrameReply, Refusal>
    requires kept { ⟦<WindowManager as DeskWindows>⟧.IsKept windows.old }
    requires admitted { gate activity.old (frame_standing call.now) ≡ None }
    ensures width { windows.new.screen.width ≡ windows.old.screen.width }
    ensures height { windows.new.screen.height ≡ windows.old.screen.height }
    ensures step { (begun : PixelSet) → ⟦<WindowManager as DeskWindows>⟧.LeavesDesk (IsFrameStep call.now result)
        windows.old (record { activity = activity.old; begun = begun }) windows.new
        (record { activity = activity.new; begun = begun }) }
{
    match (call, *activity) {
        (FrameCall::SetTitle(new), _) => set_title(windows, new),
        (FrameCall::Hilite(change), _) => hilite(windows, *change),
        (FrameCall::TrackGoAway(pressed), _) => track_go_away(windows, activity, *pressed),
        (FrameCall::StepGoAway(point), Activity::Tracking(window)) => {
            step_go_away(windows, window, *point)
        }
        (FrameCall::EndGoAway(point), Activity::Tracking(window)) => {
            end_go_away(windows, activity, window, *point)
        }
        _ => unreachable!(),
    }
}

/// Gives a window another title.
fn set_title(windows: &mut WindowManager, new: &NewTitle<'_>) -> Result<FrameReply, Refusal>
    requires { ⟦<WindowManager as DeskWindows>⟧.IsKept windows.old }
    ensures width { windows.new.screen.width ≡ windows.old.screen.width }
    ensures height { windows.new.screen.height ≡ windows.old.screen.height }
    ensures step { (o : Opened) → ⟦<WindowManager as DeskWindows>⟧.LeavesDesk
        (IsFrameStep (asks.SetTitle new.now) result)
        windows.old o windows.new o }
{
    let Some(at) = windows.find(new.window) else {
        return Err(Refusal::NoSuchWindow);
    };
    let title = new.title.as_slice();
    if is_too_long(title) {
        return Err(Refusal::TooLong);
    }
    windows.notify(at, WindowChange::Titled(title));
    Ok(FrameReply::Done)
}

/// Whether a title has too many bytes.
fn is_too_long(title: &[u8]) -> bool
    ensures { result ≡ nat_lt longest_text (length title.now) }
{
    LONGEST_TEXT < title.len()
}

/// Highlights a window, or not.
fn hilite(windows: &mut WindowManager, change: HiliteWindow) -> Result<FrameReply, Refusal>
    requires { ⟦<WindowManager as DeskWindows>⟧.IsKept windows.old }
    ensures width { windows.new.screen.width ≡ windows.old.screen.width }
    ensures height { windows.new.screen.height ≡ windows.old.screen.height }
    ensures step { (o : Opened) → ⟦<WindowManager as DeskWindows>⟧.LeavesDesk (IsFrameStep (asks.Hilite change) result)
        windows.old o windows.new o }
{
    let Some(at) = windows.find(change.window) else {
        return Err(Refusal::NoSuchWindow);
    };
    windows.notify(at, WindowChange::Highlighted(change.highlighted));
    Ok(FrameReply::Done)
}
