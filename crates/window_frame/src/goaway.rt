//! The tracking of a go-away box.
ghost use Rattle.std.specs.Prelude.{◌≡◌, MatchResult, true, false, []};
ghost use Rattle.tb_geom.specs.Points.{PixelSet};
ghost use Rattle.tb_geom.specs.Rects.{in_plane};
ghost use Rattle.desk_call.specs.declared.activity.Activity.TheVariants.{Tracking};
ghost use Rattle.desk_call.specs.declared.frame.FrameCall.TheVariants as asks;
ghost use Rattle.window_frame.specs.FrameSteps.{IsFrameStep, IsTrackingNotified, in_go_away, is_go_away};

use crate::{FrameReply, GoAwayPoint};
use def_iface::WindowChange;
use desk_call::{Activity, WindowPart};
use tb_geom::{Point, Refusal};
use window_mgr::{DeskWindows, WindowManager};

/// Begins to track the go-away box of a window, where the mouse button was pressed in it.
pub(crate) fn track_go_away(
    windows: &mut WindowManager,
    activity: &mut Activity,
    pressed: GoAwayPoint,
) -> Result<FrameReply, Refusal>
    requires kept { ⟦<WindowManager as DeskWindows>⟧.IsKept windows.old }
    ensures width { windows.new.screen.width ≡ windows.old.screen.width }
    ensures height { windows.new.screen.height ≡ windows.old.screen.height }
    ensures step { (begun : PixelSet) → ⟦<WindowManager as DeskWindows>⟧.LeavesDesk
        (IsFrameStep (asks.TrackGoAway pressed) result)
        windows.old (record { activity = activity.old; begun = begun }) windows.new
        (record { activity = activity.new; begun = begun }) }
{
    let Some(at) = windows.find(pressed.window) else {
        return Err(Refusal::NoSuchWindow);
    };
    match is_inside(windows, pressed.window, pressed.point) {
        Ok(true) => {
            *activity = Activity::Tracking(pressed.window);
            windows.notify(at, WindowChange::Tracked(true));
            Ok(FrameReply::Tracked(true))
        }
        Ok(false) => Ok(FrameReply::Tracked(false)),
        Err(refusal) => Err(refusal),
    }
}

/// Goes on to track the go-away box of this window, with the mouse at this point.
pub(crate) fn step_go_away(
    windows: &mut WindowManager,
    window: u64,
    point: Point,
) -> Result<FrameReply, Refusal>
    requires kept { ⟦<WindowManager as DeskWindows>⟧.IsKept windows.old }
    ensures width { windows.new.screen.width ≡ windows.old.screen.width }
    ensures height { windows.new.screen.height ≡ windows.old.screen.height }
    ensures step { (begun : PixelSet) → ⟦<WindowManager as DeskWindows>⟧.LeavesDesk
        (IsFrameStep (asks.StepGoAway point) result)
        windows.old (record { activity = Tracking window; begun = begun }) windows.new
        (record { activity = Tracking window; begun = begun }) }
{
    let inside = is_inside(windows, window, point)?;
    notify_tracked(windows, window, inside);
    Ok(FrameReply::Tracked(inside))
}

/// Ends the tracking of the go-away box of this window, with the mouse button released at this point.
pub(crate) fn end_go_away(
    windows: &mut WindowManager,
    activity: &mut Activity,
    window: u64,
    point: Point,
) -> Result<FrameReply, Refusal>
    requires kept { ⟦<WindowManager as DeskWindows>⟧.IsKept windows.old }
    requires tracked { activity.old ≡ Tracking window }
    ensures width { windows.new.screen.width ≡ windows.old.screen.width }
    ensures height { windows.new.screen.height ≡ windows.old.screen.height }
    ensures step { (begun : PixelSet) → ⟦<WindowManager as DeskWindows>⟧.LeavesDesk
        (IsFrameStep (asks.EndGoAway point) result)
        windows.old (record { activity = activity.old; begun = begun }) windows.new
        (record { activity = activity.new; begun = begun }) }
{
    let inside = is_inside(windows, window, point)?;
    notify_tracked(windows, window, false);
    *activity = Activity::Idle;
    Ok(FrameReply::Tracked(inside))
}

/// Whether FindWindow answers the go-away box of this window at the point. OutOfRange where the point is out of range.
fn is_inside(windows: &WindowManager, window: u64, point: Point) -> Result<bool, Refusal>
    requires { ⟦<WindowManager as DeskWindows>⟧.IsKept windows.now }
    ensures { MatchResult result
        (λ inside. (in_plane point ≡ true) × (inside ≡ in_go_away window
        (⟦<WindowManager as DeskWindows>⟧.desk windows.now []) point))
        (λ e. (in_plane point ≡ false) × (e ≡ Refusal.OutOfRange)) }
{
    let found = windows.find_window(point)?;
    Ok(is_go_away(found.part) && found.window == Some(window))
}

/// Whether the part is a go-away box.
fn is_go_away(part: WindowPart) -> bool
    ensures { result ≡ is_go_away part }
{
    match part {
        WindowPart::InGoAway => true,
        _ => false,
    }
}

/// Notifies the definition of a window, if there is one, of whether its go-away box is tracked with the mouse in it.
fn notify_tracked(windows: &mut WindowManager, window: u64, inside: bool)
    requires { ⟦<WindowManager as DeskWindows>⟧.IsKept windows.old }
    ensures { ⟦<WindowManager as DeskWindows>⟧.LeavesState (IsTrackingNotified inside window) windows.old windows.new }
{
    if let Some(at) = windows.find(window) {
        windows.notify(at, WindowChange::Tracked(inside));
    }
}
