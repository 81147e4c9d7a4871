//! The outline of a window that is dragged.
ghost use Rattle.std.specs.Prelude.{◌≡◌, true, false, [], IfOk, MatchResult};
ghost use Rattle.tb_geom.specs.Rects.{in_plane};
ghost use Rattle.def_iface.specs.Lines.{AreApart};
ghost use Rattle.desk_call.specs.declared.activity.Activity.TheVariants as opened;
ghost use Rattle.desk_call.specs.declared.outline.OutlineCall.TheVariants as asks;
ghost use Rattle.desk_call.specs.Outlines.{IsOutlineKept};
ghost use Rattle.window_mgr.specs.Finding.{record_with};
ghost use Rattle.window_outline.specs.Outlining.{begins, drag_lines, drop_of, in_gray, is_drag};
ghost use Rattle.window_outline.specs.OutlineRefusals.{AreLines};
ghost use Rattle.window_outline.specs.OutlineSteps.{IsOutlining};

use crate::Outlining;
use crate::lines::{NO_LINES, moved_lines};
use crate::reading::{moved_place, window_of};
use def_iface::frame_lines;
use desk_call::{Activity, DragWindow, DraggedWindow, MoveWindow, OutlineReply, WindowPart};
use tb_geom::{Point, Rect, Refusal};
use window_mgr::{DeskWindows, WindowManager};

/// Whether the point lies in the gray region: on the screen, below the rows of the menu bar.
pub(crate) fn is_in_gray(windows: &WindowManager, point: Point) -> bool
    ensures { result ≡ in_gray (⟦<WindowManager as DeskWindows>⟧.desk windows.now []) point }
{
    windows.screen().bounds().contains(point) && !(point.v < windows.parts().bar)
}

/// The move by which a drag ends where the mouse button is released at this point, which lies in the range of coordinates: the
/// window goes the way that the mouse came, and is selected.
pub(crate) fn drop_of(windows: &WindowManager, dragged: DraggedWindow, point: Point) -> MoveWindow
    requires kept { ⟦<WindowManager as DeskWindows>⟧.IsKept windows.now }
    requires outline { IsOutlineKept (opened.Dragging dragged) }
    requires point { in_plane point ≡ true }
    ensures { result ≡ drop_of dragged point (⟦<WindowManager as DeskWindows>⟧.desk windows.now []) }
{
    let place = match window_of(windows, dragged.window) {
        Some(window) => window.place,
        None => Point { h: 0, v: 0 },
    };
    MoveWindow {
        window: dragged.window,
        place: moved_place(place, dragged.from, point),
        select: true,
    }
}

/// Begins to drag a window, where the mouse button was pressed in its drag region.
pub(crate) fn begin_drag(
    windows: &WindowManager,
    activity: Activity,
    pressed: DragWindow,
) -> Result<Outlining, Refusal>
    requires kept { ⟦<WindowManager as DeskWindows>⟧.IsKept windows.now }
    requires outline { IsOutlineKept activity }
    ensures step { IsOutlining (asks.Drag pressed) activity result
        (⟦<WindowManager as DeskWindows>⟧.desk windows.now []) }
    ensures outline { IfOk result (λ o. IsOutlineKept o.activity) }
{
    let Some(_) = window_of(windows, pressed.window) else {
        return Err(Refusal::NoSuchWindow);
    };
    if !is_pressed(windows, pressed)? {
        return Ok(Outlining {
            reply: OutlineReply::Shown(false),
            activity,
        });
    }
    let outline = drag_lines(windows, pressed.window, pressed.point, pressed.point)?;
    Ok(Outlining {
        reply: OutlineReply::Shown(true),
        activity: Activity::Dragging(DraggedWindow {
            window: pressed.window,
            from: pressed.point,
            outline,
        }),
    })
}

/// Goes on to drag this window, with the mouse at this point.
pub(crate) fn step_drag(
    windows: &WindowManager,
    dragged: DraggedWindow,
    point: Point,
) -> Result<Outlining, Refusal>
    requires kept { ⟦<WindowManager as DeskWindows>⟧.IsKept windows.now }
    requires outline { IsOutlineKept (opened.Dragging dragged) }
    ensures step { IsOutlining (asks.StepDrag point) (opened.Dragging dragged) result
        (⟦<WindowManager as DeskWindows>⟧.desk windows.now []) }
    ensures outline { IfOk result (λ o. IsOutlineKept o.activity) }
{
    if !point.is_in_range() {
        return Err(Refusal::OutOfRange);
    }
    let outline = drag_lines(windows, dragged.window, dragged.from, point)?;
    Ok(Outlining {
        reply: OutlineReply::Shown(is_in_gray(windows, point)),
        activity: Activity::Dragging(DraggedWindow {
            window: dragged.window,
            from: dragged.from,
            outline,
        }),
    })
}

/// Ends the drag of a window, while this is open, with the mouse button released at this point.
pub(crate) fn end_drag(
    windows: &WindowManager,
    activity: Activity,
    point: Point,
) -> Result<Outlining, Refusal>
    ensures step { IsOutlining (asks.EndDrag point) activity result
        (⟦<WindowManager as DeskWindows>⟧.desk windows.now []) }
    ensures outline { IfOk result (λ o. IsOutlineKept o.activity) }
{
    if !point.is_in_range() {
        return Err(Refusal::OutOfRange);
    }
    Ok(Outlining {
        reply: OutlineReply::Shown(is_in_gray(windows, point)),
        activity: Activity::Idle,
    })
}

/// Whether FindWindow answers the drag region of the window where the mouse button was pressed. OutOfRange where that point
/// is out of range.
fn is_pressed(windows: &WindowManager, pressed: DragWindow) -> Result<bool, Refusal>
    requires { ⟦<WindowManager as DeskWindows>⟧.IsKept windows.now }
    ensures { MatchResult result
        (λ is. (in_plane pressed.point ≡ true) × (is ≡ begins (asks.Drag pressed)
        (⟦<WindowManager as DeskWindows>⟧.desk windows.now [])))
        (λ e. (in_plane pressed.point ≡ false) × (e ≡ Refusal.OutOfRange)) }
{
    let found = windows.find_window(pressed.point)?;
    Ok(is_drag(found.part) && found.window == Some(pressed.window))
}

/// Whether the part is a drag region.
fn is_drag(part: WindowPart) -> bool
    ensures { result ≡ is_drag part }
{
    match part {
        WindowPart::InDrag => true,
        _ => false,
    }
}

/// The lines that are shown of the window of this serial, if there is one, where the mouse was pressed at one point and is at
/// another: none off the gray region. OutOfRange where they leave the range of coordinates.
fn drag_lines(
    windows: &WindowManager,
    serial: u64,
    from: Point,
    to: Point,
) -> Result<[Rect; 8], Refusal>
    requires kept { ⟦<WindowManager as DeskWindows>⟧.IsKept windows.now }
    requires from { in_plane from ≡ true }
    requires to { in_plane to ≡ true }
    ensures lines { let desk = ⟦<WindowManager as DeskWindows>⟧.desk windows.now [] in
        AreLines (drag_lines desk (record_with serial desk.windows) from to) result }
    ensures apart { IfOk result AreApart }
{
    let Some(window) = window_of(windows, serial) else {
        return Ok(NO_LINES);
    };
    if !is_in_gray(windows, to) {
        return Ok(NO_LINES);
    }
    let place = moved_place(window.place, from, to);
    moved_lines(frame_lines(window.taken.bounds(window.size)), place)
}
