//! The outline of a window whose size is being changed.
ghost use Rattle.std.specs.Prelude.{◌≡◌, ◌&&◌, true, false, [], IfOk, MatchResult};
ghost use Rattle.tb_geom.specs.Points.{minus};
ghost use Rattle.tb_geom.specs.Rects.{in_plane};
ghost use Rattle.def_iface.specs.Lines.{AreApart};
ghost use Rattle.def_iface.specs.Sizes.{is_size};
ghost use Rattle.desk_call.specs.declared.activity.Activity.TheVariants as opened;
ghost use Rattle.desk_call.specs.declared.outline.OutlineCall.TheVariants as asks;
ghost use Rattle.desk_call.specs.Outlines.{IsOutlineKept, are_limits};
ghost use Rattle.window_mgr.specs.Finding.{record_with};
ghost use Rattle.window_outline.specs.Outlining.{begins, clamped, grow_lines, grown, grown_size, is_grow, other_size, same_size};
ghost use Rattle.window_outline.specs.OutlineRefusals.{AreLines};
ghost use Rattle.window_outline.specs.OutlineSteps.{IsOutlining};

use crate::Outlining;
use crate::lines::{NO_LINES, moved_lines};
use crate::reading::{moved_number, window_of};
use def_iface::Size;
use desk_call::{Activity, GrowWindow, GrownWindow, OutlineReply, SizeLimits, WindowPart};
use tb_geom::{Point, Rect, Refusal};
use window_mgr::{DeskWindows, WindowManager};

/// Begins to grow a window, where the mouse button was pressed in its grow box.
pub(crate) fn begin_grow(
    windows: &WindowManager,
    activity: Activity,
    pressed: GrowWindow,
) -> Result<Outlining, Refusal>
    requires kept { ⟦<WindowManager as DeskWindows>⟧.IsKept windows.now }
    requires outline { IsOutlineKept activity }
    ensures step { IsOutlining (asks.Grow pressed) activity result
        (⟦<WindowManager as DeskWindows>⟧.desk windows.now []) }
    ensures outline { IfOk result (λ o. IsOutlineKept o.activity) }
{
    let Some(_) = window_of(windows, pressed.window) else {
        return Err(Refusal::NoSuchWindow);
    };
    if !is_pressed(windows, pressed)? {
        return Ok(Outlining {
            reply: OutlineReply::Shown(false),
            activity,
        });
    }
    let outline = grow_lines(
        windows,
        pressed.window,
        pressed.limits,
        pressed.point,
        pressed.point,
    )?;
    Ok(Outlining {
        reply: OutlineReply::Shown(true),
        activity: Activity::Growing(GrownWindow {
            window: pressed.window,
            from: pressed.point,
            limits: pressed.limits,
            outline,
        }),
    })
}

/// Goes on to grow this window, with the mouse at this point.
pub(crate) fn step_grow(
    windows: &WindowManager,
    grown: GrownWindow,
    point: Point,
) -> Result<Outlining, Refusal>
    requires kept { ⟦<WindowManager as DeskWindows>⟧.IsKept windows.now }
    requires outline { IsOutlineKept (opened.Growing grown) }
    ensures step { IsOutlining (asks.StepGrow point) (opened.Growing grown) result
        (⟦<WindowManager as DeskWindows>⟧.desk windows.now []) }
    ensures outline { IfOk result (λ o. IsOutlineKept o.activity) }
{
    if !point.is_in_range() {
        return Err(Refusal::OutOfRange);
    }
    let outline = grow_lines(windows, grown.window, grown.limits, grown.from, point)?;
    Ok(Outlining {
        reply: OutlineReply::Sized(grown_size(windows, grown, point)),
        activity: Activity::Growing(GrownWindow {
            window: grown.window,
            from: grown.from,
            limits: grown.limits,
            outline,
        }),
    })
}

/// Ends the growing of this window, with the mouse button released at this point.
pub(crate) fn end_grow(
    windows: &WindowManager,
    grown: GrownWindow,
    point: Point,
) -> Result<Outlining, Refusal>
    requires kept { ⟦<WindowManager as DeskWindows>⟧.IsKept windows.now }
    requires outline { IsOutlineKept (opened.Growing grown) }
    ensures step { IsOutlining (asks.EndGrow point) (opened.Growing grown) result
        (⟦<WindowManager as DeskWindows>⟧.desk windows.now []) }
    ensures outline { IfOk result (λ o. IsOutlineKept o.activity) }
{
    if !point.is_in_range() {
        return Err(Refusal::OutOfRange);
    }
    let size = grown_size(windows, grown, point);
    Ok(Outlining {
        reply: OutlineReply::Sized(other_size(windows, grown.window, size)),
        activity: Activity::Idle,
    })
}

/// Whether FindWindow answers the grow box of the window where the mouse button was pressed. OutOfRange where that point is
/// out of range, or the limits are none.
fn is_pressed(windows: &WindowManager, pressed: GrowWindow) -> Result<bool, Refusal>
    requires { ⟦<WindowManager as DeskWindows>⟧.IsKept windows.now }
    ensures { MatchResult result
        (λ is. ((in_plane pressed.point && are_limits pressed.limits) ≡ true)
        × (is ≡ begins (asks.Grow pressed) (⟦<WindowManager as DeskWindows>⟧.desk windows.now [])))
        (λ e. ((in_plane pressed.point && are_limits pressed.limits) ≡ false) × (e ≡ Refusal.OutOfRange)) }
{
    let found = windows.find_window(pressed.point)?;
    if are_limits(pressed.limits) {
        Ok(is_grow(found.part) && found.window == Some(pressed.window))
    } else {
        Err(Refusal::OutOfRange)
    }
}

/// Whether the part is a grow box.
fn is_grow(part: WindowPart) -> bool
    ensures { result ≡ is_grow part }
{
    match part {
        WindowPart::InGrow => true,
        _ => false,
    }
}

/// Whether both limits are sizes, and the least is in no part above the most.
fn are_limits(limits: SizeLimits) -> bool
    ensures { result ≡ are_limits limits }
{
    (limits.least.is_in_range() && limits.most.is_in_range())
        && (limits.least.width <= limits.most.width && limits.least.height <= limits.most.height)
}

/// The lines of the window of this serial, if there is one, for the size that it is grown to between these points.
/// OutOfRange where they leave the range of coordinates.
fn grow_lines(
    windows: &WindowManager,
    serial: u64,
    limits: SizeLimits,
    from: Point,
    to: Point,
) -> Result<[Rect; 8], Refusal>
    requires kept { ⟦<WindowManager as DeskWindows>⟧.IsKept windows.now }
    requires limits { are_limits limits ≡ true }
    requires from { in_plane from ≡ true }
    requires to { in_plane to ≡ true }
    ensures lines { let desk = ⟦<WindowManager as DeskWindows>⟧.desk windows.now [] in
        AreLines (grow_lines limits (record_with serial desk.windows) from to) result }
    ensures apart { IfOk result AreApart }
{
    let Some(window) = window_of(windows, serial) else {
        return Ok(NO_LINES);
    };
    let size = grown(limits, window.size, from, to);
    moved_lines(window.taken.grow_lines(size), window.place)
}

/// The size that this window is grown to with the mouse at this point, or 0 by 0 where there is no window.
fn grown_size(windows: &WindowManager, growth: GrownWindow, to: Point) -> Size
    requires kept { ⟦<WindowManager as DeskWindows>⟧.IsKept windows.now }
    requires outline { IsOutlineKept (opened.Growing growth) }
    requires to { in_plane to ≡ true }
    ensures { let desk = ⟦<WindowManager as DeskWindows>⟧.desk windows.now [] in
        result ≡ grown_size growth.limits (record_with growth.window desk.windows) growth.from to }
{
    match window_of(windows, growth.window) {
        Some(window) => grown(growth.limits, window.size, growth.from, to),
        None => NO_SIZE,
    }
}

/// The size, or 0 by 0 where it is that of the window of this serial, or there is none.
fn other_size(windows: &WindowManager, serial: u64, size: Size) -> Size
    requires { ⟦<WindowManager as DeskWindows>⟧.IsKept windows.now }
    ensures { let desk = ⟦<WindowManager as DeskWindows>⟧.desk windows.now [] in
        result ≡ other_size (record_with serial desk.windows) size }
{
    match window_of(windows, serial) {
        Some(window) if !is_same(size, window.size) => size,
        _ => NO_SIZE,
    }
}

/// No size.
const NO_SIZE: Size = Size {
    width: 0,
    height: 0,
};

/// Whether the sizes are equal.
fn is_same(a: Size, b: Size) -> bool
    ensures { result ≡ same_size a b }
{
    a.width == b.width && a.height == b.height
}

/// The size, changed by the way between two points, within the limits.
fn grown(limits: SizeLimits, size: Size, from: Point, to: Point) -> Size
    requires limits { are_limits limits ≡ true }
    requires size { is_size size ≡ true }
    requires from { in_plane from ≡ true }
    requires to { in_plane to ≡ true }
    ensures value { result ≡ grown limits size (minus to from) }
    ensures size { is_size result ≡ true }
{
    let SizeLimits { least, most } = limits;
    Size {
        width: clamped(
            least.width,
            most.width,
            moved_number(size.width, from.h, to.h),
        ),
        height: clamped(
            least.height,
            most.height,
            moved_number(size.height, from.v, to.v),
        ),
    }
}

/// The number within its limits.
fn clamped(least: i32, most: i32, number: i32) -> i32
    ensures { result ≡ clamped least most number }
{
    least.max(most.min(number))
}
