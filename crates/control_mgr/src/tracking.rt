//! The tracking of a control's part.
ghost use Rattle.std.specs.Prelude.{◌≡◌, ◌<◌, Some, true, length, slice_get, IfSome};
ghost use Rattle.tb_geom.specs.Points.{PixelSet};
ghost use Rattle.tb_geom.specs.Rects.{in_plane};
ghost use Rattle.desk_call.specs.declared.activity.Activity.TheVariants.{Idle, TrackingControl};
ghost use Rattle.desk_call.specs.declared.control.ControlOf.{ControlOf as Named};
ghost use Rattle.desk_call.specs.declared.control.ControlCall.TheVariants as asks;
ghost use Rattle.window_mgr.specs.DeskStates.{Opened};
ghost use Rattle.control_mgr.specs.Fields.{with_highlight};
ghost use Rattle.control_mgr.specs.ControlDesks.{index_of};
ghost use Rattle.control_mgr.specs.ControlSteps.{IsControlStep, IsHighlighted, dragged, highlight_after, highlight_of};
ghost use Rattle.control_mgr.specs.ControlSteps.{is_part, is_thumb, released_setting, tracked_part};
ghost use Rattle.control_mgr.specs.Damages.{IsPut, IsWhereRight};
ghost use Rattle.control_mgr.specs.Spots.{IsSpot, IsSpotOf, opened};
ghost use Rattle.control_mgr.specs.Settled.{AreSettled};
ghost use Rattle.control_mgr.specs.WholeControls.{IsTrackable};

use crate::asking::{is_within, part_tested};
use crate::spots::ControlAt;
use crate::{Controls, ControlsOnStock, DeskControls};
use control_values::{ControlPart, ControlValues, Highlight};
use def_iface::{Defined, TakenControl, TakenWindow};
use desk_call::{Activity, ControlReply, PointAtControl, TrackedControl};
use tb_geom::{Point, Refusal};
use window_list::local;
use window_mgr::{DeskWindows, WindowManager};

/// So far outside of a control's rectangle its thumb may be dragged.
const SLOP: u8 = 16;

/// How a control is highlighted of which this part is, or none.
fn highlight_of(part: Option<ControlPart>) -> Highlight
    ensures { result ≡ highlight_of part }
{
    match part {
        Some(part) => Highlight::of_part(part),
        None => Highlight::none(),
    }
}

/// How a control is highlighted once the tracking of a part ended, where it was highlighted so: the tracking of a thumb leaves that.
fn highlight_after(part: ControlPart, highlight: Highlight) -> Highlight
    ensures { result ≡ highlight_after part highlight }
{
    if is_thumb(part) {
        return highlight;
    }
    Highlight::none()
}

/// Whether the part is a thumb.
fn is_thumb(part: ControlPart) -> bool
    ensures { result ≡ is_thumb part }
{
    match part {
        ControlPart::Thumb => true,
        _ => false,
    }
}

/// Whether a point that lies in this part of a control, or in none, lies in the part that is tracked.
fn is_part(part: ControlPart, found: Option<ControlPart>) -> bool
    ensures { result ≡ is_part part found }
{
    match found {
        Some(found) => found.number() == part.number(),
        None => false,
    }
}

impl Controls<TakenControl> {
    /// The part that is tracked, where the point lies in it.
    fn tracked_part(&self, at: usize, tracked: TrackedControl, point: Point) -> Option<ControlPart>
        requires at { at < length self.now.list.items.items }
        requires settled { AreSettled (⟦<Self as ControlsOnStock>⟧.records self.now) }
        requires point { in_plane point ≡ true }
        ensures { result ≡ tracked_part tracked (slice_get (⟦<Self as ControlsOnStock>⟧.records self.now) at) point }
    {
        let control = &self.list.items[at];
        let inside = if is_thumb(tracked.part) {
            is_within(control, SLOP, point)
        } else {
            is_part(tracked.part, part_tested(control, point))
        };
        if inside { Some(tracked.part) } else { None }
    }

    /// The setting of a control whose thumb was dragged so far.
    fn dragged(&self, at: usize, tracked: TrackedControl, point: Point) -> ControlValues
        requires at { at < length self.now.list.items.items }
        requires settled { AreSettled (⟦<Self as ControlsOnStock>⟧.records self.now) }
        requires from { in_plane tracked.from ≡ true }
        requires point { in_plane point ≡ true }
        ensures { IfSome (slice_get (⟦<Self as ControlsOnStock>⟧.records self.now) at)
            (λ c. result ≡ dragged tracked point c) }
    {
        let control = &self.list.items[at];
        let from = local(tracked.from, control.kept.place);
        let to = local(point, control.kept.place);
        let mut values = control.kept.values;
        values
            .set_value(i32::from(control.kept.definition.thumb_value(from, to)))
            .unwrap();
        values
    }

    /// The setting of a control once the mouse button was released: its thumb may have been dragged.
    fn released_values(
        &self,
        at: usize,
        tracked: TrackedControl,
        point: Point,
        part: Option<ControlPart>,
    ) -> ControlValues
        requires at { at < length self.now.list.items.items }
        requires settled { AreSettled (⟦<Self as ControlsOnStock>⟧.records self.now) }
        requires from { in_plane tracked.from ≡ true }
        requires point { in_plane point ≡ true }
        ensures { IfSome (slice_get (⟦<Self as ControlsOnStock>⟧.records self.now) at)
            (λ c. result ≡ released_setting tracked point part c) }
    {
        if is_thumb(tracked.part) && part.is_some() {
            return self.dragged(at, tracked, point);
        }
        self.list.items[at].kept.values
    }

    /// Highlights a control, and draws it within the damage where it is not to be redrawn.
    fn highlight(&mut self, windows: &mut WindowManager, spot: ControlAt, highlight: Highlight)
        requires kept { ⟦<WindowManager as DeskWindows>⟧.IsKept windows.old }
        requires beside { ⟦<Self as DeskControls>⟧.AreBeside windows.old self.old }
        requires spot { IsSpot ⟦<TakenWindow as Defined>⟧.loan ⟦<TakenControl as Defined>⟧.loan windows.old self.old
            spot }
        ensures { (c : Named) → IsSpotOf ⟦<TakenWindow as Defined>⟧.loan ⟦<TakenControl as Defined>⟧.loan c windows.old
            self.old spot
            → (o u : Opened) → ⟦<Self as DeskControls>⟧.Leaves
            (IsPut c (with_highlight highlight)) windows.old o self.old windows.new u self.new }
    {
        let mut state = self.state(spot.control);
        state.highlight = highlight;
        self.put(windows, spot, state);
    }

    /// Highlights a control of which this part is tracked, if that is no thumb.
    fn highlight_part(
        &mut self,
        windows: &mut WindowManager,
        spot: ControlAt,
        tracked: ControlPart,
        highlight: Highlight,
    )
        requires kept { ⟦<WindowManager as DeskWindows>⟧.IsKept windows.old }
        requires beside { ⟦<Self as DeskControls>⟧.AreBeside windows.old self.old }
        requires spot { IsSpot ⟦<TakenWindow as Defined>⟧.loan ⟦<TakenControl as Defined>⟧.loan windows.old self.old
            spot }
        ensures shown { (c : Named) → IsSpotOf ⟦<TakenWindow as Defined>⟧.loan ⟦<TakenControl as Defined>⟧.loan c
            windows.old self.old spot
            → (o u : Opened) → ⟦<Self as DeskControls>⟧.Leaves
            (IsWhereRight (IsHighlighted (is_thumb tracked) c highlight)) windows.old o self.old windows.new u
            self.new }
        ensures there { (c : Named) → index_of c (⟦<Self as ControlsOnStock>⟧.records self.new)
            ≡ index_of c (⟦<Self as ControlsOnStock>⟧.records self.old) }
    {
        if is_thumb(tracked) {
            return;
        }
        self.highlight(windows, spot, highlight);
    }

    /// The mouse button was pressed at a point of a control's window.
    pub(crate) fn track(
        &mut self,
        windows: &mut WindowManager,
        activity: &mut Activity,
        pressed: PointAtControl,
    ) -> Result<ControlReply, Refusal>
        requires kept { ⟦<WindowManager as DeskWindows>⟧.IsKept windows.old }
        requires beside { ⟦<Self as DeskControls>⟧.AreBeside windows.old self.old }
        requires idle { activity.old ≡ Idle }
        ensures step { (begun : PixelSet) → ⟦<Self as DeskControls>⟧.Leaves
            (IsWhereRight (IsControlStep (asks.Track pressed) result))
            windows.old (opened activity.old begun) self.old windows.new (opened activity.new begun) self.new }
        ensures trackable { IsTrackable activity.new (⟦<Self as ControlsOnStock>⟧.records self.new) }
    {
        let spot = self.spot(windows, pressed.control)?;
        if !pressed.point.is_in_range() {
            return Err(Refusal::OutOfRange);
        }
        match part_tested(&self.list.items[spot.control], pressed.point) {
            Some(part) => {
                self.highlight_part(windows, spot, part, Highlight::of_part(part));
                *activity = Activity::TrackingControl(TrackedControl {
                    control: pressed.control,
                    part,
                    from: pressed.point,
                });
                Ok(ControlReply::Part(Some(part)))
            }
            None => Ok(ControlReply::Part(None)),
        }
    }

    /// The mouse is at a point of the window while a part of a control is tracked.
    pub(crate) fn step(
        &mut self,
        windows: &mut WindowManager,
        tracked: TrackedControl,
        point: Point,
    ) -> Result<ControlReply, Refusal>
        requires kept { ⟦<WindowManager as DeskWindows>⟧.IsKept windows.old }
        requires beside { ⟦<Self as DeskControls>⟧.AreBeside windows.old self.old }
        requires trackable { IsTrackable (TrackingControl tracked) (⟦<Self as ControlsOnStock>⟧.records self.old) }
        ensures step { (begun : PixelSet) → ⟦<Self as DeskControls>⟧.Leaves
            (IsWhereRight (IsControlStep (asks.Step point) result))
            windows.old (opened (TrackingControl tracked) begun) self.old windows.new
            (opened (TrackingControl tracked) begun) self.new }
        ensures trackable { IsTrackable (TrackingControl tracked) (⟦<Self as ControlsOnStock>⟧.records self.new) }
    {
        if !point.is_in_range() {
            return Err(Refusal::OutOfRange);
        }
        let spot = self.spot(windows, tracked.control)?;
        let part = self.tracked_part(spot.control, tracked, point);
        self.highlight_part(windows, spot, tracked.part, highlight_of(part));
        Ok(ControlReply::Part(part))
    }

    /// The mouse button was released at a point of the window while a part of a control is tracked.
    pub(crate) fn end(
        &mut self,
        windows: &mut WindowManager,
        activity: &mut Activity,
        tracked: TrackedControl,
        point: Point,
    ) -> Result<ControlReply, Refusal>
        requires kept { ⟦<WindowManager as DeskWindows>⟧.IsKept windows.old }
        requires beside { ⟦<Self as DeskControls>⟧.AreBeside windows.old self.old }
        requires tracking { activity.old ≡ TrackingControl tracked }
        requires trackable { IsTrackable (TrackingControl tracked) (⟦<Self as ControlsOnStock>⟧.records self.old) }
        ensures step { (begun : PixelSet) → ⟦<Self as DeskControls>⟧.Leaves
            (IsWhereRight (IsControlStep (asks.End point) result))
            windows.old (opened activity.old begun) self.old windows.new (opened activity.new begun) self.new }
        ensures trackable { IsTrackable activity.new (⟦<Self as ControlsOnStock>⟧.records self.new) }
    {
        if !point.is_in_range() {
            return Err(Refusal::OutOfRange);
        }
        let spot = self.spot(windows, tracked.control)?;
        let part = self.tracked_part(spot.control, tracked, point);
        let mut state = self.state(spot.control);
        state.highlight = highlight_after(tracked.part, state.highlight);
        state.values = self.released_values(spot.control, tracked, point, part);
        self.put(windows, spot, state);
        *activity = Activity::Idle;
        Ok(ControlReply::Part(part))
    }
}
