//! What is asked about controls.
ghost use Rattle.std.specs.Prelude.{◌≡◌, ◌<◌, [], length, true, is_some};
ghost use Rattle.tb_geom.specs.Rects.{in_plane};
ghost use Rattle.window_items.specs.Items.{count_of};
ghost use Rattle.control_mgr.specs.Seen.{seen};
ghost use Rattle.desk_call.specs.declared.control.ControlCall.TheVariants as asks;
ghost use Rattle.window_mgr.specs.DeskStates.{Opened};
ghost use Rattle.window_mgr.specs.Edits.{IsWindowAt};
ghost use Rattle.control_mgr.specs.ControlDesks.{index_of};
ghost use Rattle.control_mgr.specs.ControlSteps.{IsControlStep, found_from, found_in};
ghost use Rattle.control_mgr.specs.Judged.{is_within, part_tested, part_under};
ghost use Rattle.control_mgr.specs.Settled.{AreSettled, IsSettledControl};

use crate::{Control, Controls, ControlsOnStock, DeskControls};
use control_values::ControlPart;
use def_iface::{Defined, TakenControl};
use desk_call::{
    ControlInfo, ControlOf, ControlReply, FoundControl, PointAtControl, PointInWindow,
};
use desk_layers::Part;
use tb_geom::{Point, Rect, Refusal};
use window_items::Item;
use window_list::{local, picture_place};
use window_mgr::{DeskWindows, WindowManager};

/// Whether a point of its window lies in a control's rectangle, widened by so much on each side.
pub(crate) fn is_within(control: &Item<Control<TakenControl>>, margin: u8, point: Point) -> bool
    requires settled { IsSettledControl (seen ⟦<TakenControl as Defined>⟧.loan control.now) }
    requires point { in_plane point ≡ true }
    ensures { result ≡ is_within margin (seen ⟦<TakenControl as Defined>⟧.loan control.now) point }
{
    let margin = i32::from(margin);
    let widened = Rect {
        left: -margin,
        top: -margin,
        right: control.kept.size.width + margin,
        bottom: control.kept.size.height + margin,
    };
    widened.contains(local(point, control.kept.place))
}

/// The part of a control that a point of its window lies in, by its definition.
fn part_under(control: &Item<Control<TakenControl>>, point: Point) -> Option<ControlPart>
    requires settled { IsSettledControl (seen ⟦<TakenControl as Defined>⟧.loan control.now) }
    requires point { in_plane point ≡ true }
    ensures { result ≡ part_under (seen ⟦<TakenControl as Defined>⟧.loan control.now) point }
{
    control
        .kept
        .definition
        .hit(local(point, control.kept.place))
}

/// The part of a control, of itself, that a point of its window lies in: none of one that is hidden or inactive.
pub(crate) fn part_tested(
    control: &Item<Control<TakenControl>>,
    point: Point,
) -> Option<ControlPart>
    requires settled { IsSettledControl (seen ⟦<TakenControl as Defined>⟧.loan control.now) }
    requires point { in_plane point ≡ true }
    ensures { result ≡ part_tested (seen ⟦<TakenControl as Defined>⟧.loan control.now) point }
{
    if control.kept.shown && !control.kept.highlight.is_inactive() && is_within(control, 0, point) {
        part_under(control, point)
    } else {
        None
    }
}

/// A control, and the part of it that a point of its window lies in. An inactive one is not found.
fn found_in(control: &Item<Control<TakenControl>>, point: Point) -> Option<FoundControl>
    requires settled { IsSettledControl (seen ⟦<TakenControl as Defined>⟧.loan control.now) }
    requires point { in_plane point ≡ true }
    ensures { result ≡ found_in (seen ⟦<TakenControl as Defined>⟧.loan control.now) point }
{
    if control.kept.highlight.is_inactive() {
        return None;
    }
    match part_under(control, point) {
        Some(part) => Some(FoundControl {
            part,
            control: control.serial,
        }),
        None => None,
    }
}

impl Controls<TakenControl> {
    /// Whether the control is there.
    pub fn has(&self, control: ControlOf) -> bool
        ensures { result ≡ is_some (index_of control (⟦<Self as ControlsOnStock>⟧.records self.now)) }
    {
        self.list.find(control.window, control.control).is_some()
    }

    /// How many controls the window has.
    pub fn count(&self, window: u64) -> usize
        ensures { result ≡ count_of window (⟦<Self as ControlsOnStock>⟧.records self.now) }
    {
        self.list.count(window)
    }

    /// What is told of a control.
    pub(crate) fn get(
        &self,
        windows: &WindowManager,
        control: ControlOf,
    ) -> Result<ControlReply, Refusal>
        requires kept { ⟦<WindowManager as DeskWindows>⟧.IsKept windows.now }
        ensures { (o : Opened) → ⟦<Self as DeskControls>⟧.Leaves
            (IsControlStep (asks.Get control) result) windows.now o self.now windows.now o self.now }
    {
        let spot = self.spot(windows, control)?;
        let control = &self.list.items[spot.control];
        Ok(ControlReply::Info(ControlInfo {
            values: control.kept.values,
            highlight: control.kept.highlight,
            shown: control.kept.shown,
        }))
    }

    /// The part of a control that a point of its window lies in.
    pub(crate) fn test(
        &self,
        windows: &WindowManager,
        asked: PointAtControl,
    ) -> Result<ControlReply, Refusal>
        requires kept { ⟦<WindowManager as DeskWindows>⟧.IsKept windows.now }
        requires beside { ⟦<Self as DeskControls>⟧.AreBeside windows.now self.now }
        ensures { (o : Opened) → ⟦<Self as DeskControls>⟧.Leaves
            (IsControlStep (asks.Test asked) result) windows.now o self.now windows.now o self.now }
    {
        let spot = self.spot(windows, asked.control)?;
        if !asked.point.is_in_range() {
            return Err(Refusal::OutOfRange);
        }
        let control = &self.list.items[spot.control];
        Ok(ControlReply::Part(part_tested(control, asked.point)))
    }

    /// Which control owns the pixel at a point of a window, and which part of it the point lies in.
    pub(crate) fn find(
        &self,
        windows: &WindowManager,
        asked: PointInWindow,
    ) -> Result<ControlReply, Refusal>
        requires kept { ⟦<WindowManager as DeskWindows>⟧.IsKept windows.now }
        requires beside { ⟦<Self as DeskControls>⟧.AreBeside windows.now self.now }
        ensures { (o : Opened) → ⟦<Self as DeskControls>⟧.Leaves
            (IsControlStep (asks.Find asked) result) windows.now o self.now windows.now o self.now }
    {
        let Some(at) = windows.find(asked.window) else {
            return Err(Refusal::NoSuchWindow);
        };
        if !asked.point.is_in_range() {
            return Err(Refusal::OutOfRange);
        }
        Ok(ControlReply::Found(self.found_at(windows, at, asked.point)))
    }

    /// Which control owns the pixel at a point of the window at this index.
    fn found_at(&self, windows: &WindowManager, at: usize, point: Point) -> Option<FoundControl>
        requires kept { ⟦<WindowManager as DeskWindows>⟧.IsKept windows.now }
        requires settled { AreSettled (⟦<Self as ControlsOnStock>⟧.records self.now) }
        requires at { at < length windows.now.windows.records.items }
        requires point { in_plane point ≡ true }
        ensures { (w : _) → IsWindowAt windows.now.windows.records.items at w
            → result ≡ found_from (⟦<WindowManager as DeskWindows>⟧.desk windows.now [])
            (⟦<Self as ControlsOnStock>⟧.records self.now) w.serial w.place point }
    {
        let window = windows.list().at(at);
        let pixel = picture_place(window.place, point);
        if !windows.area(at).visible.contains(pixel) {
            return None;
        }
        match window.layers.part_at(point) {
            Part::Control(serial) => {
                let there = self.list.find(window.serial, serial)?;
                found_in(&self.list.items[there], point)
            }
            _ => None,
        }
    }
}
