//! Calls, one by one.
ghost use Rattle.std.specs.Prelude.{◌≡◌, [], None};
ghost use Rattle.tb_geom.specs.Points.{PixelSet};
ghost use Rattle.desk_call.specs.Gates.{control_standing, gate};
ghost use Rattle.control_mgr.specs.ControlSteps.{IsControlStep};
ghost use Rattle.control_mgr.specs.Damages.{IsWhereRight};
ghost use Rattle.control_mgr.specs.Spots.{opened};
ghost use Rattle.control_mgr.specs.WholeControls.{AreWholeControls, IsTrackable};

use crate::setting::WhichNumber;
use crate::{Controls, ControlsOnStock, DeskControls};
use def_iface::{ControlStock, TakenControl};
use desk_call::{Activity, ControlCall, ControlReply};
use tb_geom::Refusal;
use window_mgr::{DeskWindows, WindowManager};

impl Controls<TakenControl> {
    /// Performs one call on these controls of these windows, which may come while this is open, and gives its answer. A refused
    /// call changes nothing; which refusal comes first where several would do stands with the call. What is drawn of a changed
    /// control is its damage, so the step is the call's where the screen was right.
    pub fn perform(
        &mut self,
        windows: &mut WindowManager,
        activity: &mut Activity,
        call: &ControlCall<'_>,
        stock: &mut ControlStock,
    ) -> Result<ControlReply, Refusal>
        requires kept { ⟦<WindowManager as DeskWindows>⟧.IsKept windows.old }
        requires whole { AreWholeControls (⟦<WindowManager as DeskWindows>⟧.desk windows.old []).windows
            (⟦<Self as ControlsOnStock>⟧.state self.old stock.old) }
        requires trackable { IsTrackable activity.old (⟦<Self as ControlsOnStock>⟧.records self.old) }
        requires admitted { gate activity.old (control_standing call.now) ≡ None }
        ensures step { (begun : PixelSet) → ⟦<Self as DeskControls>⟧.LeavesStock stock.old stock.new
            (IsWhereRight (IsControlStep call.now result))
            windows.old (opened activity.old begun) self.old windows.new (opened activity.new begun) self.new }
        ensures trackable { IsTrackable activity.new (⟦<Self as ControlsOnStock>⟧.records self.new) }
    {
        match call {
            ControlCall::New(new) => self.make(windows, new, stock),
            ControlCall::Dispose(control) => self.dispose(windows, *control, stock),
            ControlCall::Show(control) => self.show(windows, *control, true),
            ControlCall::Hide(control) => self.show(windows, *control, false),
            ControlCall::Move(moved) => self.move_control(windows, *moved),
            ControlCall::Size(sized) => self.size_control(windows, *sized),
            ControlCall::SetValue(set) => self.set_number(windows, WhichNumber::Value, *set),
            ControlCall::SetMinimum(set) => self.set_number(windows, WhichNumber::Minimum, *set),
            ControlCall::SetMaximum(set) => self.set_number(windows, WhichNumber::Maximum, *set),
            ControlCall::Hilite(set) => self.hilite(windows, *set),
            ControlCall::SetTitle(set) => self.set_title(windows, set),
            ControlCall::Get(control) => self.get(windows, *control),
            ControlCall::Find(asked) => self.find(windows, *asked),
            ControlCall::Test(asked) => self.test(windows, *asked),
            ControlCall::Track(pressed) => self.track(windows, activity, *pressed),
            ControlCall::Step(point) => match *activity {
                Activity::TrackingControl(tracked) => self.step(windows, tracked, *point),
                _ => unreachable!(),
            },
            ControlCall::End(point) => match *activity {
                Activity::TrackingControl(tracked) => self.end(windows, activity, tracked, *point),
                _ => unreachable!(),
            },
        }
    }
}
