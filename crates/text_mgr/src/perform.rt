//! Calls, one by one.
ghost use Rattle.std.specs.Prelude.{◌≡◌, None};
ghost use Rattle.tb_geom.specs.Points.{PixelSet};
ghost use Rattle.desk_call.specs.Gates.{gate, text_standing};
ghost use Rattle.text_mgr.specs.CallEdits.{text_edited};
ghost use Rattle.text_mgr.specs.Spots.{opened};
ghost use Rattle.text_mgr.specs.TextSteps.{IsTextStep, IsWhereRight};
ghost use Rattle.text_mgr.specs.WholeTexts.{IsSelectable};

use crate::editing::text_edited;
use crate::{DeskTexts, Texts};
use desk_call::{Activity, TextCall, TextReply};
use tb_geom::Refusal;
use window_mgr::{DeskWindows, WindowManager};

impl Texts {
    /// Performs one call on these text records of these windows, which may come while this is open, and gives its answer. A refused
    /// call changes nothing; which refusal comes first where several would do stands with the call. A changed record is drawn where
    /// it is not to be redrawn, so the step is the call's where the screen was right.
    pub fn perform(
        &mut self,
        windows: &mut WindowManager,
        activity: &mut Activity,
        call: &TextCall<'_>,
    ) -> Result<TextReply, Refusal>
        requires kept { ⟦<WindowManager as DeskWindows>⟧.IsKept windows.old }
        requires beside { ⟦<Self as DeskTexts>⟧.AreBeside windows.old self.old }
        requires selectable { IsSelectable activity.old self.old.list.items.items }
        requires admitted { gate activity.old (text_standing call.now) ≡ None }
        ensures step { (begun : PixelSet) → ⟦<Self as DeskTexts>⟧.Leaves
            (IsWhereRight (IsTextStep call.now result))
            windows.old (opened activity.old begun) self.old windows.new (opened activity.new begun) self.new }
        ensures selectable { IsSelectable activity.new self.new.list.items.items }
    {
        match text_edited(call) {
            Some(text) => self.edit(windows, text, call),
            None => self.perform_other(windows, activity, call),
        }
    }

    /// Performs a call that edits no text record.
    fn perform_other(
        &mut self,
        windows: &mut WindowManager,
        activity: &mut Activity,
        call: &TextCall<'_>,
    ) -> Result<TextReply, Refusal>
        requires kept { ⟦<WindowManager as DeskWindows>⟧.IsKept windows.old }
        requires beside { ⟦<Self as DeskTexts>⟧.AreBeside windows.old self.old }
        requires selectable { IsSelectable activity.old self.old.list.items.items }
        requires admitted { gate activity.old (text_standing call.now) ≡ None }
        requires other { text_edited call.now ≡ None }
        ensures step { (begun : PixelSet) → ⟦<Self as DeskTexts>⟧.Leaves
            (IsWhereRight (IsTextStep call.now result))
            windows.old (opened activity.old begun) self.old windows.new (opened activity.new begun) self.new }
        ensures selectable { IsSelectable activity.new self.new.list.items.items }
    {
        match call {
            TextCall::New(new) => self.make(windows, *new),
            TextCall::Place(placed) => self.place(windows, *placed),
            TextCall::Dispose(text) => self.dispose(windows, *text),
            TextCall::Show(text) => self.show(windows, *text, true),
            TextCall::Hide(text) => self.show(windows, *text, false),
            TextCall::Copy(text) => self.copy(windows, *text),
            TextCall::Click(clicked) => self.click(windows, activity, *clicked),
            TextCall::Step(point) => match *activity {
                Activity::Selecting(selecting) => self.step(windows, selecting, *point),
                _ => unreachable!(),
            },
            TextCall::End(point) => match *activity {
                Activity::Selecting(selecting) => self.end(windows, activity, selecting, *point),
                _ => unreachable!(),
            },
            TextCall::Get(text) => self.get(windows, *text),
            TextCall::Info(text) => self.info(windows, *text),
            TextCall::Line(asked) => self.line(windows, *asked),
            TextCall::PlaceOf(asked) => self.place_of(windows, *asked),
            TextCall::OffsetAt(asked) => self.offset_at(windows, *asked),
            TextCall::Scrap => self.scrap(windows),
            TextCall::SetScrap(bytes) => self.set_scrap(windows, bytes),
            TextCall::Width(bytes) => self.width(windows, bytes),
            TextCall::FontInfo => Ok(self.font_info(windows)),
            _ => unreachable!(),
        }
    }
}
