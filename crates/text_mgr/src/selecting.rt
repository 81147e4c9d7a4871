//! Selecting with the mouse.
ghost use Rattle.std.specs.Prelude.{◌≡◌, ◌<◌, ◌≤◌, length, slice_get, IfSome};
ghost use Rattle.tb_geom.specs.Points.{PixelSet};
ghost use Rattle.desk_call.specs.declared.activity.Activity.TheVariants.{Idle, Selecting};
ghost use Rattle.desk_call.specs.declared.text.TextReply.TheVariants.{Offsets};
ghost use Rattle.desk_call.specs.declared.text.TextOf.{TextOf as Named};
ghost use Rattle.desk_call.specs.declared.text.TextCall.TheVariants as asks;
ghost use Rattle.text_edits.specs.Selecting.{extended_to};
ghost use Rattle.window_mgr.specs.DeskStates.{Opened};
ghost use Rattle.text_mgr.specs.Showing.{IsPut};
ghost use Rattle.text_mgr.specs.Spots.{IsSpot, IsSpotOf, opened};
ghost use Rattle.text_mgr.specs.TextSteps.{IsTextStep, IsWhereRight};
ghost use Rattle.text_mgr.specs.WholeTexts.{IsSelectable};

use crate::judging::click_mode;
use crate::spots::TextAt;
use crate::{DeskTexts, Texts};
use def_iface::{Defined, TakenWindow};
use desk_call::{Activity, ClickText, SelectedText, TextReply};
use tb_geom::{Point, Refusal};
use text_edits::{Anchor, ClickMode, click_anchor, extend, is_clicked};
use text_paint::Selection;
use window_mgr::{DeskWindows, WindowManager};

impl Texts {
    /// Selects what is selected while the mouse is held at a point, and shows it of the text record that stands here where it is not
    /// to be redrawn.
    fn extend_to(
        &mut self,
        windows: &mut WindowManager,
        spot: TextAt,
        anchor: Anchor,
        mode: ClickMode,
        point: Point,
    )
        requires kept { ⟦<WindowManager as DeskWindows>⟧.IsKept windows.old }
        requires beside { ⟦<Self as DeskTexts>⟧.AreBeside windows.old self.old }
        requires spot { IsSpot ⟦<TakenWindow as Defined>⟧.loan windows.old self.old spot }
        requires order { anchor.start ≤ anchor.end }
        requires within { IfSome (slice_get self.old.list.items.items spot.text)
            (λ x. anchor.end ≤ length x.kept.text.bytes) }
        ensures { (t : Named) → IsSpotOf ⟦<TakenWindow as Defined>⟧.loan t windows.old self.old spot
            → (o u : Opened) → ⟦<Self as DeskTexts>⟧.Leaves
            (IsPut t (extended_to anchor mode point)) windows.old o self.old windows.new u self.new }
    {
        let record = self.list.at_mut(spot.text);
        let was = Selection::of(record);
        extend(record, anchor, mode, point);
        self.show_selection(windows, spot, was);
    }

    /// What is selected of the text record that stands here.
    fn selected(&self, spot: TextAt) -> TextReply
        requires { spot.text < length self.now.list.items.items }
        ensures { IfSome (slice_get self.now.list.items.items spot.text)
            (λ x. result ≡ Offsets x.kept.start x.kept.end) }
    {
        let (start, end) = self.list.items[spot.text].kept.selection();
        TextReply::Offsets(start as u16, end as u16)
    }

    /// The mouse button was pressed at a point of a window.
    pub(crate) fn click(
        &mut self,
        windows: &mut WindowManager,
        activity: &mut Activity,
        clicked: ClickText,
    ) -> Result<TextReply, Refusal>
        requires kept { ⟦<WindowManager as DeskWindows>⟧.IsKept windows.old }
        requires beside { ⟦<Self as DeskTexts>⟧.AreBeside windows.old self.old }
        requires idle { activity.old ≡ Idle }
        ensures step { (begun : PixelSet) → ⟦<Self as DeskTexts>⟧.Leaves
            (IsWhereRight (IsTextStep (asks.Click clicked) result))
            windows.old (opened activity.old begun) self.old windows.new (opened activity.new begun) self.new }
        ensures selectable { IsSelectable activity.new self.new.list.items.items }
    {
        let spot = self.spot(windows, clicked.text)?;
        if !clicked.point.is_in_range() {
            return Err(Refusal::OutOfRange);
        }
        let Some(mode) = click_mode(clicked.mode) else {
            return Err(Refusal::OutOfRange);
        };
        let record = &self.list.items[spot.text].kept;
        if !is_clicked(record, clicked.point) {
            return Ok(TextReply::Opened(false));
        }
        let anchor = click_anchor(record, clicked.point, mode);
        self.extend_to(windows, spot, anchor, mode, clicked.point);
        *activity = Activity::Selecting(SelectedText {
            text: clicked.text,
            mode,
            anchor,
        });
        Ok(TextReply::Opened(true))
    }

    /// The mouse is at a point of the window while a selection is open.
    pub(crate) fn step(
        &mut self,
        windows: &mut WindowManager,
        selecting: SelectedText,
        point: Point,
    ) -> Result<TextReply, Refusal>
        requires kept { ⟦<WindowManager as DeskWindows>⟧.IsKept windows.old }
        requires beside { ⟦<Self as DeskTexts>⟧.AreBeside windows.old self.old }
        requires selectable { IsSelectable (Selecting selecting) self.old.list.items.items }
        ensures step { (begun : PixelSet) → ⟦<Self as DeskTexts>⟧.Leaves
            (IsWhereRight (IsTextStep (asks.Step point) result))
            windows.old (opened (Selecting selecting) begun) self.old windows.new
            (opened (Selecting selecting) begun) self.new }
        ensures selectable { IsSelectable (Selecting selecting) self.new.list.items.items }
    {
        if !point.is_in_range() {
            return Err(Refusal::OutOfRange);
        }
        let spot = self.spot(windows, selecting.text)?;
        self.extend_to(windows, spot, selecting.anchor, selecting.mode, point);
        Ok(self.selected(spot))
    }

    /// The mouse button was released at a point of the window while a selection is open.
    pub(crate) fn end(
        &mut self,
        windows: &mut WindowManager,
        activity: &mut Activity,
        selecting: SelectedText,
        point: Point,
    ) -> Result<TextReply, Refusal>
        requires kept { ⟦<WindowManager as DeskWindows>⟧.IsKept windows.old }
        requires beside { ⟦<Self as DeskTexts>⟧.AreBeside windows.old self.old }
        requires open { activity.old ≡ Selecting selecting }
        requires selectable { IsSelectable (Selecting selecting) self.old.list.items.items }
        ensures step { (begun : PixelSet) → ⟦<Self as DeskTexts>⟧.Leaves
            (IsWhereRight (IsTextStep (asks.End point) result))
            windows.old (opened activity.old begun) self.old windows.new (opened activity.new begun) self.new }
        ensures selectable { IsSelectable activity.new self.new.list.items.items }
    {
        if !point.is_in_range() {
            return Err(Refusal::OutOfRange);
        }
        let spot = self.spot(windows, selecting.text)?;
        self.extend_to(windows, spot, selecting.anchor, selecting.mode, point);
        *activity = Activity::Idle;
        Ok(self.selected(spot))
    }
}
