//! The calls that arrange windows: each says how one window is put anew, and what becomes active.
ghost use Rattle.std.specs.Prelude.{◌≡◌, [], true, None, Some, MatchResult, if◌then◌else◌, OnErr};
ghost use Rattle.tb_geom.specs.Rects.{in_plane};
ghost use Rattle.desk_call.specs.declared.window.WindowCall.TheVariants as asks;
ghost use Rattle.window_mgr.specs.declared.arrange.Activates.TheVariants.{Nothing, ItselfIfFront, FrontInItsPlace};
ghost use Rattle.window_mgr.specs.Arrange.{way_between, way_to};
ghost use Rattle.window_mgr.specs.Edits.{StandsAt, IsPlaceBehind};
ghost use Rattle.window_mgr.specs.Finding.{record_with};
ghost use Rattle.tb_geom.specs.Refusals.{first_refusal};
ghost use Rattle.window_mgr.specs.Refused.{behind_refusals};
ghost use Rattle.window_mgr.specs.Sparing.{Spares};
ghost use Rattle.window_mgr.specs.Step.{IsWindowStep};

use crate::arrange::{Activates, Edit};
use crate::standing::may_stand;
use crate::{DeskWindows, MoveWindow, SendBehind, ShowHide, WindowManager, WindowReply};
use def_iface::{Defined, TakenWindow};
use tb_geom::{Point, Refusal};
use window_list::local;

impl WindowManager {
    /// Brings a window to the front of its class; a visible ordinary one becomes active where it is selected.
    #[tactic(auto, using(crate::proofs::Sparing::spares_same))]
    pub(crate) fn bring_to_front(
        &mut self,
        window: u64,
        select: bool,
    ) -> Result<WindowReply, Refusal>
        requires { ⟦<Self as DeskWindows>⟧.IsKept self.old }
        ensures step { ⟦<Self as DeskWindows>⟧.LeavesState
            (IsWindowStep (if select then asks.Select window else asks.BringToFront window) result) self.old self.new }
        ensures sparing { Spares ⟦<TakenWindow as Defined>⟧.loan window None self.old self.new }
        ensures quiet { OnErr result (self.new.screen ≡ self.old.screen) }
    {
        let Some(at) = self.find(window) else {
            return Err(Refusal::NoSuchWindow);
        };
        let found = self.windows.at(at);
        let activates = if_so(select, if_so(found.leads(), Activates::Itself));
        let mut edit = Edit::of(at, found);
        edit.to = self.windows.class_front(found.floating, at);
        self.rearrange(edit, activates, None)
    }

    /// Puts a window behind another or at the back of its class.
    #[tactic(auto, using(crate::proofs::Sparing::spares_same))]
    pub(crate) fn send_behind(&mut self, sent: SendBehind) -> Result<WindowReply, Refusal>
        requires { ⟦<Self as DeskWindows>⟧.IsKept self.old }
        ensures step { ⟦<Self as DeskWindows>⟧.LeavesState (IsWindowStep (asks.SendBehind sent) result) self.old
            self.new }
        ensures sparing { Spares ⟦<TakenWindow as Defined>⟧.loan sent.window None self.old self.new }
        ensures quiet { OnErr result (self.new.screen ≡ self.old.screen) }
    {
        let Some(at) = self.find(sent.window) else {
            return Err(Refusal::NoSuchWindow);
        };
        let to = match self.place_to_send(sent, at) {
            Ok(to) => to,
            Err(refusal) => return Err(refusal),
        };
        let found = self.windows.at(at);
        let mut edit = Edit::of(at, found);
        edit.to = to;
        self.rearrange(edit, Activates::NextInItsPlace, None)
    }

    /// The index in the list, counted without the window at this index, where it is to go behind another.
    fn place_to_send(&self, sent: SendBehind, at: usize) -> Result<usize, Refusal>
        requires kept { ⟦<Self as DeskWindows>⟧.IsKept self.now }
        requires at { StandsAt self.now.windows.records.items sent.window at }
        ensures { MatchResult result (IsPlaceBehind ⟦<TakenWindow as Defined>⟧.loan sent at self.now)
            (λ e. first_refusal (behind_refusals sent (⟦<Self as DeskWindows>⟧.desk self.now [])) ≡ Some e) }
    {
        let found = self.windows.at(at);
        let Some(front) = sent.behind else {
            return Ok(self.windows.class_back(found.floating, at));
        };
        let Some(there) = self.find(front) else {
            return Err(Refusal::NoSuchWindow);
        };
        if front == sent.window {
            return Err(Refusal::OutOfRange);
        }
        if self.windows.at(there).floating != found.floating {
            return Err(Refusal::OutOfRange);
        }
        Ok(if there < at { there + 1 } else { there })
    }

    /// Moves a window, and selects it where that is asked.
    #[tactic(auto, using(crate::proofs::Sparing::spares_same))]
    pub(crate) fn move_window(&mut self, moved: MoveWindow) -> Result<WindowReply, Refusal>
        requires { ⟦<Self as DeskWindows>⟧.IsKept self.old }
        ensures step { ⟦<Self as DeskWindows>⟧.LeavesState (IsWindowStep (asks.Move moved) result) self.old self.new }
        ensures sparing { Spares ⟦<TakenWindow as Defined>⟧.loan moved.window
            (way_to moved.place (record_with moved.window (⟦<Self as DeskWindows>⟧.desk self.old []).windows))
            self.old self.new }
        ensures quiet { OnErr result (self.new.screen ≡ self.old.screen) }
    {
        let Some(at) = self.find(moved.window) else {
            return Err(Refusal::NoSuchWindow);
        };
        let found = self.windows.at(at);
        if !may_stand(found, moved.place, found.size) {
            return Err(Refusal::OutOfRange);
        }
        let activates = if_so(moved.select, if_so(found.leads(), Activates::Itself));
        let by = way(found.place, moved.place);
        let front = self.windows.class_front(found.floating, at);
        let mut edit = Edit::of(at, found);
        edit.place = moved.place;
        edit.user_state = None;
        edit.to = if moved.select { front } else { at };
        self.rearrange(edit, activates, by)
    }

    /// Makes a window visible or hidden. One that becomes visible becomes active where it is the first visible
    /// ordinary one then, and in the place of an active one that becomes hidden the first of these, or none, where that is
    /// asked.
    #[tactic(auto, using(crate::proofs::Sparing::spares_same))]
    pub(crate) fn show_hide(
        &mut self,
        change: ShowHide,
        activates: bool,
    ) -> Result<WindowReply, Refusal>
        requires { ⟦<Self as DeskWindows>⟧.IsKept self.old }
        ensures step { ⟦<Self as DeskWindows>⟧.LeavesState
            (IsWindowStep (if activates then (if change.shown then asks.Show change.window else asks.Hide change.window)
            else asks.ShowHide change) result) self.old self.new }
        ensures sparing { Spares ⟦<TakenWindow as Defined>⟧.loan change.window None self.old self.new }
        ensures quiet { OnErr result (self.new.screen ≡ self.old.screen) }
    {
        let Some(at) = self.find(change.window) else {
            return Err(Refusal::NoSuchWindow);
        };
        let found = self.windows.at(at);
        let activates = if_so(activates, when_shown(found.shown, change.shown));
        let mut edit = Edit::of(at, found);
        edit.shown = change.shown;
        self.rearrange(edit, activates, None)
    }
}

/// How far it is from one place to another, where that is another one.
fn way(from: Point, to: Point) -> Option<Point>
    requires from { in_plane from ≡ true }
    requires to { in_plane to ≡ true }
    ensures { result ≡ way_between from to }
{
    if from.h == to.h && from.v == to.v {
        None
    } else {
        Some(local(to, from))
    }
}

/// What is activated, where that is so.
fn if_so(holds: bool, activates: Activates) -> Activates
    ensures { result ≡ (if holds then activates else Nothing) }
{
    if holds { activates } else { Activates::Nothing }
}

/// What becomes active where a window becomes visible or hidden, or stays so.
fn when_shown(was: bool, is: bool) -> Activates
    ensures { result ≡ (if is then (if was then Nothing else ItselfIfFront)
        else (if was then FrontInItsPlace else Nothing)) }
{
    match (was, is) {
        (false, true) => Activates::ItselfIfFront,
        (true, false) => Activates::FrontInItsPlace,
        _ => Activates::Nothing,
    }
}
