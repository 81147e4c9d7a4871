//! One window put anew among the others, whichever call it is for.
ghost use Rattle.std.specs.Prelude.{◌≡◌, ◌<◌, ◌+◌, [], Some, None, All, MatchOption, IfOk, length, map, vec_len, vec_capacity, OnErr};
ghost use Rattle.vis_update.specs.Records.{record_of};
ghost use Rattle.window_list.specs.Ranks.{moved_item};
ghost use Rattle.window_mgr.specs.AnySlots.{IsRearrangedOverAnySlots};
ghost use Rattle.window_mgr.specs.Arrange.{activation_of, active_after, if_active};
ghost use Rattle.window_mgr.specs.Edits.{IsWindowAt, relit_all, IsPutAnew, StandsAt, IsPlaceable, SameSize, IsOnItsWay};
ghost use Rattle.window_mgr.specs.Edits.{AreSeatsAfter, AreSettledAfter, IsActivation, IsPlanOfEdit, IsCommitted};
ghost use Rattle.window_mgr.specs.Edits.{stays_put};
ghost use Rattle.window_mgr.specs.Finding.{record_with};
ghost use Rattle.window_mgr.specs.Seats.{AreSeatsOf, first_seated};
ghost use Rattle.window_mgr.specs.Sparing.{Spares};

use crate::{DeskWindows, WindowManager, WindowReply};
use def_iface::{Defined, Size, TakenWindow};
use std::alloc::AllocError;
use tb_geom::{Point, Refusal};
use vis_update::{Plan, Seat, Touch, changed_with, lost_of, plan_of, seat_of};
use window_list::{UserState, Window};

/// How one window is put anew: from which place of the list to which, counted without it, and how it
/// stands then.
#[derive(Clone, Copy)]
pub struct Edit {
    pub(crate) at: usize,
    pub(crate) to: usize,
    pub(crate) place: Point,
    pub(crate) size: Size,
    pub(crate) user_state: Option<UserState>,
    pub(crate) shown: bool,
}

/// Which window a call about one makes active.
#[derive(Clone, Copy)]
pub enum Activates {
    /// No highlighting changes.
    Nothing,
    Itself,
    /// Itself, where it is the first visible ordinary window then.
    ItselfIfFront,
    /// Where it was active, the first visible ordinary window, or none.
    FrontInItsPlace,
    /// Where it was active, the first visible ordinary window, if that is another.
    NextInItsPlace,
}

/// What that comes to.
#[derive(Clone, Copy)]
pub enum Activation {
    Stays,
    /// This window becomes active, or none is.
    Becomes(Option<u64>),
}

/// The plan of a window that is put anew, and what becomes active.
#[derive(Drop)]
pub(crate) struct Rearrangement {
    pub(crate) plan: Plan,
    pub(crate) activation: Activation,
}

impl Activates {
    /// What it comes to for a window, where the active one and the first visible ordinary one after the
    /// call are given.
    pub(crate) fn activation(
        self,
        window: u64,
        active: Option<u64>,
        front: Option<u64>,
    ) -> Activation
        ensures { result ≡ activation_of self window active front }
    {
        match self {
            Activates::Nothing => Activation::Stays,
            Activates::Itself => Activation::Becomes(Some(window)),
            Activates::ItselfIfFront => if_active(front == Some(window), Some(window)),
            Activates::FrontInItsPlace => if_active(active == Some(window), front),
            Activates::NextInItsPlace => {
                let leaves = active == Some(window) && (front.is_some() && front != Some(window));
                if_active(leaves, front)
            }
        }
    }
}

/// This window becomes active where that is so.
pub(crate) fn if_active(becomes: bool, window: Option<u64>) -> Activation
    ensures { result ≡ if_active becomes window }
{
    if becomes {
        Activation::Becomes(window)
    } else {
        Activation::Stays
    }
}

impl Edit {
    /// The window at this index stays as it stands.
    pub(crate) fn of(at: usize, window: &Window) -> Edit
        ensures { result ≡ stays_put at window.now }
    {
        Edit {
            at,
            to: at,
            place: window.place,
            size: window.size,
            user_state: window.user_state,
            shown: window.shown,
        }
    }
}

impl WindowManager {
    /// The index of the window of this serial in the list.
    pub fn find(&self, window: u64) -> Option<usize>
        ensures { MatchOption result
            (record_with window (map (record_of ⟦<TakenWindow as Defined>⟧.loan) self.now.windows.records.items) ≡ None)
            (StandsAt self.now.windows.records.items window) }
    {
        self.windows.find(window)
    }

    /// Puts one window anew, its size as it was; its pixels come from so far away, if they move. NoMemory is the only
    /// refusal.
    #[tactic(auto, using(crate::proofs::Sparing::spares_same))]
    pub(crate) fn rearrange(
        &mut self,
        edit: Edit,
        activates: Activates,
        by: Option<Point>,
    ) -> Result<WindowReply, Refusal>
        requires kept { ⟦<Self as DeskWindows>⟧.IsKept self.old }
        requires at { edit.at < length self.old.windows.records.items }
        requires to { edit.to < length self.old.windows.records.items }
        requires placed { IsPlaceable ⟦<TakenWindow as Defined>⟧.loan edit self.old.windows.records.items }
        requires size { SameSize edit self.old.windows.records.items }
        requires way { IsOnItsWay edit.at edit.place by self.old.windows.records.items }
        ensures step { IsRearrangedOverAnySlots ⟦<TakenWindow as Defined>⟧.loan edit activates by result self.old
            self.new }
        ensures sparing { (w : _) → IsWindowAt self.old.windows.records.items edit.at w
            → Spares ⟦<TakenWindow as Defined>⟧.loan w.serial by self.old self.new }
        ensures quiet { OnErr result (self.new.screen ≡ self.old.screen) }
    {
        let Ok(Rearrangement { plan, activation }) = self.plan_edit(
            edit,
            activates,
            by,
            by.is_some(),
        ) else {
            return Err(Refusal::NoMemory);
        };
        self.commit_edit(edit, activation, plan, by);
        Ok(WindowReply::Done)
    }

    /// All that changes on the screen where one window is put anew, its frame drawn whole or where it gains, and all growth.
    pub(crate) fn plan_edit(
        &self,
        edit: Edit,
        activates: Activates,
        by: Option<Point>,
        whole: bool,
    ) -> Result<Rearrangement, AllocError>
        requires kept { ⟦<Self as DeskWindows>⟧.IsKept self.now }
        requires at { edit.at < length self.now.windows.records.items }
        requires to { edit.to < length self.now.windows.records.items }
        requires placed { IsPlaceable ⟦<TakenWindow as Defined>⟧.loan edit self.now.windows.records.items }
        requires way { IsOnItsWay edit.at edit.place by self.now.windows.records.items }
        ensures plan { IfOk result (λ r. IsPlanOfEdit ⟦<TakenWindow as Defined>⟧.loan edit by whole self.now r.plan) }
        ensures activation { IfOk result (λ r. IsActivation ⟦<TakenWindow as Defined>⟧.loan edit activates self.now
            r.activation) }
        ensures length { IfOk result (λ r. vec_len r.plan.parts ≡ length self.now.windows.records.items) }
    {
        let seats = self.seats_after(edit)?;
        let window = self.windows.at(edit.at).serial;
        let active = self.windows.active();
        let activation = activates.activation(window, active, front_of(&seats));
        let touch = Touch { window, by, whole };
        let seat = &seats[edit.to];
        let changed = changed_with(self.alloc, &self.gray, seat)?;
        let lost = lost_of(self.alloc, &changed, seat.area)?;
        let plan = plan_of(self.alloc, &changed, &lost, &self.desktop, &seats, touch)?;
        Ok(Rearrangement { plan, activation })
    }

    /// The windows as they are to be.
    fn seats_after(&self, edit: Edit) -> Result<Vec<Seat<'_>>, AllocError>
        requires areas { length self.now.areas.items ≡ length self.now.windows.records.items }
        requires at { edit.at < length self.now.windows.records.items }
        requires to { edit.to < length self.now.windows.records.items }
        ensures { IfOk result (λ seats. AreSeatsAfter edit self.now.windows.records.items self.now.areas.items
            seats.items) }
    {
        let mut seats = self.seats()?;
        let mut seat = seats.remove(edit.at);
        seat.place = edit.place;
        seat.size = edit.size;
        seat.shown = edit.shown;
        seats.insert(edit.to, seat).unwrap();
        Ok(seats)
    }

    /// The windows as they are, with room for one more.
    pub(crate) fn seats(&self) -> Result<Vec<Seat<'_>>, AllocError>
        requires { length self.now.areas.items ≡ length self.now.windows.records.items }
        ensures seats { IfOk result (λ seats. AreSeatsOf self.now.windows.records.items self.now.areas.items
            seats.items) }
        ensures length { IfOk result (λ seats. vec_len seats ≡ length self.now.windows.records.items) }
        ensures room { IfOk result (λ seats. vec_len seats < vec_capacity seats) }
    {
        let mut seats = self.room_for_seats()?;
        for at in 0..self.windows.len() {
            let seat = seat_of(self.windows.at(at), &self.areas[at]);
            seats.push(seat).unwrap();
        }
        Ok(seats)
    }

    /// Room for the windows and one more, and no further.
    fn room_for_seats(&self) -> Result<Vec<Seat<'_>>, AllocError>
        requires { length self.now.areas.items ≡ length self.now.windows.records.items }
        ensures none { IfOk result (λ seats. seats.items ≡ []) }
        ensures length { IfOk result (λ seats. vec_len seats ≡ 0) }
        ensures room { IfOk result (λ seats. vec_capacity seats ≡ length self.now.windows.records.items + 1) }
    {
        Vec::with_capacity(self.alloc, self.windows.len() + 1)
    }

    /// Puts one window anew, its size as it was, and its area in its place.
    fn put_anew(&mut self, edit: Edit)
        requires areas { length self.old.areas.items ≡ length self.old.windows.records.items }
        requires at { edit.at < length self.old.windows.records.items }
        requires to { edit.to < length self.old.windows.records.items }
        requires placed { IsPlaceable ⟦<TakenWindow as Defined>⟧.loan edit self.old.windows.records.items }
        ensures put { IsPutAnew edit self.old.windows.records.items self.new.windows.records.items }
        ensures len { length self.new.windows.records.items ≡ length self.old.windows.records.items }
        ensures active { self.new.windows.active ≡ self.old.windows.active }
        ensures next { self.new.windows.next ≡ self.old.windows.next }
        ensures areas { self.new.areas.items ≡ moved_item self.old.areas.items edit.at edit.to }
        ensures others { self.new ≡ record self.old { windows = self.new.windows; areas = self.new.areas } }
    {
        let area = self.areas.remove(edit.at);
        self.areas.insert(edit.to, area).unwrap();
        self.windows.move_to(edit.at, edit.to);
        self.windows
            .set_stand(edit.to, edit.place, edit.shown, edit.user_state);
    }

    /// Makes a window active, or none, where that is so.
    pub(crate) fn activate(&mut self, activation: Activation)
        requires { 0 < length self.old.windows.records.items }
        ensures windows { self.new.windows.records.items
            ≡ relit_all activation self.old.windows.active self.old.windows.records.items }
        ensures len { length self.new.windows.records.items ≡ length self.old.windows.records.items }
        ensures active { self.new.windows.active ≡ active_after activation self.old.windows.active }
        ensures next { self.new.windows.next ≡ self.old.windows.next }
        ensures others { self.new ≡ record self.old { windows = self.new.windows } }
    {
        match activation {
            Activation::Stays => {}
            Activation::Becomes(window) => self.windows.set_active(window),
        }
    }

    /// Puts one window anew, its size as it was, makes active what becomes so, and draws what a plan
    /// says.
    fn commit_edit(&mut self, edit: Edit, activation: Activation, plan: Plan, by: Option<Point>)
        requires areas { length self.old.areas.items ≡ length self.old.windows.records.items }
        requires at { edit.at < length self.old.windows.records.items }
        requires to { edit.to < length self.old.windows.records.items }
        requires settled { AreSettledAfter ⟦<TakenWindow as Defined>⟧.loan edit activation self.old.windows.active
            self.old.windows.records.items }
        requires placed { IsPlaceable ⟦<TakenWindow as Defined>⟧.loan edit self.old.windows.records.items }
        requires parts { vec_len plan.parts ≡ length self.old.windows.records.items }
        ensures { IsCommitted ⟦<TakenWindow as Defined>⟧.loan edit activation plan by self.old self.new }
    {
        self.put_anew(edit);
        self.activate(activation);
        self.commit(plan, by);
    }
}

/// The serial of the first visible ordinary window, by the seats of all.
pub(crate) fn front_of(seats: &[Seat<'_>]) -> Option<u64>
    ensures { result ≡ first_seated seats.now }
{
    for seat in seats {
        if seat.shown && !seat.floating {
            return Some(seat.serial);
        }
    }
    None
}
