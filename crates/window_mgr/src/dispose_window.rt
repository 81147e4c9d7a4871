//! The call that ends a window.
ghost use Rattle.std.specs.Prelude.{◌≡◌, ◌+◌, ◌<◌, None, All, IfOk, length, map, vec_len, OnErr};
ghost use Rattle.std.specs.List.{remove};
ghost use Rattle.desk_call.specs.declared.window.WindowCall.TheVariants.{Dispose};
ghost use Rattle.vis_update.specs.Records.{record_of};
ghost use Rattle.window_mgr.specs.Edits.{relit_all, StandsAt};
ghost use Rattle.window_mgr.specs.Step.{IsWindowStep};
ghost use Rattle.window_mgr.specs.Whole.{IsSettled};
ghost use Rattle.window_mgr.specs.Without.{AreSeatsWithout, IsPlanWithout, IsActivationWithout, IsTakenOff};
ghost use Rattle.window_mgr.specs.Sparing.{Spares};

use crate::arrange::{Activates, Activation, Rearrangement, front_of};
use crate::{DeskWindows, WindowManager, WindowReply};
use def_iface::{Defined, TakenWindow, WindowStock, put_away};
use scan_region::Region;
use std::alloc::AllocError;
use tb_geom::Refusal;
use vis_update::{Plan, Seat, Touch, changed_without, plan_of};
use window_list::Window;

impl WindowManager {
    /// Ends a window: its definition is disposed of, and put back Closed into its slot. Where it was
    /// active, the first visible ordinary window becomes so, or none.
    #[tactic(auto, using(crate::proofs::Sparing::spares_same))]
    pub(crate) fn dispose_window(
        &mut self,
        window: u64,
        stock: &mut WindowStock,
    ) -> Result<WindowReply, Refusal>
        requires { ⟦<Self as DeskWindows>⟧.IsWhole self.old stock.old }
        ensures whole { ⟦<Self as DeskWindows>⟧.IsWhole self.new stock.new }
        ensures step { IsWindowStep (Dispose window) result
            (⟦<Self as DeskWindows>⟧.state self.old stock.old)
            (⟦<Self as DeskWindows>⟧.state self.new stock.new) }
        ensures sparing { Spares ⟦<TakenWindow as Defined>⟧.loan window None self.old self.new }
        ensures quiet { OnErr result (self.new.screen ≡ self.old.screen) }
    {
        let Some(at) = self.find(window) else {
            return Err(Refusal::NoSuchWindow);
        };
        let Ok(Rearrangement { plan, activation }) = self.plan_without(window, at) else {
            return Err(Refusal::NoMemory);
        };
        let taken = self.take_off(at, activation, plan);
        put_away(taken, stock);
        Ok(WindowReply::Done)
    }

    /// All that changes on the screen where this window, at this index, is there no more, and all growth.
    fn plan_without(&self, window: u64, at: usize) -> Result<Rearrangement, AllocError>
        requires kept { ⟦<Self as DeskWindows>⟧.IsKept self.now }
        requires at { StandsAt self.now.windows.records.items window at }
        ensures plan { IfOk result (λ r. IsPlanWithout ⟦<TakenWindow as Defined>⟧.loan at window self.now r.plan) }
        ensures activation { IfOk result (λ r.
            IsActivationWithout ⟦<TakenWindow as Defined>⟧.loan at window self.now r.activation) }
        ensures length { IfOk result (λ r. vec_len r.plan.parts + 1 ≡ length self.now.windows.records.items) }
    {
        let seats = self.seats_without(at)?;
        let active = self.windows.active();
        let activation = Activates::FrontInItsPlace.activation(window, active, front_of(&seats));
        let touch = Touch {
            window,
            by: None,
            whole: true,
        };
        let changed = changed_without(self.alloc, &self.gray, &self.areas[at])?;
        let lost = Region::empty(self.alloc);
        let plan = plan_of(self.alloc, &changed, &lost, &self.desktop, &seats, touch)?;
        Ok(Rearrangement { plan, activation })
    }

    /// The windows as they are, but the one at this index.
    fn seats_without(&self, at: usize) -> Result<Vec<Seat<'_>>, AllocError>
        requires areas { length self.now.areas.items ≡ length self.now.windows.records.items }
        requires at { at < length self.now.windows.records.items }
        ensures { IfOk result (λ seats.
            AreSeatsWithout at self.now.windows.records.items self.now.areas.items seats.items) }
    {
        let mut seats = self.seats()?;
        seats.remove(at);
        Ok(seats)
    }

    /// Makes active what becomes so, takes the window at this index out, and draws what a plan says.
    fn take_off(&mut self, at: usize, activation: Activation, plan: Plan) -> TakenWindow
        requires areas { length self.old.areas.items ≡ length self.old.windows.records.items }
        requires at { at < length self.old.windows.records.items }
        requires settled { All IsSettled (map (record_of ⟦<TakenWindow as Defined>⟧.loan)
            (relit_all activation self.old.windows.active (remove self.old.windows.records.items at))) }
        requires parts { vec_len plan.parts + 1 ≡ length self.old.windows.records.items }
        ensures { IsTakenOff ⟦<TakenWindow as Defined>⟧.loan at activation plan result self.old self.new }
    {
        self.activate(activation);
        let Window { taken, .. } = self.windows.remove(at);
        let _area = self.areas.remove(at);
        self.commit(plan, None);
        taken
    }
}
