//! One window put elsewhere or given another size, and the call that does the second.
ghost use Rattle.std.specs.Prelude.{◌≡◌, ◌<◌, None, length, map, All, vec_len, OnErr};
ghost use Rattle.desk_call.specs.declared.window.WindowCall.TheVariants as asks;
ghost use Rattle.vis_update.specs.Records.{record_of};
ghost use Rattle.window_mgr.specs.Edits.{IsOnItsWay, IsWindowAt};
ghost use Rattle.window_mgr.specs.Laying.{IsPlaceableAt, IsPlacementCommitted, IsLaidOverAnySlots};
ghost use Rattle.window_mgr.specs.Whole.{IsSettled};
ghost use Rattle.window_mgr.specs.Sparing.{Spares};
ghost use Rattle.window_mgr.specs.Step.{IsWindowStep};

use crate::arrange::{Activates, Edit, Rearrangement};
use crate::standing::may_stand;
use crate::{DeskWindows, SizeWindow, WindowManager, WindowReply};
use def_iface::{Defined, TakenWindow};
use tb_geom::{Point, Refusal};
use vis_update::Plan;
use window_list::Placement;

impl WindowManager {
    /// Gives a window another size, and tells its definition.
    #[tactic(auto, using(crate::proofs::Sparing::spares_same))]
    pub(crate) fn size_window(&mut self, sized: SizeWindow) -> Result<WindowReply, Refusal>
        requires { ⟦<Self as DeskWindows>⟧.IsKept self.old }
        ensures step { ⟦<Self as DeskWindows>⟧.LeavesState (IsWindowStep (asks.Size sized) result) self.old self.new }
        ensures sparing { Spares ⟦<TakenWindow as Defined>⟧.loan sized.window None self.old self.new }
        ensures quiet { OnErr result (self.new.screen ≡ self.old.screen) }
    {
        let Some(at) = self.find(sized.window) else {
            return Err(Refusal::NoSuchWindow);
        };
        let found = self.windows.at(at);
        if !may_stand(found, found.place, sized.size) {
            return Err(Refusal::OutOfRange);
        }
        let placement = Placement {
            place: found.place,
            size: sized.size,
            user_state: None,
        };
        self.place_window(at, placement, None)
    }

    /// Gives the window at this index another place and size, its pixels coming from so far away, if they
    /// move. NoMemory is the only refusal.
    #[tactic(auto, using(crate::proofs::Sparing::spares_same))]
    pub(crate) fn place_window(
        &mut self,
        at: usize,
        placement: Placement,
        by: Option<Point>,
    ) -> Result<WindowReply, Refusal>
        requires kept { ⟦<Self as DeskWindows>⟧.IsKept self.old }
        requires at { at < length self.old.windows.records.items }
        requires placeable { IsPlaceableAt ⟦<TakenWindow as Defined>⟧.loan at placement self.old.windows.records.items }
        requires way { IsOnItsWay at placement.place by self.old.windows.records.items }
        ensures step { IsLaidOverAnySlots ⟦<TakenWindow as Defined>⟧.loan at placement by result self.old self.new }
        ensures sparing { (w : _) → IsWindowAt self.old.windows.records.items at w
            → Spares ⟦<TakenWindow as Defined>⟧.loan w.serial by self.old self.new }
        ensures quiet { OnErr result (self.new.screen ≡ self.old.screen) }
    {
        let mut edit = Edit::of(at, self.windows.at(at));
        edit.place = placement.place;
        edit.size = placement.size;
        let Ok(Rearrangement { plan, .. }) = self.plan_edit(edit, Activates::Nothing, by, true)
        else {
            return Err(Refusal::NoMemory);
        };
        self.commit_placement(at, placement, plan, by);
        Ok(WindowReply::Done)
    }

    /// Gives the window at this index another place and size, tells its definition, and draws what a plan
    /// says.
    fn commit_placement(&mut self, at: usize, placement: Placement, plan: Plan, by: Option<Point>)
        requires at { at < length self.old.windows.records.items }
        requires settled { All IsSettled (map (record_of ⟦<TakenWindow as Defined>⟧.loan)
            self.old.windows.records.items) }
        requires placeable { IsPlaceableAt ⟦<TakenWindow as Defined>⟧.loan at placement self.old.windows.records.items }
        requires parts { vec_len plan.parts ≡ length self.old.windows.records.items }
        ensures { IsPlacementCommitted ⟦<TakenWindow as Defined>⟧.loan at placement plan by self.old self.new }
    {
        self.windows.set_placement(at, placement);
        self.commit(plan, by);
    }
}
