//! Calls about the outline of a window that is dragged or grown.
ghost use Rattle.std.specs.Prelude.{◌≡◌, [], None};
ghost use Rattle.def_iface.specs.Stocks.{AllSlots};
ghost use Rattle.desk_call.specs.declared.activity.Standing.TheVariants as Standing;
ghost use Rattle.desk_call.specs.declared.call.Call.TheVariants as calls;
ghost use Rattle.desk_call.specs.declared.window.WindowCall.TheVariants as asks;
ghost use Rattle.desk_call.specs.Gates.{gate, outline_standing};
ghost use Rattle.window_frame.specs.Followers.{AreInformed};
ghost use Rattle.desk_toolbox.specs.Run.{IsLetGo, IsOutlineMoved, IsOutlineTold};

use crate::{Activity, Desk, OutlineCall, OutlineReply, Toolbox, WindowCall};
use def_iface::Stock;
use desk_call::MoveWindow;
use tb_geom::Refusal;
use window_mgr::{DeskWindows, WindowManager};
use window_outline::{let_go, outlined_by, show_outline};

impl Toolbox {
    /// Answers a call about an outline. Where it ends a drag in the gray region, the window is moved.
    pub(crate) fn outline_call(
        &mut self,
        call: &OutlineCall,
        stock: &mut Stock,
    ) -> Result<OutlineReply, Refusal>
        requires whole { ⟦<Self as Desk>⟧.IsWhole self.old stock.old }
        requires admitted { gate self.old.activity (outline_standing call.now) ≡ None }
        ensures whole { ⟦<Self as Desk>⟧.HasWholeManagers self.new stock.new }
        ensures step { IsOutlineTold call.now result
            (⟦<Self as Desk>⟧.state self.old stock.old)
            (⟦<Self as Desk>⟧.state self.new stock.new) }
        ensures economy { AreInformed (⟦<WindowManager as DeskWindows>⟧.desk self.old.windows []).windows
            → ⟦<Self as Desk>⟧.IsEconomical (calls.Outline call.now) self.old self.new }
    {
        match let_go(&self.windows, self.activity, call) {
            Some(drop) => self.drop_window(drop, stock),
            None => self.outline(call),
        }
    }

    /// Answers a call about an outline that moves no window, and shows the outline that there is then.
    fn outline(&mut self, call: &OutlineCall) -> Result<OutlineReply, Refusal>
        requires kept { ⟦<Self as Desk>⟧.IsKept self.old }
        requires admitted { gate self.old.activity (outline_standing call.now) ≡ None }
        ensures whole { (stocks : AllSlots)
            → ⟦<Self as Desk>⟧.IsWholeOver self.old stocks
            → ⟦<Self as Desk>⟧.HasWholeManagersOver self.new stocks }
        ensures step { (stocks : AllSlots)
            → ⟦<Self as Desk>⟧.IsWholeOver self.old stocks
            → IsOutlineMoved call.now result
            (⟦<Self as Desk>⟧.state_over self.old stocks)
            (⟦<Self as Desk>⟧.state_over self.new stocks) }
    {
        match outlined_by(&self.windows, self.activity, call) {
            Ok(next) => {
                show_outline(&mut self.front, &self.windows, self.activity, next.activity);
                self.activity = next.activity;
                Ok(next.reply)
            }
            Err(refusal) => Err(refusal),
        }
    }

    /// Moves the window that was dragged, and selects it, and nothing is open then; where the move is refused, all stays.
    fn drop_window(&mut self, drop: MoveWindow, stock: &mut Stock) -> Result<OutlineReply, Refusal>
        requires whole { ⟦<Self as Desk>⟧.IsWhole self.old stock.old }
        requires dragged { gate self.old.activity Standing.Drags ≡ None }
        ensures whole { ⟦<Self as Desk>⟧.HasWholeManagers self.new stock.new }
        ensures step { IsLetGo drop result
            (⟦<Self as Desk>⟧.state self.old stock.old)
            (⟦<Self as Desk>⟧.state self.new stock.new) }
        ensures economy { AreInformed (⟦<WindowManager as DeskWindows>⟧.desk self.old.windows []).windows
            → ⟦<Self as Desk>⟧.IsEconomical (calls.Window (asks.Move drop)) self.old self.new }
    {
        let open = self.activity;
        self.activity = Activity::Idle;
        let call = WindowCall::Move(drop);
        let refusal = match self.window_call(&call, call.nature(), stock) {
            Ok(_) => return Ok(OutlineReply::Shown(true)),
            Err(refusal) => refusal,
        };
        self.activity = open;
        Err(refusal)
    }
}
