//! Calls, one by one.
ghost use Rattle.std.specs.Prelude.{◌≡◌, OnErr};
ghost use Rattle.desk_call.specs.declared.window.WindowCall.TheVariants.{Info};
ghost use Rattle.window_mgr.specs.Step.{IsWindowStep};
ghost use Rattle.window_mgr.specs.Sparing.{IsSparingCall};

use crate::tell::AskedRegion;
use crate::{DeskWindows, ShowHide, WindowCall, WindowInfo, WindowManager, WindowReply};
use def_iface::{Defined, TakenWindow, WindowStock};
use tb_geom::Refusal;

impl WindowManager {
    /// Performs one call, and gives its answer. A refused call changes nothing; which refusal comes
    /// first where several would do stands with the call.
    pub fn perform(
        &mut self,
        call: &WindowCall<'_>,
        stock: &mut WindowStock,
    ) -> Result<WindowReply, Refusal>
        requires { ⟦<Self as DeskWindows>⟧.IsWhole self.old stock.old }
        ensures whole { ⟦<Self as DeskWindows>⟧.IsWhole self.new stock.new }
        ensures step { IsWindowStep call.now result
            (⟦<Self as DeskWindows>⟧.state self.old stock.old)
            (⟦<Self as DeskWindows>⟧.state self.new stock.new) }
        ensures sparing { IsSparingCall ⟦<TakenWindow as Defined>⟧.loan call.now self.old self.new }
        ensures quiet { OnErr result (self.new.screen ≡ self.old.screen) }
    {
        match call {
            WindowCall::New(window) => self.new_window(window, false, stock),
            WindowCall::NewFloating(window) => self.new_window(window, true, stock),
            WindowCall::Dispose(window) => self.dispose_window(*window, stock),
            WindowCall::Show(window) => self.show_hide(
                ShowHide {
                    window: *window,
                    shown: true,
                },
                true,
            ),
            WindowCall::Hide(window) => self.show_hide(
                ShowHide {
                    window: *window,
                    shown: false,
                },
                true,
            ),
            WindowCall::ShowHide(change) => self.show_hide(*change, false),
            WindowCall::Select(window) => self.bring_to_front(*window, true),
            WindowCall::BringToFront(window) => self.bring_to_front(*window, false),
            WindowCall::SendBehind(sent) => self.send_behind(*sent),
            WindowCall::Move(moved) => self.move_window(*moved),
            WindowCall::Size(sized) => self.size_window(*sized),
            WindowCall::Zoom(zoom) => self.zoom_window(*zoom),
            WindowCall::Draw(drawing) => self.draw(drawing),
            WindowCall::SetPicture(new) => self.set_picture(new),
            WindowCall::Scroll(scroll) => self.scroll(*scroll),
            WindowCall::Find(point) => match self.find_window(*point) {
                Ok(found) => Ok(WindowReply::Found(found)),
                Err(refusal) => Err(refusal),
            },
            WindowCall::Front => Ok(WindowReply::Front(self.windows.front())),
            WindowCall::Info(window) => self.answer_info(*window),
            WindowCall::VisibleRegion(window) => self.answer_region(*window, AskedRegion::Visible),
            WindowCall::UpdateRegion(window) => self.answer_region(*window, AskedRegion::Update),
            WindowCall::Region(region) => self.answer_asked(region),
        }
    }

    /// Tells how a window stands.
    fn answer_info(&self, window: u64) -> Result<WindowReply, Refusal>
        requires { ⟦<Self as DeskWindows>⟧.IsKept self.now }
        ensures { ⟦<Self as DeskWindows>⟧.LeavesState (IsWindowStep (Info window) result) self.now self.now }
    {
        let Some(at) = self.find(window) else {
            return Err(Refusal::NoSuchWindow);
        };
        let found = self.windows.at(at);
        Ok(WindowReply::Info(WindowInfo {
            place: found.place,
            size: found.size,
            shown: found.shown,
            highlighted: found.highlighted,
        }))
    }
}
