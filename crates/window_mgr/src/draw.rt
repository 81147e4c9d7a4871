//! The call that draws.
ghost use Rattle.std.specs.Prelude.{◌≡◌, [], Some, MatchResult, OnErr};
ghost use Rattle.desk_call.specs.declared.window.WindowCall.TheVariants.{Draw};
ghost use Rattle.window_mgr.specs.Planned.{MayDraw};
ghost use Rattle.window_mgr.specs.Refused.{IsRefusal, is_formal};
ghost use Rattle.window_mgr.specs.Step.{IsWindowStep};

use crate::{DeskWindows, Drawing, WindowManager, WindowReply};
use draw_port::MOST_OPERATIONS;
use tb_geom::Refusal;
use window_paint::paint_last_operation;

impl WindowManager {
    /// The index of the window that is drawn in, where nothing but memory can refuse that.
    fn index_to_draw(&self, drawing: &Drawing<'_>) -> Result<usize, Refusal>
        requires { ⟦<Self as DeskWindows>⟧.IsKept self.now }
        ensures { MatchResult result (MayDraw drawing.now self.now)
            (λ e. IsRefusal (Draw drawing.now) (⟦<Self as DeskWindows>⟧.state_over self.now []) (Some e)) }
    {
        match (drawing.operation.judge(), self.find(drawing.window)) {
            (Err(refusal), _) if is_formal(refusal) => Err(refusal),
            (_, None) => Err(Refusal::NoSuchWindow),
            (Err(refusal), Some(_)) => Err(refusal),
            (Ok(()), Some(at)) => {
                if self.windows.at(at).picture.ops().len() < MOST_OPERATIONS {
                    Ok(at)
                } else {
                    Err(Refusal::TooMany)
                }
            }
        }
    }

    /// Adds an operation to the picture of a window, and draws it on each pixel of the screen that
    /// the picture owns, to be redrawn or not. The refusal is the first of these: BadSyntax and
    /// BadRegion as `OpRef::judge` has them, NoSuchWindow, OutOfRange and TooLong as it has them, TooMany
    /// where the picture has 1024 operations, NoMemory.
    #[tactic(auto, using(crate::proofs::SameDeskLemmas::on_refusal))]
    pub(crate) fn draw(&mut self, drawing: &Drawing<'_>) -> Result<WindowReply, Refusal>
        requires { ⟦<Self as DeskWindows>⟧.IsKept self.old }
        ensures step { ⟦<Self as DeskWindows>⟧.LeavesState (IsWindowStep (Draw drawing.now) result) self.old self.new }
        ensures quiet { OnErr result (self.new.screen ≡ self.old.screen) }
    {
        let at = self.index_to_draw(drawing)?;
        let Ok(operation) = drawing.operation.to_op(self.alloc) else {
            return Err(Refusal::NoMemory);
        };
        if self.windows.push_operation(at, operation).is_err() {
            return Err(Refusal::NoMemory);
        }
        paint_last_operation(
            &mut self.screen,
            &self.areas[at].visible,
            self.windows.at(at),
            &self.font,
        );
        Ok(WindowReply::Done)
    }
}

/// Whether it is a refusal of bytes that have not their form, which comes before those of what a call
/// names.
pub(crate) fn is_formal(refusal: Refusal) -> bool
    ensures { result ≡ is_formal refusal }
{
    match refusal {
        Refusal::BadSyntax | Refusal::BadRegion => true,
        _ => false,
    }
}
