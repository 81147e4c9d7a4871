//! The calls about outlines.
ghost use Rattle.std.specs.Prelude.{◌≡◌, IfOk, None, []};
ghost use Rattle.desk_call.specs.Gates.{gate, outline_standing};
ghost use Rattle.desk_call.specs.Outlines.{IsOutlineKept};
ghost use Rattle.window_outline.specs.OutlineSteps.{IsOutlining};

use crate::dragging::{begin_drag, end_drag, step_drag};
use crate::growing::{begin_grow, end_grow, step_grow};
use desk_call::{Activity, OutlineCall, OutlineReply};
use tb_geom::Refusal;
use window_mgr::{DeskWindows, WindowManager};

/// What came of a call about an outline.
#[derive(Clone, Copy)]
pub struct Outlining {
    /// What it answers.
    pub reply: OutlineReply,
    /// What is open then, with the outline that is shown.
    pub activity: Activity,
}

/// What a call on these windows answers, which may come while this is open, and what is open then. It changes nothing: the
/// end of a drag in the gray region still has to move the window (`let_go`). NoSuchWindow and OutOfRange come in this order.
pub fn outlined_by(
    windows: &WindowManager,
    activity: Activity,
    call: &OutlineCall,
) -> Result<Outlining, Refusal>
    requires kept { ⟦<WindowManager as DeskWindows>⟧.IsKept windows.now }
    requires admitted { gate activity (outline_standing call.now) ≡ None }
    requires outline { IsOutlineKept activity }
    ensures step { IsOutlining call.now activity result (⟦<WindowManager as DeskWindows>⟧.desk windows.now []) }
    ensures outline { IfOk result (λ o. IsOutlineKept o.activity) }
{
    match (call, activity) {
        (OutlineCall::Drag(drag), _) => begin_drag(windows, activity, *drag),
        (OutlineCall::StepDrag(point), Activity::Dragging(dragged)) => {
            step_drag(windows, dragged, *point)
        }
        (OutlineCall::EndDrag(point), _) => end_drag(windows, activity, *point),
        (OutlineCall::Grow(grow), _) => begin_grow(windows, activity, *grow),
        (OutlineCall::StepGrow(point), Activity::Growing(grown)) => {
            step_grow(windows, grown, *point)
        }
        (OutlineCall::EndGrow(point), Activity::Growing(grown)) => end_grow(windows, grown, *point),
        _ => unreachable!(),
    }
}
