//! What a right state and the count of differences say of each other.
ghost use Rattle.std.specs.Prelude.{◌≡◌};
ghost use Rattle.window_mgr.specs.FullDesk.{IsRightState};
ghost use Rattle.desk_toolbox.specs.ToolboxStates.{ToolboxState};
ghost use Rattle.scratch_paint.specs.Differences.{difference_count};

/// On a desk that is right no pixel differs, whether or not a menu is pulled down, or an outline is shown.
#[tactic(auto, using(crate::proofs::DifferenceLemmas::none_differs))]
pub fn right_desks_differ_nowhere()
    ensures { (state : ToolboxState) → IsRightState state.desk.windows → difference_count state ≡ 0 }
{}
