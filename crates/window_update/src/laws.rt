//! What the definitions of updates say of each other.
ghost use Rattle.std.specs.Prelude.{◌≡◌, ℕ, List, Result, Ok};
ghost use Rattle.tb_geom.specs.declared.point.Point.{Point};
ghost use Rattle.tb_geom.specs.declared.refusal.Refusal.{Refusal};
ghost use Rattle.desk_call.specs.declared.update.LayerKind.{LayerKind};
ghost use Rattle.desk_call.specs.declared.update.UpdateCall.{UpdateCall};
ghost use Rattle.desk_call.specs.declared.update.UpdateCall.TheVariants.{Serve};
ghost use Rattle.desk_call.specs.declared.window.WindowReply.{WindowReply};
ghost use Rattle.desk_call.specs.declared.window.WindowReply.TheVariants.{Done};
ghost use Rattle.window_mgr.specs.FullDesk.{FullState, IsRightState};
ghost use Rattle.window_mgr.specs.Telling.{update_of};
ghost use Rattle.window_mgr.specs.DeskStates.{DeskState};
ghost use Rattle.window_update.specs.Served.{AreDone, update_drawing, AreAllKinds, AreAllServed, IsAllRight};
ghost use Rattle.window_update.specs.UpdateSteps.{IsUpdateStep};
ghost use Rattle.window_update.specs.Waiting.{IsEmpty};

/// A step of a call about updates keeps a right state right.
#[tactic(auto, using(crate::proofs::UpdateLaws::update_stays_right))]
pub fn updates_stay_right()
    ensures { (call : UpdateCall) (answer : Result WindowReply Refusal) (before after : DeskState)
        → IsRightState before.windows → IsUpdateStep call answer before after → IsRightState after.windows }
{}

/// A window whose update was served has an empty update region.
#[tactic(auto, using(crate::proofs::ServedLaws::served_has_nothing))]
pub fn a_served_window_has_an_empty_update_region()
    ensures { (window : ℕ) (before after : DeskState) → IsUpdateStep (Serve window) (Ok Done) before after
        → IsEmpty (update_of window after.windows) }
{}

/// Serving a window's update leaves the update regions of the other windows as they were.
#[tactic(auto, using(crate::proofs::ServedLaws::served_leaves_others))]
pub fn serving_a_window_leaves_the_others()
    ensures { (window other : ℕ) (before after : DeskState) → IsUpdateStep (Serve window) (Ok Done) before after
        → (other ≡ window → ⊥) → (p : Point) → update_of other after.windows p ≡ update_of other before.windows p }
{}

/// A window's update is served where it was begun, its picture, its text records, its lists and its controls were drawn, in
/// whichever order and however often, and it was ended. Text records, lists or controls of which it shows none need no draw.
#[tactic(auto, using(crate::proofs::AnyOrder::drawn_in_any_order_is_served))]
pub fn an_update_drawn_in_any_order_is_served()
    ensures { (window : ℕ) (kinds : List LayerKind) (before after : DeskState)
        → AreAllKinds window before.windows kinds
        → AreDone (update_drawing window kinds) before after → IsUpdateStep (Serve window) (Ok Done) before after }
{}

/// Where no window's update region has a pixel, a right state shows on the whole screen what painting the desk from
/// nothing gives.
#[tactic(auto, using(crate::proofs::ServedLaws::all_served_is_right))]
pub fn a_desk_whose_updates_are_served_is_all_right()
    ensures { (state : FullState) → IsRightState state → AreAllServed state → IsAllRight state }
{}
