//! What the definitions of frames say of each other.
ghost use Rattle.std.specs.Prelude.{◌≡◌, ℕ, Bool, true, false, Result};
ghost use Rattle.tb_geom.specs.declared.point.Point.{Point};
ghost use Rattle.tb_geom.specs.declared.refusal.Refusal.{Refusal};
ghost use Rattle.bit_map.specs.Bits.{Bits, bit, count};
ghost use Rattle.desk_layers.specs.Desk.{LayeredDesk, on_screen};
ghost use Rattle.desk_layers.specs.Owner.{Owner, owner, same_owner};
ghost use Rattle.desk_call.specs.declared.frame.FrameCall.{FrameCall};
ghost use Rattle.desk_call.specs.declared.frame.FrameReply.{FrameReply};
ghost use Rattle.window_mgr.specs.FullDesk.{IsRightState};
ghost use Rattle.window_mgr.specs.DeskStates.{DeskState};
ghost use Rattle.window_mgr.specs.Sparing.{IsSparing, is_frame};
ghost use Rattle.window_frame.specs.FrameSteps.{IsFrameStep};

/// A step of a call about a frame keeps a right state right.
#[tactic(auto, using(crate::proofs::FrameLaws::frame_stays_right))]
pub fn frames_stay_right()
    ensures { (call : FrameCall) (answer : Result FrameReply Refusal) (before after : DeskState)
        → IsRightState before.windows → IsFrameStep call answer before after → IsRightState after.windows }
{}

/// A call that spares the screen neither writes nor changes a pixel that no frame owns, that has the owner it had, and whose
/// owner does not move.
#[tactic(auto, using(crate::proofs::SparedPixels::spared_pixels_stay))]
pub fn pixels_that_keep_their_owner_are_spared()
    ensures { (moves : Owner → Bool) (draws : ℕ → Bool) (before after : LayeredDesk) (old new : Bits) (p : Point)
        → IsSparing moves draws before after old new → on_screen after p ≡ true → is_frame (owner after p) ≡ false
        → same_owner (owner before p) (owner after p) ≡ true → moves (owner after p) ≡ false
        → (count new p ≡ count old p) × (bit new p ≡ bit old p) }
{}
