//! What painting from nothing gives, and what a sound change keeps.
ghost use Rattle.std.specs.Prelude.{◌≡◌};
ghost use Rattle.tb_geom.specs.declared.point.Point.{Point};
ghost use Rattle.desk_layers.specs.Desk.{LayeredDesk, IsDesk};
ghost use Rattle.desk_layers.specs.Owner.{owner, own_bit};
ghost use Rattle.desk_layers.specs.Scratch.{scratch};
ghost use Rattle.desk_layers.specs.Change.{Change, State, IsChanged, IsSound, IsRight};

/// Painting from nothing, back to front, gives each pixel the value of its owner.
#[tactic(auto, using(crate::proofs::Painting::scratch_is_owners))]
pub fn scratch_is_owners()
    ensures { (desk : LayeredDesk) (p : Point) → IsDesk desk → scratch desk p ≡ own_bit desk (owner desk p) p }
{}

/// A sound change keeps a right state right.
#[tactic(auto, using(crate::proofs::Changing::stays_right))]
pub fn sound_changes_stay_right()
    ensures { (c : Change) (before after : State) → IsRight before → IsSound c before after.desk
        → IsChanged c before after → IsRight after }
{}
