//! What the definition of insets says.
ghost use Rattle.std.specs.Prelude.{◌≡◌, ◌↔◌, true, ℕ, suc, ℤ, pos, negsuc, ◌+ℤ◌, ◌-ℤ◌, ◌≤ℤ◌};
ghost use Rattle.tb_geom.specs.declared.point.Point.{Point};
ghost use Rattle.tb_geom.specs.Points.{PixelSet};
ghost use Rattle.region_inset.specs.Insets.{inset, IsNear};

/// A set that is narrowed keeps the pixels from which all within the distances are in the set.
#[tactic(auto, using(crate::proofs::LawLemmas::inset_everywhere))]
pub fn narrowed_sets_keep_what_they_surround()
    ensures { (s : PixelSet) (n m : ℕ) (p : Point)
        → (inset s (pos n) (pos m) p ≡ true) ↔ ((q : Point) → IsNear n m p q → s q ≡ true) }
{}

/// A set that is widened gains the pixels from which one within the distances is in the set.
#[tactic(auto, using(crate::proofs::LawLemmas::inset_somewhere))]
pub fn widened_sets_gain_what_is_near()
    ensures { (s : PixelSet) (n m : ℕ) (p : Point)
        → (inset s (negsuc n) (negsuc m) p ≡ true) ↔ ((q : Point) × IsNear (suc n) (suc m) p q × (s q ≡ true)) }
{}
