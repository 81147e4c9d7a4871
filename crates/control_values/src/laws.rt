//! What the definitions of settings and parts imply.
ghost use Rattle.std.specs.Prelude.{◌≡◌, ◌≤ℤ◌, ℤ, Some};
ghost use Rattle.control_values.specs.declared.part.ControlPart.{ControlPart};
ghost use Rattle.control_values.specs.Parts.{number_of, part_of};
ghost use Rattle.control_values.specs.Settings.{nearest, settled, IsSettled};

/// The value lies between the minimum and the maximum.
#[tactic(auto, using(crate::proofs::SettingLemmas::settled_lies_within))]
pub fn the_value_lies_within()
    ensures { (low high z : ℤ) → low ≤ℤ high → IsSettled (settled low high z) }
{}

/// A value that lies between them already stays as it is. So setting a value twice is setting it once.
#[tactic(auto, using(crate::proofs::SettingLemmas::within_stays))]
pub fn a_value_within_stays()
    ensures { (low high z : ℤ) → low ≤ℤ z → z ≤ℤ high → nearest low high z ≡ z }
{}

/// Setting a value twice is setting it once.
#[tactic(auto, using(crate::proofs::SettingLemmas::settled_once))]
pub fn setting_twice_is_setting_once()
    ensures { (low high z : ℤ) → settled low high (nearest low high z) ≡ settled low high z }
{}

/// A greater value is not settled below a smaller one.
#[tactic(auto, using(crate::proofs::SettingLemmas::order_stays))]
pub fn the_order_of_values_stays()
    ensures { (low high y z : ℤ) → y ≤ℤ z → nearest low high y ≤ℤ nearest low high z }
{}

/// Each part has a part code of its own.
#[tactic(auto, using(crate::proofs::PartLemmas::part_of_its_number))]
pub fn a_part_has_its_own_number()
    ensures { (part : ControlPart) → part_of (number_of part) ≡ Some part }
{}
