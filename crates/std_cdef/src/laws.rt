//! What the numbers of a thumb imply.
ghost use Rattle.std.specs.Prelude.{◌≡◌, ◌≢◌, ◌+◌, ◌-◌, ◌<◌, ◌≤◌, true, ℕ, ℤ, pos, ◌+ℤ◌, ◌≤ℤ◌, ◌<ℤ◌};
ghost use Rattle.tb_geom.specs.declared.point.Point.{Point};
ghost use Rattle.control_values.specs.Settings.{Setting, IsSettled};
ghost use Rattle.def_iface.specs.declared.size.Size.{Size};
ghost use Rattle.std_cdef.specs.Axes.{axis, is_long, room};
ghost use Rattle.std_cdef.specs.Thumbs.{thumb_step, dragged_value, thumb_value};

/// The thumb, which is 16 long and begins 16 and its step from the control's begin, ends before the last box begins.
#[tactic(auto, using(crate::proofs::ThumbLemmas::on_track))]
pub fn a_thumb_lies_on_the_track()
    ensures { (s : Size) (v : Setting) → IsSettled v → is_long s ≡ true → 32 + thumb_step s v ≤ axis s - 16 }
{}

/// A greater value has no smaller place.
#[tactic(auto, using(crate::proofs::ThumbLemmas::steps_rise))]
pub fn a_greater_value_has_no_smaller_place()
    ensures { (s : Size) (low high y z : ℤ) → low ≤ℤ y → y ≤ℤ z → z ≤ℤ high
        → thumb_step s (record { minimum = low; maximum = high; value = y })
        ≤ thumb_step s (record { minimum = low; maximum = high; value = z }) }
{}

/// At the minimum the thumb is at the start of the track.
#[tactic(auto, using(crate::proofs::ThumbLemmas::step_first))]
pub fn the_least_value_is_at_the_start()
    ensures { (s : Size) (v : Setting) → v.value ≡ v.minimum → thumb_step s v ≡ 0 }
{}

/// At the maximum it is at the end.
#[tactic(auto, using(crate::proofs::ThumbLemmas::step_last))]
pub fn the_greatest_value_is_at_the_end()
    ensures { (s : Size) (v : Setting) → v.value ≡ v.maximum → v.minimum <ℤ v.maximum → thumb_step s v ≡ room s }
{}

/// A dragged thumb gives a value between the minimum and the maximum.
pub fn a_dragged_value_lies_within()
    ensures { (s : Size) (v : Setting) (highlight : ℕ) (from to : Point) → IsSettled v
        → IsSettled (record v { value = thumb_value s v highlight from to }) }
{}

/// Dragged further on, it gives no smaller value.
pub fn a_further_way_gives_no_smaller_value()
    ensures { (s : Size) (v : Setting) (m n : ℤ) → IsSettled v → m ≤ℤ n → dragged_value s v m ≤ℤ dragged_value s v n }
{}

/// A thumb that is not moved keeps the value.
pub fn no_way_keeps_the_value()
    ensures { (s : Size) (v : Setting) → dragged_value s v (pos 0) ≡ v.value }
{}

/// Dragged to the start of the track, or past it, it gives the minimum.
pub fn a_way_to_the_start_gives_the_minimum()
    ensures { (s : Size) (v : Setting) (m : ℤ) → 0 < room s → m ≢ pos 0
        → (pos (thumb_step s v) +ℤ m) ≤ℤ pos 0 → dragged_value s v m ≡ v.minimum }
{}

/// Dragged to the end, or past it, it gives the maximum.
pub fn a_way_to_the_end_gives_the_maximum()
    ensures { (s : Size) (v : Setting) (m : ℤ) → IsSettled v → 0 < room s → m ≢ pos 0
        → pos (room s) ≤ℤ (pos (thumb_step s v) +ℤ m) → dragged_value s v m ≡ v.maximum }
{}
