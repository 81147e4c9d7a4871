//! What check boxes and radio buttons look like.
ghost use Rattle.std.specs.Prelude.{◌≡◌, true};
ghost use Rattle.tb_geom.specs.Rects.{is_coordinate};
ghost use Rattle.def_iface.specs.ControlMeaning.{is_control_size};
ghost use Rattle.std_cdef.specs.Axes.{box_top, by_box};
ghost use Rattle.std_cdef.specs.Looks.{check_text, is_on, check_look, radio_look};

use crate::rects::middle;
use control_values::{ControlPart, ControlValues};
use def_iface::{KeptControl, Size};
use looks::{Step, more, sides};
use tb_geom::Rect;

/// The first row of the box.
#[tactic(auto, unfolding(crate::specs::Axes::box_top))]
fn box_top(size: Size) -> i32
    requires { is_control_size size ≡ true }
    ensures value { result ≡ box_top size }
    ensures within { is_coordinate result ≡ true }
{
    (size.height - 12).div_euclid(2)
}

/// A rectangle with its rows counted from there.
fn by_box(size: Size, left: u8, top: u8, right: u8, bottom: u8) -> Rect
    requires { is_control_size size ≡ true }
    ensures { result ≡ by_box size left top right bottom }
{
    sides(
        i32::from(left),
        more(box_top(size), top),
        i32::from(right),
        more(box_top(size), bottom),
    )
}

/// The title beside the box.
fn check_text(size: Size) -> Step
    requires { is_control_size size ≡ true }
    ensures { result ≡ check_text size }
{
    Step::text_at(size.rect(), 18, middle(size))
}

/// Whether the control is on.
fn is_on(values: ControlValues) -> bool
    ensures { result ≡ is_on values }
{
    values.value() != 0
}

/// A check box.
#[tactic(auto, unfolding(crate::specs::Looks::check_look))]
pub(crate) fn check_look(kept: &KeptControl) -> [Step; 5]
    requires { is_control_size kept.now.size ≡ true }
    ensures { result ≡ check_look kept.now.size kept.now.values kept.now.highlight }
{
    let (size, values, highlight) = (kept.size, kept.values, kept.highlight);
    let lit = highlight.shows(ControlPart::CheckBox);
    [
        Step::black_frame(by_box(size, 2, 0, 14, 12)),
        Step::black_cross(by_box(size, 3, 1, 13, 11)).when(is_on(values)),
        check_text(size),
        Step::black_frame(by_box(size, 3, 1, 13, 11)).when(lit),
        Step::grayed(size.rect()).when(highlight.is_inactive()),
    ]
}

/// A radio button: the four sides of its box, and the square in it.
#[tactic(auto, unfolding(crate::specs::Looks::radio_look))]
pub(crate) fn radio_look(kept: &KeptControl) -> [Step; 8]
    requires { is_control_size kept.now.size ≡ true }
    ensures { result ≡ radio_look kept.now.size kept.now.values kept.now.highlight }
{
    let (size, values, highlight) = (kept.size, kept.values, kept.highlight);
    let lit = highlight.shows(ControlPart::CheckBox);
    [
        Step::black_fill(by_box(size, 3, 0, 13, 1)),
        Step::black_fill(by_box(size, 3, 11, 13, 12)),
        Step::black_fill(by_box(size, 2, 1, 3, 11)),
        Step::black_fill(by_box(size, 13, 1, 14, 11)),
        Step::black_fill(by_box(size, 5, 3, 11, 9)).when(is_on(values)),
        check_text(size),
        Step::black_frame(by_box(size, 3, 1, 13, 11)).when(lit),
        Step::grayed(size.rect()).when(highlight.is_inactive()),
    ]
}
