//! What a scroll bar looks like, and its parts.
ghost use Rattle.std.specs.Prelude.{◌≡◌, true};
ghost use Rattle.def_iface.specs.ControlMeaning.{is_control_size};
ghost use Rattle.std_cdef.specs.Looks.{scroll_look};
ghost use Rattle.std_cdef.specs.Hits.{scroll_spots};
ghost use Rattle.std_cdef.specs.Controls.{scroll_part};

use crate::axis::{first_box, is_long, last_box, track};
use crate::thumb::{after_thumb, before_thumb, has_thumb, thumb};
use control_values::ControlPart;
use def_iface::KeptControl;
use looks::{Spot, Step, first_part};
use tb_geom::Point;

/// The frames of the boxes, the track, the frame of all, the thumb, and the box that is lit.
#[tactic(auto, unfolding(crate::specs::Looks::scroll_look))]
pub(crate) fn scroll_look(kept: &KeptControl) -> [Step; 8]
    requires { is_control_size kept.now.size ≡ true }
    ensures { result ≡ scroll_look kept.now.size kept.now.values kept.now.highlight }
{
    let (size, values, highlight) = (kept.size, kept.values, kept.highlight);
    let long = is_long(size);
    let moves = has_thumb(size, values, highlight);
    [
        Step::black_frame(first_box(size)).when(long),
        Step::black_frame(last_box(size)).when(long),
        Step::light_gray_fill(track(size)).when(moves),
        Step::black_frame(size.rect()),
        Step::white_fill(thumb(size, values)).when(moves),
        Step::black_frame(thumb(size, values)).when(moves),
        Step::inverted(first_box(size)).when(long && highlight.shows(ControlPart::UpButton)),
        Step::inverted(last_box(size)).when(long && highlight.shows(ControlPart::DownButton)),
    ]
}

/// The parts, all of which are off without a thumb.
fn scroll_spots(kept: &KeptControl) -> [Spot<Option<ControlPart>>; 5]
    requires { is_control_size kept.now.size ≡ true }
    ensures { result ≡ scroll_spots kept.now.size kept.now.values kept.now.highlight }
{
    let (size, values, highlight) = (kept.size, kept.values, kept.highlight);
    let moves = has_thumb(size, values, highlight);
    let whole = size.rect();
    [
        Spot::new(moves, whole, first_box(size), Some(ControlPart::UpButton)),
        Spot::new(moves, whole, last_box(size), Some(ControlPart::DownButton)),
        Spot::new(moves, whole, thumb(size, values), Some(ControlPart::Thumb)),
        Spot::new(
            moves,
            whole,
            before_thumb(size, values),
            Some(ControlPart::PageUp),
        ),
        Spot::new(
            moves,
            whole,
            after_thumb(size, values),
            Some(ControlPart::PageDown),
        ),
    ]
}

/// The part that a point lies in.
pub(crate) fn scroll_hit(kept: &KeptControl, point: Point) -> Option<ControlPart>
    requires { is_control_size kept.now.size ≡ true }
    ensures { result ≡ scroll_part kept.now point }
{
    first_part(&scroll_spots(kept), None, point)
}
