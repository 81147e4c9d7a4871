//! What a button with rounded corners looks like.
ghost use Rattle.std.specs.Prelude.{◌≡◌, true};
ghost use Rattle.def_iface.specs.ControlMeaning.{is_control_size};
ghost use Rattle.std_cdef.specs.Looks.{half_corner, round_button_look};
ghost use Rattle.std_cdef.specs.Controls.{button_part, round_button_damaged, round_button_seen, same_value};
ghost use Rattle.std_cdef.specs.Told.{fresh_round_button};

use crate::button::button_hit;
use crate::control::{ControlLook, StdControl};
use crate::rects::{is_control_size, middle};
use crate::titles::titled_damage;
use control_values::ControlPart;
use def_iface::{ControlDef, KeptControl, Size, Stage};
use draw_port::Canvas;
use looks::{Step, columns, draw_look};
use shape_strips::Corner;
use tb_geom::{Point, Rect};

/// What a button with rounded corners looks like.
#[derive(Drop)]
pub struct RoundButtonLook {}

/// The definition of a button with rounded corners.
pub type StdRoundButton = StdControl<RoundButtonLook>;

impl StdRoundButton {
    /// A Fresh definition, with no title and no size yet.
    pub fn new() -> StdRoundButton
        ensures fresh { (⟦<StdRoundButton as ControlDef>⟧.control_meaning result).stage ≡ Stage.Fresh }
        ensures value { result ≡ fresh_round_button }
    {
        StdControl {
            look: RoundButtonLook {},
            stage: Stage::Fresh,
            kept: KeptControl::new(),
        }
    }
}

/// Corners of half the button's height.
fn half_corner(size: Size) -> Corner
    requires { is_control_size size ≡ true }
    ensures { result ≡ half_corner size }
{
    let half = size.height as u16 / 2;
    Corner {
        width: half,
        height: half,
    }
}

/// The rounded frame, the title in the middle, and what is put over the inside or over all of it.
#[tactic(auto, unfolding(crate::specs::Looks::round_button_look))]
fn round_button_look(kept: &KeptControl) -> [Step; 5]
    requires { is_control_size kept.now.size ≡ true }
    ensures { result ≡ round_button_look kept.now.size kept.now.highlight }
{
    let (size, highlight) = (kept.size, kept.highlight);
    let whole = size.rect();
    let corner = half_corner(size);
    [
        Step::black_round(whole, corner),
        Step::white_inside(whole, corner),
        Step::centred_text(whole, columns(size.width), middle(size)),
        Step::inverted_inside(whole, corner).when(highlight.shows(ControlPart::Button)),
        Step::grayed(whole).when(highlight.is_inactive()),
    ]
}

impl ControlLook for RoundButtonLook {
    ghost seen = { λ _. round_button_seen };

    ghost part = { λ _. button_part };

    ghost value = { λ _. same_value };

    ghost damaged = { λ _. round_button_damaged };

    fn damage(&self, old: &KeptControl, new: &KeptControl) -> Rect {
        if is_control_size(old.size) {
            titled_damage(old, new, &round_button_look(old), &round_button_look(new))
        } else {
            Rect::plane()
        }
    }

    fn hit(&self, kept: &KeptControl, point: Point) -> Option<ControlPart> {
        button_hit(kept, point)
    }

    fn thumb_value(&self, kept: &KeptControl, _from: Point, _to: Point) -> i16 {
        kept.values.value()
    }

    fn draw(&self, kept: &KeptControl, canvas: &mut Canvas<'_>) {
        draw_look(canvas, &round_button_look(kept), kept.title.as_slice());
    }
}
