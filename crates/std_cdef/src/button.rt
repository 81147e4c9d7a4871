//! What a simple button looks like.
ghost use Rattle.std.specs.Prelude.{◌≡◌, true};
ghost use Rattle.def_iface.specs.ControlMeaning.{is_control_size};
ghost use Rattle.std_cdef.specs.Looks.{button_look};
ghost use Rattle.std_cdef.specs.Controls.{button_damaged, button_part, button_seen, same_value};
ghost use Rattle.std_cdef.specs.Told.{fresh_button};

use crate::control::{ControlLook, StdControl};
use crate::rects::{is_control_size, middle};
use crate::titles::titled_damage;
use control_values::ControlPart;
use def_iface::{ControlDef, KeptControl, Stage};
use draw_port::Canvas;
use looks::{Step, columns, draw_look};
use tb_geom::{Point, Rect};

/// What a simple button looks like (pushButProc).
#[derive(Drop)]
pub struct ButtonLook {}

/// The definition of a simple button.
pub type StdButton = StdControl<ButtonLook>;

impl StdButton {
    /// A Fresh definition, with no title and no size yet.
    pub fn new() -> StdButton
        ensures fresh { (⟦<StdButton as ControlDef>⟧.control_meaning result).stage ≡ Stage.Fresh }
        ensures value { result ≡ fresh_button }
    {
        StdControl {
            look: ButtonLook {},
            stage: Stage::Fresh,
            kept: KeptControl::new(),
        }
    }
}

/// The frame, the title in the middle, and what is put over all of it.
#[tactic(auto, unfolding(crate::specs::Looks::button_look))]
fn button_look(kept: &KeptControl) -> [Step; 4]
    requires { is_control_size kept.now.size ≡ true }
    ensures { result ≡ button_look kept.now.size kept.now.highlight }
{
    let (size, highlight) = (kept.size, kept.highlight);
    let whole = size.rect();
    [
        Step::black_frame(whole),
        Step::centred_text(whole, columns(size.width), middle(size)),
        Step::inverted(whole).when(highlight.shows(ControlPart::Button)),
        Step::grayed(whole).when(highlight.is_inactive()),
    ]
}

/// The part of a button that a point lies in: all of its rectangle is one.
pub(crate) fn button_hit(kept: &KeptControl, point: Point) -> Option<ControlPart>
    ensures { result ≡ button_part kept.now point }
{
    if kept.size.rect().contains(point) {
        Some(ControlPart::Button)
    } else {
        None
    }
}

impl ControlLook for ButtonLook {
    ghost seen = { λ _. button_seen };

    ghost part = { λ _. button_part };

    ghost value = { λ _. same_value };

    ghost damaged = { λ _. button_damaged };

    fn damage(&self, old: &KeptControl, new: &KeptControl) -> Rect {
        if is_control_size(old.size) {
            titled_damage(old, new, &button_look(old), &button_look(new))
        } else {
            Rect::plane()
        }
    }

    fn hit(&self, kept: &KeptControl, point: Point) -> Option<ControlPart> {
        button_hit(kept, point)
    }

    fn thumb_value(&self, kept: &KeptControl, _from: Point, _to: Point) -> i16 {
        kept.values.value()
    }

    fn draw(&self, kept: &KeptControl, canvas: &mut Canvas<'_>) {
        draw_look(canvas, &button_look(kept), kept.title.as_slice());
    }
}
