//! What a default button looks like: a simple button within a ring.
ghost use Rattle.std.specs.Prelude.{◌≡◌, true};
ghost use Rattle.def_iface.specs.ControlMeaning.{is_control_size};
ghost use Rattle.std_cdef.specs.Looks.{default_button_look, inset};
ghost use Rattle.std_cdef.specs.Controls.{default_button_damaged, default_button_part, default_button_seen, same_value};
ghost use Rattle.std_cdef.specs.Told.{fresh_default_button};

use crate::control::{ControlLook, StdControl};
use crate::rects::{is_control_size, middle};
use crate::titles::titled_damage;
use control_values::ControlPart;
use def_iface::{ControlDef, KeptControl, Size, Stage};
use draw_port::Canvas;
use looks::{Step, columns, draw_look, less, sides};
use tb_geom::{Point, Rect};

/// What the button of a dialog looks like that the keys Return and Enter stand for (*Inside Macintosh* I, "The Dialog Manager",
/// "Item Types"): a button, one pixel of white around it, and a ring of three black pixels around that.
#[derive(Drop)]
pub struct DefaultButtonLook {}

/// The definition of a default button.
pub type StdDefaultButton = StdControl<DefaultButtonLook>;

impl StdDefaultButton {
    /// A Fresh definition, with no title and no size yet.
    pub fn new() -> StdDefaultButton
        ensures fresh { (⟦<StdDefaultButton as ControlDef>⟧.control_meaning result).stage ≡ Stage.Fresh }
        ensures value { result ≡ fresh_default_button }
    {
        StdControl {
            look: DefaultButtonLook {},
            stage: Stage::Fresh,
            kept: KeptControl::new(),
        }
    }
}

/// The rectangle of the control less so many pixels at each edge.
fn inset(size: Size, by: u8) -> Rect
    requires { is_control_size size ≡ true }
    ensures { result ≡ inset by size }
{
    sides(
        i32::from(by),
        i32::from(by),
        less(size.width, by),
        less(size.height, by),
    )
}

/// The ring, the button in it as any other, inverted within the ring, and gray over all of it.
#[tactic(auto, unfolding(crate::specs::Looks::default_button_look))]
fn default_button_look(kept: &KeptControl) -> [Step; 6]
    requires { is_control_size kept.now.size ≡ true }
    ensures { result ≡ default_button_look kept.now.size kept.now.highlight }
{
    let (size, highlight) = (kept.size, kept.highlight);
    let whole = size.rect();
    let button = inset(size, 4);
    [
        Step::black_fill(whole),
        Step::white_fill(inset(size, 3)),
        Step::black_frame(button),
        Step::centred_text(button, columns(size.width), middle(size)),
        Step::inverted(button).when(highlight.shows(ControlPart::Button)),
        Step::grayed(whole).when(highlight.is_inactive()),
    ]
}

impl ControlLook for DefaultButtonLook {
    ghost seen = { λ _. default_button_seen };

    ghost part = { λ _. default_button_part };

    ghost value = { λ _. same_value };

    ghost damaged = { λ _. default_button_damaged };

    fn damage(&self, old: &KeptControl, new: &KeptControl) -> Rect {
        if is_control_size(old.size) {
            titled_damage(
                old,
                new,
                &default_button_look(old),
                &default_button_look(new),
            )
        } else {
            Rect::plane()
        }
    }

    fn hit(&self, kept: &KeptControl, point: Point) -> Option<ControlPart> {
        if inset(kept.size, 4).contains(point) {
            Some(ControlPart::Button)
        } else {
            None
        }
    }

    fn thumb_value(&self, kept: &KeptControl, _from: Point, _to: Point) -> i16 {
        kept.values.value()
    }

    fn draw(&self, kept: &KeptControl, canvas: &mut Canvas<'_>) {
        draw_look(canvas, &default_button_look(kept), kept.title.as_slice());
    }
}
