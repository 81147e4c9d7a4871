//! Check boxes and radio buttons: which of the two one is, and what it looks like.
ghost use Rattle.std.specs.Prelude.{◌≡◌};
ghost use Rattle.std_cdef.specs.Controls.{box_damaged, box_part, box_seen, same_value};
ghost use Rattle.std_cdef.specs.Told.{fresh_check};

use crate::boxes::{check_look, radio_look};
use crate::control::{ControlLook, StdControl};
use crate::rects::is_control_size;
use crate::titles::titled_damage;
use control_values::ControlPart;
use def_iface::{ControlDef, KeptControl, Stage};
use draw_port::Canvas;
use looks::draw_look;
use tb_geom::{Point, Rect};

/// The look of a check box or of a radio button, with the numbers of their procedures (*Inside Macintosh* I, "The
/// Control Manager", "Controls and Control Definition Functions").
#[derive(Clone, Copy, Debug, PartialEq, Eq)]
pub enum Variation {
    /// checkBoxProc
    CheckBox = 1,
    /// radioButProc
    RadioButton = 2,
}

/// The definition of a check box or a radio button.
pub type StdCheck = StdControl<Variation>;

impl StdCheck {
    /// A Fresh definition of this variation, with no title and no size yet.
    pub fn new(variation: Variation) -> StdCheck
        ensures fresh { (⟦<StdCheck as ControlDef>⟧.control_meaning result).stage ≡ Stage.Fresh }
        ensures value { result ≡ fresh_check variation }
    {
        StdControl {
            look: variation,
            stage: Stage::Fresh,
            kept: KeptControl::new(),
        }
    }
}

impl ControlLook for Variation {
    ghost seen = { box_seen };

    ghost part = { λ _. box_part };

    ghost value = { λ _. same_value };

    ghost damaged = { box_damaged };

    fn damage(&self, old: &KeptControl, new: &KeptControl) -> Rect {
        if is_control_size(old.size) {
            match *self {
                Variation::CheckBox => titled_damage(old, new, &check_look(old), &check_look(new)),
                Variation::RadioButton => {
                    titled_damage(old, new, &radio_look(old), &radio_look(new))
                }
            }
        } else {
            Rect::plane()
        }
    }

    fn hit(&self, kept: &KeptControl, point: Point) -> Option<ControlPart> {
        if kept.size.rect().contains(point) {
            Some(ControlPart::CheckBox)
        } else {
            None
        }
    }

    fn thumb_value(&self, kept: &KeptControl, _from: Point, _to: Point) -> i16 {
        kept.values.value()
    }

    fn draw(&self, kept: &KeptControl, canvas: &mut Canvas<'_>) {
        let title = kept.title.as_slice();
        match *self {
            Variation::CheckBox => draw_look(canvas, &check_look(kept), title),
            Variation::RadioButton => draw_look(canvas, &radio_look(kept), title),
        }
    }
}
