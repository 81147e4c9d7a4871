//! What a scroll bar looks like.
ghost use Rattle.std.specs.Prelude.{◌≡◌};
ghost use Rattle.std_cdef.specs.Controls.{scroll_damaged, scroll_part, scroll_seen, scrolled_value};
ghost use Rattle.std_cdef.specs.Told.{fresh_scroll};

use crate::control::{ControlLook, StdControl};
use crate::rects::is_control_size;
use crate::scroll_bar::{scroll_hit, scroll_look};
use crate::thumb::thumb_value;
use crate::titles::titled_damage;
use control_values::ControlPart;
use def_iface::{ControlDef, KeptControl, Stage};
use draw_port::Canvas;
use looks::draw_look;
use tb_geom::{Point, Rect};

/// What a scroll bar looks like (scrollBarProc). It does not show its title.
#[derive(Drop)]
pub struct ScrollLook {}

/// The definition of a scroll bar.
pub type StdScroll = StdControl<ScrollLook>;

impl StdScroll {
    /// A Fresh definition, with no title and no size yet.
    pub fn new() -> StdScroll
        ensures fresh { (⟦<StdScroll as ControlDef>⟧.control_meaning result).stage ≡ Stage.Fresh }
        ensures value { result ≡ fresh_scroll }
    {
        StdControl {
            look: ScrollLook {},
            stage: Stage::Fresh,
            kept: KeptControl::new(),
        }
    }
}

impl ControlLook for ScrollLook {
    ghost seen = { λ _. scroll_seen };

    ghost part = { λ _. scroll_part };

    ghost value = { λ _. scrolled_value };

    ghost damaged = { λ _. scroll_damaged };

    fn damage(&self, old: &KeptControl, new: &KeptControl) -> Rect {
        if is_control_size(old.size) {
            titled_damage(old, new, &scroll_look(old), &scroll_look(new))
        } else {
            Rect::plane()
        }
    }

    fn hit(&self, kept: &KeptControl, point: Point) -> Option<ControlPart> {
        scroll_hit(kept, point)
    }

    fn thumb_value(&self, kept: &KeptControl, from: Point, to: Point) -> i16 {
        thumb_value(kept, from, to)
    }

    fn draw(&self, kept: &KeptControl, canvas: &mut Canvas<'_>) {
        draw_look(canvas, &scroll_look(kept), kept.title.as_slice());
    }
}
