//! What an icon looks like: an image of as many columns and rows as the control has.
ghost use Rattle.std.specs.Prelude.{◌≡◌, true, false};
ghost use Rattle.tb_geom.specs.declared.point.Point.{Point};
ghost use Rattle.tb_geom.specs.Rects.{in_plane, rect_holds};
ghost use Rattle.def_iface.specs.ControlMeaning.{is_control_size};
ghost use Rattle.bit_blit.specs.Draws.{Draws};
ghost use Rattle.draw_port.specs.Canvases.{canvas_holds, canvas_point, SameFrame};
ghost use Rattle.std_cdef.specs.Icons.{around_sizes, icon_bit, icon_damaged, icon_part, icon_seen, is_same_icon};
ghost use Rattle.std_cdef.specs.Controls.{same_value};
ghost use Rattle.std_cdef.specs.Told.{fresh_icon};

use crate::control::{ControlLook, StdControl};
use crate::rects::is_control_size;
use crate::titles::same_title;
use bit_map::{Mode, Pattern};
use control_values::ControlPart;
use def_iface::{ControlDef, KeptControl, Size, Stage};
use draw_port::Canvas;
use looks::{columns, sides};
use tb_geom::{Point, Rect};

/// What an icon of a dialog looks like (*Inside Macintosh* I, "The Dialog Manager", "Item Types"): the bytes of its title are the
/// rows of its image, each of whole bytes, the high bit left.
#[derive(Drop)]
pub struct IconLook {}

/// The definition of an icon.
pub type StdIcon = StdControl<IconLook>;

impl StdIcon {
    /// A Fresh definition, with no image and no size yet.
    pub fn new() -> StdIcon
        ensures fresh { (⟦<StdIcon as ControlDef>⟧.control_meaning result).stage ≡ Stage.Fresh }
        ensures value { result ≡ fresh_icon }
    {
        StdControl {
            look: IconLook {},
            stage: Stage::Fresh,
            kept: KeptControl::new(),
        }
    }
}

/// Whether both are the same image in the same size.
#[tactic(auto, unfolding(crate::specs::Icons::is_same_icon))]
fn is_same_icon(old: &KeptControl, new: &KeptControl) -> bool
    ensures { result ≡ is_same_icon old.now new.now }
{
    old.size.width == new.size.width && (old.size.height == new.size.height && same_title(old, new))
}

/// The rectangle around two sizes.
fn around_sizes(a: Size, b: Size) -> Rect
    ensures { result ≡ around_sizes a b }
{
    sides(0, 0, a.width.max(b.width), a.height.max(b.height))
}

impl ControlLook for IconLook {
    ghost seen = { λ _. icon_seen };

    ghost part = { λ _. icon_part };

    ghost value = { λ _. same_value };

    ghost damaged = { λ _. icon_damaged };

    /// No pixel where it is the same image, and else the sizes of both.
    fn damage(&self, old: &KeptControl, new: &KeptControl) -> Rect {
        if !is_control_size(old.size) {
            Rect::plane()
        } else if is_same_icon(old, new) {
            sides(0, 0, 0, 0)
        } else {
            around_sizes(old.size, new.size)
        }
    }

    fn hit(&self, _kept: &KeptControl, _point: Point) -> Option<ControlPart> {
        None
    }

    fn thumb_value(&self, kept: &KeptControl, _from: Point, _to: Point) -> i16 {
        kept.values.value()
    }

    /// The image on white.
    fn draw(&self, kept: &KeptControl, canvas: &mut Canvas<'_>) {
        canvas.fill_all(Pattern::WHITE, Mode::Copy);
        let corner = Point { h: 0, v: 0 };
        let width = columns(kept.size.width);
        let height = columns(kept.size.height);
        canvas.bits(corner, width, height, kept.title.as_slice(), Mode::Copy);
    }
}
