//! The ring: a kind of control with a hole, in which whatever is behind the control shows and is hit. What lies to the left
//! of the hole is one part and what lies to the right another; what joins them above and below the hole is of no part.
ghost use Rattle.std.specs.Prelude.{◌≡◌, true, false};
ghost use Rattle.tb_geom.specs.declared.point.Point.{Point};
ghost use Rattle.tb_geom.specs.Rects.{in_plane, rect_holds};
ghost use Rattle.def_iface.specs.ControlNews.{no_control_news, told_control};
ghost use Rattle.def_iface.specs.ControlMeaning.{SameControlLook, SameControlRegions, ControlHears, IsControlDamage};
ghost use Rattle.def_iface.specs.ControlMeaning.{is_fitting_control, control_size_after};
ghost use Rattle.def_iface.specs.Sizes.{is_size};
ghost use Rattle.def_iface.specs.WindowMeaning.{IsWithin};
ghost use Rattle.looks.specs.Letters.{Lettering};
ghost use Rattle.looks.specs.Marks.{look_bit};
ghost use Rattle.own_kind.specs.Rings.{ring_look, ring_meaning, told_ring, ring_at};

use crate::ring_tables::{ring_hit, ring_look, ring_region};
use control_values::ControlPart;
use def_iface::{ControlChange, ControlDef, KeptControl, Size, Stage};
use draw_port::Canvas;
use looks::{area_region, damage_between, draw_look};
use scan_region::Region;
use std::alloc::{AllocError, Global};
use tb_geom::{Point, Rect};

/// The definition of a ring. It keeps what it is told: of a title the first 255 characters.
#[derive(Drop)]
pub struct RingControl {
    stage: Stage,
    kept: KeptControl,
}

impl RingControl {
    /// A Fresh definition, with no title and no size yet.
    pub fn new() -> RingControl
        ensures { (⟦<RingControl as ControlDef>⟧.control_meaning result).stage ≡ Stage.Fresh }
    {
        RingControl {
            stage: Stage::Fresh,
            kept: KeptControl::new(),
        }
    }
}

/// A rectangle outside which a ring that is told something else looks the same, within the range of coordinates. The old
/// size is none of a ring before the first one was told: then all may change.
fn ring_damage(old: &KeptControl, new: &KeptControl, same_title: bool) -> Rect
    requires { is_size new.now.size ≡ true }
    ensures { (u t : Lettering) → (same_title ≡ true → t ≡ u) → (p : Point) → in_plane p ≡ true
        → rect_holds result p ≡ false
        → look_bit t (ring_look new.now.size new.now.values new.now.highlight) p
        ≡ look_bit u (ring_look old.now.size old.now.values old.now.highlight) p }
{
    if old.size.is_in_range() {
        damage_between(
            &ring_look(old.size, old.values, old.highlight),
            &ring_look(new.size, new.values, new.highlight),
            same_title,
        )
    } else {
        Rect::plane()
    }
}

impl ControlDef for RingControl {
    ghost control_meaning = { ring_meaning };

    fn stage(&self) -> Stage {
        self.stage
    }

    fn begin(&mut self)
        requires { (ring_meaning self.old).stage ≡ Stage.Fresh }
        ensures live { (ring_meaning self.new).stage ≡ Stage.Live }
        ensures regions { SameControlRegions (ring_meaning self.old) (ring_meaning self.new) }
        ensures look { ControlHears (λ n. n) (ring_meaning self.old) (ring_meaning self.new) }
        ensures kept { self.new ≡ ring_at Stage.Live self.old }
    {
        self.stage = Stage::Live;
    }

    /// Nothing that it is told is forgotten: the clause `kept`, over those of the trait.
    fn told(&mut self, change: &ControlChange<'_>) -> Rect
        requires live { (ring_meaning self.old).stage ≡ Stage.Live }
        requires fits { is_fitting_control (ring_meaning self.old)
            (control_size_after change.now (ring_meaning self.old).size) ≡ true }
        ensures stays { (ring_meaning self.new).stage ≡ Stage.Live }
        ensures size { (ring_meaning self.new).size ≡ control_size_after change.now (ring_meaning self.old).size }
        ensures regions { SameControlRegions (ring_meaning self.old) (ring_meaning self.new) }
        ensures heard { ControlHears (told_control change.now) (ring_meaning self.old) (ring_meaning self.new) }
        ensures damage { IsControlDamage result (ring_meaning self.old) (ring_meaning self.new) }
        ensures answered { IsWithin (rect_holds result) ((ring_meaning self.old).damage no_control_news
            (told_control change.now no_control_news)) }
        ensures kept { self.new ≡ told_ring change.now self.old }
    {
        let kept = self.kept.after(change);
        let damage = ring_damage(&self.kept, &kept, change.keeps_title());
        self.kept = kept;
        damage
    }

    fn regions_for(&self, alloc: Global, size: Size) -> Result<Region, AllocError> {
        area_region(alloc, &ring_region(size))
    }

    fn bounds(&self, size: Size) -> Rect {
        size.rect()
    }

    fn hit(&self, point: Point) -> Option<ControlPart> {
        ring_hit(self.kept.size, point)
    }

    /// It has no thumb: its value stays.
    fn thumb_value(&self, _from: Point, _to: Point) -> i16 {
        self.kept.values.value()
    }

    fn draw(&self, canvas: &mut Canvas<'_>) {
        let look = ring_look(self.kept.size, self.kept.values, self.kept.highlight);
        draw_look(canvas, &look, self.kept.title.as_slice());
    }

    fn dispose(&mut self)
        requires { (ring_meaning self.old).stage ≡ Stage.Live }
        ensures closed { (ring_meaning self.new).stage ≡ Stage.Closed }
        ensures same { SameControlLook (ring_meaning self.old) (ring_meaning self.new) }
        ensures kept { self.new ≡ ring_at Stage.Closed self.old }
    {
        self.stage = Stage::Closed;
    }
}
