//! The definition of a standard control, whatever it looks like.
ghost use Rattle.std.specs.Prelude.{◌≡◌, true, false, List, ℕ, ℤ, Option};
ghost use Rattle.tb_geom.specs.declared.point.Point.{Point};
ghost use Rattle.tb_geom.specs.Points.{PixelSet};
ghost use Rattle.tb_geom.specs.Rects.{in_plane, rect_holds};
ghost use Rattle.bit_blit.specs.Draws.{Draws};
ghost use Rattle.draw_port.specs.Canvases.{canvas_holds, canvas_point, SameFrame};
ghost use Rattle.control_values.specs.declared.part.ControlPart.{ControlPart};
ghost use Rattle.def_iface.specs.declared.control_keeping.KeptControl.{KeptControl};
ghost use Rattle.def_iface.specs.ControlNews.{no_control_news, told_control};
ghost use Rattle.def_iface.specs.ControlMeaning.{SameControlLook, SameControlRegions, ControlHears, IsControlDamage};
ghost use Rattle.def_iface.specs.ControlMeaning.{is_control_size, is_fitting_control, control_size_after};
ghost use Rattle.def_iface.specs.WindowMeaning.{IsWithin};
ghost use Rattle.std_cdef.specs.Told.{std_at, std_meaning, told_std};

use crate::rects::region_of;
use control_values::ControlPart;
use def_iface::{ControlChange, ControlDef, KeptControl, Size, Stage};
use draw_port::Canvas;
use scan_region::Region;
use std::alloc::{AllocError, Global};
use tb_geom::{Point, Rect};

/// What differs between standard controls, by what each keeps of what it was told: what it shows in a font, its parts, the value
/// that it has once its thumb was dragged from one point to another, and how much of it is drawn anew. Points are local to the control.
pub trait ControlLook: Drop {
    /// What it shows in a font.
    ghost seen: { Self → KeptControl → List ℕ → PixelSet };

    /// The part that a point lies in.
    ghost part: { Self → KeptControl → Point → Option ControlPart };

    /// The value once its thumb was dragged from one point to another.
    ghost value: { Self → KeptControl → Point → Point → ℤ };

    /// The pixels that the damage may have.
    ghost damaged: { Self → KeptControl → KeptControl → PixelSet };

    /// A rectangle outside which a control that was told something looks the same, in every font and within the range of
    /// coordinates. The old size is none before the first one was told: then all may change.
    fn damage(&self, old: &KeptControl, new: &KeptControl) -> Rect
        requires { is_control_size new.now.size ≡ true }
        ensures alike { (font : List ℕ) (p : Point) → in_plane p ≡ true → rect_holds result p ≡ false
            → seen self.now new.now font p ≡ seen self.now old.now font p }
        ensures small { (p : Point) → rect_holds result p ≡ true → damaged self.now old.now new.now p ≡ true };

    /// The part that a point lies in.
    fn hit(&self, kept: &KeptControl, point: Point) -> Option<ControlPart>
        requires { is_control_size kept.now.size ≡ true }
        ensures { result ≡ part self.now kept.now point };

    /// The value once the thumb was dragged from one point to another.
    fn thumb_value(&self, kept: &KeptControl, from: Point, to: Point) -> i16
        requires { is_control_size kept.now.size ≡ true }
        ensures { result ≡ value self.now kept.now from to };

    /// Gives each pixel of the canvas what the control shows there.
    fn draw(&self, kept: &KeptControl, canvas: &mut Canvas<'_>)
        requires { is_control_size kept.now.size ≡ true }
        ensures same_map { canvas.new.map.ghost_name ≡ canvas.old.map.ghost_name }
        ensures same_frame { SameFrame canvas.old canvas.new }
        ensures drawn { Draws (canvas_holds canvas.old)
            (λ p _. seen self.now kept.now canvas.old.font.now (canvas_point canvas.old p))
            canvas.old.map.now canvas.new.map.now };
}

/// The definition of a standard control. It keeps what it is told: of a title the first 255 characters.
#[derive(Drop)]
pub struct StdControl<L> {
    /// What differs from other standard controls.
    pub(crate) look: L,
    /// Where it stands in its life.
    pub(crate) stage: Stage,
    /// What it keeps of what it was told.
    pub(crate) kept: KeptControl,
}

impl<L: ControlLook> ControlDef for StdControl<L> {
    ghost control_meaning = { std_meaning L.seen L.part L.value L.damaged };

    fn stage(&self) -> Stage {
        self.stage
    }

    fn begin(&mut self)
        requires { (std_meaning L.seen L.part L.value L.damaged self.old).stage ≡ Stage.Fresh }
        ensures live { (std_meaning L.seen L.part L.value L.damaged self.new).stage ≡ Stage.Live }
        ensures regions { SameControlRegions (std_meaning L.seen L.part L.value L.damaged self.old)
            (std_meaning L.seen L.part L.value L.damaged self.new) }
        ensures look { ControlHears (λ n. n) (std_meaning L.seen L.part L.value L.damaged self.old)
            (std_meaning L.seen L.part L.value L.damaged self.new) }
        ensures kept { self.new ≡ std_at Stage.Live self.old }
    {
        self.stage = Stage::Live;
    }

    /// Nothing that it is told is forgotten: the clause `kept`, over those of the trait.
    fn told(&mut self, change: &ControlChange<'_>) -> Rect
        requires live { (std_meaning L.seen L.part L.value L.damaged self.old).stage ≡ Stage.Live }
        requires fits { is_fitting_control (std_meaning L.seen L.part L.value L.damaged self.old)
            (control_size_after change.now (std_meaning L.seen L.part L.value L.damaged self.old).size) ≡ true }
        ensures stays { (std_meaning L.seen L.part L.value L.damaged self.new).stage ≡ Stage.Live }
        ensures size { (std_meaning L.seen L.part L.value L.damaged self.new).size
            ≡ control_size_after change.now (std_meaning L.seen L.part L.value L.damaged self.old).size }
        ensures regions { SameControlRegions (std_meaning L.seen L.part L.value L.damaged self.old)
            (std_meaning L.seen L.part L.value L.damaged self.new) }
        ensures heard { ControlHears (told_control change.now) (std_meaning L.seen L.part L.value L.damaged self.old)
            (std_meaning L.seen L.part L.value L.damaged self.new) }
        ensures damage { IsControlDamage result (std_meaning L.seen L.part L.value L.damaged self.old)
            (std_meaning L.seen L.part L.value L.damaged self.new) }
        ensures answered { IsWithin (rect_holds result) ((std_meaning L.seen L.part L.value L.damaged self.old).damage
            no_control_news (told_control change.now no_control_news)) }
        ensures kept { self.new ≡ told_std change.now self.old }
    {
        let kept = self.kept.after(change);
        let damage = self.look.damage(&self.kept, &kept);
        self.kept = kept;
        damage
    }

    fn regions_for(&self, alloc: Global, size: Size) -> Result<Region, AllocError> {
        region_of(alloc, size)
    }

    fn bounds(&self, size: Size) -> Rect {
        size.rect()
    }

    fn hit(&self, point: Point) -> Option<ControlPart> {
        self.look.hit(&self.kept, point)
    }

    fn thumb_value(&self, from: Point, to: Point) -> i16 {
        self.look.thumb_value(&self.kept, from, to)
    }

    fn draw(&self, canvas: &mut Canvas<'_>) {
        self.look.draw(&self.kept, canvas);
    }

    fn dispose(&mut self)
        requires { (std_meaning L.seen L.part L.value L.damaged self.old).stage ≡ Stage.Live }
        ensures closed { (std_meaning L.seen L.part L.value L.damaged self.new).stage ≡ Stage.Closed }
        ensures same { SameControlLook (std_meaning L.seen L.part L.value L.damaged self.old)
            (std_meaning L.seen L.part L.value L.damaged self.new) }
        ensures kept { self.new ≡ std_at Stage.Closed self.old }
    {
        self.stage = Stage::Closed;
    }
}
