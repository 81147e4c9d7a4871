//! A control's definition in its box: what it means, and its way out of its slot, in a control's record, and back.
ghost use Rattle.std.specs.Prelude.{◌≡◌, true, IfOk};
ghost use Rattle.tb_geom.specs.declared.point.Point.{Point};
ghost use Rattle.tb_geom.specs.Rects.{IsBoxOf, rect_holds, is_empty_rect, empty_rect};
ghost use Rattle.tb_geom.specs.Pixels.{holds};
ghost use Rattle.bit_blit.specs.Draws.{Draws};
ghost use Rattle.draw_port.specs.Canvases.{canvas_holds, canvas_point, SameFrame};
ghost use Rattle.def_iface.specs.ControlNews.{no_control_news, told_control, new_control_news};
ghost use Rattle.def_iface.specs.ControlMeaning.{ControlDefinition, SameControlLook, SameControlRegions, ControlHears, IsControlBegun, IsControlDamage};
ghost use Rattle.def_iface.specs.ControlMeaning.{is_control_size, is_fitting_control, control_size_after};
ghost use Rattle.def_iface.specs.WindowMeaning.{IsWithin};
ghost use Rattle.def_iface.specs.Slots.{loan_by, slots_by};

use crate::{ControlChange, ControlDef, Defined, Held, Size, Slots, Stage, Stocked, Taken};
use control_values::{ControlPart, ControlValues, Highlight};
use draw_port::Canvas;
use scan_region::Region;
use std::alloc::{AllocError, Global};
use tb_geom::{Point, Rect};

/// A control's definition that was taken out of a stock, with its slot there.
pub type TakenControl = Taken<Box<dyn ControlDef>>;

/// Slots of control definitions.
pub type ControlStock = Slots<Box<dyn ControlDef>>;

impl Held for Box<dyn ControlDef> {
    ghost Meaning = { ControlDefinition };

    ghost meaning = { λ b. (ControlDef-box b).control_meaning b.value };

    ghost stage_of = { λ d. d.stage };

    ghost IsAlike = { SameControlLook };

    fn stage(&self) -> Stage {
        (**self).stage()
    }

    fn dispose(&mut self) {
        (**self).dispose();
    }
}

impl Defined for TakenControl {
    ghost Meaning = { ControlDefinition };

    ghost loan = { loan_by (λ b. (ControlDef-box b).control_meaning b.value) };
}

impl Stocked for ControlStock {
    ghost Meaning = { ControlDefinition };

    ghost slots = { slots_by (λ b. (ControlDef-box b).control_meaning b.value) };
}

impl TakenControl {
    /// The exact box of the region of a control of this size, local to the control, 0 0 0 0 where it has no pixel.
    pub fn bounds(&self, size: Size) -> Rect
        requires { is_control_size size ≡ true }
        ensures value { result ≡ (⟦<TakenControl as Defined>⟧.loan self.now).definition.bounds size }
        ensures exact { IsBoxOf result ((⟦<TakenControl as Defined>⟧.loan self.now).definition.region size) }
        ensures none { is_empty_rect result ≡ true → result ≡ empty_rect }
    {
        self.definition.bounds(size)
    }

    /// The region of a control of this size, local to it.
    pub fn regions_for(&self, alloc: Global, size: Size) -> Result<Region, AllocError>
        requires { is_fitting_control (⟦<TakenControl as Defined>⟧.loan self.now).definition size ≡ true }
        ensures region { IfOk result (λ r. (p : Point)
            → holds r p ≡ (⟦<TakenControl as Defined>⟧.loan self.now).definition.region size p) }
        ensures boxed { IfOk result (λ r. IsWithin (holds r)
            (rect_holds ((⟦<TakenControl as Defined>⟧.loan self.now).definition.bounds size))) }
    {
        self.definition.regions_for(alloc, size)
    }

    /// Makes a Fresh definition Live, and tells it all there is to tell of a new control: its size, the bytes of its title,
    /// its minimum, maximum and value, and that it is not highlighted.
    pub fn begin(&mut self, size: Size, title: &[u8], values: ControlValues)
        requires fresh { (⟦<TakenControl as Defined>⟧.loan self.old).definition.stage ≡ Stage.Fresh }
        requires fits { is_fitting_control (⟦<TakenControl as Defined>⟧.loan self.old).definition size ≡ true }
        ensures begun { IsControlBegun (new_control_news size title.now values)
            (⟦<TakenControl as Defined>⟧.loan self.old).definition
            (⟦<TakenControl as Defined>⟧.loan self.new).definition }
        ensures slot { (⟦<TakenControl as Defined>⟧.loan self.new).slot
            ≡ (⟦<TakenControl as Defined>⟧.loan self.old).slot }
    {
        self.wake();
        let _damage = self.told(&ControlChange::Resized(size));
        let _damage = self.told(&ControlChange::Titled(title));
        let _damage = self.told(&ControlChange::Set(values));
        let _damage = self.told(&ControlChange::Highlighted(Highlight::none()));
    }

    /// Makes a Fresh definition Live.
    fn wake(&mut self)
        requires { (⟦<TakenControl as Defined>⟧.loan self.old).definition.stage ≡ Stage.Fresh }
        ensures live { (⟦<TakenControl as Defined>⟧.loan self.new).definition.stage ≡ Stage.Live }
        ensures regions { SameControlRegions (⟦<TakenControl as Defined>⟧.loan self.old).definition
            (⟦<TakenControl as Defined>⟧.loan self.new).definition }
        ensures look { ControlHears (λ n. n) (⟦<TakenControl as Defined>⟧.loan self.old).definition
            (⟦<TakenControl as Defined>⟧.loan self.new).definition }
        ensures slot { (⟦<TakenControl as Defined>⟧.loan self.new).slot
            ≡ (⟦<TakenControl as Defined>⟧.loan self.old).slot }
    {
        self.definition.begin();
    }

    /// Tells a Live definition of a change. The answer is the damage: in every font the pictures before
    /// and after are equal outside it, within the range of coordinates.
    pub fn told(&mut self, change: &ControlChange<'_>) -> Rect
        requires live { (⟦<TakenControl as Defined>⟧.loan self.old).definition.stage ≡ Stage.Live }
        requires fits { is_fitting_control (⟦<TakenControl as Defined>⟧.loan self.old).definition
            (control_size_after change.now (⟦<TakenControl as Defined>⟧.loan self.old).definition.size) ≡ true }
        ensures stays { (⟦<TakenControl as Defined>⟧.loan self.new).definition.stage ≡ Stage.Live }
        ensures size { (⟦<TakenControl as Defined>⟧.loan self.new).definition.size
            ≡ control_size_after change.now (⟦<TakenControl as Defined>⟧.loan self.old).definition.size }
        ensures regions { SameControlRegions (⟦<TakenControl as Defined>⟧.loan self.old).definition
            (⟦<TakenControl as Defined>⟧.loan self.new).definition }
        ensures heard { ControlHears (told_control change.now)
            (⟦<TakenControl as Defined>⟧.loan self.old).definition
            (⟦<TakenControl as Defined>⟧.loan self.new).definition }
        ensures damage { IsControlDamage result (⟦<TakenControl as Defined>⟧.loan self.old).definition
            (⟦<TakenControl as Defined>⟧.loan self.new).definition }
        ensures answered { IsWithin (rect_holds result)
            ((⟦<TakenControl as Defined>⟧.loan self.old).definition.damage no_control_news
            (told_control change.now no_control_news)) }
        ensures slot { (⟦<TakenControl as Defined>⟧.loan self.new).slot
            ≡ (⟦<TakenControl as Defined>⟧.loan self.old).slot }
    {
        self.definition.told(change)
    }

    /// The part of the control that the point, local to it, lies in, if it lies in one.
    pub fn hit(&self, point: Point) -> Option<ControlPart>
        requires live { (⟦<TakenControl as Defined>⟧.loan self.now).definition.stage ≡ Stage.Live }
        requires told { is_fitting_control (⟦<TakenControl as Defined>⟧.loan self.now).definition
            (⟦<TakenControl as Defined>⟧.loan self.now).definition.size ≡ true }
        ensures { result ≡ (⟦<TakenControl as Defined>⟧.loan self.now).definition.hit no_control_news point }
    {
        self.definition.hit(point)
    }

    /// The value that the control has once its thumb was dragged from one point to another, both local to it.
    pub fn thumb_value(&self, from: Point, to: Point) -> i16
        requires live { (⟦<TakenControl as Defined>⟧.loan self.now).definition.stage ≡ Stage.Live }
        requires told { is_fitting_control (⟦<TakenControl as Defined>⟧.loan self.now).definition
            (⟦<TakenControl as Defined>⟧.loan self.now).definition.size ≡ true }
        ensures { result
            ≡ (⟦<TakenControl as Defined>⟧.loan self.now).definition.thumb_value no_control_news from to }
    {
        self.definition.thumb_value(from, to)
    }

    /// Gives each pixel of the canvas the value that the definition's picture has there in the canvas's font.
    pub fn draw(&self, canvas: &mut Canvas<'_>)
        requires live { (⟦<TakenControl as Defined>⟧.loan self.now).definition.stage ≡ Stage.Live }
        requires told { is_fitting_control (⟦<TakenControl as Defined>⟧.loan self.now).definition
            (⟦<TakenControl as Defined>⟧.loan self.now).definition.size ≡ true }
        ensures same_map { canvas.new.map.ghost_name ≡ canvas.old.map.ghost_name }
        ensures same_frame { SameFrame canvas.old canvas.new }
        ensures drawn { Draws (canvas_holds canvas.old)
            (λ p _. (⟦<TakenControl as Defined>⟧.loan self.now).definition.picture no_control_news
            canvas.old.font.now (canvas_point canvas.old p))
            canvas.old.map.now canvas.new.map.now }
    {
        self.definition.draw(canvas);
    }
}
