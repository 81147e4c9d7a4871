//! A window's definition in its box: what it means, and its way out of its slot, in a window's record, and back.
ghost use Rattle.std.specs.Prelude.{◌≡◌, true, IfOk};
ghost use Rattle.tb_geom.specs.declared.point.Point.{Point};
ghost use Rattle.tb_geom.specs.Rects.{IsBoxOf, rect_holds, is_empty_rect, empty_rect};
ghost use Rattle.tb_geom.specs.Pixels.{holds};
ghost use Rattle.bit_blit.specs.Draws.{Draws};
ghost use Rattle.draw_port.specs.Canvases.{canvas_holds, canvas_point, SameFrame};
ghost use Rattle.def_iface.specs.Sizes.{is_size};
ghost use Rattle.def_iface.specs.Lines.{AreApart};
ghost use Rattle.def_iface.specs.WindowMeaning.{WindowDefinition, SameLook, SameRegions, IsWithin, IsBegun, WindowHears, IsDamage, is_fitting, size_after};
ghost use Rattle.def_iface.specs.WindowNews.{no_news, told_change, new_window_news};
ghost use Rattle.def_iface.specs.Slots.{loan_by, slots_by};

use crate::{
    Defined, Held, Hit, Size, Slots, Stage, Stocked, Taken, WindowChange, WindowDef, WindowRegions,
};
use draw_port::Canvas;
use std::alloc::{AllocError, Global};
use tb_geom::{Point, Rect};

/// A window's definition that was taken out of a stock, with its slot there.
pub type TakenWindow = Taken<Box<dyn WindowDef>>;

/// Slots of window definitions.
pub type WindowStock = Slots<Box<dyn WindowDef>>;

impl Held for Box<dyn WindowDef> {
    ghost Meaning = { WindowDefinition };

    ghost meaning = { λ b. (WindowDef-box b).meaning b.value };

    ghost stage_of = { λ d. d.stage };

    ghost IsAlike = { SameLook };

    fn stage(&self) -> Stage {
        (**self).stage()
    }

    fn dispose(&mut self) {
        (**self).dispose();
    }
}

impl Defined for TakenWindow {
    ghost Meaning = { WindowDefinition };

    ghost loan = { loan_by (λ b. (WindowDef-box b).meaning b.value) };
}

impl Stocked for WindowStock {
    ghost Meaning = { WindowDefinition };

    ghost slots = { slots_by (λ b. (WindowDef-box b).meaning b.value) };
}

impl TakenWindow {
    /// The exact box of the structure of a window of this size, local to the window, 0 0 0 0 where it
    /// has no pixel. The content lies in the structure.
    pub fn bounds(&self, size: Size) -> Rect
        requires { is_size size ≡ true }
        ensures value { result ≡ (⟦<TakenWindow as Defined>⟧.loan self.now).definition.bounds size }
        ensures exact { IsBoxOf result ((⟦<TakenWindow as Defined>⟧.loan self.now).definition.structure size) }
        ensures none { is_empty_rect result ≡ true → result ≡ empty_rect }
        ensures content { IsWithin ((⟦<TakenWindow as Defined>⟧.loan self.now).definition.content size)
            ((⟦<TakenWindow as Defined>⟧.loan self.now).definition.structure size) }
    {
        self.definition.bounds(size)
    }

    /// Structure and content of a window of this size, local to it.
    pub fn regions_for(&self, alloc: Global, size: Size) -> Result<WindowRegions, AllocError>
        requires { is_fitting (⟦<TakenWindow as Defined>⟧.loan self.now).definition size ≡ true }
        ensures structure { IfOk result (λ r. (p : Point)
            → holds r.structure p ≡ (⟦<TakenWindow as Defined>⟧.loan self.now).definition.structure size p) }
        ensures content { IfOk result (λ r. (p : Point)
            → holds r.content p ≡ (⟦<TakenWindow as Defined>⟧.loan self.now).definition.content size p) }
        ensures within { IfOk result (λ r. IsWithin (holds r.content) (holds r.structure)) }
        ensures boxed { IfOk result (λ r. IsWithin (holds r.structure)
            (rect_holds ((⟦<TakenWindow as Defined>⟧.loan self.now).definition.bounds size))) }
    {
        self.definition.regions_for(alloc, size)
    }

    /// The lines of the gray outline that stands for a window of this size, local to the window: at most eight with pixels,
    /// of which no two share one.
    pub fn grow_lines(&self, size: Size) -> [Rect; 8]
        requires { is_size size ≡ true }
        ensures value { result ≡ (⟦<TakenWindow as Defined>⟧.loan self.now).definition.grow_lines size }
        ensures apart { AreApart result }
    {
        self.definition.grow_lines(size)
    }

    /// Makes a Fresh definition Live, and tells it all there is to tell of a new window: its size, the bytes of its title,
    /// whether it has a go-away box, whether it is highlighted, that it is not zoomed, and that its go-away box is not
    /// tracked.
    pub fn begin(&mut self, size: Size, title: &[u8], go_away: bool, highlighted: bool)
        requires fresh { (⟦<TakenWindow as Defined>⟧.loan self.old).definition.stage ≡ Stage.Fresh }
        requires fits { is_fitting (⟦<TakenWindow as Defined>⟧.loan self.old).definition size ≡ true }
        ensures begun { IsBegun (new_window_news size title.now go_away highlighted)
            (⟦<TakenWindow as Defined>⟧.loan self.old).definition
            (⟦<TakenWindow as Defined>⟧.loan self.new).definition }
        ensures slot { (⟦<TakenWindow as Defined>⟧.loan self.new).slot
            ≡ (⟦<TakenWindow as Defined>⟧.loan self.old).slot }
    {
        self.wake();
        let _damage = self.told(WindowChange::Resized(size));
        let _damage = self.told(WindowChange::Titled(title));
        let _damage = self.told(WindowChange::Closable(go_away));
        let _damage = self.told(WindowChange::Highlighted(highlighted));
        let _damage = self.told(WindowChange::Zoomed(false));
        let _damage = self.told(WindowChange::Tracked(false));
    }

    /// Makes a Fresh definition Live.
    fn wake(&mut self)
        requires { (⟦<TakenWindow as Defined>⟧.loan self.old).definition.stage ≡ Stage.Fresh }
        ensures live { (⟦<TakenWindow as Defined>⟧.loan self.new).definition.stage ≡ Stage.Live }
        ensures regions { SameRegions (⟦<TakenWindow as Defined>⟧.loan self.old).definition
            (⟦<TakenWindow as Defined>⟧.loan self.new).definition }
        ensures look { WindowHears (λ n. n) (⟦<TakenWindow as Defined>⟧.loan self.old).definition
            (⟦<TakenWindow as Defined>⟧.loan self.new).definition }
        ensures slot { (⟦<TakenWindow as Defined>⟧.loan self.new).slot
            ≡ (⟦<TakenWindow as Defined>⟧.loan self.old).slot }
    {
        self.definition.begin();
    }

    /// Tells a Live definition of a change. The answer is the damage: in every font the pictures before
    /// and after are equal outside it, within the range of coordinates.
    pub fn told(&mut self, change: WindowChange<'_>) -> Rect
        requires live { (⟦<TakenWindow as Defined>⟧.loan self.old).definition.stage ≡ Stage.Live }
        requires fits { is_fitting (⟦<TakenWindow as Defined>⟧.loan self.old).definition
            (size_after change (⟦<TakenWindow as Defined>⟧.loan self.old).definition.size) ≡ true }
        ensures stays { (⟦<TakenWindow as Defined>⟧.loan self.new).definition.stage ≡ Stage.Live }
        ensures size { (⟦<TakenWindow as Defined>⟧.loan self.new).definition.size
            ≡ size_after change.entry (⟦<TakenWindow as Defined>⟧.loan self.old).definition.size }
        ensures regions { SameRegions (⟦<TakenWindow as Defined>⟧.loan self.old).definition
            (⟦<TakenWindow as Defined>⟧.loan self.new).definition }
        ensures heard { WindowHears (told_change change.entry) (⟦<TakenWindow as Defined>⟧.loan self.old).definition
            (⟦<TakenWindow as Defined>⟧.loan self.new).definition }
        ensures damage { IsDamage result (⟦<TakenWindow as Defined>⟧.loan self.old).definition
            (⟦<TakenWindow as Defined>⟧.loan self.new).definition }
        ensures answered { IsWithin (rect_holds result)
            ((⟦<TakenWindow as Defined>⟧.loan self.old).definition.damage (told_change change.entry no_news)) }
        ensures slot { (⟦<TakenWindow as Defined>⟧.loan self.new).slot
            ≡ (⟦<TakenWindow as Defined>⟧.loan self.old).slot }
    {
        self.definition.told(change)
    }

    /// The part of the window that the point, local to it, lies in.
    pub fn hit(&self, point: Point) -> Hit
        requires live { (⟦<TakenWindow as Defined>⟧.loan self.now).definition.stage ≡ Stage.Live }
        requires told { is_fitting (⟦<TakenWindow as Defined>⟧.loan self.now).definition
            (⟦<TakenWindow as Defined>⟧.loan self.now).definition.size ≡ true }
        ensures { result ≡ (⟦<TakenWindow as Defined>⟧.loan self.now).definition.hit no_news point }
    {
        self.definition.hit(point)
    }

    /// Gives each pixel of the canvas the value that the definition's picture has there in the canvas's
    /// font.
    pub fn draw(&self, canvas: &mut Canvas<'_>)
        requires live { (⟦<TakenWindow as Defined>⟧.loan self.now).definition.stage ≡ Stage.Live }
        requires told { is_fitting (⟦<TakenWindow as Defined>⟧.loan self.now).definition
            (⟦<TakenWindow as Defined>⟧.loan self.now).definition.size ≡ true }
        ensures same_map { canvas.new.map.ghost_name ≡ canvas.old.map.ghost_name }
        ensures same_frame { SameFrame canvas.old canvas.new }
        ensures drawn { Draws (canvas_holds canvas.old)
            (λ p _. (⟦<TakenWindow as Defined>⟧.loan self.now).definition.picture no_news canvas.old.font.now
            (canvas_point canvas.old p))
            canvas.old.map.now canvas.new.map.now }
    {
        self.definition.draw(canvas);
    }
}
