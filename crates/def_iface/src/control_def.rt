//! The interface of a control's definition.
ghost use Rattle.std.specs.Prelude.{◌≡◌, true, IfOk};
ghost use Rattle.tb_geom.specs.declared.point.Point.{Point};
ghost use Rattle.tb_geom.specs.Rects.{IsBoxOf, rect_holds, is_empty_rect, empty_rect};
ghost use Rattle.tb_geom.specs.Pixels.{holds};
ghost use Rattle.bit_blit.specs.Draws.{Draws};
ghost use Rattle.draw_port.specs.Canvases.{canvas_holds, canvas_point, SameFrame};
ghost use Rattle.def_iface.specs.ControlNews.{no_control_news, told_control};
ghost use Rattle.def_iface.specs.ControlMeaning.{ControlDefinition, SameControlLook, SameControlRegions, ControlHears, IsControlDamage};
ghost use Rattle.def_iface.specs.ControlMeaning.{is_control_size, is_fitting_control, control_size_after};
ghost use Rattle.def_iface.specs.WindowMeaning.{IsWithin};

use crate::{Size, Stage};
use control_values::{ControlPart, ControlValues, Highlight};
use draw_port::Canvas;
use scan_region::Region;
use std::alloc::{AllocError, Global};
use tb_geom::{Point, Rect};

/// What a definition is told of its control.
#[derive(Clone, Copy)]
pub enum ControlChange<'a> {
    /// The size of the control's rectangle.
    Resized(Size),
    /// The bytes of the title.
    Titled(&'a [u8]),
    /// The minimum, the maximum and the value.
    Set(ControlValues),
    /// How the control is highlighted.
    Highlighted(Highlight),
}

/// A control's definition (a CDEF: *Inside Macintosh* I, "The Control Manager", "Defining Your Own Controls"): its region,
/// what it looks like, and what a click on it means. All points are local to the control, whose rectangle begins at 0 0.
pub trait ControlDef: Drop {
    ghost control_meaning: { Self → ControlDefinition };

    /// Where the definition stands in its life.
    fn stage(&self) -> Stage
        ensures { result ≡ (control_meaning self.now).stage };

    /// Makes a Fresh definition Live.
    fn begin(&mut self)
        requires { (control_meaning self.old).stage ≡ Stage.Fresh }
        ensures live { (control_meaning self.new).stage ≡ Stage.Live }
        ensures regions { SameControlRegions (control_meaning self.old) (control_meaning self.new) }
        ensures look { ControlHears (λ n. n) (control_meaning self.old) (control_meaning self.new) };

    /// Tells a Live definition of a change. The answer is the damage: in every font the pictures before
    /// and after are equal outside it, within the range of coordinates. What is drawn anew lies within it, so it is to
    /// have no more pixels than the definition says that it may have.
    fn told(&mut self, change: &ControlChange<'_>) -> Rect
        requires live { (control_meaning self.old).stage ≡ Stage.Live }
        requires fits { is_fitting_control (control_meaning self.old)
            (control_size_after change.now (control_meaning self.old).size) ≡ true }
        ensures stays { (control_meaning self.new).stage ≡ Stage.Live }
        ensures size { (control_meaning self.new).size ≡ control_size_after change.now (control_meaning self.old).size }
        ensures regions { SameControlRegions (control_meaning self.old) (control_meaning self.new) }
        ensures heard { ControlHears (told_control change.now) (control_meaning self.old) (control_meaning self.new) }
        ensures damage { IsControlDamage result (control_meaning self.old) (control_meaning self.new) }
        ensures answered { IsWithin (rect_holds result)
            ((control_meaning self.old).damage no_control_news (told_control change.now no_control_news)) };

    /// The region of a control of this size: the pixels that it has.
    fn regions_for(&self, alloc: Global, size: Size) -> Result<Region, AllocError>
        requires { is_fitting_control (control_meaning self.now) size ≡ true }
        ensures region { IfOk result (λ r. (p : Point) → holds r p ≡ (control_meaning self.now).region size p) }
        ensures boxed { IfOk result (λ r. IsWithin (holds r) (rect_holds ((control_meaning self.now).bounds size))) };

    /// The exact box of the region of a control of this size, 0 0 0 0 where it has no pixel. It takes no memory.
    fn bounds(&self, size: Size) -> Rect
        requires { is_control_size size ≡ true }
        ensures value { result ≡ (control_meaning self.now).bounds size }
        ensures exact { IsBoxOf result ((control_meaning self.now).region size) }
        ensures none { is_empty_rect result ≡ true → result ≡ empty_rect };

    /// The part of the control that the point lies in, if it lies in one. Any point may be asked for.
    fn hit(&self, point: Point) -> Option<ControlPart>
        requires live { (control_meaning self.now).stage ≡ Stage.Live }
        requires told { is_fitting_control (control_meaning self.now) (control_meaning self.now).size ≡ true }
        ensures { result ≡ (control_meaning self.now).hit no_control_news point };

    /// The value that the control has once its indicator was dragged from one point to another (the message thumbCntl is
    /// not sent: the thumb moves when the mouse button goes up).
    fn thumb_value(&self, from: Point, to: Point) -> i16
        requires live { (control_meaning self.now).stage ≡ Stage.Live }
        requires told { is_fitting_control (control_meaning self.now) (control_meaning self.now).size ≡ true }
        ensures { result ≡ (control_meaning self.now).thumb_value no_control_news from to };

    /// Gives each pixel of the canvas the value that the picture has there in the canvas's font.
    fn draw(&self, canvas: &mut Canvas<'_>)
        requires live { (control_meaning self.now).stage ≡ Stage.Live }
        requires told { is_fitting_control (control_meaning self.now) (control_meaning self.now).size ≡ true }
        ensures same_map { canvas.new.map.ghost_name ≡ canvas.old.map.ghost_name }
        ensures same_frame { SameFrame canvas.old canvas.new }
        ensures drawn { Draws (canvas_holds canvas.old)
            (λ p _. (control_meaning self.now).picture no_control_news canvas.old.font.now (canvas_point canvas.old p))
            canvas.old.map.now canvas.new.map.now };

    /// Ends a Live definition's use. It answers as it did: the definition that goes back into its slot is told by that.
    fn dispose(&mut self)
        requires { (control_meaning self.old).stage ≡ Stage.Live }
        ensures closed { (control_meaning self.new).stage ≡ Stage.Closed }
        ensures same { SameControlLook (control_meaning self.old) (control_meaning self.new) };
}
