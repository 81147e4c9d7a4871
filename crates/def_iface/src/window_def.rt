//! The interface of a window's definition.
ghost use Rattle.std.specs.Prelude.{◌≡◌, true, IfOk};
ghost use Rattle.tb_geom.specs.declared.point.Point.{Point};
ghost use Rattle.tb_geom.specs.Points.{minus};
ghost use Rattle.tb_geom.specs.Rects.{IsBoxOf, rect_holds, is_empty_rect, empty_rect};
ghost use Rattle.tb_geom.specs.Pixels.{holds};
ghost use Rattle.bit_blit.specs.Draws.{Draws};
ghost use Rattle.draw_port.specs.Canvases.{canvas_holds, canvas_point, SameFrame};
ghost use Rattle.def_iface.specs.Sizes.{is_size};
ghost use Rattle.def_iface.specs.Lines.{AreApart};
ghost use Rattle.def_iface.specs.WindowMeaning.{WindowDefinition, SameLook, SameRegions, WindowHears, IsDamage, IsWithin, is_fitting, size_after};
ghost use Rattle.def_iface.specs.WindowNews.{no_news, told_change};

use crate::Size;
use draw_port::Canvas;
use scan_region::Region;
use std::alloc::{AllocError, Global};
use tb_geom::{Point, Rect};

/// Where a definition stands in its life. It is Fresh when it is made, Live from `begin` on, and
/// Closed for good from `dispose` on.
#[derive(Clone, Copy, Debug, PartialEq, Eq)]
pub enum Stage {
    /// Made, and not used yet.
    Fresh,
    /// In use: it can be told of changes, and it draws.
    Live,
    /// Used up.
    Closed,
}

/// What a definition is told of its window.
#[derive(Clone, Copy, Debug, PartialEq, Eq)]
pub enum WindowChange<'a> {
    /// The size of the content rectangle.
    Resized(Size),
    /// The bytes of the title.
    Titled(&'a [u8]),
    /// Whether the window is highlighted.
    Highlighted(bool),
    /// Whether it has a go-away box.
    Closable(bool),
    /// Whether it is zoomed.
    Zoomed(bool),
    /// Whether its go-away box is tracked, with the point inside.
    Tracked(bool),
}

/// The part of a window that a point lies in, as its definition tells (the codes of the message
/// wHit: *Inside Macintosh* I, "The Window Manager", "Defining Your Own Windows").
#[derive(Clone, Copy, Debug, PartialEq, Eq)]
pub enum Hit {
    /// A part in which a click means nothing.
    NoHit = 0,
    InContent = 1,
    /// Where the window can be dragged.
    InDrag = 2,
    /// Where its size can be changed.
    InGrow = 3,
    /// The box that closes it.
    InGoAway = 4,
    /// The box that gives a zoomed window its own size back.
    InZoomIn = 5,
    /// The box that zooms it.
    InZoomOut = 6,
}

/// The regions of a window, local to it.
#[derive(Drop)]
pub struct WindowRegions {
    /// All pixels of the window.
    pub structure: Region,
    /// Those in which the application draws. They lie in the structure.
    pub content: Region,
}

/// A window's definition (a WDEF: *Inside Macintosh* I, "The Window Manager", "Defining Your Own
/// Windows"): its regions and what its frame looks like. All points are local to the window.
pub trait WindowDef: Drop {
    ghost meaning: { Self → WindowDefinition };

    /// Where the definition stands in its life.
    fn stage(&self) -> Stage
        ensures { result ≡ (meaning self.now).stage };

    /// Makes a Fresh definition Live.
    fn begin(&mut self)
        requires { (meaning self.old).stage ≡ Stage.Fresh }
        ensures live { (meaning self.new).stage ≡ Stage.Live }
        ensures regions { SameRegions (meaning self.old) (meaning self.new) }
        ensures look { WindowHears (λ n. n) (meaning self.old) (meaning self.new) };

    /// Tells a Live definition of a change. The answer is the damage: in every font the pictures before
    /// and after are equal outside it, within the range of coordinates. What is drawn anew lies within it, so it is to
    /// have no more pixels than the definition says that it may have.
    fn told(&mut self, change: WindowChange<'_>) -> Rect
        requires live { (meaning self.old).stage ≡ Stage.Live }
        requires fits { is_fitting (meaning self.old) (size_after change (meaning self.old).size) ≡ true }
        ensures stays { (meaning self.new).stage ≡ Stage.Live }
        ensures size { (meaning self.new).size ≡ size_after change.entry (meaning self.old).size }
        ensures regions { SameRegions (meaning self.old) (meaning self.new) }
        ensures heard { WindowHears (told_change change.entry) (meaning self.old) (meaning self.new) }
        ensures damage { IsDamage result (meaning self.old) (meaning self.new) }
        ensures answered { IsWithin (rect_holds result) ((meaning self.old).damage (told_change change.entry no_news)) };

    /// Structure and content of a window of this size.
    fn regions_for(&self, alloc: Global, size: Size) -> Result<WindowRegions, AllocError>
        requires { is_fitting (meaning self.now) size ≡ true }
        ensures structure { IfOk result (λ r. (p : Point)
            → holds r.structure p ≡ (meaning self.now).structure size p) }
        ensures content { IfOk result (λ r. (p : Point)
            → holds r.content p ≡ (meaning self.now).content size p) }
        ensures within { IfOk result (λ r. IsWithin (holds r.content) (holds r.structure)) }
        ensures boxed { IfOk result (λ r. IsWithin (holds r.structure) (rect_holds ((meaning self.now).bounds size))) };

    /// The exact box of the structure of a window of this size, 0 0 0 0 where it has no pixel. It takes
    /// no memory. The content lies in the structure, whether there is memory for the two as regions or not.
    fn bounds(&self, size: Size) -> Rect
        requires { is_size size ≡ true }
        ensures value { result ≡ (meaning self.now).bounds size }
        ensures exact { IsBoxOf result ((meaning self.now).structure size) }
        ensures none { is_empty_rect result ≡ true → result ≡ empty_rect }
        ensures content { IsWithin ((meaning self.now).content size) ((meaning self.now).structure size) };

    /// The lines of the gray outline that stands for a window of this size while it is chosen (the message wGrow): their
    /// pixels are the outline's, and no two of them share one. Lines that are not needed are empty. It takes no memory.
    fn grow_lines(&self, size: Size) -> [Rect; 8]
        requires { is_size size ≡ true }
        ensures value { result ≡ (meaning self.now).grow_lines size }
        ensures apart { AreApart result };

    /// The part of the window that the point lies in. It is asked of points of the structure.
    fn hit(&self, point: Point) -> Hit
        requires live { (meaning self.now).stage ≡ Stage.Live }
        requires told { is_fitting (meaning self.now) (meaning self.now).size ≡ true }
        ensures { result ≡ (meaning self.now).hit no_news point };

    /// Gives each pixel of the canvas the value that the picture has there in the canvas's font.
    fn draw(&self, canvas: &mut Canvas<'_>)
        requires live { (meaning self.now).stage ≡ Stage.Live }
        requires told { is_fitting (meaning self.now) (meaning self.now).size ≡ true }
        ensures same_map { canvas.new.map.ghost_name ≡ canvas.old.map.ghost_name }
        ensures same_frame { SameFrame canvas.old canvas.new }
        ensures drawn { Draws (canvas_holds canvas.old)
            (λ p _. (meaning self.now).picture no_news canvas.old.font.now (canvas_point canvas.old p))
            canvas.old.map.now canvas.new.map.now };

    /// Ends a Live definition's use. It answers as it did: the definition that goes back into its slot is told by that.
    fn dispose(&mut self)
        requires { (meaning self.old).stage ≡ Stage.Live }
        ensures closed { (meaning self.new).stage ≡ Stage.Closed }
        ensures same { SameLook (meaning self.old) (meaning self.new) };
}
