//! What a Toolbox can be asked about the outline of a window that is dragged or grown, and what it answers.

use def_iface::Size;
use tb_geom::Point;

/// A call about the outline of a window that is dragged (DragWindow: *Inside Macintosh* I, "The Window Manager") or grown
/// (GrowWindow). A window is named by its serial, as in a `WindowCall`. Points are on the screen, and lie in the range of
/// coordinates; else they are OutOfRange. None but the end of a drag takes memory.
#[derive(Clone, Copy, Debug, PartialEq, Eq)]
pub enum OutlineCall {
    /// Begins to drag a window, where FindWindow answers InDrag for it at the point; else nothing begins. The outline of its
    /// structure is shown, wherever the mouse is in the gray region: on the screen, below the menu bar. OutOfRange where the
    /// outline passes the range of coordinates.
    Drag(DragWindow),
    /// Goes on with it: the mouse is at this point.
    StepDrag(Point),
    /// Ends it: the mouse button was released at this point. In the gray region the window is moved there and selected, as by
    /// a `WindowCall::Move`, whose refusals are this call's too; elsewhere it stays.
    EndDrag(Point),
    /// Begins to grow a window, where FindWindow answers InGrow for it at the point; else nothing begins. The outline that its
    /// definition gives for its size is shown. OutOfRange where a limit is out of its range, or the least above the most, and
    /// where the outline passes the range of coordinates.
    Grow(GrowWindow),
    /// Goes on with it: the mouse is at this point.
    StepGrow(Point),
    /// Ends it: the mouse button was released at this point. The window keeps its size: whoever asks gives it the one that is
    /// answered.
    EndGrow(Point),
}

/// Where the mouse button was pressed to drag a window.
#[derive(Clone, Copy, Debug, PartialEq, Eq)]
pub struct DragWindow {
    pub window: u64,
    /// On the screen.
    pub point: Point,
}

/// Where the mouse button was pressed to grow a window.
#[derive(Clone, Copy, Debug, PartialEq, Eq)]
pub struct GrowWindow {
    pub window: u64,
    /// On the screen.
    pub point: Point,
    pub limits: SizeLimits,
}

/// Between which sizes a window can be grown. Each part lies in 1..=16383.
#[derive(Clone, Copy, Debug, PartialEq, Eq)]
pub struct SizeLimits {
    pub least: Size,
    /// In neither part below the least.
    pub most: Size,
}

/// The value of a call about an outline that was done.
#[derive(Clone, Copy, Debug, PartialEq, Eq)]
pub enum OutlineReply {
    /// Of a begin, whether something begins; of a step and the end of a drag, whether the point lies in the gray region.
    Shown(bool),
    /// The size that a window is grown to; of the end 0 by 0 where it is the one that the window has.
    Sized(Size),
}
