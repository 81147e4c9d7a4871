//! What a Toolbox can be asked about the frame of a window, and what it answers.

use tb_geom::{BytesRef, Point};

/// A call about the frame of a window: its title, its highlighting and its go-away box (*Inside Macintosh* I, "The Window
/// Manager"). A window is named by its serial, as in a `WindowCall`. None takes memory.
#[derive(Drop)]
pub enum FrameCall<'a> {
    /// Gives a window another title (SetWTitle). TooLong where that has more than 255 bytes.
    SetTitle(NewTitle<'a>),
    /// Highlights a window, or not (HiliteWindow). Which window is active stays.
    Hilite(HiliteWindow),
    /// Begins to track the go-away box of a window (TrackGoAway), where FindWindow answers that box at the point; else
    /// nothing begins.
    TrackGoAway(GoAwayPoint),
    /// Goes on with it: the mouse is at this point of the screen.
    StepGoAway(Point),
    /// Ends it: the mouse button was released at this point of the screen.
    EndGoAway(Point),
}

/// A window that is to have another title.
#[derive(Drop)]
pub struct NewTitle<'a> {
    pub window: u64,
    /// At most 255 bytes.
    pub title: BytesRef<'a>,
}

/// A window that is to be highlighted, or not.
#[derive(Clone, Copy, Debug, PartialEq, Eq)]
pub struct HiliteWindow {
    pub window: u64,
    pub highlighted: bool,
}

/// Where the mouse button was pressed in a window's go-away box.
#[derive(Clone, Copy, Debug, PartialEq, Eq)]
pub struct GoAwayPoint {
    pub window: u64,
    /// On the screen, in the range of coordinates.
    pub point: Point,
}

/// The value of a call about a frame that was done.
#[derive(Clone, Copy, Debug, PartialEq, Eq)]
pub enum FrameReply {
    /// Nothing more than that it was done.
    Done,
    /// Whether the point lies in the go-away box that is tracked.
    Tracked(bool),
}
