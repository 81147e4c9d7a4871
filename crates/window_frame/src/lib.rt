//! The frame of a window: its title, its highlighting and its go-away box.
//!
//! A window's definition draws its frame, by what it was told. `perform` performs the calls that are about a frame
//! (`FrameCall`): a new title, another highlighting (*Inside Macintosh* I, "The Window Manager", SetWTitle and
//! HiliteWindow), and the tracking of a go-away box (TrackGoAway), which is open between its begin and its end. After
//! each other call that may have changed the windows, `follow` tells just those definitions how their windows stand that had
//! heard otherwise.
//!
//! A definition is told one thing at a time, and answers which pixels of its picture change. What of the frame shows
//! there is drawn anew. Nothing else changes (`IsFrameNotified` of `window_mgr`): no region, no pixel of any content, no size.
//! So none of these calls takes memory.
#![tactic(auto)]

mod followers;
mod frames;
mod goaway;
pub mod laws;

pub use desk_call::{FrameCall, FrameReply, GoAwayPoint, HiliteWindow, NewTitle};
pub use followers::follow;
pub use frames::perform;
