//! The gray outline of a window that is dragged or grown.
//!
//! DragWindow and GrowWindow (*Inside Macintosh* I, "The Window Manager") follow the mouse until its button is released. Here
//! each is open between its begin and its end (`desk_call::Activity`), which holds the outline that is shown: eight lines at
//! most on the screen, of which no two share a pixel. `outlined_by` reads the windows and says for a call what it answers and
//! what is open then; it changes nothing and takes no memory. `show_outline` then shows what is open on the map in front of the
//! windows' screen (`overlay`), over the base image.
//!
//! The outline of a drag is the outermost pixels of the box of the window's structure, moved by the way that the mouse has
//! come, and is shown wherever that is in the gray region, the screen below the menu bar. There the drag ends with a move
//! (`let_go`), and elsewhere with nothing. The outline of growing is the lines that the window's definition gives
//! for the size by that way, within its limits. Growing ends with that size told, and the window keeps its own.
#![tactic(auto)]

mod dragging;
mod growing;
pub mod laws;
mod letting_go;
mod lines;
mod outlining;
mod reading;
mod showing;

pub use letting_go::let_go;
pub use outlining::{Outlining, outlined_by};
pub use showing::show_outline;
