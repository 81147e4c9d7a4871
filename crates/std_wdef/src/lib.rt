//! The standard window definitions (*Inside Macintosh* I, "The Window Manager", "Defining Your Own
//! Windows").
//!
//! `StdWindow` is the definition of the standard kinds: a `Variation` names one. A document window has
//! a title bar with the title, and perhaps a go-away box, a zoom box and a size box; dialog, plain and
//! shadow windows have a frame alone. `RoundWindow` is a kind with round corners, a title and perhaps a
//! go-away box: its title bar is black where it is highlighted. `NotchedWindow` is a kind whose upper right
//! corner is cut out.
//!
//! What a window of a kind looks like, which pixels it has, and which part of it a point lies in, are
//! tables of its size, its title and what else it was told (`def_iface::Flags`). Each table stands twice, in
//! `specs/` and in the code, and the check finds the two equal; the loops over them are those of
//! `looks`. The pixels of a rounded window are those of round shapes (`shape_strips`), row by row: its
//! structure is one, and its content what a frame of one pixel leaves of that, cut to the content rectangle.
//!
//! All rectangles are in the window's own coordinates, where its content begins at 0 0.
#![tactic(auto)]

mod areas;
mod cut_inside;
mod hits;
mod kind;
mod lines;
mod notched_window;
mod rects;
mod round_look;
mod round_window;
mod rounded;
mod shown;
mod std_window;
mod tables;

pub use kind::Variation;
pub use notched_window::NotchedWindow;
pub use round_window::RoundWindow;
pub use std_window::StdWindow;
