//! The standard control definitions (*Inside Macintosh* I, "The Control Manager", "Controls and Control
//! Definition Functions").
//!
//! `StdControl` is the definition of each, and they differ in their `ControlLook` alone: `StdButton` is that
//! of a simple button, `StdRoundButton` that of one with rounded corners, `StdDefaultButton` that of one in a ring, as dialogs have,
//! `StdIcon` that of an image, whose bytes are its title, `StdCheck` that of a check box and of a radio button (its look is a
//! `Variation`, which says which), and `StdScroll` that of a scroll bar. The pixels of each are all those of its rectangle.
//!
//! What a control looks like, which part of it a point lies in, and where a scroll bar's thumb is, are
//! tables and a few numbers of what it was told: its size, its title, its setting and how it is
//! highlighted (`def_iface::KeptControl`, which each keeps). Each table stands twice, in `specs/` and in
//! the code, and the check finds the two equal; the loops over them are those of `looks`. An icon is no table. All
//! rectangles are in the control's own coordinates, where it begins at 0 0.
//!
//! `laws` has what the numbers of a thumb imply.
#![tactic(auto)]

mod axis;
mod boxes;
mod button;
mod check;
mod control;
mod default_button;
mod icon;
pub mod laws;
mod rects;
mod round_button;
mod scroll;
mod scroll_bar;
mod thumb;
mod titles;

pub use button::{ButtonLook, StdButton};
pub use check::{StdCheck, Variation};
pub use control::{ControlLook, StdControl};
pub use default_button::{DefaultButtonLook, StdDefaultButton};
pub use icon::{IconLook, StdIcon};
pub use round_button::{RoundButtonLook, StdRoundButton};
pub use scroll::{ScrollLook, StdScroll};
