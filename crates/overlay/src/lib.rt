//! The menu that is pulled down, and the gray outline of a window, in front of the base image.
//!
//! A menu that is pulled down lies over what the desk shows, and changes none of it: the screen then shows an `Overlay`, a
//! map of its own of the same size. `show` copies the base image into it, `pull` draws a menu over that, and `redraw` draws
//! it anew where its definition says that it changed. `show` again puts the menu away. The map is made once, with the
//! `Overlay`; nothing else takes memory.
//!
//! An outline is shown so too, while none of the menus is: `outline` copies the base image and inverts the outline's lines
//! on it, and `outline_again` puts others in their place, of which it draws the lines alone.
//!
//! A menu lies where its corner is, the point `pulled_place`, below its title; its size is `shown_size`. Places are in the
//! coordinates of the screen.
#![tactic(auto)]

mod base;
mod drawing;
pub mod laws;
mod lines;
mod outline;
mod overlay;
mod place;

pub use drawing::{draw_pulled, pulled_rect};
pub use outline::draw_outline;
pub use overlay::Overlay;
pub use place::{pulled_place, shown_size};
