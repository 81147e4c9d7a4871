//! A desk before it has windows: which screens there may be, what such a screen shows, and its menu bar.
//!
//! `empty_ground` makes it: the screen with its menu bar and its gray desktop, and the region of the desktop, of which no
//! window owns any part yet. `Screens` says which sizes and bars there may be, `Grounds` what is painted.
//!
//! The menu bar has the titles of the menus that are inserted. It is the screen's top rows, white, the last of them black. Over
//! that its titles are drawn from left to right, each finished before the next: its text in black, cut to the bar; its box
//! gray, where the menu is not enabled; and its box inverted, where it is highlighted. A title's box ends above the last row.
//! Points, columns and patterns are those of the screen.
//!
//! Titles lie in place. Only `empty_ground` takes memory.
#![tactic(auto)]

mod bar;
mod ground;
pub mod laws;
mod titles;

pub use bar::{TitleHit, draw_bar, title_at};
pub use ground::{DESKTOP, Ground, empty_ground, is_screen};
pub use titles::{BarTitle, MOST_TITLES, MenuBar, Titles};
