//! The standard definitions of menus and of lists.
//!
//! A menu that is pulled down is white with a black frame (`StdMenu`). It has a row of 16 pixels for each of its items: the
//! item's mark, its text and its key, or a line across it. A row is a short table of steps, each with its own text; the menu
//! draws its rows one after another.
//!
//! A list's cell is white and shows its bytes as a text (`StdList`). A selected one is inverted.
//!
//! Both definitions keep what they are told. All points are local to the menu or to the cell, whose rectangle begins at 0 0.
#![tactic(auto)]

mod cells;
mod chosen;
mod damage;
pub mod laws;
mod measures;
mod rows;
mod std_list;
mod std_menu;

pub use std_list::StdList;
pub use std_menu::StdMenu;
