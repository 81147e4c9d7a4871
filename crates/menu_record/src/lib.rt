//! Menus as plain data: titles, items, and what a text says that is appended.
//!
//! A `Menu` is what a menu's definition draws from, and what the Menu Manager keeps of it (*Inside Macintosh* I, "The Menu
//! Manager"): its number, its title, whether it is enabled, and its items from top to bottom, at most 31. An item has a text,
//! perhaps a mark and a key that stands for it, and is enabled or not. One whose text is just `-` is a dividing line. An item
//! can be chosen where it and its menu are enabled and it is no dividing line; a key finds the first such item.
//!
//! A text that is appended is parted into pieces at `;` and at a return, and each piece that has a character gives an item.
//! A piece is read from the left: the signs `!` and `/` say the item's mark and its key by the character after them, `^` and
//! `<` are dropped with the character after them, a `(` disables the item, and every other character is one of its text
//! (`words` and `item_of` of `specs/Appending.antt`). A sign at the end of its piece, for which no character is left, is
//! dropped.
//!
//! Items are numbered from 1, and numbers are taken as they were asked for: one that no item has is NoSuchItem. No menu is
//! known here by its number, and nothing is drawn. `laws` has what the definitions imply.
#![tactic(auto)]

mod item;
mod items;
pub mod laws;
mod menu;
mod reading;

pub use item::MenuItem;
pub use items::Items;
pub use menu::Menu;
