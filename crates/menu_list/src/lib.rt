//! The menus of a desk as plain data, whatever stands for a menu's definition.
//!
//! A `MenuList` has the menus that were made, at most 16, and which of them is highlighted, if one is (*Inside Macintosh* I,
//! "The Menu Manager": the menu list). A menu is in the menu bar where it was inserted; those that are stand in the list as
//! they stand there, from left to right, and where the others stand means nothing. Menus are found by their numbers, which
//! are asked for as they were written; the list keeps no two apart, and refuses no number: who uses it does.
//!
//! `insert` moves a menu to its place in the bar, `take_out` takes it out of the bar, and `remove` out of the list. `titles`
//! are those of the bar. `with_key` finds the item that a key chooses: of the menus in the bar the one furthest right counts.
//!
//! The list is generic in the definition of a menu, so that no contract here speaks of a box; the lemmas of
//! `proofs/SeenLemmas.antt` say the same of a list in which each definition is seen as something else.
//!
//! `edit` performs a call that changes menus as data: their items, which of them are in the menu bar, and which title is
//! highlighted. What each leaves and answers stands in `specs/MenuEdits.antt`, and why it is refused in
//! `specs/EditRefusals.antt` (*Inside Macintosh* I, "The Menu Manager": AppendMenu, SetItem, InsertMenu, DeleteMenu,
//! EnableItem, DisableItem, CheckItem, MenuKey, HiliteMenu). It knows nothing of boxes, of windows or of pixels. The calls that
//! make and end menus or pull them down are the Menu Manager's.
#![tactic(auto)]

mod bar;
mod editing;
mod edits;
pub mod laws;
mod list;
mod listed;

pub use edits::{edit, index_of};
pub use list::MenuList;
pub use listed::Listed;
