//! What the windows of a desk have, of one kind, as plain data: their controls, their lists or their text records, whatever is
//! kept of one.
//!
//! `Items` has those of all windows, the oldest first, and the serial of the next one (*Inside Macintosh* I, "The Control
//! Manager": the control lists of windows; IV, "The List Manager Package"). An item is found by its window and its serial, or by
//! its serial alone. Each has a serial of its own, in whichever window it is: `push` takes the next one, and no serial is given
//! twice. How many items a window may have is for the caller to judge, by `count`.
//!
//! A window's items stand in the list in their order, with those of other windows between them: `layer_index` is the place of an
//! item among its window's. `remove` takes one out, and `take_of` the youngest of a window, until it has none. `at_mut` lends
//! what is kept of one, and leaves its window and its serial. No call here draws, or tells a definition.
//!
//! The list is generic in what is kept of an item, so that no contract here speaks of a box; the lemmas of
//! `proofs/SeenLemmas.antt` say the same of a list in which what is kept is seen as something else. Those of
//! `proofs/WindowLemmas.antt` say what each change makes of the items of one window, and `laws` has what follows.
#![tactic(auto)]

mod item;
mod items;
pub mod laws;

pub use item::Item;
pub use items::Items;
