//! Edits of text records, the scrap, and selecting with the mouse (*Inside Macintosh* I and *Inside Macintosh: Text*,
//! "TextEdit"; *Inside Macintosh* IV, "TextEdit", for the arrow keys).
//!
//! All edits stand on three calls of a `TextRecord`: `put`, which puts bytes in the place of others, `choose`, which selects,
//! and `blink`. Each call is judged first, takes its memory, and changes then; a call that is refused has changed nothing.
//! `cut` takes the room for the scrap before it takes bytes out, which needs none.
//!
//! A click begins with an anchor, which stays selected while the mouse is held: a point, for shift the end of the selection
//! that is further off, or for a double click a word. `extended` is the selection from the anchor to a point of the window.
#![tactic(auto)]

mod edits;
mod keys;
pub mod laws;
mod scrap;
mod selecting;

pub use edits::{copy, cut, delete, idle, insert, paste, select, set_text};
pub use keys::key;
pub use scrap::Scrap;
pub use selecting::{Anchor, ClickMode, click_anchor, extend, extended, is_clicked};
