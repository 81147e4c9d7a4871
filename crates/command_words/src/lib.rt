//! The words of commands: what the lines of a script ask.
//!
//! The first word of a line is a `Verb`, by what it is about: a `WindowVerb`, an `UpdateVerb`, a `FrameVerb`, an `OutlineVerb`,
//! a `ControlVerb`, a `ListVerb`, a `TextVerb` (of `text_words`), a `MenuVerb` or an `EventVerb`, or a command about the whole
//! desk or the whole script.
//! `verb_of` finds it in the one table of all (`specs/Verbs.antt`), with the verbs of later versions up to the script's. The
//! method `call` of each of the nine reads the words that follow. Which these are, and what they ask, `specs/WindowWords.antt`
//! states and its likes, and for what is drawn `Drawings.antt`, with the `Forms.antt` of `form_words`. A cell is its column and
//! then its row.
//!
//! `laws` says that verbs are those of the table, and that modes are read by their names.
//!
//! The form of a whole line is judged here, and then the names of modes and patterns; no range of a number, no kind of a
//! window, a control or a list, and no region.
#![tactic(auto)]

mod asked;
mod controls;
mod drawing;
mod events;
mod frames;
pub mod laws;
mod lists;
mod menus;
mod names;
mod operation;
mod outlines;
mod updates;
mod verb;
mod windows;

pub use controls::ControlVerb;
pub use events::EventVerb;
pub use frames::FrameVerb;
pub use lists::ListVerb;
pub use menus::MenuVerb;
pub use outlines::OutlineVerb;
pub use updates::UpdateVerb;
pub use verb::{Verb, verb_of};
pub use windows::WindowVerb;
