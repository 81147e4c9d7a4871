//! The words of the commands for the items of dialogs. No program reads them yet.
//!
//! The first word of a line is a `DialogVerb`: `dialog_verb_of` finds it in the one table of these (`specs/DialogVerbs.antt`). Its
//! method `call` reads the words that follow. Which these are, and what they ask, `specs/DialogWords.antt` states.
//!
//! The form of a whole line is judged here, with the count of bytes that an icon has by its size; no range of a number, and no
//! count of other bytes. The name of a kind is judged after the form.
#![tactic(auto)]

mod calls;
mod verb;

pub use verb::{DialogVerb, dialog_verb_of};
