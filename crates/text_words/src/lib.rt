//! The words of the commands for text records, for the scrap and for the font, which version 3 has.
//!
//! The first word of a line is a `TextVerb`: `text_verb_of` finds it in the one table of these (`specs/TextVerbs.antt`). Its
//! method `call` reads the words that follow. Which these are, and what they ask, `specs/TextWords.antt` states.
//!
//! The form of a whole line is judged here; no range of a number, and no count of bytes.
#![tactic(auto)]

mod calls;
mod verb;

pub use verb::{TextVerb, text_verb_of};
