//! What no clause says of dialog items as plain data, by tests: that the words of the contracts are those of the Dialog Manager,
//! and of the commands as they are written by hand here. Expected values are worked out by hand, and never come from the library.
//!
//! `finding` asks which item the mouse and the keys find, `listing` makes and changes the items of a window, and `texts` fills
//! texts. `calls` tests what calls say of themselves, and `words` the words of the commands.
#![tactic(auto)]

#[cfg(test)]
mod calls;
#[cfg(test)]
mod finding;
#[cfg(test)]
mod listing;
#[cfg(test)]
mod texts;
#[cfg(test)]
mod words;
