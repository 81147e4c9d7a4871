//! What no clause says of the words of commands, by tests: that the words of the contracts are those of the commands, as they
//! are written by hand here, and that a reply goes out where its writer takes it.
//!
//! `controls` tests the words of controls, `forms` those of forms and which version has them, `lists` those of lists, and
//! `texts` those of text records. The words of the other managers are shown by rows of `tests/rows`, with whole lines.
#![tactic(auto)]

#[cfg(test)]
mod controls;
#[cfg(test)]
mod forms;
#[cfg(test)]
mod lists;
#[cfg(test)]
mod texts;
