//! What no clause says of text records and of edits, by tests: that the words of the contracts are those of TextEdit.
//! Expected values are worked out by hand from the rules, for bytes of 6 pixels and lines of 10, and never come from the
//! libraries.
//!
//! `places` tests `text_record`; `edits` and `mouse` test `text_edits`; `made` makes the records for all three.
#![tactic(auto)]

#[cfg(test)]
mod edits;
#[cfg(test)]
mod made;
#[cfg(test)]
mod mouse;
#[cfg(test)]
mod places;
