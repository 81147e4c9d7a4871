//! What no clause says of `strike_font`, by tests: that fonts are made where memory is not refused, and that the words
//! of its contracts are those of a FONT record. Expected values are records, tables and pictures written by hand, and
//! never come from the library.
//!
//! `records` tests which bytes are a font, and `texts` the pixels of texts. The module `small` of the crate
//! `test_pixels` has the record that both begin with.
#![tactic(auto)]

#[cfg(test)]
mod records;
#[cfg(test)]
mod texts;
