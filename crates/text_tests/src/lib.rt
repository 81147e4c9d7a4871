//! What no clause says of texts as plain data, by tests: that the words of the contracts are those of TextEdit.
//! Expected values are worked out by hand, or come from a slow program that reads the rules of lines as sentences,
//! and never from the libraries.
//!
//! `lines` tests `text_lines`.
#![tactic(auto)]

#[cfg(test)]
mod lines;
