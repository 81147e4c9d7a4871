//! What no clause says of insets and frames of regions, by tests: that they are made where memory is not refused, and
//! that the words of the contracts are what is meant. Expected values are worked out by hand, or come from a slow
//! program over single pixels (`slow`), and never from the libraries.
//!
//! `worked` has bytes and pictures that were worked out, `small` compares with the slow program, and `ranges` goes to
//! the ends of the range. `sets` has the sets of pixels that are tried.
#![tactic(auto)]

#[cfg(test)]
mod ranges;
#[cfg(test)]
mod sets;
#[cfg(test)]
mod slow;
#[cfg(test)]
mod small;
#[cfg(test)]
mod worked;
