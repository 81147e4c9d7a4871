//! What no clause says of drawings on a map, by tests against plain loops over all pixels: that the words of the contracts are
//! QuickDraw's. One table was written by hand; no expected value comes from the libraries.
//!
//! `blits` tests `bit_blit`, `words` tests it at sides and distances around the 64 bits of a word, and `fills` tests the fills of a
//! canvas of `draw_port`. The crate `test_pixels` has what they draw on.
#![tactic(auto)]

#[cfg(test)]
mod blits;
#[cfg(test)]
mod fills;
#[cfg(test)]
mod words;
