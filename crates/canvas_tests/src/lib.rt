//! What no clause says of the canvases and pictures of `draw_port`, by tests: that they are drawn where memory is not refused, and
//! that the words of the contracts are QuickDraw's. Expected values are images written by hand, or come from slow programs over
//! single pixels, and never from the library.
//!
//! The crate `test_pixels` has what the tests draw on. The crate `operation_tests` tests operations, one after another, and the
//! crate `blit_tests` compares the fills of a canvas with a loop over all pixels.
#![tactic(auto)]

#[cfg(test)]
mod canvases;
#[cfg(test)]
mod strips;
