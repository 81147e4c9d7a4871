//! What no clause says of the operations of `draw_port` and of `lent_ops`, by tests: that they are drawn where memory is not refused,
//! and that the words of the contracts are QuickDraw's. Expected values are images and a table of refusals written by hand, and
//! never come from the libraries.
//!
//! `operations` tests those of `draw_port`, and `given` those of `lent_ops`, as calls carry them. The crate `test_pixels` has what
//! the operations are drawn on. The crate `canvas_tests` tests the calls of a canvas and of pictures.
#![tactic(auto)]

#[cfg(test)]
mod given;
#[cfg(test)]
mod operations;
