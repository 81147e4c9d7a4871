//! The text records of a window, changed by calls one after another: what each call answers. What they show `text_paint_tests`
//! compares pixel by pixel, and what edits make of one record `record_text_tests`; here the calls come as a Toolbox passes them on.
//! Wanted answers are worked out by hand, for the built-in font: bytes of 6 pixels, and lines of 10.
//!
//! `desk` has a desk with one window, and `calls` the tests.
#![tactic(auto)]

#[cfg(test)]
mod calls;
#[cfg(test)]
mod desk;
