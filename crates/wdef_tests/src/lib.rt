//! What no clause says of the standard windows, by tests: that they come out where memory is not refused, and that
//! their tables are those that were asked for. Expected values are pixels worked out by hand.
//!
//! `told` tests what a window is told and where a point lies in it, `drawn` what windows look like, `lines` the lines of
//! their outlines, `rounded` the rounded window. `place` is where windows lie on a map.
#![tactic(auto)]

#[cfg(test)]
mod drawn;
#[cfg(test)]
mod lines;
pub mod place;
#[cfg(test)]
mod rounded;
#[cfg(test)]
mod told;
