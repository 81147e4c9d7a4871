//! What a text record shows, beside pictures that were worked out apart: pixel by pixel from the rules, by a program that knows
//! neither a canvas nor `text_paint`. What is painted on is black before.
//!
//! `made` makes the records and paints them, and `pictures` has the pictures and the tests. `changed` compares what stays of a
//! picture, where the selection or the bytes change, with the record drawn again.
#![tactic(auto)]

#[cfg(test)]
mod changed;
#[cfg(test)]
mod made;
#[cfg(test)]
mod pictures;
