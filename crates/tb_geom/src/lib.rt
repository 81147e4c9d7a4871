//! What lies under everything: points, rectangles, sets of pixels, bytes that a call lends, and why a call refuses.
//!
//! A point names the pixel below and to the right of it, by its column `h` and its row `v`. Columns
//! grow to the right and rows downwards (*Inside Macintosh* I, "QuickDraw", "The Coordinate Plane").
//! What a rectangle or a region means is the set of pixels that it encloses: every contract here and
//! in the crates above says, for each point, whether it is in; two sets of the same pixels are equal
//! (`laws`). The sides of what is kept lie in
//! -16384..=16383; the numbers that calls take may be any.
#![tactic(auto)]

mod bytes_ref;
pub mod laws;
mod point;
mod rect;
mod refusal;

pub use bytes_ref::BytesRef;
pub use point::Point;
pub use rect::{FIRST_SIDE, LAST_SIDE, Rect};
pub use refusal::Refusal;
