//! Drawing operations, pictures made of them, and the canvas that both are drawn on.
//!
//! An operation (`Op`) has a shape and perhaps a clip. At a point in its own coordinates it makes a
//! new bit of the old one, and leaves the bit where its shape or its clip has not the point
//! (`op_value`). A `Picture` is a list of operations. Its value at a point is what they make, one
//! after another, of white (`picture_bit`).
//!
//! Contracts see operations and pictures as plain values: a region as its pixels, a text and rows of
//! bits as the lists of their bytes, a picture as the list of its operations. So a copy is equal to
//! what it was made of.
//!
//! A `Canvas` is a bitmap, a rectangle and a `Cut` that bound what may change on it, a font, and the
//! place of the canvas's own 0 0 on the map. Each drawing on it says which pixels of the canvas got
//! which value, by the one word `Draws`, and that all else stayed. All go through one function, which
//! gives the pixels of a rectangle that the cut leaves the value of a `Rule` in the canvas's own
//! coordinates, by words of 64 pixels. An operation's shape is drawn by the rule of its shade or of its bits:
//! a line as a rectangle, a frame side by side, a text by tiles of 512 columns and 16 rows, each of them made
//! by one pass over its characters. Of what a clip or a region bounds, its
//! spans are drawn, those that are equal in rows that follow each other as one rectangle. A strip, such as a
//! rectangle with rounded corners, is drawn run by run.
#![tactic(auto)]

mod bounds;
mod bytes;
mod canvas;
mod clipped;
mod copies;
mod frames;
pub mod laws;
mod painting;
mod picture;
mod placed;
mod rules;
mod shapes;
mod strips;
mod texts;
mod values;

pub use bytes::{Bytes, LONGEST_TEXT, ShortText};
pub use canvas::Canvas;
pub use picture::{MOST_OPERATIONS, Picture};
pub use placed::placed_within;
pub use scan_region::Cut;
pub use shapes::{Line, Op, RowsOfBits, Shade, Shape, TextMode, TextRun};
