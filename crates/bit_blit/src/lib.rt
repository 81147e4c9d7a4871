//! Drawing on bitmaps.
//!
//! A drawing is said by two things: the pixels that it has, and the value that it gives to each, made
//! of the point and of the bit that stood there. The word `Draws` says that each pixel of the map
//! that the drawing has got its value and that every other bit of the map, and the map's size, stayed.
//! `DrawsOnce` says the same, and that each of these pixels was written once, and no other.
//! Drawing goes from run to run, and a `Rule` makes the values of a run in one go: `draw_rect` takes the
//! rows of a rectangle, and `draw_cut` the spans that a cut leaves of one, of which `draw_region` is the
//! case of one region (`cut_inside`). `fill` puts a pattern down so, `copy` the bits of a `Source`, which is another map
//! or a bit image, and `invert` turns each pixel.
//!
//! All of it goes by words of 64 pixels: a pattern, a mode and a source are asked for as many at a time.
//!
//! `shift` moves pixels within one map. It takes rows, and the words of a row, in the order of a screen's
//! scan, or against it where they move onward in it, so that the source of a pixel always has its old
//! bit still.
#![tactic(auto)]

mod copying;
mod ink;
mod inverting;
mod shifting;
mod walk;

pub use bit_map::Rule;
pub use copying::{Copied, Source, copy};
pub use ink::{Ink, fill};
pub use inverting::{Inverse, invert};
pub use shifting::shift;
pub use walk::{cut_inside, draw_cut, draw_rect, draw_region};
