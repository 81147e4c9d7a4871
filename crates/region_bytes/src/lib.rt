//! The bytes of regions: judged and read where they lie, and written.
//!
//! The bytes of a region are words of 16 bits, the high byte first: the size in bytes, the sides top,
//! left, bottom and right of the region's box, and, where the region is no rectangle, its inversion
//! points, row by row: the row's place, the columns of its points, 32767; and 32767 after the last row
//! (*Inside Macintosh* I, "QuickDraw", "Regions", says the size and the box). A pixel is in the region
//! where an odd number of points lie at it, above it, left of it or both. A set of pixels has one such
//! list of points (`laws::one_list_of_points`), and so equal sets have equal bytes.
//!
//! `RegionBytes::read` judges bytes that somebody else keeps. It reads them a few times from end to
//! end, and takes no memory; nor does what they answer from then on: `contains` for a pixel, and the
//! `points`, row by row. A `RegionWriter` is handed the points of a set and gives its bytes; it counts
//! words before it looks for memory, so that a set that is too long is known as that.
#![tactic(auto)]

mod bounds;
mod closed;
mod data_points;
mod judge;
pub mod laws;
mod parting;
mod points;
mod region;
mod texts;
mod writing;

pub use parting::first_word;
pub use points::Points;
pub use region::{Form, RegionBytes};
pub use writing::{END, RegionWriter};
