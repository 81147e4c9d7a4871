//! Regions of round shapes, of lines and polygons, of frames and of the insides that these leave, and the bytes of such
//! regions.
//!
//! `Rows` is a set of pixels with two runs in a row at most (`TwoRuns`). A strip of `shape_strips` has one (`Solid`); a
//! `Frame` has the run of its shape less that of its inside. `form_region` makes the region of such a set in one pass
//! over its rows, from the top down. It keeps the edges of the row above, four at most. Where a row differs from that
//! one, it adds the row's inversion points: the columns that are an edge of one of the two alone, eight at most, which
//! are found without memory (`turns`). So no pixel is looked at. `form_bytes` goes the same way, and writes the points.
//!
//! A polygon of few points is made in one pass too (`pass`). In each row the first columns that its edges turn are put in
//! order, and those that an even number of edges has cancel: they are the row's edges, 33 at most. A polygon of more points
//! is the odd sum of two, which a chord cuts off each other. The frame of a polygon is the union of the lines of the first
//! half of its edges and those of the second one, so that each line is in few regions on the way. The bytes of both are
//! written row by row, with no region made (`pixel_rows`).
//!
//! Rectangles are in the coordinate space of the call that uses the region. Each call that takes a rectangle refuses one
//! with a side outside -16384..=16383 as OutOfRange, as `Region::from_rect` does; those that take a shape refuse for
//! want of memory alone, and those that tell bytes as TooLong before that. The words of the contracts stand in
//! `shape_strips`, those on bytes in `pixel_rows`, and those on polygons in `specs::Polygons`.
#![tactic(auto)]

mod frame;
mod frame_polygon_rows;
pub mod laws;
mod line;
mod long_turns;
mod making;
mod pass;
mod polygon;
mod polygon_rows;
mod round;
mod rows;
mod strip;
mod turns;
mod two_runs;
mod writing;

pub use frame::{
    Frame, frame_oval_region, frame_rect_region, frame_round_rect_region, inside_region,
};
pub use frame_polygon_rows::frame_polygon_bytes;
pub use line::{fits_at_all, frame_polygon_region, line_region};
pub use making::form_region;
pub use polygon::{are_in_range, polygon_region};
pub use polygon_rows::polygon_bytes;
pub use round::{oval_region, round_rect_region};
pub use rows::{Rows, Solid};
pub use strip::{placed_run, strip_region};
pub use two_runs::{Edges, TwoRuns};
pub use writing::form_bytes;
