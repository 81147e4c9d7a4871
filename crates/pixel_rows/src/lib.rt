//! Sets of pixels that tell their rows, however many runs these have, and the bytes of the regions of such sets: of what two
//! regions make together, and of a region that is moved.
//!
//! A row is kept as its `Columns`, one bit each. `pixel_bytes` goes through the rows of a set from the top down. A row that
//! is like the one above is passed over. In the others the inversion points are written from left to right, as they are
//! found: where the columns that one of the two rows has alone begin or end. They go into a `RegionWriter` of `region_bytes`,
//! which counts on where memory is refused. So bytes that would be too many are known as that, whatever memory there is, and
//! the region itself is never made. No memory is taken but the writer's.
//!
//! `combined_bytes` and `moved_bytes` read the bytes of regions where these lie. The runs of a row begin and end at the
//! columns at which an odd number of the region's points lie in the row or above (`region_row`), so all points are gone
//! through for each row that has some.
//!
//! Rectangles are in the coordinate space of the call that uses the region. The words of the contracts on bytes stand in
//! `specs::Told`, those on what two regions make together in `specs::Combined`.
#![tactic(auto)]

mod columns;
mod combination;
mod combined;
mod moved;
mod pixel_rows;
mod reading;

pub use columns::{Columns, differ};
pub use combination::Combination;
pub use combined::{combined_bytes, meant_columns};
pub use moved::{can_move, moved_bytes};
pub use pixel_rows::{PixelRows, pixel_bytes};
pub use reading::{has_points, region_bounds, region_row};
