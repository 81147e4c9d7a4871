//! Insets of regions and frames of regions, from region bytes that are read where they lie, as bytes and as regions;
//! and the region of any set that tells its rows.
//!
//! An inset goes by columns first, and then by rows of what that gave (`inset` in `specs::Insets`). By a distance that
//! is not negative a set is narrowed: all pixels within the distance have to be in it. By a negative one it is widened:
//! one has to be. Where both are of one sign the order makes no difference (`laws`), where they are not it does.
//!
//! A row of the inset is made of the rows of the region within the distance, each of them narrowed (`inset_row`). A row
//! is narrowed in one pass from left to right, by how many of the last columns are alike: all in the row, or all not.
//! A column is decided where the window around it has been passed (`narrowed`). A row of the region without points is
//! like the one above, so it is joined already. Where neither the row that comes in nor the one below that which goes
//! out has points, the row of the inset is like the one above too, and is passed over (`inset_turns`).
//!
//! Whether an inset lies in range is judged by its last result (`can_inset`). Mostly the box of the region, widened,
//! says so. Where that reaches out of range, the columns and rows beside the range are asked: what lies past them lies
//! there too.
//!
//! `pixel_region` goes through the rows of a set as `pixel_bytes` of `pixel_rows` does, and keeps the columns of the
//! inversion points of each row that turns.
//!
//! Distances are in pixels, regions in the coordinate space of the call that uses them. The words of the contracts
//! stand in `specs::Insets`, those on distances in `specs::Near`, and those on bytes in `specs::Told` of `pixel_rows`.
#![tactic(auto)]

mod frame_region;
mod inset;
mod inset_row;
pub mod laws;
mod making;
mod narrowed;
mod near;
mod range;

pub use frame_region::{FrameRegion, frame_of_region, frame_region_bytes};
pub use inset::{Inset, inset_bytes};
pub use making::pixel_region;
pub use range::can_inset;
