//! The rows of inversion points that stand for a region, and what is done with them.
//!
//! The rows are the inversion points of a finite set of pixels: from the top down, each row at which the
//! set differs from the row above, with the columns, from left to right, at which that difference turns. A
//! pixel is in where an odd number of points lies neither right of it nor below it. So a rectangle is two
//! rows of two points, and a row that is as the one above it is not kept at all. The rows of a region keep
//! this (`specs::Rows::AreRows`): they rise strictly and each has points; those of a row rise strictly and
//! are even in number; below the last row no pixel is in; all are coordinates in -16384..=16383. Such a list
//! is the one list of its pixels (`proofs::Plane::same_list`), so that `same_rows`, which compares lists,
//! compares sets. `rows_hull` gives the smallest rectangle around the pixels. The points of a row of up to
//! four lie in the row itself (`row`, in the kit's `smallvec`).
//!
//! The rows of two regions are combined under an `Operator` by one merge from the top (`merge`). Of each
//! operand the row of pixels at hand is kept as its edges; a row of points turns them (`turning::Turning`),
//! in place where its points are two with no edge between them.
//! Where one operand turns, the points of the result are those of the turn that the operator lets through
//! beside the other's row (`kernel::keep_part`), all of them or none where the two share no column; where
//! both do, they are what either turn lets through, one after the other. Of two lists of which one lies
//! above the other, or has no row, the rows are copied (`apart`). Two rectangles that share rows are united
//! by their sides, in four rows at most (`pair`).
//!
//! `rect_rows` and `copy_rows` make rows, and `move_rows` moves their numbers in place. `is_in_rows` answers
//! from parity, `next_column` tells how far a row can be the same, and `rect_of` knows the rows of a rectangle
//! again. `meets_rows` asks the rows of points alone, and takes no memory: what those above a rectangle leave in its
//! first row, and then whether one of those within it turns a column of it.
//!
//! A row of pixels is gone along without memory: a `Line` has one bit for each of some columns, set where
//! the row turns, and finds the next turn by words. A `Layer` is what one region lets through of a row, with
//! the rows of points that are still to be read. Seen turned by half a turn (`specs::Seen`), it reads from
//! the bottom up, since a region is empty below its last row as it is above its first.
//!
//! `write_rows` writes the rows as they are, into a `RegionWriter` of `region_bytes`, which counts them all
//! and keeps their bytes while memory lasts. `form_rows` copies the rows of bytes that are judged already.
#![tactic(auto)]

mod apart;
mod bits;
mod columns;
mod contains;
mod copy;
mod hull;
mod kernel;
mod layers;
mod line;
mod meets;
mod merge;
mod offset;
mod operator;
mod pair;
mod rect;
mod restore;
mod row;
mod same;
mod turning;
mod written;

pub use apart::combined_rows;
pub use columns::next_column;
pub use contains::is_in_rows;
pub use copy::copy_rows;
pub use hull::{NOTHING, rows_hull};
pub use layers::Layer;
pub use line::Line;
pub use meets::meets_rows;
pub use offset::move_rows;
pub use operator::Operator;
pub use rect::{rect_of, rect_rows};
pub use restore::form_rows;
pub use row::Row;
pub use same::same_rows;
pub use written::write_rows;
