//! Regions: finite sets of pixels, kept as their inversion points.
//!
//! A region is the exact box of its pixels and the rows of its inversion points, as `region_rows` has them.
//! Every `Region` keeps this (`IsRegion` there, in `specs::Hull`). Such a list is the one list of its pixels
//! (`laws::one_list_of_rows`), so that `equals`, which compares lists, compares sets.
//!
//! `union`, `sect`, `diff` and `xor` differ in the operator alone, under which the rows are merged. Beside a
//! rectangle that holds its box a region is the answer, or the rectangle is (`Region::is_held_by`). Regions whose
//! boxes are apart share nothing (`Region::is_apart`). The box of a union is the rectangle around both boxes; for
//! the others the rows are asked.
//!
//! `empty`, `from_rect`, `of_rows` and `copy` begin a region, and `offset` moves its numbers in place. `is_empty`,
//! `bbox` and `contains` answer from the box and from parity, and `meets_rect` from the box and the rows of points.
//!
//! A walk goes along rows of pixels without memory. A `Part` is what one region of a cut lets through of a
//! row: all pixels, where there is no such region, or where it is a rectangle, to whose box the area is cut
//! first; those of a `Layer` of `region_rows`; or, where the lines of wide regions do not fit side by side in
//! the walk's one array of bits, those that a test of single pixels finds, asked only in the columns at which
//! a row of the region turns. A `Walk` is up to four parts, and goes from turn to turn of a row. A `Descent`
//! goes from row to row, and keeps the runs of a row for the rows below it at which no part turns, past which
//! it goes at once where they have no runs. Where no region is left to be asked, the rows are those of the
//! area, and no row is walked (`SpanRows`). Seen turned by half a turn, all goes from the bottom up. `spans`, `spans_up` and `Cut::spans_within` are
//! such rows. A set's list of spans is one too (`laws::one_list_of_spans`).
//!
//! `to_bytes` writes the rows as they are. `from_bytes` has the bytes judged in place first, and then copies
//! the rows. A region that is written and read is the same, and so are bytes that are read and written
//! (`laws::written_and_read`, `laws::read_and_written`).
#![tactic(auto)]

mod bounds;
mod boxed;
mod cut;
mod cut_spans;
mod descent;
pub mod laws;
mod part;
mod region;
mod span_rows;
mod spans;
mod spans_up;
mod walk;

pub use cut::Cut;
pub use cut_spans::CutSpans;
pub use region::Region;
pub use spans::{Span, Spans};
pub use spans_up::SpansUp;
