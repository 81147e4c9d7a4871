//! A text record: a text in lines, as it stands in a window and is selected (*Inside Macintosh* I and *Inside Macintosh:
//! Text*, "TextEdit").
//!
//! A `TextRecord` has a text of at most 32000 bytes, the lines of which `text_lines` makes. The destination says where they
//! stand: it begins at a column and a row, which may lie far outside of the window, and has a width; its bottom plays no
//! part. The view is the part of the window that shows it. A record has a justification, may wrap its lines, may have a
//! frame round its view, may be shown and active, and has a caret that is on or off. Its selection goes from one offset up
//! to another; where both are the same it is a point.
//!
//! No font is known here: a record keeps the widths of all bytes, and the ascent and the height of a line, which `Metrics`
//! says. Pens are computed from these, so that nothing is drawn here, nor is a window known.
//!
//! A line begins at the left of the destination and 1 more, and justification moves it by what the line leaves of the
//! width, without the blanks at its end. The place of an offset is the column at which the byte there begins. The offset at
//! a point is that of the first byte of the line at its row of which more than half lies right of the point.
//!
//! `scroll` moves the destination, and `show_selection` moves it so that the end of the selection shows. How far a line or an
//! offset lies from left and top of the destination does not depend on these two, and is what their new numbers are made of:
//! it has bounds of its own, so that the numbers stay in range.
//!
//! `put` is what all edits stand on. It takes the room for the bytes and for the lines first, and then changes them where
//! they are, so that a refused call changes nothing, and one that makes the text shorter takes none. That the lines are
//! those of the text is the invariant of `LinedText`, a type that no other crate sees.
#![tactic(auto)]

mod bytes;
mod changes;
pub mod laws;
mod lined;
mod metrics;
mod places;
mod placing;
mod record;
mod showing;

pub use metrics::Metrics;
pub use placing::{Justification, Placing};
pub use record::TextRecord;
