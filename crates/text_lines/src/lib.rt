//! The lines of a text (*Inside Macintosh* I and *Inside Macintosh: Text*, "TextEdit").
//!
//! A text is bytes, at most 32000 of them, and is as wide as they are together: `ByteWidths` is the table of the
//! widths of all 256, as a font has them. No font, no record and no window is known here.
//!
//! A return, the byte 13, ends a line for good. Without wrap nothing else does. With wrap a line takes as many bytes
//! as have room, and at least one. Where the next byte is a blank, which is any byte up to 32 but the return, the
//! line also takes the blanks that follow, with a return behind them: blanks hang over its end. Otherwise it ends
//! behind its last blank, so that a word goes to the next line whole; a word that is too long for a line is cut.
//! Where the text is empty, and behind a return at its end, there is one line more, without bytes.
//!
//! `line_length` walks over a text once and keeps how wide its bytes are and where the last blank ended;
//! `specs::Ends` says the same walk as a recursion over the bytes, and `break_text` goes on from line to line. It
//! writes over the lines that were there and takes no memory, so whoever makes a text longer takes the room for its
//! lines with that for its bytes.
//!
//! `laws` says that the lines follow each other, and that each offset lies on one of them, which `line_of` finds; and
//! that where texts begin with the same bytes, all lines are the same before the last two that these bytes reach.
#![tactic(auto)]

mod ends;
pub mod laws;
mod line;
mod lines;
mod widths;

pub use ends::{LAST_BLANK, RETURN, line_length};
pub use line::TextLine;
pub use lines::{MOST_TEXT, break_text, line_of};
pub use widths::{ByteWidths, byte_width, bytes_width};
