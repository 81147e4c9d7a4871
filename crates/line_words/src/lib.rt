//! The words of a line of a script, read one after the other, the shapes of whole lines, and what the lines of all replies
//! are made of.
//!
//! `Words` is what is left of a line, and each of its methods takes the next word, of the form that it names: a number, a
//! flag, a name, a text, hex digits, or bytes in either of these two forms; or words that belong together, as those of a
//! point. None takes memory: a name and a text are lent by the line, and hex digits become bytes in the line's own room.
//! `named` looks a word up in a table.
//!
//! What is read is stated in `specs/Words.antt` and `specs/Hex.antt`, and apart from how it is read in
//! `specs/Forms.antt`: which words have which form, and what they stand for. `specs/Shapes.antt` says so of whole lines:
//! a `Shape` is the words of a line one after the other, `reading` how a line of that shape is read, and
//! `specs/Spelling.antt` which line has the shape. `laws` says that a number or bytes, as replies write them, are read
//! back.
//!
//! `write_done`, `write_number`, `write_bytes` and `write_region` write the lines of `ok`, of a number, of bytes and of a
//! region, and `flag_text` and `flag_number` say how a flag stands in one (`specs/Replies.antt`). A line goes out to a `Sink`
//! as it is made, and takes no memory. What only one manager answers stands with its words.
#![tactic(auto)]

mod hex;
pub mod laws;
mod piece;
mod region;
mod replies;
mod table;
mod words;

pub use piece::Piece;
pub use region::write_region;
pub use replies::{flag_number, flag_text, write_bytes, write_done, write_number};
pub use table::named;
pub use words::{Words, is_plain};
