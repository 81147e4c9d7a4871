//! Script lines as commands, and replies as lines.
//!
//! A script is lines of bytes. `LineBuffer` takes the bytes of a line as they come, and says what the line
//! says in a script of a version: nothing, a refusal or a `Command`. `parse` reads the words of one line. A line with a word
//! that only a later version has is BadSyntax, whatever else is wrong in it. `write_reply` and `write_done`
//! write the line of a reply to a `Sink`. None of them takes memory: a line has at most 1024 bytes, and a
//! command borrows its words from the line.
//!
//! What the words of windows, controls, lists, text records, menus and events are, `command_words` says, with the one table of all first
//! words, and the lines of their replies `reply_lines`; here they are put together, with the commands that are about the whole desk.
//!
//! What a line says is stated apart from how it is read: `specs/Lines.antt` cuts a script into lines,
//! `specs/Spelling.antt` says which line says which command (`IsLine`), and `specs/Commands.antt` how it is
//! read. `specs/Replies.antt` has the one line of each reply, and `specs/Versions.antt` says which commands a version has.
//! `laws` says what verbs, lines and versions are in the words of their subject.
#![tactic(auto)]

mod command;
pub mod laws;
mod lines;
mod parser;
mod reply_line;

pub use command::{Command, DeskSize};
pub use line_words::write_done;
pub use lines::LineBuffer;
pub use parser::parse;
pub use reply_line::write_reply;
