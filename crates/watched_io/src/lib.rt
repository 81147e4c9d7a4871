//! Readers and writers that tell whether they failed.
//!
//! The library's `Read` and `Write` say which bytes went over, and not whether a call failed: so a program
//! over them that gives up keeps any promise about bytes. A `Source` is a reader that also tells whether a
//! read failed, whether one came to the end of its input, and how many there were; a `Sink` is a writer that
//! tells whether a write failed. Each is seen as one plain record, `Input` and `Output`.
//!
//! A source is read, and a sink written, only as long as nothing failed: no read follows the end of the
//! input or a fault, and no write a fault. Both stand as `requires`, so a program over them is refused that
//! tries again.
//!
//! `send` and `send_all` write a text to its end (`Sends`): at `Ok` all of it went out, at `Err` a front of
//! it, and the sink tells that it failed. `read_to_end` reads a source to its end, and keeps as many bytes as are wanted. `WatchedReader` and
//! `WatchedWriter` make a source and a sink of any reader and writer.
#![tactic(auto)]

mod sink;
mod source;
mod whole;

pub use sink::{Sink, WatchedWriter, send, send_all};
pub use source::{MOST_READS, Source, WatchedReader};
pub use whole::read_to_end;
