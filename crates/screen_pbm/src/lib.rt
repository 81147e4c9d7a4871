//! Images of bitmaps in the formats of Netpbm, written to a `Sink`.
//!
//! There are two formats: the plain one, P1, has a character for each pixel, and the raw one, P4, a bit. 1 is
//! black in both. The bytes of an image are written as plain data in `specs/Pbm.antt` (`p1`, `p4`), from the
//! picture's width, its height and its black pixels alone; `laws` says what they are in the words of their
//! subject.
#![tactic(auto)]

mod head;
pub mod laws;
mod p1;
mod p4;

pub use p1::write_p1;
pub use p4::write_p4;
