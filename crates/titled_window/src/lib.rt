//! A window definition for tests: a black frame around the content, of four pixels on top and of one elsewhere. It is proved,
//! and no part of the program.
#![tactic(auto)]

mod titled;

pub use titled::Titled;
