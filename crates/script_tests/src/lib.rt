//! What no clause says of `script_runner` and of the crates of scripts below it, and no script shows, by tests: which files a run
//! of what was chosen reads and which fault ends it, and what a run that ends at any moment leaves of its stock; how often a slow
//! reader is read and a slow writer written to and where a fault stops them, images of sizes that no screen has, and replies with
//! numbers that no desk gives. What a script can show is a row of `tests/rows`, and `tests/ends` has the reads and writes of the
//! program fail.
//!
//! `chosen` tests `script_runner`, `watched` tests `watched_io`, `images` tests `screen_pbm`, and `lines` tests `script_text`.
//! `Script` and `Paper` are a reader and a writer that can be slow or break; they are proved, and no part of the program.
#![tactic(auto)]

#[cfg(test)]
mod chosen;
#[cfg(test)]
mod images;
#[cfg(test)]
mod lines;
pub mod paper;
pub mod script;
#[cfg(test)]
mod watched;
