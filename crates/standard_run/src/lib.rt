//! A script over the standard definitions, as the words of a command line choose it.
//!
//! `run_words` is the program `desk` as a function of what it is given: the words of its command line, files, standard input
//! and a writer. Its contract says which of them is read, in which font, and that the bytes which go out are the answers to the
//! lines that came in (`ProgramEnds`). The stock lies in the function itself, which fills it part by part.
#![tactic(auto)]

mod program;

pub use program::{Stopped, run_words};
