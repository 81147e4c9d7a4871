//! The program `desk`: a script of Toolbox calls goes in, and what each of its lines answers comes out.
//!
//! `run_words` of `standard_run` is the whole of it as a function of what it is given: the words of the command line, files,
//! standard input and a writer. Here is only what hands it those of the system, and the exit status.
#![tactic(auto)]

ghost use Rattle.std.specs.Prelude.{◌≡◌};
ghost use Rattle.std.specs.Process.{exit_status};
ghost use Rattle.standard_run.specs.Program.{status_of};

use script_runner::{OptionsError, SystemFiles};
use standard_run::{Stopped, run_words};
use std::alloc::AllocError;
use std::process::ExitCode;
use std::{env, io};
use watched_io::{WatchedReader, WatchedWriter};

/// What is said where the words of the command line cannot be had as text. The first of them is the path by
/// which the program was called.
const UNREADABLE: &str =
    "desk: the command line cannot be read: call the program by a path in UTF-8, and name the files in UTF-8 or give the script on standard input";

/// How the program ends: what stopped it is named on standard error.
fn ended(rt: &impl Eprint, outcome: Result<(), Stopped>) -> ExitCode
    ensures { exit_status result ≡ status_of outcome }
{
    match outcome {
        Ok(()) => ExitCode::SUCCESS,
        Err(Stopped::Run(refusal)) => {
            let _ = eprintln!(rt; "desk: {refusal}");
            ExitCode::from(1)
        }
        Err(Stopped::Words(error)) => {
            let _ = rt.eprint(error);
            ExitCode::from(2)
        }
    }
}

/// How the program ends where the words of its command line cannot be had as text.
fn unreadable_words(rt: &impl Eprint) -> ExitCode
    ensures { exit_status result ≡ 2 }
{
    let _ = rt.eprintln(UNREADABLE);
    ExitCode::from(2)
}

/// How the program ends where there is no memory for the words of its command line.
fn no_memory_for_words(rt: &impl Eprint) -> ExitCode
    ensures { exit_status result ≡ 2 }
{
    ended(rt, Err(Stopped::Words(OptionsError::Memory(AllocError))))
}

fn main(rt: HostRuntime) -> ExitCode {
    let alloc = rt.alloc();
    let words = match env::args(&rt) {
        Ok(words) => words,
        Err(error) if error.kind() == io::ErrorKind::OutOfMemory => {
            return no_memory_for_words(&rt);
        }
        Err(_) => return unreadable_words(&rt),
    };
    let words: Vec<String> = match words.collect(alloc) {
        Ok(words) => words,
        Err(_) => return no_memory_for_words(&rt),
    };
    let files = SystemFiles::new(&rt);
    let mut standard = WatchedReader::new(rt.reader());
    let mut sink = WatchedWriter::new(io::writer(&rt));
    let outcome = run_words(alloc, words.as_slice(), &files, &mut standard, &mut sink);
    ended(&rt, outcome)
}
