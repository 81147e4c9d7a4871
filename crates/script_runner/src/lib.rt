//! The runner of scripts: the bytes of a script go in, and what each of its lines answers comes out.
//!
//! `run` makes the font of the desk's texts first. Then it reads bytes from a `Source`, cuts them into lines,
//! and has each answered on a `Sink` before it reads on. A line is a command, a comment or nothing, as
//! `script_text` says. A `Script` knows of which version the script is, which its first line may say, and each line is
//! read in that version. Its `Session` holds the script's desk, which the first other command makes, and answers one
//! command: a call of the Toolbox by the line of its reply, and `image` by the bytes that `screen_pbm` writes. Both answer
//! by an `AnswerWriter`, which alone knows whether the run is raw: whether it shows images alone, in the format P4.
//!
//! What a script answers is stated apart from all this code, in `specs/`: `Session` says what may be answered
//! to a command and what that leaves of the desk, over the Toolbox's own steps, `Script` which commands are answered so,
//! and `Runs` how a run ends. The contract of `run` is that and nothing else: the bytes that went out are the answers
//! to the lines that came in, and, where a check is asked for, a last line of how many pixels differ from the desk
//! painted from nothing (`Checks`): the laws say that none does. It holds for every stock: whose definitions are in it,
//! and of which kinds, is the caller's.
//!
//! `options` reads the words of the command line, and `run_chosen` runs what they chose: it opens the files that they name
//! through an `Opener`, and hands the font's bytes and the flags to `run` as they are (`ChosenRuns`). `SystemFiles` opens
//! the files of the system.
#![tactic(auto)]

mod answer_writer;
mod chosen_run;
mod command_line;
mod files;
pub mod laws;
mod on_stock;
mod runner;
mod script;
mod session;

pub use chosen_run::run_chosen;
pub use command_line::{Choices, OptionsError, options};
pub use files::{Opener, SystemFiles};
pub use runner::run;
