//! The command line: `desk [--raw] [--check] [--font FILE] [SCRIPT]`.
ghost use Rattle.std.specs.Prelude.{◌≡◌, ◌&&◌, IfOk, IfErr, OnOk, map, false, option_map, codes, []};
ghost use Rattle.clap.specs.Words.{HasKind, app_of, rule_of, first_value, one_text, found_of};
ghost use Rattle.script_runner.specs.Choices.{desk_app, word_rule, flag_rule, option_rule, faults_in, IsFlagText, IsChosen, AreWordsRefused};

use clap::error::ErrorKind;
use clap::{Arg, ArgAction, ArgMatches, Command};
use std::alloc::{AllocError, Global};
use std::convert::AsStr;
use thiserror::Error;

/// What the command line chose.
#[derive(Debug, Drop)]
pub struct Choices<'a> {
    /// The path of the script; standard input where there is none.
    pub script: Option<&'a str>,
    /// The path of the font; the built-in font where there is none.
    pub font: Option<&'a str>,
    /// Whether only images are to be shown, in the format P4.
    pub raw: bool,
    /// Whether the run is to be checked at its end.
    pub check: bool,
}

/// Why a command line is refused. Displayed, it is what to print on standard error, to the end of its
/// last line.
#[derive(Debug, Drop, Error)]
pub enum OptionsError {
    /// Something is wrong with the words, or they ask for help.
    #[error("{0}")]
    Words(clap::Error),
    /// Nothing is wrong with the words but that both flags are there.
    #[error("desk: --check and --raw exclude each other\n")]
    Excluded,
    /// There was no memory to read them.
    #[error("desk: no memory for the command line\n")]
    Memory(AllocError),
}

/// A word that stands by itself, and what help says of it.
fn positional<'a>(alloc: Global, name: &'a str, help: &'a str) -> Arg<'a>
    ensures rule { rule_of result ≡ word_rule name.entry.now }
    ensures local { result.global ≡ false }
{
    Arg::new(alloc, name).action(ArgAction::Set).help(help)
}

/// An option without a value: the word `--NAME`, and what help says of it.
fn flag<'a>(alloc: Global, name: &'a str, help: &'a str) -> Arg<'a>
    ensures rule { rule_of result ≡ flag_rule name.entry.now }
    ensures local { result.global ≡ false }
{
    Arg::new(alloc, name)
        .long(name)
        .action(ArgAction::SetTrue)
        .help(help)
}

/// An option with a value: the two words `--WORD VALUE`, or `--WORD=VALUE`, and what help says of it.
fn option<'a>(alloc: Global, word: &'a str, value: &'a str, help: &'a str) -> Arg<'a>
    ensures rule { rule_of result ≡ option_rule word.entry.now value.entry.now }
    ensures local { result.global ≡ false }
{
    Arg::new(alloc, value)
        .long(word)
        .action(ArgAction::Set)
        .help(help)
}

/// What the program takes: one SCRIPT, or none, and a font's FILE or none. Help calls it desk, whatever its file is
/// called.
fn desk_command<'a>(alloc: Global) -> Result<Command<'a>, AllocError>
    ensures { IfOk result (λ c. app_of c ≡ desk_app) }
{
    let script = positional(
        alloc,
        "SCRIPT",
        "The script's file; standard input where none is named",
    );
    let font = option(
        alloc,
        "font",
        "FILE",
        "The file of the font for all texts, a FONT record; the built-in font where none is named",
    );
    let raw = flag(
        alloc,
        "raw",
        "Write no replies, and images in the raw format, P4",
    );
    let check = flag(
        alloc,
        "check",
        "End with a line that says how many pixels differ from the desk painted from nothing",
    );
    let command = Command::new(alloc, "desk")
        .about("Runs a script of Toolbox calls, and writes what each of its lines answers")
        .bin_name("desk")?;
    let command = command.arg(script)?;
    let command = command.arg(raw)?;
    let command = command.arg(check)?;
    let command = command.arg(font)?;
    Ok(command)
}

/// What the matches hold.
fn chosen<'a>(matches: &ArgMatches<'a>) -> Choices<'a>
    ensures script { option_map (λ s. s.now) result.script ≡ first_value (found_of matches.now) (codes "SCRIPT") }
    ensures font { option_map (λ s. s.now) result.font ≡ first_value (found_of matches.now) (codes "FILE") }
    ensures raw { IsFlagText (one_text (found_of matches.now) (codes "raw")) result.raw }
    ensures check { IsFlagText (one_text (found_of matches.now) (codes "check")) result.check }
{
    Choices {
        script: matches.get_str("SCRIPT"),
        font: matches.get_str("FILE"),
        raw: matches.get_flag("raw"),
        check: matches.get_flag("check"),
    }
}

/// The error of a parse: want of memory by its own name, and all else as it is.
fn refused(error: clap::Error) -> OptionsError
    ensures { (words : _) → HasKind (faults_in words) error → AreWordsRefused words result }
{
    if error.kind() == ErrorKind::OutOfMemory {
        OptionsError::Memory(AllocError)
    } else {
        OptionsError::Words(error)
    }
}

/// What the words of a command line choose; the first of them is the program's name. They are taken
/// where nothing is wrong with them and not both flags are there: else they are refused as Excluded. An
/// error of their own says what is wrong with them, and Memory says that there was none to read them.
pub fn options<'a, S: AsStr>(alloc: Global, words: &'a [S]) -> Result<Choices<'a>, OptionsError>
    ensures chosen { IfOk result (IsChosen (map S.text words.entry.now)) }
    ensures apart { IfOk result (λ choices. (choices.raw && choices.check) ≡ false) }
    ensures taken { OnOk result (faults_in (map S.text words.entry.now) ≡ []) }
    ensures refused { IfErr result (AreWordsRefused (map S.text words.entry.now)) }
{
    let command = match desk_command(alloc) {
        Ok(command) => command,
        Err(error) => return Err(OptionsError::Memory(error)),
    };
    match command.try_get_matches_from(words) {
        Ok(matches) => {
            let choices = chosen(&matches);
            if choices.raw && choices.check {
                return Err(OptionsError::Excluded);
            }
            Ok(choices)
        }
        Err(error) => Err(refused(error)),
    }
}
