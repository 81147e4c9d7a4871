//! A desk for programs in C: `desk_run` answers a whole script, from bytes to bytes, and `desk_serve` one that comes in at a
//! descriptor, line by line.
//!
//! Both are `run_words` of `standard_run`, with the words of a command line that stand for their flags, and without files. Nothing
//! is kept from call to call. `clients/c/libdesk.h` says what a program in C owes, which no clause can ask of it.
#![tactic(auto)]

mod ends;

ghost use Rattle.std.specs.Prelude.{◌≡◌, ◌≤◌, ◌&&◌, true, false, pos, negsuc, IsTrue, map, length, take, drop};
ghost use Rattle.tb_geom.specs.declared.refusal.Refusal.TheVariants.{WriteFault};
ghost use Rattle.tb_geom.specs.Refusals.{number_of};
ghost use Rattle.watched_io.specs.Reads.{IsOpen};
ghost use Rattle.desk_c.specs.Answered.{words_of, status_of, HasRun, AreAnswers, HasServed, IsRefusal};

use ends::{Descriptor, NoFiles, Room};
use script_runner::OptionsError;
use standard_run::{Stopped, run_words};
use std::alloc::Global;
use tb_geom::Refusal;
use watched_io::{Sink, Source, WatchedReader, WatchedWriter};

/// The words of a command line that stand for these flags.
fn words_of(raw: bool, check: bool) -> &'static [&'static str]
    ensures { map (λ word. word.now) result.now ≡ words_of raw check }
{
    if raw && check {
        &["desk", "--raw", "--check"]
    } else if raw {
        &["desk", "--raw"]
    } else if check {
        &["desk", "--check"]
    } else {
        &["desk"]
    }
}

/// How a run ended, as a number.
fn status_of(outcome: Result<(), Stopped>) -> i32
    ensures { result ≡ status_of outcome }
{
    match outcome {
        Ok(()) => 0,
        Err(Stopped::Run(refusal)) => refusal.number() as i32,
        Err(Stopped::Words(OptionsError::Memory(_))) => Refusal::NoMemory.number() as i32,
        Err(Stopped::Words(_)) => -1,
    }
}

/// Runs the program with the words of these flags, and gives its status.
fn run<R: Source, W: Sink>(
    alloc: Global,
    source: &mut R,
    sink: &mut W,
    raw: bool,
    check: bool,
) -> i32
    requires unread { (R.input source.old).reads ≡ 0 }
    requires going { IsOpen (R.input source.old) }
    requires unfailed { (W.output sink.old).has_failed ≡ false }
    ensures ran { HasRun raw check (R.input source.old) (W.output sink.old) (W.output sink.new) result }
    ensures excluded { result ≡ negsuc 0 → (raw && check) ≡ true }
    ensures refused { (raw && check) ≡ true → (W.output sink.new ≡ W.output sink.old) × IsRefusal result }
{
    status_of(run_words(alloc, words_of(raw, check), &NoFiles, source, sink))
}

/// Whether a room of this size may have so many bytes after a run that ended so: they fit, and where a write failed they fill
/// it. So it always is; but what is proved of a run over any sink does not tell, and it is asked.
fn is_held(status: i32, bytes: usize, size: usize) -> bool
    ensures { IsTrue result → (bytes ≤ size) × (status ≡ pos (number_of WriteFault) → bytes ≡ size) }
{
    bytes == size || bytes < size && status != Refusal::WriteFault.number() as i32
}

/// Answers a script, with its answers at the front of `out`: `written` is how many bytes they are. Where there is no room for
/// all of them, that is a WriteFault. The status is 0 where all lines were answered, the number of what stopped the run, or -1
/// where both flags are there, which exclude each other.
#[unsafe(no_mangle)]
pub extern "C" fn desk_run(
    alloc: Global,
    script: &[u8],
    out: &mut [u8],
    written: &mut usize,
    raw: bool,
    check: bool,
) -> i32
    ensures length { length out.new ≡ length out.old }
    ensures fits { written.new ≤ length out.new }
    ensures behind { drop written.new out.new ≡ drop written.new out.old }
    ensures full { result ≡ pos (number_of WriteFault) → written.new ≡ length out.new }
    ensures answers { AreAnswers raw check script.now (take written.new out.new) result }
    ensures excluded { result ≡ negsuc 0 → (raw && check) ≡ true }
    ensures refused { (raw && check) ≡ true → (written.new ≡ 0) × IsRefusal result }
{
    *written = 0;
    let Ok(mut room) = Room::new(alloc, out.len()) else {
        return Refusal::NoMemory.number() as i32;
    };
    let mut source = WatchedReader::new(script);
    let status = run(alloc, &mut source, &mut room, raw, check);
    let answers = room.bytes();
    if !is_held(status, answers.len(), out.len()) {
        return Refusal::NoMemory.number() as i32;
    }
    out[..answers.len()].copy_from_slice(answers);
    *written = answers.len();
    status
}

/// Answers the script that comes in at one descriptor, at another one: each line before the next is read. The status is as that
/// of `desk_run`.
#[unsafe(no_mangle)]
pub extern "C" fn desk_serve(alloc: Global, input: i32, output: i32, raw: bool, check: bool) -> i32
    ensures served { HasServed raw check result }
    ensures excluded { result ≡ negsuc 0 → (raw && check) ≡ true }
    ensures refused { (raw && check) ≡ true → IsRefusal result }
{
    let mut source = WatchedReader::new(Descriptor::new(input));
    let mut sink = WatchedWriter::new(Descriptor::new(output));
    run(alloc, &mut source, &mut sink, raw, check)
}
