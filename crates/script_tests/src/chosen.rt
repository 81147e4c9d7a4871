//! What no clause says of a run of what was chosen: which of the files in a folder it reads, what becomes of standard input,
//! which of several faults ends it, and that its stock has had a definition taken once the window's line was answered.
ghost use Rattle.std.specs.Prelude.{⊤};

use crate::paper::Paper;
use crate::script::Script;
use def_iface::{Stock, WindowDef};
use script_runner::{Choices, Opener, OptionsError, run_chosen};
use std::alloc::{AllocError, Global};
use std::test::Fail;
use std_wdef::{StdWindow, Variation};
use tb_geom::Refusal;
use test_pixels::small::SMALL;
use watched_io::{WatchedReader, WatchedWriter};

/// A script that draws a text.
const TEXT: &[u8] =
    b"desk 8 8 0\nwindow plain 0 0 8 8 1 0 \"\"\ndraw 1 text 0 2 srcOr \"AB\"\nimage\n";

/// What it answers in the small font.
const TEXT_ANSWERS: &[u8] =
    b"ok\nok 1\nok\nP1\n8 8\n10010000\n01010000\n00000000\n00000000\n00000000\n00000000\n00000000\n00000000\n";

/// A script of a desk and its screen.
const DESK: &[u8] = b"desk 8 8 0\nimage\n";

/// What that answers, but for the check.
const DESK_ANSWERS: &[u8] =
    b"ok\nP1\n8 8\n10101010\n01010101\n10101010\n01010101\n10101010\n01010101\n10101010\n01010101\n";

/// What a checked run of it answers.
const CHECKED: &[u8] =
    b"ok\nP1\n8 8\n10101010\n01010101\n10101010\n01010101\n10101010\n01010101\n10101010\n01010101\ncheck 0\n";

/// What a raw run of it writes.
const DESK_IMAGE: &[u8] = b"P4\n8 8\n\xAA\x55\xAA\x55\xAA\x55\xAA\x55";

/// A desk, a window on it and the screen: three lines, of which the first ends with the 11th byte, the
/// second with the 39th and the last with the 45th.
const FIRST_WINDOW: &[u8] = b"desk 8 8 0\nwindow plain 1 1 6 6 1 0 \"\"\nimage\n";

/// What that script answers, in 87 bytes.
const FIRST_ANSWERS: &[u8] =
    b"ok\nok 1\nP1\n8 8\n11111111\n10000001\n10000001\n10000001\n10000001\n10000001\n10000001\n11111111\n";

/// A folder in memory. The file `small` has a small font, `desk` the script of a desk, and `broken` breaks at its second
/// read.
#[derive(Drop)]
struct Folder;

impl Opener for Folder {
    type Opened = WatchedReader<Script<'static>>;

    ghost opens = { λ _ _ _. ⊤ };

    fn open(&self, path: &str) -> Result<WatchedReader<Script<'static>>, Refusal> {
        let (rest, reads_left): (&[u8], u32) = if path == "small" {
            (&SMALL, 2)
        } else if path == "desk" {
            (DESK, 2)
        } else if path == "broken" {
            (DESK, 1)
        } else {
            return Err(Refusal::ReadFault);
        };
        Ok(WatchedReader::new(Script {
            rest,
            piece: 4096,
            reads_left,
        }))
    }
}

/// Runs what was chosen, with this standard input and with the answers on the paper. The value says how the run ended, and
/// whether it used the one definition that its stock had.
fn run_here(
    alloc: Global,
    chosen: &Choices<'_>,
    script: &mut Script<'_>,
    paper: &mut Paper,
) -> Result<(Result<(), Refusal>, bool), Fail> {
    let mut stock = Stock::new(alloc);
    let plain: Box<dyn WindowDef> = Box::new(alloc, StdWindow::new(Variation::Plain))?;
    let Ok(()) = stock.windows.add(b"plain", plain) else {
        return Err(Fail::from(Refusal::NoMemory));
    };
    let mut standard = WatchedReader::new(script);
    let mut sink = WatchedWriter::new(paper);
    let outcome = run_chosen(alloc, &Folder, &mut standard, &mut sink, &mut stock, chosen);
    Ok((outcome, stock.windows.take(b"plain").is_err()))
}

/// The path of a script and that of a font, whether the run is raw and whether it is checked; how it ends, how many reads
/// of two are left of standard input, and what is written.
type Case = (
    Option<&'static str>,
    Option<&'static str>,
    bool,
    bool,
    Result<(), Refusal>,
    u32,
    &'static [u8],
);

const CASES: [Case; 12] = [
    (None, Some("small"), false, false, Ok(()), 0, TEXT_ANSWERS),
    (Some("desk"), None, false, false, Ok(()), 2, DESK_ANSWERS),
    (
        Some("desk"),
        Some("small"),
        false,
        false,
        Ok(()),
        2,
        DESK_ANSWERS,
    ),
    (Some("desk"), None, true, false, Ok(()), 2, DESK_IMAGE),
    (Some("desk"), None, false, true, Ok(()), 2, CHECKED),
    (
        None,
        Some("none"),
        false,
        true,
        Err(Refusal::ReadFault),
        2,
        b"",
    ),
    (
        None,
        Some("broken"),
        false,
        true,
        Err(Refusal::ReadFault),
        2,
        b"",
    ),
    (
        None,
        Some("desk"),
        false,
        true,
        Err(Refusal::BadFont),
        2,
        b"",
    ),
    (
        Some("none"),
        None,
        false,
        true,
        Err(Refusal::ReadFault),
        2,
        b"",
    ),
    (
        Some("none"),
        Some("desk"),
        false,
        true,
        Err(Refusal::ReadFault),
        2,
        b"",
    ),
    (
        Some("broken"),
        None,
        false,
        true,
        Err(Refusal::ReadFault),
        2,
        DESK_ANSWERS,
    ),
    (
        Some("broken"),
        Some("desk"),
        false,
        true,
        Err(Refusal::BadFont),
        2,
        b"",
    ),
];

#[test]
fn what_was_chosen_is_run(rt: HostRuntime) -> Result<(), Fail> {
    for (script, font, raw, check, outcome, left, answers) in CASES {
        let chosen = Choices {
            script,
            font,
            raw,
            check,
        };
        let mut standard = Script {
            rest: TEXT,
            piece: 4096,
            reads_left: 2,
        };
        let mut paper = Paper {
            text: Vec::new(rt.alloc()),
            piece: 4096,
            writes_left: 1000,
        };
        // Standard input alone makes a window.
        let ended = run_here(rt.alloc(), &chosen, &mut standard, &mut paper)?;
        assert!(rt; ended == (outcome, left == 0));
        assert!(rt; standard.reads_left == left);
        assert!(rt; paper.text.as_slice() == answers);
    }
    Ok(())
}

#[test]
fn a_definition_is_used_by_the_line_that_takes_it(rt: HostRuntime) -> Result<(), Fail> {
    const READ_FAULT: Result<(), Refusal> = Err(Refusal::ReadFault);
    const WRITE_FAULT: Result<(), Refusal> = Err(Refusal::WriteFault);
    // How many reads of one byte there are, how many writes of three, how the run ends, whether the definition is used, and
    // how many bytes of the answers are written.
    let cases: [(u32, usize, Result<(), Refusal>, bool, usize); 9] = [
        (46, 30, Ok(()), true, 87),
        (0, 30, READ_FAULT, false, 0),
        (11, 30, READ_FAULT, false, 3),
        (38, 30, READ_FAULT, false, 3),
        (39, 30, READ_FAULT, true, 8),
        (45, 30, READ_FAULT, true, 87),
        (46, 0, WRITE_FAULT, false, 0),
        (46, 1, WRITE_FAULT, true, 3),
        (46, 29, WRITE_FAULT, true, 84),
    ];
    let chosen = Choices {
        script: None,
        font: None,
        raw: false,
        check: false,
    };
    for (reads_left, writes_left, outcome, is_used, count) in cases {
        let mut standard = Script {
            rest: FIRST_WINDOW,
            piece: 1,
            reads_left,
        };
        let mut paper = Paper {
            text: Vec::new(rt.alloc()),
            piece: 3,
            writes_left,
        };
        let ended = run_here(rt.alloc(), &chosen, &mut standard, &mut paper)?;
        assert!(rt; ended == (outcome, is_used));
        assert!(rt; paper.text.len() == count && FIRST_ANSWERS.starts_with(&paper.text));
    }
    Ok(())
}

#[test]
fn want_of_memory_for_the_command_line_is_said(rt: HostRuntime) -> Result<(), Fail> {
    let text = format!(in rt.alloc(); "{}", OptionsError::Memory(AllocError))?;
    assert!(rt; text.as_str() == "desk: no memory for the command line\n");
    Ok(())
}
