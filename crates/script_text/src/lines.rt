//! The lines of a script: bytes are held until a newline ends them, and then say a command, a refusal
//! or nothing.
ghost use Rattle.std.specs.Prelude.{◌≡◌, Some, [], option_map};
ghost use Rattle.std.specs.Str.Lines.{strip_carriage_return};
ghost use Rattle.script_text.specs.Held.{pushed, said_held, said_last};
ghost use Rattle.script_text.specs.Lines.{is_skipped, said};

use crate::{Command, parse};
use arrayvec::ArrayVec;
use line_words::is_plain;
use std::marker::Model;
use tb_geom::Refusal;

/// The longest line, in bytes, without its ending.
const LONGEST_LINE: usize = 1024;

/// What has come of a line: its bytes, as long as there are no more than the longest line and a
/// return. Of a longer line only that it is too long.
#[derive(Drop)]
pub struct LineBuffer {
    bytes: ArrayVec<u8, 1025>,
    is_over: bool,
}

impl Model for LineBuffer {
    ghost use Rattle.std.specs.Prelude.{List, ℕ, Option, Some, None, if◌then◌else◌};

    ghost Value = { Option (List ℕ) };

    ghost view = { λ b. if b.is_over then None else Some b.bytes.items };
}

impl LineBuffer {
    /// Nothing of a line.
    pub fn new() -> LineBuffer
        ensures { result ≡ Some [] }
    {
        LineBuffer {
            bytes: ArrayVec::new(),
            is_over: false,
        }
    }

    /// Forgets the line.
    pub fn clear(&mut self)
        ensures { self.new ≡ Some [] }
    {
        self.bytes.clear();
        self.is_over = false;
    }

    /// Takes one more byte.
    pub fn push(&mut self, byte: u8)
        ensures { self.new ≡ pushed self.old byte }
    {
        if self.bytes.is_full() {
            self.is_over = true;
        } else {
            self.bytes.push(byte);
        }
    }

    /// The bytes, unless they were too many.
    fn bytes(&mut self) -> Option<&mut [u8]>
        ensures { option_map (λ s. s.now) result ≡ self.old }
    {
        if self.is_over {
            None
        } else {
            Some(self.bytes.as_mut_slice())
        }
    }

    /// What the line says that a newline ends here, in a script of this version; None where it is skipped. A return before the
    /// newline belongs to the ending. The bytes are used up: what is held then is forgotten by `clear`
    /// alone.
    pub fn said(&mut self, version: i32) -> Option<Result<Command<'_>, Refusal>>
        ensures { result ≡ said_held version self.old }
    {
        match self.bytes() {
            Some(bytes) => line_says(version, without_return(bytes)),
            None => Some(Err(Refusal::TooLong)),
        }
    }

    /// What the last line says in a script of this version, which the input's end ends; None where it is skipped, or there is
    /// none. A return is one of its bytes. The bytes are used up.
    #[tactic(auto, using(crate::proofs::Ends::said_at_end))]
    pub fn said_last(&mut self, version: i32) -> Option<Result<Command<'_>, Refusal>>
        ensures { result ≡ said_last version self.old }
    {
        match self.bytes() {
            Some(bytes) => line_says(version, bytes),
            None => Some(Err(Refusal::TooLong)),
        }
    }
}

/// The line without the return at its end.
fn without_return(line: &mut [u8]) -> &mut [u8]
    ensures { result.now ≡ strip_carriage_return line.old }
{
    let length = line
        .strip_suffix(b"\r")
        .map_or(line.len(), |rest| rest.len());
    &mut line[..length]
}

/// What a line says in a script of this version; None where it is skipped.
#[tactic(auto, unfolding(crate::specs::Lines::said))]
fn line_says(version: i32, line: &mut [u8]) -> Option<Result<Command<'_>, Refusal>>
    ensures { result ≡ said version line.old }
{
    if line.len() > LONGEST_LINE {
        Some(Err(Refusal::TooLong))
    } else if is_skipped(line) {
        None
    } else if is_plain(line) {
        Some(parse(version, line))
    } else {
        Some(Err(Refusal::BadSyntax))
    }
}

/// Whether the line is empty or a comment.
fn is_skipped(line: &[u8]) -> bool
    ensures { result ≡ is_skipped line.now }
{
    line.is_empty() || line.starts_with(b"#")
}
