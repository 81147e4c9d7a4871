//! The lines of a call that was done, of a number, and of bytes.
ghost use Rattle.std.specs.Prelude.{◌≡◌, false};
ghost use Rattle.std.specs.List.{list_all};
ghost use Rattle.line_words.specs.Replies.{bytes_text, done_text, flag_number, flag_text, number_text};
ghost use Rattle.line_words.specs.Replies.{is_text_byte, quoted_text};
ghost use Rattle.watched_io.specs.Writes.{Sends};

use crate::write_region;
use itoa::Buffer;
use tb_geom::Refusal;
use watched_io::{Sink, send, send_all};

/// Writes the line of what was done and has no value: `ok`.
pub fn write_done<S: Sink>(sink: &mut S) -> Result<(), Refusal>
    requires { (S.output sink.old).has_failed ≡ false }
    ensures { Sends (S.output sink.old) (S.output sink.new) result done_text }
{
    send(sink, b"ok\n")
}

/// Writes the line of a number.
pub fn write_number<S: Sink>(sink: &mut S, value: u64) -> Result<(), Refusal>
    requires { (S.output sink.old).has_failed ≡ false }
    ensures { Sends (S.output sink.old) (S.output sink.new) result (number_text value) }
{
    let mut number = Buffer::new();
    let pieces: [&[u8]; 3] = [b"ok ", number.format(value).as_bytes(), b"\n"];
    send_all(sink, &pieces)
}

/// Writes the line of bytes: a text in quotes where each byte may stand in one, and else hex digits with capital letters. The
/// bytes go out as they are or by parts, and take no memory.
pub fn write_bytes<S: Sink>(sink: &mut S, bytes: &[u8]) -> Result<(), Refusal>
    requires { (S.output sink.old).has_failed ≡ false }
    ensures { Sends (S.output sink.old) (S.output sink.new) result (bytes_text bytes.now) }
{
    if are_text_bytes(bytes) {
        write_quoted(sink, bytes)
    } else {
        write_region(sink, bytes)
    }
}

/// Writes the line of a text in quotes.
fn write_quoted<S: Sink>(sink: &mut S, bytes: &[u8]) -> Result<(), Refusal>
    requires { (S.output sink.old).has_failed ≡ false }
    ensures { Sends (S.output sink.old) (S.output sink.new) result (quoted_text bytes.now) }
{
    let pieces: [&[u8]; 3] = [b"ok \"", bytes, b"\"\n"];
    send_all(sink, &pieces)
}

/// Whether all bytes are such as a text between two quotes may have: 0x20..=0x7E other than the quote.
fn are_text_bytes(bytes: &[u8]) -> bool
    ensures { result ≡ list_all is_text_byte bytes.now }
{
    bytes.iter().all(|b| b' ' <= *b && *b <= b'~' && *b != b'"')
}

/// A flag as a line has it.
pub fn flag_text(flag: bool) -> &'static [u8]
    ensures { result.now ≡ flag_text flag }
{
    if flag { b"1" } else { b"0" }
}

/// A flag as a number.
pub fn flag_number(flag: bool) -> u64
    ensures { result ≡ flag_number flag }
{
    if flag { 1 } else { 0 }
}
