//! The line of a region: its bytes, as hex digits with capital letters.
//!
//! A region may have some 32,000 bytes. So their digits go out by parts, and take no memory.
ghost use Rattle.std.specs.Prelude.{◌≡◌, ◌≤◌, ◌<◌, length, false};
ghost use Rattle.line_words.specs.Hex.{hex_digit, hex_text};
ghost use Rattle.line_words.specs.Replies.{region_text};
ghost use Rattle.watched_io.specs.Writes.{Sends};

use arrayvec::ArrayVec;
use tb_geom::Refusal;
use watched_io::{Sink, send};

/// As many bytes as go out together.
const PART: usize = 256;

/// Writes the line of a region, from its bytes.
pub fn write_region<S: Sink>(sink: &mut S, bytes: &[u8]) -> Result<(), Refusal>
    requires { (S.output sink.old).has_failed ≡ false }
    ensures { Sends (S.output sink.old) (S.output sink.new) result (region_text bytes.now) }
{
    send(sink, b"ok ")?;
    write_digits(sink, bytes)?;
    send(sink, b"\n")
}

/// Writes the digits of bytes.
fn write_digits<S: Sink>(sink: &mut S, bytes: &[u8]) -> Result<(), Refusal>
    requires { (S.output sink.old).has_failed ≡ false }
    ensures { Sends (S.output sink.old) (S.output sink.new) result (hex_text 65 bytes.now) }
{
    let mut rest = bytes;
    while !rest.is_empty() {
        let (part, others) = rest.split_at(rest.len().min(PART));
        let digits = digits_of(part);
        send(sink, digits.as_slice())?;
        rest = others;
    }
    Ok(())
}

/// The digits of a part.
fn digits_of(part: &[u8]) -> ArrayVec<u8, 512>
    requires { length part.now ≤ 256 }
    ensures { result.items ≡ hex_text 65 part.now }
{
    let mut digits = ArrayVec::new();
    for byte in part {
        digits.push(digit(*byte / 16));
        digits.push(digit(*byte % 16));
    }
    digits
}

/// The digit of a number below 16.
fn digit(value: u8) -> u8
    requires { value < 16 }
    ensures { result ≡ hex_digit 65 value }
{
    if value < 10 {
        b'0' + value
    } else {
        b'A' + (value - 10)
    }
}
