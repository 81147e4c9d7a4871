//! The lines of a text.
ghost use Rattle.std.specs.Prelude.{◌≡◌, ◌≤◌, ◌<◌, ◌+◌, ◌-◌, length, vec_capacity};
ghost use Rattle.text_lines.specs.Ends.{line_length};
ghost use Rattle.text_lines.specs.Lines.{goes_on, text_lines, line_of};

use crate::ends::{RETURN, line_length};
use crate::line::TextLine;
use crate::widths::ByteWidths;

/// How many bytes a text has at most.
pub const MOST_TEXT: usize = 32000;

/// Whether another line follows one of so many bytes, where a text goes on so from its beginning.
fn goes_on(bytes: usize, rest: &[u8]) -> bool
    requires { bytes ≤ length rest.now }
    ensures { result ≡ goes_on bytes rest.now }
{
    bytes < rest.len() || bytes > 0 && rest[bytes - 1] == RETURN
}

/// Puts the lines of a text of at most 32000 bytes in place of others. There has to be room for one line more than
/// the text has bytes. The bytes of a line have to be at most `room` wide together, in pixels; without `room` only
/// returns end lines.
pub fn break_text(lines: &mut Vec<TextLine>, widths: &ByteWidths, room: Option<u16>, text: &[u8])
    requires short { length text.now ≤ 32000 }
    requires room { length text.now + 1 ≤ vec_capacity lines.old }
    ensures lines { lines.new.items ≡ text_lines widths.now room text.now }
    ensures capacity { vec_capacity lines.old ≤ vec_capacity lines.new }
{
    lines.clear();
    let mut start = 0;
    loop {
        let rest = &text[start..];
        let bytes = line_length(widths, room, rest);
        let line = TextLine {
            start: start as u16,
            end: (start + bytes) as u16,
        };
        let _ = lines.push(line);
        if !goes_on(bytes, rest) {
            return;
        }
        start += bytes;
    }
}

/// The number of the last line that begins at an offset or before, from 0 on; 0 where none does.
#[tactic(auto, unfolding(crate::specs::Lines::line_of))]
pub fn line_of(lines: &[TextLine], offset: usize) -> usize
    ensures value { result ≡ line_of lines.now offset }
    ensures within { result ≤ length lines.now - 1 }
{
    let begun = lines
        .iter()
        .filter(|line| usize::from(line.start) <= offset)
        .count();
    begun.saturating_sub(1)
}
