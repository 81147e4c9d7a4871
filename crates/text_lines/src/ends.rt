//! Where a line ends.
ghost use Rattle.std.specs.Prelude.{◌≡◌, ◌≤◌, ◌<◌, length};
ghost use Rattle.text_lines.specs.Ends.{hang_length, line_length};

use crate::widths::{ByteWidths, byte_width, fits};

/// The byte that ends a line for good.
pub const RETURN: u8 = 13;

/// The last byte that is no part of a word.
pub const LAST_BLANK: u8 = 32;

/// How many bytes the blanks have that a text begins with, with a return behind them.
fn hang(text: &[u8]) -> usize
    ensures value { result ≡ hang_length text.now }
    ensures within { result ≤ length text.now }
{
    let mut done = 0;
    for character in text {
        if *character == RETURN {
            return done + 1;
        }
        if *character > LAST_BLANK {
            return done;
        }
        done += 1;
    }
    done
}

/// How many bytes the first line of a text of at most 65535 bytes has. Its bytes have to be at most `room` wide
/// together, in pixels; without `room` only returns end lines. A line has a byte where the text has one.
#[tactic(auto, unfolding(crate::specs::Ends::line_length))]
pub fn line_length(widths: &ByteWidths, room: Option<u16>, text: &[u8]) -> usize
    requires { length text.now ≤ 65535 }
    ensures value { result ≡ line_length widths.now room text.now }
    ensures within { result ≤ length text.now }
    ensures onward { 0 < length text.now → 0 < result }
{
    let mut wide = 0;
    let mut done = 0;
    let mut last = 0;
    for character in text {
        if *character == RETURN {
            return done + 1;
        }
        let next = wide + byte_width(widths, *character);
        if fits(room, next) || done == 0 {
            wide = next;
            done += 1;
            if *character <= LAST_BLANK {
                last = done;
            }
        } else if *character <= LAST_BLANK {
            return done + hang(&text[done..]);
        } else if last == 0 {
            return done;
        } else {
            return last;
        }
    }
    done
}
