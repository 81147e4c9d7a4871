//! Bytes of lines and of words.
ghost use Rattle.std.specs.Prelude.{◌≡◌, ◌≤◌, ◌*◌, ◌-ℤ◌, ◌≤ℤ◌, pos, negsuc, length, slice_range};
ghost use Rattle.std.specs.List.{prefix_len, suffix_len};
ghost use Rattle.text_lines.specs.Widths.{bytes_width};
ghost use Rattle.text_record.specs.Places.{without_return, inked_bytes, passed_bytes, is_in_word};

use text_lines::{ByteWidths, LAST_BLANK, RETURN, byte_width};

/// The bytes from one offset up to another, as far as there are any.
pub(crate) fn bytes_between(bytes: &[u8], start: usize, end: usize) -> &[u8]
    requires order { start ≤ end }
    requires within { start ≤ length bytes.now }
    ensures bytes { result.now ≡ slice_range bytes.now start end }
    ensures within { length result.now ≤ length bytes.now }
{
    &bytes[start..end.min(bytes.len())]
}

/// Bytes without a return at their end.
pub(crate) fn without_return(bytes: &[u8]) -> &[u8]
    ensures bytes { result.now ≡ without_return bytes.now }
    ensures within { length result.now ≤ length bytes.now }
{
    if !bytes.is_empty() && bytes[bytes.len() - 1] == RETURN {
        &bytes[..bytes.len() - 1]
    } else {
        bytes
    }
}

/// How wide bytes are together, in pixels, without the blanks at their end.
pub(crate) fn inked_width(widths: &ByteWidths, bytes: &[u8]) -> u32
    requires { length bytes.now ≤ 65535 }
    ensures value { result ≡ bytes_width widths.now (inked_bytes bytes.now) }
    ensures small { result ≤ 255 * length bytes.now }
{
    let mut wide = 0;
    let mut inked = 0;
    for byte in bytes {
        wide += byte_width(widths, *byte);
        if *byte > LAST_BLANK {
            inked = wide;
        }
    }
    inked
}

/// How many bytes a point passes that lies `ahead` columns right of where the first begins. A byte is passed where no more
/// than half of it lies right of the point.
pub(crate) fn passed_bytes(widths: &ByteWidths, ahead: i64, bytes: &[u8]) -> usize
    requires from { negsuc 1099511627776 ≤ℤ ahead }
    requires to { ahead ≤ℤ pos 1099511627776 }
    requires short { length bytes.now ≤ 65535 }
    ensures value { result ≡ passed_bytes widths.now ahead bytes.now }
    ensures within { result ≤ length bytes.now }
{
    let mut left = ahead;
    let mut passed = 0;
    for byte in bytes {
        let wide = i64::from(byte_width(widths, *byte));
        if left + left < wide {
            return passed;
        }
        left -= wide;
        passed += 1;
    }
    passed
}

/// Whether a byte is one of a word.
fn is_in_word(byte: u8) -> bool
    ensures { result ≡ is_in_word byte }
{
    byte > LAST_BLANK
}

/// How many bytes of a word a text begins with.
pub(crate) fn word_ahead(bytes: &[u8]) -> usize
    ensures value { result ≡ prefix_len is_in_word bytes.now }
    ensures within { result ≤ length bytes.now }
{
    bytes.iter().take_while(|byte| is_in_word(**byte)).count()
}

/// How many bytes of a word a text ends with.
pub(crate) fn word_behind(bytes: &[u8]) -> usize
    ensures value { result ≡ suffix_len is_in_word bytes.now }
    ensures within { result ≤ length bytes.now }
{
    bytes
        .iter()
        .rev()
        .take_while(|byte| is_in_word(**byte))
        .count()
}
