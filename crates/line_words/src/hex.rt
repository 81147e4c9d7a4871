//! Bytes written as hex digits.
ghost use Rattle.std.specs.Prelude.{◌≡◌, ◌/◌, ◌≤◌, length, take, true, if◌then◌else◌, Some, None};
ghost use Rattle.std.specs.Char.{is_ascii_hexdigit};
ghost use Rattle.std.specs.List.{list_all};
ghost use Rattle.line_words.specs.Hex.{hex_digit_value, hex_value, hex_of, is_hex_text};

use crate::piece::Piece;
use tb_geom::BytesRef;

/// The bytes that hex digits stand for, two digits each; None of other words. They lie where their
/// digits were.
pub(crate) fn hex_bytes<'a>(digits: Piece<'a>) -> Option<BytesRef<'a>>
    ensures { result ≡ hex_of digits.entry }
{
    if !is_hex_text(digits.as_slice()) {
        return None;
    }
    let bytes = digits.into_slice();
    decode(bytes);
    let count = bytes.len() / 2;
    Some(BytesRef::new(&bytes[..count]))
}

/// Whether a word is an even count of hex digits, at least two.
fn is_hex_text(word: &[u8]) -> bool
    ensures { result ≡ is_hex_text word.now }
{
    word.len() >= 2 && (word.len() % 2 == 0 && are_hex_digits(word))
}

/// Whether all bytes are hex digits.
fn are_hex_digits(bytes: &[u8]) -> bool
    ensures { result ≡ list_all is_ascii_hexdigit bytes.now }
{
    bytes.iter().all(|b| b.is_ascii_hexdigit())
}

/// Puts the byte of each two digits into the first half of the digits. The other half is then anything.
fn decode(digits: &mut [u8])
    ensures { take (length digits.old / 2) digits.new ≡ hex_value digits.old }
{
    for at in 0..digits.len() / 2 {
        digits[at] = digit_value(digits[2 * at]) * 16 + digit_value(digits[2 * at + 1]);
    }
}

/// What a hex digit stands for; of another byte, anything below 16.
fn digit_value(digit: u8) -> u8
    ensures value { result ≡ hex_digit_value digit }
    ensures below { result ≤ 15 }
{
    match digit {
        b'0'..=b'9' => digit - b'0',
        b'A'..=b'F' => digit - b'A' + 10,
        b'a'..=b'f' => digit - b'a' + 10,
        _ => 0,
    }
}
