//! Images in the plain PBM format of Netpbm, P1: a character for each pixel.
//!
//! An image takes no memory: its head, and then each of its rows, is collected in a buffer of a fixed
//! size and goes out with one `send`.
ghost use Rattle.std.specs.Prelude.{◌≡◌, ◌<◌, ◌≤◌, ℕ, false, length, slice_index};
ghost use Rattle.bit_map.specs.Bits.{bit};
ghost use Rattle.bit_map.specs.Patterns.{bit_of};
ghost use Rattle.bit_map.specs.Words.{bit_in};
ghost use Rattle.watched_io.specs.Writes.{Sends};
ghost use Rattle.screen_pbm.specs.Packed.{AreDigitsPut, HasDigits};
ghost use Rattle.screen_pbm.specs.Pbm.{digit_of, row_text, p1};

use crate::head::{height_of, width_of, write_head};
use arrayvec::ArrayVec;
use bit_map::BitMap;
use tb_geom::Refusal;
use watched_io::{Sink, send};

/// The characters of eight pixels, the one at the high bit first. Each bit goes to a byte of its own, where what is not 0
/// becomes 1.
fn digits_of(byte: u8) -> [u8; 8]
    ensures { (j : ℕ) → j < 8 → slice_index result j ≡ digit_of (bit_of byte j) }
{
    let spread = (u64::from(byte) * 0x0101_0101_0101_0101) & 0x0102_0408_1020_4080;
    let ones = ((spread + 0x7F7F_7F7F_7F7F_7F7F) >> 7) & 0x0101_0101_0101_0101;
    (ones + 0x3030_3030_3030_3030).to_le_bytes()
}

/// Puts the characters of eight pixels to their place.
fn put_digits(text: &mut [u8], place: usize, byte: u8)
    requires all { length text.old ≡ 1024 }
    requires place { place < 128 }
    ensures { AreDigitsPut 8 place (bit_of byte) text.old text.new }
{
    text[8 * place..8 * place + 8].copy_from_slice(&digits_of(byte));
}

/// Puts the characters of the 64 pixels of a word to their place.
fn put_word(text: &mut [u8], place: usize, word: u64)
    requires all { length text.old ≡ 1024 }
    requires place { place < 16 }
    ensures { AreDigitsPut 64 place (bit_in word) text.old text.new }
{
    let bytes = word.to_be_bytes();
    for j in 0..8 {
        put_digits(text, 8 * place + j, bytes[j]);
    }
}

/// The characters of the words of a row, one after the other.
fn digits_from(words: &[u64]) -> [u8; 1024]
    requires { length words.now ≤ 16 }
    ensures { HasDigits result words.now (length words.now) }
{
    let mut text = [0; 1024];
    for (place, word) in words.iter().enumerate() {
        put_word(&mut text, place, *word);
    }
    text
}

/// The lines of a row. 1024 columns take 1024 characters and 15 line ends.
fn row_of(map: &BitMap, row: u16) -> ArrayVec<u8, 1039>
    requires row { row < map.now.height }
    requires width { map.now.width ≤ 1024 }
    ensures { result.items ≡ row_text map.now.width (bit map.now) row }
{
    let width = usize::from(width_of(map));
    let digits = digits_from(map.row(row));
    let mut text = ArrayVec::new();
    for line in 0..width.div_ceil(70) {
        let from = 70 * line;
        let end = width.min(from + 70);
        text.try_extend_from_slice(&digits[from..end]).unwrap();
        text.push(b'\n');
    }
    text
}

/// Writes a map as a P1 image; black is 1. WriteFault exactly where a write fails; then a front of the
/// image was written.
pub fn write_p1<S: Sink>(sink: &mut S, map: &BitMap) -> Result<(), Refusal>
    requires unfailed { (S.output sink.old).has_failed ≡ false }
    requires width { map.now.width ≤ 1024 }
    ensures { Sends (S.output sink.old) (S.output sink.new) result (p1 map.now.width map.now.height (bit map.now)) }
{
    let height = height_of(map);
    write_head(sink, b"P1", width_of(map), height)?;
    for row in 0..height {
        let text = row_of(map, row);
        send(sink, text.as_slice())?;
    }
    Ok(())
}
