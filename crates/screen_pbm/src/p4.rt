//! Images in the raw PBM format of Netpbm, P4: a bit for each pixel, eight to a byte, the high bit left.
//!
//! An image takes no memory: its head is collected in a buffer of a fixed size and goes out with one `send`, and so are
//! then as many rows at a time as 4,096 bytes hold.
ghost use Rattle.std.specs.Prelude.{◌≡◌, ◌+◌, ◌*◌, ◌/◌, ◌<◌, ◌≤◌, false, length, take};
ghost use Rattle.std.specs.List.{flat_map, range_with_len};
ghost use Rattle.bit_map.specs.Bits.{bit};
ghost use Rattle.watched_io.specs.Writes.{Sends};
ghost use Rattle.screen_pbm.specs.Pbm.{row_bytes, p4};
ghost use Rattle.screen_pbm.specs.Packed.{HasBits, IsPut};

use crate::head::{height_of, width_of, write_head};
use bit_map::BitMap;
use tb_geom::Refusal;
use watched_io::{Sink, send};

/// Puts the bytes of a word, the high one first, to their place among those of a row.
fn put_word(bytes: &mut [u8], place: usize, word: u64)
    requires all { length bytes.old ≡ 128 }
    requires place { place < 16 }
    ensures { IsPut place word bytes.old bytes.new }
{
    bytes[8 * place..8 * place + 8].copy_from_slice(&word.to_be_bytes());
}

/// Puts the bytes of a row's words. 1024 columns take 128.
fn put_words(bytes: &mut [u8], words: &[u64])
    requires all { length bytes.old ≡ 128 }
    requires few { length words.now ≤ 16 }
    ensures all { length bytes.new ≡ 128 }
    ensures bits { HasBits bytes.new words.now (length words.now) }
{
    for (place, word) in words.iter().enumerate() {
        put_word(bytes, place, *word);
    }
}

/// Puts the bytes of a row to the front of 128. The bits past the last column become white, and what the bytes behind
/// them become does not matter.
fn put_row(bytes: &mut [u8], map: &BitMap, row: u16)
    requires all { length bytes.old ≡ 128 }
    requires row { row < map.now.height }
    requires width { map.now.width ≤ 1024 }
    ensures all { length bytes.new ≡ 128 }
    ensures row { take ((map.now.width + 7) / 8) bytes.new ≡ row_bytes map.now.width (bit map.now) row }
{
    let width = usize::from(width_of(map));
    put_words(bytes, map.row(row));
    if width % 8 > 0 {
        bytes[width / 8] &= 255 << (8 - width % 8);
    }
}

/// Puts the bytes of so many rows from one on, one row after the other. Behind them there is room for the longest row.
fn put_rows(bytes: &mut [u8], map: &BitMap, first: u16, count: u16)
    requires rows { first + count ≤ map.now.height }
    requires near { first + count < 65536 }
    requires width { map.now.width ≤ 1024 }
    requires room { (map.now.width + 7) / 8 * count + 128 ≤ length bytes.old }
    ensures all { length bytes.new ≡ length bytes.old }
    ensures rows { take ((map.now.width + 7) / 8 * count) bytes.new
        ≡ flat_map (row_bytes map.now.width (bit map.now)) (range_with_len first count) }
{
    let stride = usize::from(width_of(map).div_ceil(8));
    for k in 0..count {
        let at = stride * usize::from(k);
        put_row(&mut bytes[at..at + 128], map, first + k);
    }
}

/// How many rows of so many bytes go out together.
fn rows_together(stride: usize) -> u16
    requires { stride ≤ 128 }
    ensures some { 0 < result }
    ensures room { stride * result ≤ 4096 }
{
    (4096 / stride.max(1)) as u16
}

/// Writes a map as a P4 image; black is 1. WriteFault exactly where a write fails; then a front of the
/// image was written.
pub fn write_p4<S: Sink>(sink: &mut S, map: &BitMap) -> Result<(), Refusal>
    requires unfailed { (S.output sink.old).has_failed ≡ false }
    requires width { map.now.width ≤ 1024 }
    ensures { Sends (S.output sink.old) (S.output sink.new) result (p4 map.now.width map.now.height (bit map.now)) }
{
    let (width, height) = (width_of(map), height_of(map));
    write_head(sink, b"P4", width, height)?;
    let stride = usize::from(width.div_ceil(8));
    let together = rows_together(stride);
    let mut bytes = [0; 4224];
    let mut row = 0;
    while row < height {
        let count = together.min(height - row);
        put_rows(&mut bytes, map, row, count);
        send(sink, &bytes[..stride * usize::from(count)])?;
        row += count;
    }
    Ok(())
}
