//! Tiles: what a text has of 512 columns by 16 rows of pixels, as words of 64 bits.
ghost use Rattle.std.specs.Prelude.{◌≡◌, ◌≢◌, ◌||◌, false, ℕ, ℤ, ◌+◌, ◌*◌, ◌/◌, ◌%◌, ◌<◌, ◌≤◌, ◌≤ℤ◌, ◌<ℤ◌, ◌+ℤ◌, pos};
ghost use Rattle.std.specs.Prelude.{negsuc, ◌-ℤ◌, length};
ghost use Rattle.std.specs.Int.{int_min, int_max};
ghost use Rattle.bit_map.specs.Words.{bit_in, place_bit};
ghost use Rattle.strike_font.specs.Record.{IsFont, strike_words};
ghost use Rattle.strike_font.specs.Text.{glyph_bit, glyph_pixel, glyphs_pixel, IsSized};
ghost use Rattle.strike_font.specs.Tiles.{tile_bit, IsTile};

use crate::glyph::{
    Glyph, column_of, column_read, glyph_of, glyph_rect, narrow_bits, narrow_own, row_bits, row_of,
    row_words_of,
};
use crate::record::{signed, strike_words, word};
use crate::text::{further, right_of};
use bit_map::{bit_in, held, word_from};
use std::marker::Model;

/// Pixels of 512 columns by 16 rows, the top left one 0 0. Each row takes eight words, the high bit left.
/// Contracts see the words.
#[derive(Drop)]
pub struct Tile {
    words: [u64; 128],
}

impl Model for Tile {
    ghost use Rattle.std.specs.Prelude.{ℕ, List};

    ghost Value = { List ℕ };

    ghost view = { λ t. t.words };
}

impl Tile {
    /// What a text has from `x` columns right of where its pen starts and `y` rows below the baseline on, and how far
    /// right of there it may reach: it has no pixel in that column and right of it.
    pub(crate) fn of_text(bytes: &[u8], text: &[u8], x: i64, y: i64) -> (Tile, i32)
        requires font { IsFont bytes.now }
        requires short { length text.now ≤ 65535 }
        requires x_near { IsSized 33 x }
        requires y_near { IsSized 33 y }
        ensures tile { IsTile bytes.now text.now x y result.0 }
        ensures reach { (h v : ℤ) → result.1 ≤ℤ h → glyphs_pixel bytes.now text.now 0 h v ≡ false }
    {
        let mut words = [0; 128];
        let reach = put_text(&mut words, bytes, text, x, y);
        (Tile { words }, reach)
    }

    /// Whether the tile has the pixel in a column and a row; it has none outside its own.
    pub fn bit(&self, x: i64, y: i64) -> bool
        ensures { result ≡ tile_bit self.now x y }
    {
        bit_in(self.word(x, y), 0)
    }

    /// Which of 64 pixels of a row the tile has, the first of them in the column `x` and at the high bit;
    /// it has none outside its own columns and rows.
    pub fn word(&self, x: i64, y: i64) -> u64
        ensures { (k : ℕ) → k < 64 → bit_in result k ≡ tile_bit self.now (x +ℤ pos k) y }
    {
        if y < 0 || 16 <= y || x <= -64 || 512 <= x {
            return 0;
        }
        let row = y as usize;
        if x < 0 {
            self.words[8 * row] >> x.unsigned_abs()
        } else {
            word_from(&self.words, 512 * row + x as usize) & held(512, x as i32)
        }
    }
}

/// Puts a text over the pixels of a tile, which begins `x` columns right of where the pen starts and `y`
/// rows below the baseline. It tells how far right of there the text may reach.
fn put_text(words: &mut [u64; 128], bytes: &[u8], text: &[u8], x: i64, y: i64) -> i32
    requires font { IsFont bytes.now }
    requires short { length text.now ≤ 65535 }
    requires x_near { IsSized 33 x }
    requires y_near { IsSized 33 y }
    ensures reach { (h v : ℤ) → result ≤ℤ h → glyphs_pixel bytes.now text.now 0 h v ≡ false }
    ensures put { (n : ℕ) → n < 8192 → place_bit words.new n ≡ (place_bit words.old n
        || glyphs_pixel bytes.now text.now 0 (x +ℤ pos (n % 512)) (y +ℤ pos (n / 512))) }
{
    let mut across = 0;
    let mut right = 0;
    for character in text {
        let glyph = glyph_of(bytes, *character);
        put_glyph(words, bytes, glyph, right_of(x, across), y);
        right = further(right, glyph_rect(bytes, glyph, across).right);
        across += u32::from(glyph.width);
    }
    right
}

/// Puts a glyph over the pixels of a tile, which begins `x` columns right of the pen and `y` rows below
/// the baseline.
fn put_glyph(words: &mut [u64; 128], bytes: &[u8], glyph: Glyph, x: i64, y: i64)
    requires font { IsFont bytes.now }
    requires x_near { IsSized 34 x }
    requires y_near { IsSized 33 y }
    ensures { (n : ℕ) → n < 8192 → place_bit words.new n ≡ (place_bit words.old n
        || glyph_pixel bytes.now glyph (x +ℤ pos (n % 512)) (y +ℤ pos (n / 512))) }
{
    let column = column_of(x, signed(word(bytes, 4)), glyph.offset);
    let row = row_of(y, word(bytes, 9));
    put_columns(words, bytes, glyph, column, row);
}

/// Puts a glyph over the pixels of a tile, which begins in a column and a row of the glyph.
fn put_columns(words: &mut [u64; 128], bytes: &[u8], glyph: Glyph, column: i64, row: i64)
    requires font { IsFont bytes.now }
    requires column_near { IsSized 35 column }
    requires row_near { IsSized 34 row }
    ensures { (n : ℕ) → n < 8192 → place_bit words.new n ≡ (place_bit words.old n
        || glyph_bit bytes.now glyph (column +ℤ pos (n % 512)) (row +ℤ pos (n / 512))) }
{
    for at in first_word(column)..end_word(column, glyph.columns) {
        put_column(words, at, bytes, glyph, column, row);
    }
}

/// How far a number lies below another, at most `limit`, and 0 where it lies above.
fn below(x: i64, high: i64, limit: i64) -> usize
    requires x_near { IsSized 35 x }
    requires high_near { IsSized 35 high }
    requires limit_small { (pos 0 ≤ℤ limit) × (limit ≤ℤ pos 512) }
    ensures { pos result ≡ int_max (pos 0) (int_min (high -ℤ x) limit) }
{
    (high - x).clamp(0, limit) as usize
}

/// The first word of a tile's row with columns of a glyph, where the row begins in a column of it.
fn first_word(column: i64) -> usize
    requires { IsSized 35 column }
    ensures within { result ≤ 8 }
    ensures before { (at : ℕ) → at < result → (column +ℤ pos (64 * at)) ≤ℤ negsuc 63 }
    ensures after { (at : ℕ) → at < 8 → result ≤ at → negsuc 63 <ℤ (column +ℤ pos (64 * at)) }
{
    below(column, 0, 512) / 64
}

/// The word after the last one of a tile's row with columns of a glyph.
fn end_word(column: i64, columns: u16) -> usize
    requires { IsSized 35 column }
    ensures within { result ≤ 8 }
    ensures before { (at : ℕ) → at < result → (column +ℤ pos (64 * at)) <ℤ pos columns }
    ensures after { (at : ℕ) → at < 8 → result ≤ at → pos columns ≤ℤ (column +ℤ pos (64 * at)) }
{
    (below(column, i64::from(columns), 512) + 63) / 64
}

/// The first row of a tile with a row of a glyph, where the tile begins in a row of it.
fn first_row(row: i64) -> usize
    requires { IsSized 34 row }
    ensures within { result ≤ 16 }
    ensures before { (down : ℕ) → down < result → (row +ℤ pos down) <ℤ pos 0 }
    ensures after { (down : ℕ) → down < 16 → result ≤ down → pos 0 ≤ℤ (row +ℤ pos down) }
{
    below(row, 0, 16)
}

/// The row after the last one of a tile with a row of a glyph.
fn end_row(row: i64, height: u16) -> usize
    requires { IsSized 34 row }
    ensures within { result ≤ 16 }
    ensures before { (down : ℕ) → down < result → (row +ℤ pos down) <ℤ pos height }
    ensures after { (down : ℕ) → down < 16 → result ≤ down → pos height ≤ℤ (row +ℤ pos down) }
{
    below(row, i64::from(height), 16)
}

/// Puts 64 columns of a glyph over those of one word of each row of a tile, which begins in a column and
/// a row of the glyph.
fn put_column(words: &mut [u64; 128], at: usize, bytes: &[u8], glyph: Glyph, column: i64, row: i64)
    requires font { IsFont bytes.now }
    requires at_in { at < 8 }
    requires column_near { IsSized 35 column }
    requires row_near { IsSized 34 row }
    requires start_low { negsuc 63 <ℤ (column +ℤ pos (64 * at)) }
    requires start_high { (column +ℤ pos (64 * at)) <ℤ pos 65536 }
    ensures here { (n : ℕ) → n < 8192 → n / 64 % 8 ≡ at
        → place_bit words.new n ≡ (place_bit words.old n || glyph_bit bytes.now glyph (column +ℤ pos (n % 512))
        (row +ℤ pos (n / 512))) }
    ensures elsewhere { (n : ℕ) → n / 64 % 8 ≢ at → place_bit words.new n ≡ place_bit words.old n }
{
    let read = column_read(glyph.first, column_at(column, at));
    if glyph.columns <= 57 && 2 * strike_words(bytes) + read / 8 + 8 <= bytes.len() {
        put_narrow(words, at, bytes, glyph, column, row, read);
    } else {
        put_wide(words, at, bytes, glyph, column, row);
    }
}

/// Does what `put_column` does for a glyph of at most 57 columns, where eight bytes of each row have those that are
/// put down, from the column of the strike `read` on.
fn put_narrow(
    words: &mut [u64; 128],
    at: usize,
    bytes: &[u8],
    glyph: Glyph,
    column: i64,
    row: i64,
    read: usize,
)
    requires font { IsFont bytes.now }
    requires at_in { at < 8 }
    requires column_near { IsSized 35 column }
    requires row_near { IsSized 34 row }
    requires start_low { negsuc 63 <ℤ (column +ℤ pos (64 * at)) }
    requires start_high { (column +ℤ pos (64 * at)) <ℤ pos 65536 }
    requires narrow { glyph.columns ≤ 57 }
    requires read { pos read ≡ pos glyph.first +ℤ int_max (pos 0) (column +ℤ pos (64 * at)) }
    requires within { 2 * strike_words bytes.now + read / 8 + 8 ≤ length bytes.now }
    ensures here { (n : ℕ) → n < 8192 → n / 64 % 8 ≡ at
        → place_bit words.new n ≡ (place_bit words.old n || glyph_bit bytes.now glyph (column +ℤ pos (n % 512))
        (row +ℤ pos (n / 512))) }
    ensures elsewhere { (n : ℕ) → n / 64 % 8 ≢ at → place_bit words.new n ≡ place_bit words.old n }
{
    let start = column_at(column, at);
    let own = narrow_own(glyph.columns, start);
    let row_words = row_words_of(bytes);
    let height = word(bytes, 7);
    for down in first_row(row)..end_row(row, height) {
        let there = row_at(row, down);
        words[8 * down + at] |= narrow_bits(bytes, row_words, own, glyph, start, read, there);
    }
}

/// Does what `put_column` does for any glyph.
fn put_wide(words: &mut [u64; 128], at: usize, bytes: &[u8], glyph: Glyph, column: i64, row: i64)
    requires font { IsFont bytes.now }
    requires at_in { at < 8 }
    requires column_near { IsSized 35 column }
    requires row_near { IsSized 34 row }
    requires start_low { negsuc 63 <ℤ (column +ℤ pos (64 * at)) }
    requires start_high { (column +ℤ pos (64 * at)) <ℤ pos 65536 }
    ensures here { (n : ℕ) → n < 8192 → n / 64 % 8 ≡ at
        → place_bit words.new n ≡ (place_bit words.old n || glyph_bit bytes.now glyph (column +ℤ pos (n % 512))
        (row +ℤ pos (n / 512))) }
    ensures elsewhere { (n : ℕ) → n / 64 % 8 ≢ at → place_bit words.new n ≡ place_bit words.old n }
{
    let start = column_at(column, at);
    let own = held(glyph.columns, start);
    let row_words = row_words_of(bytes);
    let height = word(bytes, 7);
    for down in first_row(row)..end_row(row, height) {
        let there = row_at(row, down);
        words[8 * down + at] |= row_bits(bytes, row_words, own, glyph, start, there);
    }
}

/// The column of a glyph at which a word of a tile's row begins.
fn column_at(column: i64, at: usize) -> i32
    requires at_in { at < 8 }
    requires low { negsuc 63 <ℤ (column +ℤ pos (64 * at)) }
    requires high { (column +ℤ pos (64 * at)) <ℤ pos 65536 }
    ensures { result ≡ column +ℤ pos (64 * at) }
{
    (column + (64 * at) as i64) as i32
}

/// The row of a glyph in a row of a tile.
fn row_at(row: i64, down: usize) -> usize
    requires down_in { down < 16 }
    requires low { pos 0 ≤ℤ (row +ℤ pos down) }
    requires high { (row +ℤ pos down) <ℤ pos 65536 }
    ensures { pos result ≡ row +ℤ pos down }
{
    (row + down as i64) as usize
}
