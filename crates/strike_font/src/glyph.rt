//! Glyphs.
ghost use Rattle.std.specs.Prelude.{◌≡◌, ℕ, nat_abs, ◌+◌, ◌*◌, ◌^◌, ◌<◌, ◌≤◌, pos, negsuc, ◌-ℤ◌, ◌+ℤ◌, ◌≤ℤ◌, ◌<ℤ◌, ◌/◌};
ghost use Rattle.std.specs.Prelude.{◌%◌, min, length};
ghost use Rattle.std.specs.Int.{int_min, int_max};
ghost use Rattle.bit_map.specs.Bits.{is_below};
ghost use Rattle.bit_map.specs.Words.{bit_in};
ghost use Rattle.strike_font.specs.Record.{IsFont, last_symbol, words_of_row, height, strike_words};
ghost use Rattle.strike_font.specs.Text.{symbol_of, glyph_at, glyph_of, image_bit, glyph_bit, glyph_pixel, glyph_rect, IsSized};

use crate::record::{entry, first_char, gap, last_char, last_symbol, location, signed, word};
use bit_map::{bit_of, bits_from, black_between, eight_within, held};
use tb_geom::Rect;

/// Where a glyph stands in the strike of its font, and how it is put down. All four are in pixels.
#[derive(Clone, Copy, Debug, PartialEq, Eq)]
pub struct Glyph {
    /// Its first column in the strike.
    pub first: u16,
    /// How many columns it has.
    pub columns: u16,
    /// How far right of the pen and the font's kernMax its first column goes.
    pub offset: u8,
    /// How far right it moves the pen.
    pub width: u8,
}

/// The symbol that a character is drawn by.
#[tactic(auto, unfolding(crate::specs::Text::symbol_of, crate::specs::Record::last_symbol))]
fn symbol_of(bytes: &[u8], character: u8) -> usize
    requires { IsFont bytes.now }
    ensures value { result ≡ symbol_of bytes.now character }
    ensures within { result ≤ last_symbol bytes.now }
{
    let first = first_char(bytes);
    let own = i32::from(character);
    if first <= own && own <= last_char(bytes) {
        let symbol = gap(first, own);
        if entry(bytes, symbol) != 65535 {
            return symbol;
        }
    }
    last_symbol(bytes)
}

/// The glyph of a symbol.
fn glyph_at(bytes: &[u8], symbol: usize) -> Glyph
    requires font { IsFont bytes.now }
    requires symbol { symbol ≤ last_symbol bytes.now }
    ensures value { result ≡ glyph_at bytes.now symbol }
    ensures within { result.first + result.columns ≤ 16 * words_of_row bytes.now }
{
    let first = location(bytes, symbol);
    let entry = entry(bytes, symbol);
    Glyph {
        first,
        columns: location(bytes, symbol + 1) - first,
        offset: (entry / 256) as u8,
        width: (entry % 256) as u8,
    }
}

/// The glyph of a character.
#[tactic(auto, unfolding(crate::specs::Text::glyph_of))]
pub fn glyph_of(bytes: &[u8], character: u8) -> Glyph
    requires { IsFont bytes.now }
    ensures value { result ≡ glyph_of bytes.now character }
    ensures within { result.first + result.columns ≤ 16 * words_of_row bytes.now }
{
    glyph_at(bytes, symbol_of(bytes, character))
}

/// The bit of the strike in a column and a row.
#[tactic(auto, unfolding(crate::specs::Text::image_bit))]
fn image_bit(bytes: &[u8], column: usize, row: u16) -> bool
    requires font { IsFont bytes.now }
    requires column_in { column < 16 * words_of_row bytes.now }
    requires row_in { row < height bytes.now }
    ensures { result ≡ image_bit bytes.now column row }
{
    let row_words = usize::from(word(bytes, 12));
    bit_of(
        bytes[26 + usize::from(row) * (2 * row_words) + column / 8],
        (column % 8) as u8,
    )
}

/// The bit of a glyph; it has none outside its own columns and rows.
fn glyph_bit(bytes: &[u8], glyph: Glyph, column: i64, row: i64) -> bool
    requires font { IsFont bytes.now }
    requires within { glyph.first + glyph.columns ≤ 16 * words_of_row bytes.now }
    ensures { result ≡ glyph_bit bytes.now glyph column row }
{
    if column < 0 || row < 0 {
        return false;
    }
    let column = column as usize;
    column < usize::from(glyph.columns)
        && (row < i64::from(word(bytes, 7))
            && image_bit(bytes, usize::from(glyph.first) + column, row as u16))
}

/// The column of a glyph that lies `x` columns right of the pen.
pub fn column_of(x: i64, kern: i32, offset: u8) -> i64
    requires { IsSized 34 x }
    ensures { result ≡ x -ℤ (kern +ℤ pos offset) }
{
    x - (i64::from(kern) + i64::from(offset))
}

/// The row of a glyph that lies `y` rows below the baseline.
pub fn row_of(y: i64, ascent: u16) -> i64
    requires { IsSized 34 y }
    ensures { result ≡ y +ℤ pos ascent }
{
    y + i64::from(ascent)
}

/// Whether a glyph has the pixel `x` columns right of the pen and `y` rows below the baseline.
pub fn glyph_pixel(bytes: &[u8], glyph: Glyph, x: i64, y: i64) -> bool
    requires font { IsFont bytes.now }
    requires within { glyph.first + glyph.columns ≤ 16 * words_of_row bytes.now }
    requires x_near { IsSized 34 x }
    requires y_near { IsSized 34 y }
    ensures { result ≡ glyph_pixel bytes.now glyph x y }
{
    let column = column_of(x, signed(word(bytes, 4)), glyph.offset);
    let row = row_of(y, word(bytes, 9));
    glyph_bit(bytes, glyph, column, row)
}

/// The first `columns` of 64 bits of a row of the strike, from a column on, the first at the high bit. The
/// others may be any: so eight bytes do where there are few.
fn strike_word(bytes: &[u8], row_words: usize, column: usize, columns: u16, row: usize) -> u64
    requires font { IsFont bytes.now }
    requires words { row_words ≡ words_of_row bytes.now }
    requires near { column < 2 ^ 18 }
    requires row_in { row < height bytes.now }
    ensures { (k : ℕ) → k < 64 → k < columns → bit_in result k ≡ image_bit bytes.now (column + k) row }
{
    let place = 26 + row * (2 * row_words) + column / 8;
    if columns <= 57 {
        return bits_from(bytes, place, 0) << (column % 8);
    }
    bits_from(bytes, place, column % 8)
}

/// The column of the strike from which columns of a glyph are read that begin at `start`.
pub fn column_read(first: u16, start: i32) -> usize
    ensures { pos result ≡ pos first +ℤ int_max (pos 0) start }
{
    usize::from(first) + start.max(0).unsigned_abs() as usize
}

/// How many columns left of a glyph's first one they begin, at most 63.
fn back_of(start: i32) -> u32
    ensures { result ≡ min (nat_abs (int_min (pos 0) start)) 63 }
{
    start.min(0).unsigned_abs().min(63)
}

/// 64 bits of a row of the strike, from so many columns right of a first one on. Those left of that one,
/// and those past the first `columns` from there on, may be any.
fn strike_from(
    bytes: &[u8],
    row_words: usize,
    first: u16,
    columns: u16,
    start: i32,
    row: usize,
) -> u64
    requires font { IsFont bytes.now }
    requires words { row_words ≡ words_of_row bytes.now }
    requires near { start ≤ℤ pos 65536 }
    requires row_in { row < height bytes.now }
    ensures { (k : ℕ) → k < 64 → pos 0 ≤ℤ (start +ℤ pos k) → (start +ℤ pos k) <ℤ pos columns
        → bit_in result k ≡ image_bit bytes.now (first + nat_abs (start +ℤ pos k)) row }
{
    let column = column_read(first, start);
    strike_word(bytes, row_words, column, columns, row) >> back_of(start)
}

/// Whether glyphs have a row.
fn is_row(bytes: &[u8], row: i64) -> bool
    requires { IsFont bytes.now }
    ensures { result ≡ is_below (height bytes.now) row }
{
    0 <= row && row < i64::from(word(bytes, 7))
}

/// The bits of 64 columns of a glyph in a row that it has, from a column on; it has none outside its own.
/// The words of the strike's rows and which columns are the glyph's own are the same in each row.
pub fn row_bits(
    bytes: &[u8],
    row_words: usize,
    own: u64,
    glyph: Glyph,
    start: i32,
    row: usize,
) -> u64
    requires font { IsFont bytes.now }
    requires words { row_words ≡ words_of_row bytes.now }
    requires own { (k : ℕ) → k < 64 → bit_in own k ≡ is_below glyph.columns (start +ℤ pos k) }
    requires near { start ≤ℤ pos 65536 }
    requires row_in { row < height bytes.now }
    ensures { (k : ℕ) → k < 64 → bit_in result k ≡ glyph_bit bytes.now glyph (start +ℤ pos k) (pos row) }
{
    strike_from(bytes, row_words, glyph.first, glyph.columns, start, row) & own
}

/// Which of 64 columns from `start` on a glyph of at most 57 columns has, the first at the high bit.
pub fn narrow_own(columns: u16, start: i32) -> u64
    requires narrow { columns ≤ 57 }
    requires near { negsuc 63 <ℤ start }
    ensures { (k : ℕ) → k < 64 → bit_in result k ≡ is_below columns (start +ℤ pos k) }
{
    let columns = usize::from(columns);
    let far = start.unsigned_abs();
    if start < 0 {
        black_between(0, columns) >> far
    } else {
        black_between(0, columns.saturating_sub(far as usize))
    }
}

/// The first 57 of 64 bits of a row of the strike, from a column on, the first at the high bit. The
/// others may be any.
fn narrow_word(bytes: &[u8], row_words: usize, column: usize, row: usize) -> u64
    requires font { IsFont bytes.now }
    requires words { row_words ≡ words_of_row bytes.now }
    requires within { 26 + row * (2 * row_words) + column / 8 + 8 ≤ length bytes.now }
    ensures { (k : ℕ) → column % 8 + k < 64 → bit_in result k ≡ image_bit bytes.now (column + k) row }
{
    eight_within(bytes, 26 + row * (2 * row_words) + column / 8) << (column % 8)
}

/// The same as `row_bits` for a glyph of at most 57 columns, where the record goes on so far behind the strike that
/// each row has eight bytes from the column on at which it is read.
pub fn narrow_bits(
    bytes: &[u8],
    row_words: usize,
    own: u64,
    glyph: Glyph,
    start: i32,
    read: usize,
    row: usize,
) -> u64
    requires font { IsFont bytes.now }
    requires words { row_words ≡ words_of_row bytes.now }
    requires own { (k : ℕ) → k < 64 → bit_in own k ≡ is_below glyph.columns (start +ℤ pos k) }
    requires narrow { glyph.columns ≤ 57 }
    requires read { pos read ≡ pos glyph.first +ℤ int_max (pos 0) start }
    requires within { 2 * strike_words bytes.now + read / 8 + 8 ≤ length bytes.now }
    requires row_in { row < height bytes.now }
    ensures { (k : ℕ) → k < 64 → bit_in result k ≡ glyph_bit bytes.now glyph (start +ℤ pos k) (pos row) }
{
    (narrow_word(bytes, row_words, read, row) >> back_of(start)) & own
}

/// How many words each row of the strike takes.
pub fn row_words_of(bytes: &[u8]) -> usize
    requires { IsFont bytes.now }
    ensures { result ≡ words_of_row bytes.now }
{
    usize::from(word(bytes, 12))
}

/// The bits of 64 columns of a glyph in a row, from a column on; it has none outside its own.
fn glyph_bits(bytes: &[u8], glyph: Glyph, column: i64, row: i64) -> u64
    requires { IsFont bytes.now }
    ensures { (k : ℕ) → k < 64 → bit_in result k ≡ glyph_bit bytes.now glyph (column +ℤ pos k) row }
{
    if !is_row(bytes, row) {
        return 0;
    }
    let start = column.clamp(-64, 65536) as i32;
    let own = held(glyph.columns, start);
    row_bits(bytes, row_words_of(bytes), own, glyph, start, row as usize)
}

/// Which of 64 pixels of a row a glyph has, the first of them `x` columns right of the pen and `y` rows
/// below the baseline, and at the high bit.
pub fn glyph_word(bytes: &[u8], glyph: Glyph, x: i64, y: i64) -> u64
    requires font { IsFont bytes.now }
    requires x_near { IsSized 34 x }
    requires y_near { IsSized 34 y }
    ensures { (k : ℕ) → k < 64 → bit_in result k ≡ glyph_pixel bytes.now glyph (x +ℤ pos k) y }
{
    let start = column_of(x, signed(word(bytes, 4)), glyph.offset);
    let row = row_of(y, word(bytes, 9));
    glyph_bits(bytes, glyph, start, row)
}

/// How far right of where the pen started a glyph's first column lies.
fn left_of(across: u32, kern: i32, offset: u8) -> i32
    requires across { across ≤ 255 * 65535 }
    requires low { negsuc 127 ≤ℤ kern }
    requires high { kern <ℤ pos 128 }
    ensures value { result ≡ pos across +ℤ (kern +ℤ pos offset) }
    ensures near { (negsuc 127 ≤ℤ result) × (result <ℤ pos (2 ^ 25)) }
{
    across as i32 + (kern + i32::from(offset))
}

/// The rectangle of so many columns from `left` on, and of the rows of a font around a baseline at 0.
fn rect_from(left: i32, columns: u16, ascent: u16, height: u16) -> Rect
    requires low { negsuc 127 ≤ℤ left }
    requires high { left <ℤ pos (2 ^ 25) }
    ensures { result ≡ record {
      left = left;
      top = pos 0 -ℤ pos ascent;
      right = left +ℤ pos columns;
      bottom = pos height -ℤ pos ascent;
    } }
{
    Rect {
        left,
        top: 0 - i32::from(ascent),
        right: left + i32::from(columns),
        bottom: i32::from(height) - i32::from(ascent),
    }
}

/// The rectangle of a glyph's columns and rows, seen from where the pen started, which has come
/// `across` columns.
pub fn glyph_rect(bytes: &[u8], glyph: Glyph, across: u32) -> Rect
    requires font { IsFont bytes.now }
    requires near { across ≤ 255 * 65535 }
    ensures { result ≡ glyph_rect bytes.now glyph across }
{
    let left = left_of(across, signed(word(bytes, 4)), glyph.offset);
    rect_from(left, glyph.columns, word(bytes, 9), word(bytes, 7))
}
