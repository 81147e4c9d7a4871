//! The words of a FONT record, and whether bytes are one.
//!
//! Each test of `is_font` is a function of its own, in the order in which one rests on another: the head,
//! its fields, the room for the tables, and then what the tables say.
ghost use Rattle.std.specs.Prelude.{◌≡◌, ◌+◌, ◌*◌, ◌^◌, ◌<◌, ◌≤◌, IsTrue, length, pos, negsuc};
ghost use Rattle.tb_geom.specs.Rects.{between};
ghost use Rattle.strike_font.specs.Record.{word, signed, gap, first_char, last_char, strike_words, last_symbol};
ghost use Rattle.strike_font.specs.Record.{location, entry, has_head, is_font_type, is_within, good_chars, good_fields};
ghost use Rattle.strike_font.specs.Record.{good_head, has_tables, HasTables, rising, good_tables, is_font, IsFont};

/// So many bytes hold all parts of any FONT record: the 13 words of its head, an image of 127 rows of 2047 words, and a
/// location for each of the characters from -32768 to 255, the missing symbol and the end.
pub const LONGEST_RECORD: usize = 2 * (13 + 2047 * 127 + 33026);

/// The word at this index of the bytes, unsigned.
#[tactic(auto, unfolding(crate::specs::Record::word))]
pub fn word(bytes: &[u8], index: usize) -> u16
    requires { 2 * index + 1 < length bytes.now }
    ensures { result ≡ word bytes.now index }
{
    u16::from(bytes[2 * index]) * 256 + u16::from(bytes[2 * index + 1])
}

/// The word as a signed number.
pub fn signed(word: u16) -> i32
    ensures { result ≡ signed word }
{
    if word < 32768 {
        i32::from(word)
    } else {
        i32::from(word) - 65536
    }
}

/// How far `high` lies above `low`, or 0.
pub fn gap(low: i32, high: i32) -> usize
    ensures value { result ≡ gap low high }
    ensures small { result < 2 ^ 32 }
{
    if high <= low {
        0
    } else {
        (i64::from(high) - i64::from(low)) as usize
    }
}

/// The code of the first character of the font, which may be negative.
#[tactic(auto, unfolding(crate::specs::Record::first_char))]
pub fn first_char(bytes: &[u8]) -> i32
    requires { 26 ≤ length bytes.now }
    ensures { result ≡ first_char bytes.now }
{
    signed(word(bytes, 1))
}

/// The code of the last character of the font.
#[tactic(auto, unfolding(crate::specs::Record::last_char))]
pub fn last_char(bytes: &[u8]) -> i32
    requires { 26 ≤ length bytes.now }
    ensures { result ≡ last_char bytes.now }
{
    signed(word(bytes, 2))
}

/// The place of the missing symbol, which comes after that of the last character.
#[tactic(auto, unfolding(crate::specs::Record::last_symbol))]
pub fn last_symbol(bytes: &[u8]) -> usize
    requires { 26 ≤ length bytes.now }
    ensures value { result ≡ last_symbol bytes.now }
    ensures small { result ≤ 2 ^ 32 }
{
    gap(first_char(bytes), last_char(bytes)) + 1
}

/// The number of words before the location table.
#[tactic(auto, unfolding(crate::specs::Record::strike_words))]
pub fn strike_words(bytes: &[u8]) -> usize
    requires { 26 ≤ length bytes.now }
    ensures value { result ≡ strike_words bytes.now }
    ensures small { result < 2 ^ 33 }
{
    13 + usize::from(word(bytes, 12)) * usize::from(word(bytes, 7))
}

/// The column at which a symbol begins in the strike, or at which the last one ends.
#[tactic(auto, unfolding(crate::specs::Record::location))]
pub fn location(bytes: &[u8], symbol: usize) -> u16
    requires head { 26 ≤ length bytes.now }
    requires tables { HasTables bytes.now }
    requires symbol { symbol ≤ last_symbol bytes.now + 1 }
    ensures { result ≡ location bytes.now symbol }
{
    word(bytes, strike_words(bytes) + symbol)
}

/// The offset and the width of a symbol, as one word.
#[tactic(auto, unfolding(crate::specs::Record::entry))]
pub fn entry(bytes: &[u8], symbol: usize) -> u16
    requires head { 26 ≤ length bytes.now }
    requires tables { HasTables bytes.now }
    requires symbol { symbol ≤ last_symbol bytes.now + 1 }
    ensures { result ≡ entry bytes.now symbol }
{
    word(bytes, 8 + usize::from(word(bytes, 8)) + symbol)
}

/// Whether the bytes hold the 13 words of the head.
fn has_head(bytes: &[u8]) -> bool
    ensures { result ≡ has_head bytes.now }
{
    bytes.len() >= 26
}

/// Whether a word is the type of a FONT record.
fn is_font_type(kind: u16) -> bool
    ensures { result ≡ is_font_type kind }
{
    (0x9000 <= kind && kind <= 0x9003) || (0xB000 <= kind && kind <= 0xB003)
}

/// Whether a number is one of `low..=high`.
fn is_within(low: u16, n: u16, high: u16) -> bool
    ensures { result ≡ is_within low n high }
{
    low <= n && n <= high
}

/// Whether a number may be kernMax.
fn is_kern(kern: i32) -> bool
    ensures { result ≡ between (negsuc 127) kern (pos 128) }
{
    -128 <= kern && kern < 128
}

/// Whether the characters are in order.
#[tactic(auto, unfolding(crate::specs::Record::first_char, crate::specs::Record::last_char))]
fn are_chars_good(bytes: &[u8]) -> bool
    requires { 26 ≤ length bytes.now }
    ensures { result ≡ good_chars bytes.now }
{
    first_char(bytes) <= last_char(bytes) && last_char(bytes) <= 255
}

/// Whether the other fields are in their ranges.
#[tactic(auto, unfolding(crate::specs::Record::good_fields))]
fn are_fields_good(bytes: &[u8]) -> bool
    requires { 26 ≤ length bytes.now }
    ensures { result ≡ good_fields bytes.now }
{
    is_within(1, word(bytes, 7), 127)
        && (is_within(0, word(bytes, 9), 127)
            && (is_within(0, word(bytes, 10), 127)
                && (is_kern(signed(word(bytes, 4)))
                    && (is_within(0, word(bytes, 12), 2047)
                        && is_within(1, word(bytes, 8), 32767)))))
}

/// Whether all fields of the head are in their ranges.
#[tactic(auto, unfolding(crate::specs::Record::good_head))]
fn is_good_head(bytes: &[u8]) -> bool
    requires { 26 ≤ length bytes.now }
    ensures { result ≡ good_head bytes.now }
{
    is_font_type(word(bytes, 0)) && (are_chars_good(bytes) && are_fields_good(bytes))
}

/// Whether the bytes hold the strike and both tables.
#[tactic(auto, unfolding(crate::specs::Record::has_tables))]
fn has_tables(bytes: &[u8]) -> bool
    requires { 26 ≤ length bytes.now }
    ensures value { result ≡ has_tables bytes.now }
    ensures tables { IsTrue result → HasTables bytes.now }
{
    let symbols = last_symbol(bytes) + 2;
    2 * (strike_words(bytes) + symbols) <= bytes.len()
        && 2 * (8 + usize::from(word(bytes, 8)) + symbols) <= bytes.len()
}

/// Whether no location is smaller than the one before.
fn are_locations_good(bytes: &[u8]) -> bool
    requires head { 26 ≤ length bytes.now }
    requires tables { HasTables bytes.now }
    ensures { result ≡ rising bytes.now (last_symbol bytes.now + 1) }
{
    for symbol in 0..last_symbol(bytes) + 1 {
        if location(bytes, symbol + 1) < location(bytes, symbol) {
            return false;
        }
    }
    true
}

/// Whether the tables are good: locations rise and end in the strike, and the missing symbol is there.
#[tactic(auto, unfolding(crate::specs::Record::good_tables))]
fn are_tables_good(bytes: &[u8]) -> bool
    requires head { 26 ≤ length bytes.now }
    requires tables { HasTables bytes.now }
    ensures { result ≡ good_tables bytes.now }
{
    let last = last_symbol(bytes);
    are_locations_good(bytes)
        && (usize::from(location(bytes, last + 1)) <= 16 * usize::from(word(bytes, 12))
            && entry(bytes, last) != 65535)
}

/// Whether the bytes are a FONT record.
#[tactic(auto, unfolding(crate::specs::Record::is_font), using(crate::proofs::RecordLemmas::font_facts))]
pub fn is_font(bytes: &[u8]) -> bool
    ensures value { result ≡ is_font bytes.now }
    ensures facts { IsTrue result → IsFont bytes.now }
{
    has_head(bytes) && (is_good_head(bytes) && (has_tables(bytes) && are_tables_good(bytes)))
}
