//! The words of a line, read one after the other from left to right.
//!
//! One space parts a word from the next. So `Words` keeps what follows the space that ended the last word; where
//! the line ended with the word, nothing is left, which is another thing than an empty rest: after a space a word
//! has to come. Each method takes what is left, and gives the word's value with what is left after it; those whose names
//! begin with `last` want nothing to be left. A word of another form is BadSyntax.
ghost use Rattle.std.specs.Prelude.{◌≡◌};
ghost use Rattle.std.specs.Char.{is_ascii_alphanumeric};
ghost use Rattle.std.specs.List.{list_all};
ghost use Rattle.line_words.specs.Words.{word_at, number_at, number_said, serial_at, point_at};
ghost use Rattle.line_words.specs.Words.{rect_at, last, flag_at, name_at, is_name, hex_at};
ghost use Rattle.line_words.specs.Words.{text_at, quoted_at, after_quote, is_plain, digits_of, end_at};
ghost use Rattle.line_words.specs.Words.{begins_text, bytes_at};

use crate::hex::hex_bytes;
use crate::piece::Piece;
use std::marker::Model;
use tb_geom::{BytesRef, Point, Rect, Refusal};

/// What is left of a line, as words. Contracts see its bytes, or None at the end of the line.
#[derive(Drop)]
pub struct Words<'a> {
    rest: Option<Piece<'a>>,
}

impl<'a> Model for Words<'a> {
    ghost use Rattle.std.specs.Prelude.{List, ℕ, Option};

    ghost Value = { Option (List ℕ) };

    ghost view = { λ w. w.rest };
}

impl<'a> Words<'a> {
    ghost use Rattle.std.specs.Prelude.{Some, None, Option};

    /// All of a line.
    pub fn new(line: &'a mut [u8]) -> Words<'a>
        ensures { result ≡ Some line.old }
    {
        Words {
            rest: Some(Piece::new(line)),
        }
    }

    /// Nothing is left; else BadSyntax.
    pub fn end(self) -> Result<(), Refusal>
        ensures { result ≡ end_at self.entry }
    {
        if self.rest.is_none() {
            Ok(())
        } else {
            Err(Refusal::BadSyntax)
        }
    }

    /// The bytes up to the first space, whatever they are, and what follows the space.
    #[tactic(auto, unfolding(crate::specs::Words::word_at))]
    pub fn word(self) -> Result<(Piece<'a>, Words<'a>), Refusal>
        ensures { result ≡ word_at self.entry }
    {
        match self.rest {
            None => Err(Refusal::BadSyntax),
            Some(text) => {
                let (word, rest) = text.split_at(b' ');
                Ok((word, Words { rest }))
            }
        }
    }

    /// A number: 1 to 9 digits, with a minus sign before them or not.
    #[tactic(auto, unfolding(crate::specs::Words::number_at))]
    pub fn number(self) -> Result<(i32, Words<'a>), Refusal>
        ensures { result ≡ number_at self.entry }
    {
        let (text, rest) = self.word()?;
        let n = read_number(text.as_slice()).ok_or(Refusal::BadSyntax)?;
        Ok((n, rest))
    }

    /// The number of something, as a window: 0, which nothing has, where it is below 1.
    pub fn serial(self) -> Result<(u64, Words<'a>), Refusal>
        ensures { result ≡ serial_at self.entry }
    {
        let (number, rest) = self.number()?;
        Ok((number.max(0) as u64, rest))
    }

    /// A point: its column and its row.
    pub fn point(self) -> Result<(Point, Words<'a>), Refusal>
        ensures { result ≡ point_at self.entry }
    {
        let (h, rest) = self.number()?;
        let (v, rest) = rest.number()?;
        Ok((Point { h, v }, rest))
    }

    /// A rectangle: its left, top, right and bottom side.
    pub fn rect(self) -> Result<(Rect, Words<'a>), Refusal>
        ensures { result ≡ rect_at self.entry }
    {
        let (left, rest) = self.number()?;
        let (top, rest) = rest.number()?;
        let (right, rest) = rest.number()?;
        let (bottom, rest) = rest.number()?;
        let rect = Rect {
            left,
            top,
            right,
            bottom,
        };
        Ok((rect, rest))
    }

    /// A flag: `0` or `1`.
    #[tactic(auto, unfolding(crate::specs::Words::flag_at))]
    pub fn flag(self) -> Result<(bool, Words<'a>), Refusal>
        ensures { result ≡ flag_at self.entry }
    {
        let (text, rest) = self.word()?;
        match text.as_slice() {
            [b'0'] => Ok((false, rest)),
            [b'1'] => Ok((true, rest)),
            _ => Err(Refusal::BadSyntax),
        }
    }

    /// A name: letters and digits, a letter first. Whether something has this name is not asked.
    #[tactic(auto, unfolding(crate::specs::Words::name_at))]
    pub fn name(self) -> Result<(BytesRef<'a>, Words<'a>), Refusal>
        ensures { result ≡ name_at self.entry }
    {
        let (text, rest) = self.word()?;
        if is_name(text.as_slice()) {
            Ok((text.lent(), rest))
        } else {
            Err(Refusal::BadSyntax)
        }
    }

    /// Hex digits, two for each byte, at least one byte: the bytes that they stand for.
    #[tactic(auto, unfolding(crate::specs::Words::hex_at))]
    pub fn hex(self) -> Result<(BytesRef<'a>, Words<'a>), Refusal>
        ensures { result ≡ hex_at self.entry }
    {
        let (text, rest) = self.word()?;
        let bytes = hex_bytes(text).ok_or(Refusal::BadSyntax)?;
        Ok((bytes, rest))
    }

    /// A text between two quotes: bytes of 0x20..=0x7E other than the quote, spaces too.
    #[tactic(auto, unfolding(crate::specs::Words::text_at))]
    pub fn text(self) -> Result<(BytesRef<'a>, Words<'a>), Refusal>
        ensures { result ≡ text_at self.entry }
    {
        match self.rest {
            None => Err(Refusal::BadSyntax),
            Some(text) => match text.first() {
                Some((b'"', rest)) => quoted(rest),
                _ => Err(Refusal::BadSyntax),
            },
        }
    }

    /// Bytes: a text between two quotes, or hex digits.
    #[tactic(auto, unfolding(crate::specs::Words::bytes_at))]
    pub fn bytes(self) -> Result<(BytesRef<'a>, Words<'a>), Refusal>
        ensures { result ≡ bytes_at self.entry }
    {
        if self.begins_text() {
            self.text()
        } else {
            self.hex()
        }
    }

    /// Whether a quote comes next.
    fn begins_text(&self) -> bool
        ensures { result ≡ begins_text self.now }
    {
        match &self.rest {
            None => false,
            Some(text) => matches!(text.as_slice(), [b'"', ..]),
        }
    }

    /// A number, and nothing after it.
    pub fn last_number(self) -> Result<i32, Refusal>
        ensures { result ≡ last (number_at self.entry) }
    {
        let (number, rest) = self.number()?;
        rest.end()?;
        Ok(number)
    }

    /// The number of something, and nothing after it.
    pub fn last_serial(self) -> Result<u64, Refusal>
        ensures { result ≡ last (serial_at self.entry) }
    {
        let (serial, rest) = self.serial()?;
        rest.end()?;
        Ok(serial)
    }

    /// A point, and nothing after it.
    pub fn last_point(self) -> Result<Point, Refusal>
        ensures { result ≡ last (point_at self.entry) }
    {
        let (point, rest) = self.point()?;
        rest.end()?;
        Ok(point)
    }

    /// A rectangle, and nothing after it.
    pub fn last_rect(self) -> Result<Rect, Refusal>
        ensures { result ≡ last (rect_at self.entry) }
    {
        let (rect, rest) = self.rect()?;
        rest.end()?;
        Ok(rect)
    }

    /// A flag, and nothing after it.
    pub fn last_flag(self) -> Result<bool, Refusal>
        ensures { result ≡ last (flag_at self.entry) }
    {
        let (flag, rest) = self.flag()?;
        rest.end()?;
        Ok(flag)
    }

    /// Bytes, and nothing after them.
    pub fn last_bytes(self) -> Result<BytesRef<'a>, Refusal>
        ensures { result ≡ last (bytes_at self.entry) }
    {
        let (bytes, rest) = self.bytes()?;
        rest.end()?;
        Ok(bytes)
    }

    /// A text, and nothing after it.
    pub fn last_text(self) -> Result<BytesRef<'a>, Refusal>
        ensures { result ≡ last (text_at self.entry) }
    {
        let (text, rest) = self.text()?;
        rest.end()?;
        Ok(text)
    }
}

/// What 1 to 9 digits stand for; None of other bytes.
fn digits(bytes: &[u8]) -> Option<i32>
    ensures { result ≡ digits_of bytes.now }
{
    if bytes.is_empty() || bytes.len() > 9 {
        return None;
    }
    let mut value = 0u32;
    for b in bytes {
        if *b < b'0' || *b > b'9' {
            return None;
        }
        value = value * 10 + u32::from(b - b'0');
    }
    Some(value as i32)
}

/// What a word stands for as a number; None of a word that is none.
#[tactic(auto, unfolding(crate::specs::Words::number_said))]
fn read_number(text: &[u8]) -> Option<i32>
    ensures { result ≡ number_said text.now }
{
    match text {
        [] => None,
        [b'-', rest @ ..] => digits(rest).map(|n| -n),
        [_, ..] => digits(text),
    }
}

/// Whether all bytes are letters or digits.
fn is_alphanumeric(bytes: &[u8]) -> bool
    ensures { result ≡ list_all is_ascii_alphanumeric bytes.now }
{
    bytes.iter().all(|b| b.is_ascii_alphanumeric())
}

/// Whether a word is letters and digits, a letter first.
fn is_name(text: &[u8]) -> bool
    ensures { result ≡ is_name text.now }
{
    text.split_first().is_some_and(|(first, others)| first.is_ascii_alphabetic()
        && is_alphanumeric(others))
}

/// Whether all bytes are such as a line of words may have: 0x20..=0x7E.
pub fn is_plain(bytes: &[u8]) -> bool
    ensures { result ≡ list_all is_plain bytes.now }
{
    bytes.iter().all(|b| b' ' <= *b && *b <= b'~')
}

/// The text up to the next quote, and what is left of the line after it: a space has to follow, or the line ends.
#[tactic(auto, unfolding(crate::specs::Words::quoted_at))]
fn quoted<'a>(text: Piece<'a>) -> Result<(BytesRef<'a>, Words<'a>), Refusal>
    ensures { result ≡ quoted_at text.entry }
{
    let (text, after) = text.split_at(b'"');
    match after {
        None => Err(Refusal::BadSyntax),
        Some(after) => {
            if is_plain(text.as_slice()) {
                after_quote(text.lent(), after)
            } else {
                Err(Refusal::BadSyntax)
            }
        }
    }
}

/// A text with what is left of the line after its quote: a space has to follow, or the line ends.
fn after_quote<'a>(
    text: BytesRef<'a>,
    after: Piece<'a>,
) -> Result<(BytesRef<'a>, Words<'a>), Refusal>
    ensures { result ≡ after_quote text.entry after.entry }
{
    match after.first() {
        None => Ok((text, Words { rest: None })),
        Some((b' ', rest)) => Ok((text, Words { rest: Some(rest) })),
        Some(_) => Err(Refusal::BadSyntax),
    }
}
