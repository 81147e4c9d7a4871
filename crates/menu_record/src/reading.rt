//! What a text says that is appended to a menu.
ghost use Rattle.std.specs.Prelude.{◌≡◌, ◌<◌, ◌≤◌, ◌+◌, ◌++◌, ◌∷◌, [], ℕ, List, length, take, drop, None, Some};
ghost use Rattle.std.specs.Prelude.{MatchResult, MatchOption, true, false, OnOk, OnErr, IfOk};
ghost use Rattle.std.specs.List.{position_or_len, list_any};
ghost use Rattle.menu_record.specs.Appending.{is_parting, is_long, is_long_item, is_sign, item_in, item_of, items_of};
ghost use Rattle.menu_record.specs.Reads.{IsCut, IsRead, IsText, ItemRead, blank, read_all, read_character};

use crate::MenuItem;
use arrayvec::ArrayVec;
use draw_port::ShortText;
use tb_geom::Refusal;

/// An item as far as it was read, and the sign that waits for its character.
#[derive(Drop)]
pub(crate) struct Reading {
    /// As much of the text as there is room for.
    text: ArrayVec<u8, 255>,
    /// There was no room for all of it.
    is_over: bool,
    mark: Option<u8>,
    key: Option<u8>,
    enabled: bool,
    sign: Option<u8>,
}

/// Whether pieces are parted by this character.
fn is_parting(character: u8) -> bool
    ensures { result ≡ is_parting character }
{
    character == b';' || character == b'\r'
}

/// Whether this sign takes the character after it.
fn is_sign(character: u8) -> bool
    ensures { result ≡ is_sign character }
{
    character == b'!' || (character == b'/' || (character == b'^' || character == b'<'))
}

impl Reading {
    /// Nothing was read.
    fn new() -> Reading
        ensures { IsRead (record { item = blank; sign = None }) result }
    {
        Reading {
            text: ArrayVec::new(),
            is_over: false,
            mark: None,
            key: None,
            enabled: true,
            sign: None,
        }
    }

    /// Reads one more character.
    fn take(&mut self, character: u8)
        ensures { (r : ItemRead) → IsRead r self.old → IsRead (read_character r character) self.new }
    {
        match self.sign {
            Some(sign) => {
                self.sign = None;
                if sign == b'!' {
                    self.mark = Some(character);
                } else if sign == b'/' {
                    self.key = Some(character);
                }
            }
            None if is_sign(character) => self.sign = Some(character),
            None if character == b'(' => self.enabled = false,
            None => self.push(character),
        }
    }

    /// Takes a character of the text.
    fn push(&mut self, character: u8)
        ensures text { (t : List ℕ) → IsText self.old.is_over self.old.text.items t
            → IsText self.new.is_over self.new.text.items (t ++ character ∷ []) }
        ensures others { self.new ≡ record self.old { text = self.new.text; is_over = self.new.is_over } }
    {
        if self.text.is_full() {
            self.is_over = true;
        } else {
            self.text.push(character);
        }
    }
}

impl Reading {
    /// The item that was read. TooLong where its text has more than 255 characters.
    fn finish(self) -> Result<MenuItem, Refusal>
        ensures { (r : ItemRead) → IsRead r self → MatchResult result
            (λ item. (item ≡ r.item) × (is_long r.item ≡ false))
            (λ e. (e ≡ Refusal.TooLong) × (is_long r.item ≡ true)) }
    {
        if self.is_over {
            return Err(Refusal::TooLong);
        }
        Ok(MenuItem {
            text: ShortText::new(self.text.as_slice()).unwrap(),
            mark: self.mark,
            key: self.key,
            enabled: self.enabled,
        })
    }
}

/// The item that a piece says, read from the left. TooLong where its text has more than 255 characters.
fn read_item(piece: &[u8]) -> Result<MenuItem, Refusal>
    ensures { MatchResult result
        (λ item. (item ≡ (read_all piece.now).item) × (is_long (read_all piece.now).item ≡ false))
        (λ e. (e ≡ Refusal.TooLong) × (is_long (read_all piece.now).item ≡ true)) }
{
    let mut reading = Reading::new();
    for character in piece {
        reading.take(*character);
    }
    reading.finish()
}

/// Where the first piece of a text ends.
fn piece_end(text: &[u8]) -> usize
    ensures { result ≡ position_or_len is_parting text.now }
{
    for (at, character) in text.iter().enumerate() {
        if is_parting(*character) {
            return at;
        }
    }
    text.len()
}

/// What comes after the piece that ends at a place of the text, and after the character that parts it from that.
fn after_piece(text: &[u8], end: usize) -> &[u8]
    requires { end ≤ length text.now }
    ensures { result.now ≡ drop (end + 1) text.now }
{
    if end < text.len() {
        &text[end + 1..]
    } else {
        &text[end..]
    }
}

/// The item that a piece gives: none where it has no character. TooLong where the item's text has more than 255.
#[tactic(auto, using(crate::proofs::Words::read_all_is))]
fn item_in(piece: &[u8]) -> Result<Option<MenuItem>, Refusal>
    ensures { MatchResult result
        (λ item. (item ≡ item_in piece.now) × (is_long_item (item_in piece.now) ≡ false))
        (λ e. (e ≡ Refusal.TooLong) × (is_long_item (item_in piece.now) ≡ true)) }
{
    if piece.is_empty() {
        return Ok(None);
    }
    match read_item(piece) {
        Ok(item) => Ok(Some(item)),
        Err(refusal) => Err(refusal),
    }
}

/// The item that the first piece of a text gives, if it gives one, and what comes after the piece.
pub(crate) fn cut_item(text: &[u8]) -> Result<(Option<MenuItem>, &[u8]), Refusal>
    ensures { MatchResult result (λ r. IsCut text.now r.0 r.1.now)
        (λ e. (e ≡ Refusal.TooLong) × (list_any is_long (items_of text.now) ≡ true)) }
{
    let end = piece_end(text);
    match item_in(&text[..end]) {
        Ok(item) => Ok((item, after_piece(text, end))),
        Err(refusal) => Err(refusal),
    }
}

/// How many items a text gives. TooLong where the text of one has more than 255 characters.
pub(crate) fn count_items(text: &[u8]) -> Result<usize, Refusal>
    ensures { MatchResult result
        (λ n. (n ≡ length (items_of text.now)) × (list_any is_long (items_of text.now) ≡ false))
        (λ e. (e ≡ Refusal.TooLong) × (list_any is_long (items_of text.now) ≡ true)) }
{
    let mut count = 0;
    let mut rest = text;
    while !rest.is_empty() {
        let (item, after) = cut_item(rest)?;
        count += usize::from(item.is_some());
        rest = after;
    }
    Ok(count)
}
