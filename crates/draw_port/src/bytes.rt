//! The bytes that operations own.
ghost use Rattle.std.specs.Prelude.{◌≡◌, ◌<◌, ◌≤◌, length, take, IfOk, MatchResult};

use arrayvec::ArrayVec;
use std::alloc::{AllocError, Global};
use std::marker::Model;
use tb_geom::Refusal;

/// Rows of bits, as many bytes as there are. Contracts see the list of the bytes.
#[derive(Drop)]
pub struct Bytes {
    bytes: Vec<u8>,
}

impl Model for Bytes {
    ghost use Rattle.std.specs.Prelude.{List, ℕ};

    ghost Value = { List ℕ };

    ghost view = { λ b. b.bytes.items };
}

impl Bytes {
    /// A copy of these bytes.
    pub fn new(alloc: Global, bytes: &[u8]) -> Result<Bytes, AllocError>
        ensures { IfOk result (λ copy. copy ≡ bytes.now) }
    {
        let bytes = bytes.to_vec(alloc)?;
        Ok(Bytes { bytes })
    }

    /// The bytes.
    pub fn as_slice(&self) -> &[u8]
        ensures { result.now ≡ self.now }
    {
        self.bytes.as_slice()
    }
}

/// The most characters that a text or a title may have.
pub const LONGEST_TEXT: usize = 255;

/// A text of at most 255 characters, each of one byte. It lies in place and takes no memory. Contracts
/// see the list of the bytes.
#[derive(Drop)]
pub struct ShortText {
    characters: ArrayVec<u8, LONGEST_TEXT>,
}

impl Model for ShortText {
    ghost use Rattle.std.specs.Prelude.{List, ℕ};

    ghost Value = { List ℕ };

    ghost view = { λ t. t.characters.items };
}

impl ShortText {
    /// The text of these characters. TooLong exactly where there are more than 255.
    pub fn new(characters: &[u8]) -> Result<ShortText, Refusal>
        ensures { MatchResult result
            (λ text. (text ≡ characters.now) × (length characters.now ≤ 255))
            (λ e. (e ≡ Refusal.TooLong) × (255 < length characters.now)) }
    {
        match ArrayVec::try_from(characters) {
            Ok(characters) => Ok(ShortText { characters }),
            Err(_) => Err(Refusal::TooLong),
        }
    }

    /// The text of the first 255 of these characters, or of all where there are no more.
    pub fn shortened(characters: &[u8]) -> ShortText
        ensures { result ≡ take 255 characters.now }
    {
        ShortText::new(&characters[..LONGEST_TEXT.min(characters.len())]).unwrap()
    }

    /// The same text once more.
    pub fn copy(&self) -> ShortText
        ensures { result ≡ self.now }
    {
        ShortText {
            characters: ArrayVec::try_from(self.as_slice()).unwrap(),
        }
    }

    /// Its characters.
    pub fn as_slice(&self) -> &[u8]
        ensures same { result.now ≡ self.now }
        ensures short { length result.now ≤ 255 }
    {
        self.characters.as_slice()
    }
}
