//! Parts of a line.
ghost use Rattle.std.specs.Prelude.{◌≡◌, ◌==◌, position};
ghost use Rattle.line_words.specs.Words.{first_of, parts, split_at};

use std::marker::Model;
use tb_geom::BytesRef;

/// Some bytes of a line, which nothing else holds: so hex digits can make room for the bytes that they
/// stand for. Contracts see the list of the bytes.
#[derive(Drop)]
pub struct Piece<'a> {
    bytes: &'a mut [u8],
}

impl<'a> Model for Piece<'a> {
    ghost use Rattle.std.specs.Prelude.{List, ℕ};

    ghost Value = { List ℕ };

    ghost view = { λ p. p.bytes.now };
}

impl<'a> Piece<'a> {
    /// These bytes.
    pub(crate) fn new(bytes: &'a mut [u8]) -> Piece<'a>
        ensures { result ≡ bytes.old }
    {
        Piece { bytes }
    }

    /// The bytes.
    pub fn as_slice(&self) -> &[u8]
        ensures { result.now ≡ self.now }
    {
        self.bytes
    }

    /// The bytes, to be written to.
    pub(crate) fn into_slice(self) -> &'a mut [u8]
        ensures { result.now ≡ self.entry }
    {
        self.bytes
    }

    /// The bytes, for a command.
    pub(crate) fn lent(self) -> BytesRef<'a>
        ensures { result ≡ self.entry }
    {
        let bytes = self.bytes;
        BytesRef::new(bytes)
    }

    /// The bytes before and after the first mark; where there is none, all of them and no others.
    pub(crate) fn split_at(self, mark: u8) -> (Piece<'a>, Option<Piece<'a>>)
        ensures { result ≡ parts self.entry (split_at mark self.entry) }
    {
        let bytes = self.bytes;
        match place_of(bytes, mark) {
            None => (Piece { bytes }, None),
            Some(at) => {
                let (before, rest) = bytes.split_at_mut(at);
                (
                    Piece { bytes: before },
                    Some(Piece {
                        bytes: &mut rest[1..],
                    }),
                )
            }
        }
    }

    /// The first byte and the others, if there is one.
    pub(crate) fn first(self) -> Option<(u8, Piece<'a>)>
        ensures { result ≡ first_of self.entry }
    {
        let (first, others) = self.bytes.split_first_mut()?;
        Some((*first, Piece { bytes: others }))
    }
}

/// The place of the first mark, if there is one.
fn place_of(bytes: &[u8], mark: u8) -> Option<usize>
    ensures { result ≡ position (λ b. b == mark) bytes.now }
{
    bytes.iter().position(|b| *b == mark)
}
