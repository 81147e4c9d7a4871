//! Bytes as calls carry them.
ghost use Rattle.std.specs.Prelude.{◌≡◌};
ghost use Rattle.tb_geom.specs.LentBytes.{are_rows};

use std::marker::Model;

/// Bytes that a call lends, not yet judged. Contracts see the list of the bytes.
#[derive(Drop)]
pub struct BytesRef<'a> {
    bytes: &'a [u8],
}

impl<'a> Model for BytesRef<'a> {
    ghost use Rattle.std.specs.Prelude.{List, ℕ};

    ghost Value = { List ℕ };

    ghost view = { λ b. b.bytes.now };
}

impl<'a> BytesRef<'a> {
    /// These bytes.
    pub fn new(bytes: &'a [u8]) -> BytesRef<'a>
        ensures { result ≡ bytes.entry.now }
    {
        BytesRef { bytes }
    }

    /// The bytes.
    pub fn as_slice(&self) -> &'a [u8]
        ensures { result.now ≡ self.now }
    {
        self.bytes
    }

    /// Whether these are the bytes of an image of this size: it has rows and columns, and each row takes
    /// `(width + 7) / 8` of the bytes.
    pub fn are_rows(&self, width: i32, height: i32) -> bool
        ensures { result ≡ are_rows width height self.now }
    {
        if width < 1 || height < 1 {
            return false;
        }
        let row_bytes = (u64::from(width.unsigned_abs()) + 7) / 8;
        self.as_slice().len() as u64 == row_bytes * u64::from(height.unsigned_abs())
    }
}
