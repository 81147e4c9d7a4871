//! The bytes of a region, from its inversion points.
ghost use Rattle.std.specs.Prelude.{◌≡◌, ◌<◌, ◌≤◌, ◌⊎◌, ◌∷◌, ◌++◌, [], ◌+◌, ◌*◌, List, length, ℤ, pos, OnOk, IfOk};
ghost use Rattle.std.specs.Prelude.{MatchResult};
ghost use Rattle.std.specs.List.{flat_map};
ghost use Rattle.tb_geom.specs.declared.Point.{Point};
ghost use Rattle.region_bytes.specs.Edges.{IsCoordinate};
ghost use Rattle.region_bytes.specs.Points.{PointRow, IsCanonical, points_of};
ghost use Rattle.region_bytes.specs.Words.{word_bytes, box_words, data_words, bytes_of};
ghost use Rattle.region_bytes.specs.Bytes.{IsWord};
ghost use Rattle.region_bytes.specs.Writing.{IsWritten, IsWholeWriter, IsBoxOfCoordinates};

use crate::bounds::grown;
use std::alloc::{AllocError, Global};
use tb_geom::{Point, Rect, Refusal};

/// The word that ends a row, and the data.
pub const END: i32 = 32767;

/// The greatest number of words of data: the size word says at most 32766, with itself and the box.
const MOST: usize = 16378;

/// The number of words of the data of no pixel, which is left out.
const NOTHING: usize = 1;

/// The number of words of the data of a rectangle, which is left out too.
const RECTANGLE: usize = 9;

/// The bytes of a region while its inversion points are found, by rising rows and columns. Each word
/// is counted, though memory for its bytes is refused: whether all are too many is known at the end.
#[derive(Drop)]
pub struct RegionWriter {
    bytes: Vec<u8>,
    words: usize,
    bounds: Option<Rect>,
    lost: bool,
}

impl RegionWriter {
    /// A writer of no word yet.
    pub fn new(alloc: Global) -> RegionWriter
        ensures { IsWritten result [] [] }
    {
        RegionWriter {
            bytes: Vec::new(alloc),
            words: 0,
            bounds: None,
            lost: false,
        }
    }

    /// Writes a word, as the `v` of a row or its end.
    pub fn word(&mut self, word: i32)
        requires { IsWord word }
        ensures { (words : List ℤ) (points : List Point) → IsWritten self.old words points
            → IsWritten self.new (words ++ word ∷ []) points }
    {
        if self.words > MOST {
            return;
        }
        self.words += 1;
        if push_word(&mut self.bytes, word).is_err() {
            self.lost = true;
        }
    }

    /// Writes the column of a point.
    pub fn point(&mut self, point: Point)
        requires { IsCoordinate point.h }
        ensures { (words : List ℤ) (points : List Point) → IsWritten self.old words points
            → IsWritten self.new (words ++ point.h ∷ []) (points ++ point ∷ []) }
    {
        self.bounds = grown(self.bounds, point);
        self.word(point.h);
    }

    /// The bytes of the region, where these are the words and points of its rows. TooLong where they
    /// would be more than 32766, else it refuses only for want of memory.
    pub fn finish(self, alloc: Global) -> Result<Vec<u8>, Refusal>
        requires { IsWholeWriter self }
        ensures { (rows : List PointRow) → IsWritten self (data_words rows) (points_of rows)
            → IsCanonical rows → MatchResult result
            (λ bytes. (bytes.items ≡ bytes_of rows) × (length bytes.items ≤ 32766))
            (λ e. ((e ≡ Refusal.TooLong) × (32766 < length (bytes_of rows)))
            ⊎ ((e ≡ Refusal.NoMemory) × (length (bytes_of rows) ≤ 32766))) }
    {
        if self.words > MOST {
            return Err(Refusal::TooLong);
        }
        if self.lost {
            return Err(Refusal::NoMemory);
        }
        if self.words == NOTHING || self.words == RECTANGLE {
            return Ok(with_head(alloc, self.bounds, &[])?);
        }
        Ok(with_head(alloc, self.bounds, self.bytes.as_slice())?)
    }
}

/// Adds the bytes of a word.
fn push_word(bytes: &mut Vec<u8>, word: i32) -> Result<(), AllocError>
    requires { IsWord word }
    ensures { OnOk result (bytes.new.items ≡ bytes.old.items ++ word_bytes word) }
{
    let word = word as i16;
    bytes.extend_from_slice(&word.to_be_bytes())?;
    Ok(())
}

/// Adds the bytes of the box.
fn push_box(bytes: &mut Vec<u8>, bounds: Option<Rect>) -> Result<(), AllocError>
    requires { IsBoxOfCoordinates bounds }
    ensures { OnOk result (bytes.new.items ≡ bytes.old.items ++ flat_map word_bytes (box_words bounds)) }
{
    let bounds = bounds.unwrap_or(Rect {
        left: 0,
        top: 0,
        right: 0,
        bottom: 0,
    });
    push_word(bytes, bounds.top)?;
    push_word(bytes, bounds.left)?;
    push_word(bytes, bounds.bottom)?;
    push_word(bytes, bounds.right)
}

/// The bytes of the size and of the box, and those of data.
fn with_head(alloc: Global, bounds: Option<Rect>, body: &[u8]) -> Result<Vec<u8>, AllocError>
    requires box_in { IsBoxOfCoordinates bounds }
    requires fits { length body.now ≤ 32756 }
    ensures { IfOk result (λ bytes. bytes.items
        ≡ word_bytes (pos (10 + length body.now)) ++ (flat_map word_bytes (box_words bounds) ++ body.now)) }
{
    let size = 10 + body.len();
    let mut bytes = Vec::with_capacity(alloc, size)?;
    push_word(&mut bytes, size as i32)?;
    push_box(&mut bytes, bounds)?;
    bytes.extend_from_slice(body)?;
    Ok(bytes)
}
