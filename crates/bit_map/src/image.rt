//! Bit images.
ghost use Rattle.std.specs.Prelude.{◌≡◌, true, ◌+◌, ◌/◌, ◌%◌, ◌^◌, ◌<◌, ◌≤◌, ◌≤ℤ◌, pos, ℕ, length, slice_index};
ghost use Rattle.bit_map.specs.Patterns.{bit_of};
ghost use Rattle.bit_map.specs.Rules.{right_of};
ghost use Rattle.bit_map.specs.Words.{bit_in};
ghost use Rattle.bit_map.specs.Bits.{is_below};
ghost use Rattle.bit_map.specs.Images.{image_holds, image_bit, row_bit};

use crate::moves::joined;
use crate::pattern::bit_of;
use crate::words::held;
use std::marker::Model;
use tb_geom::Point;

/// Borrowed rows of bits, the top row first: each takes `(width + 7) / 8` bytes, the high bit left
/// (*Inside Macintosh* I, "QuickDraw", "Bit Images"). The top left pixel is 0 0. A bit for which
/// there are too few bytes is white. Contracts see the size and the list of the bytes.
#[derive(Debug, Drop)]
pub struct BitImage<'a> {
    width: u16,
    height: u16,
    rows: &'a [u8],
}

impl<'a> Model for BitImage<'a> {
    ghost use Rattle.bit_map.specs.Images.{Image};

    ghost Value = { Image };

    ghost view = { λ i. record { width = i.width; height = i.height; rows = i.rows.now } };
}

/// Whether a number is one of `0..limit`.
pub(crate) fn is_below(limit: u16, x: i32) -> bool
    ensures { result ≡ is_below limit x }
{
    0 <= x && x < i32::from(limit)
}

impl<'a> BitImage<'a> {
    /// The image of this size whose rows are these bytes.
    pub fn new(width: u16, height: u16, rows: &'a [u8]) -> BitImage<'a>
        ensures { result ≡ record { width = width; height = height; rows = rows.entry.now } }
    {
        BitImage {
            width,
            height,
            rows,
        }
    }

    /// Whether the image has the pixel at a point.
    #[tactic(auto, unfolding(crate::specs::Images::image_holds))]
    pub fn contains(&self, point: Point) -> bool
        ensures value { result ≡ image_holds self.now point }
        ensures limits { (self.now.width ≤ 65535) × (self.now.height ≤ 65535) }
    {
        let (width, height) = (self.width, self.height);
        is_below(width, point.h) && is_below(height, point.v)
    }

    /// The bit at a point of the image.
    #[tactic(auto, unfolding(crate::specs::Images::image_bit, crate::specs::Images::image_holds))]
    pub fn bit(&self, point: Point) -> bool
        requires { image_holds self.now point ≡ true }
        ensures { result ≡ image_bit self.now point }
    {
        self.row_bit(
            point.h.unsigned_abs() as usize,
            point.v.unsigned_abs() as usize,
        )
    }

    /// Which of the 64 pixels of a row from `start` on the image has, the first at the high bit.
    pub fn held(&self, start: Point) -> u64
        ensures value { (k : ℕ) → k < 64 → bit_in result k ≡ image_holds self.now (right_of start k) }
        ensures limits { (self.now.width ≤ 65535) × (self.now.height ≤ 65535) }
    {
        let (width, height) = (self.width, self.height);
        if is_below(height, start.v) {
            held(width, start.h)
        } else {
            0
        }
    }

    /// The bits of the 64 pixels of a row from `start` on, the first at the high bit. Those that the
    /// image has not may be any.
    pub fn word(&self, start: Point) -> u64
        requires { pos 0 ≤ℤ start.h }
        ensures { (k : ℕ) → k < 64 → image_holds self.now (right_of start k) ≡ true
            → bit_in result k ≡ image_bit self.now (right_of start k) }
    {
        if is_below(self.height, start.v) {
            let column = start.h.unsigned_abs() as usize;
            let row = start.v.unsigned_abs() as usize;
            let stride = (usize::from(self.width) + 7) / 8;
            bits_from(self.rows, row * stride + column / 8, column % 8)
        } else {
            0
        }
    }

    /// The bit in a column and a row.
    fn row_bit(&self, column: usize, row: usize) -> bool
        requires column_in { column < self.now.width }
        requires row_in { row < self.now.height }
        ensures { result ≡ row_bit self.now column row }
    {
        let row_bytes = (usize::from(self.width) + 7) / 8;
        bit_of(
            byte(self.rows, row * row_bytes + column / 8),
            (column % 8) as u8,
        )
    }
}

/// The byte at a place, 0 past the last.
fn byte(bytes: &[u8], place: usize) -> u8
    ensures { result ≡ slice_index bytes.now place }
{
    match bytes.get(place) {
        Some(byte) => *byte,
        None => 0,
    }
}

/// Eight bytes from a place on, all of which there are, the first one high.
pub fn eight_within(bytes: &[u8], place: usize) -> u64
    requires { place + 8 ≤ length bytes.now }
    ensures { (k : ℕ) → k < 64 → bit_in result k ≡ bit_of (slice_index bytes.now (place + k / 8)) (k % 8) }
{
    let mut word: u64 = 0;
    for j in 0..8 {
        word = word * 256 + u64::from(bytes[place + j]);
    }
    word
}

/// Eight bytes from a place on, the first one high; 0 past the last.
fn eight_bytes(bytes: &[u8], place: usize) -> u64
    requires { place < 2 ^ 60 }
    ensures { (k : ℕ) → k < 64 → bit_in result k ≡ bit_of (slice_index bytes.now (place + k / 8)) (k % 8) }
{
    if place + 8 <= bytes.len() {
        return eight_within(bytes, place);
    }
    let mut word: u64 = 0;
    for j in 0..8 {
        word = word * 256 + u64::from(byte(bytes, place + j));
    }
    word
}

/// The 64 bits from a bit of the byte at a place on.
pub fn bits_from(bytes: &[u8], place: usize, first: usize) -> u64
    requires near { place < 2 ^ 60 }
    requires first_in { first < 8 }
    ensures { (k : ℕ) → k < 64 → bit_in result k
        ≡ bit_of (slice_index bytes.now (place + (first + k) / 8)) ((first + k) % 8) }
{
    let last = u64::from(byte(bytes, place + 8));
    joined(eight_bytes(bytes, place), last << 56, first)
}
