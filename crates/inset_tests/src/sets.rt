//! Sets of pixels, and bytes as words.

use region_bytes::RegionBytes;
use std::alloc::{AllocError, Global};
use tb_geom::{Point, Rect};
use test_pixels::pixels::{Pixels, mark};
use test_pixels::rect;

/// The rectangle of the sets within 3 by 3.
pub const SIDES: Rect = rect!(-1, -1, 2, 2);

/// How many of the 512 sets of pixels within 3 by 3 are tried.
pub const SETS: u16 = 64;

/// A set of pixels within 3 by 3, one bit for each.
#[derive(Clone, Copy)]
pub struct Small(pub u16);

impl Pixels for Small {
    fn byte(&self, point: Point) -> u8 {
        let mut bits = self.0;
        for v in SIDES.top..SIDES.bottom {
            for h in SIDES.left..SIDES.right {
                if point == (Point { h, v }) {
                    return mark(bits % 2 == 1);
                }
                bits /= 2;
            }
        }
        mark(false)
    }
}

/// The set of this number, another for each.
pub fn set_of(number: u16) -> Small {
    Small(number.wrapping_mul(73) % 512)
}

/// The rectangle of the mixed sets.
pub const FIELD: Rect = rect!(0, 0, 11, 9);

/// A set of pixels with holes, gaps and teeth, another for each number.
#[derive(Clone, Copy)]
pub struct Mixed(pub i32);

impl Pixels for Mixed {
    fn byte(&self, point: Point) -> u8 {
        let sum = point
            .h
            .wrapping_mul(5)
            .wrapping_add(point.v.wrapping_mul(3))
            .wrapping_add(point.h.wrapping_mul(point.v).wrapping_mul(self.0));
        mark(FIELD.contains(point) && sum.rem_euclid(7) != 3)
    }
}

/// The pixels that bytes say.
#[derive(Drop)]
pub struct Told<'a>(pub RegionBytes<'a>);

impl Pixels for Told<'_> {
    fn byte(&self, point: Point) -> u8 {
        mark(self.0.contains(point))
    }
}

/// The bytes of words.
pub fn bytes_of(alloc: Global, words: &[u16]) -> Result<Vec<u8>, AllocError> {
    let mut bytes = Vec::new(alloc);
    for word in words {
        bytes.extend_from_slice(&word.to_be_bytes())?;
    }
    Ok(bytes)
}
