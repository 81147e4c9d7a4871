//! Checksums.

use bit_map::BitMap;
use tb_geom::Point;

/// A checksum of numbers in their order. It begins at 0; each number is added to 31 times the sum before it, modulo 2 to the
/// 32nd power.
#[derive(Drop)]
pub struct Checksum {
    pub sum: u32,
}

impl Checksum {
    /// The checksum of no number.
    pub fn new() -> Checksum {
        Checksum { sum: 0 }
    }

    /// Adds a number.
    pub fn add(&mut self, number: u32) {
        self.sum = self.sum.wrapping_mul(31).wrapping_add(number);
    }

    /// Adds all pixels of a map, row by row: 1 for a black one, else 0.
    pub fn add_map(&mut self, map: &BitMap) {
        let bounds = map.bounds();
        for v in bounds.top..bounds.bottom {
            for h in bounds.left..bounds.right {
                let point = Point { h, v };
                if map.bounds().contains(point) {
                    self.add(u32::from(map.get(point)));
                }
            }
        }
    }
}
