//! The inversion points of bytes.
ghost use Rattle.std.specs.Prelude.{◌≡◌, false, pos};
ghost use Rattle.std.specs.Iterator.{YieldsFirst, item_count};
ghost use Rattle.region_bytes.specs.Words.{words_in};
ghost use Rattle.region_bytes.specs.Scan.{points_in};

use crate::writing::END;
use std::marker::Model;
use tb_geom::Point;

/// The inversion points of a region's data, in the order in which they stand, seen as the list of
/// those that are left. It takes no memory.
#[derive(Debug, Drop)]
pub struct DataPoints<'a> {
    /// Whether the next word stands in a row, after the row's place.
    within: bool,
    v: i32,
    rest: &'a [u8],
}

impl<'a> Model for DataPoints<'a> {
    ghost use Rattle.std.specs.Prelude.{List};
    ghost use Rattle.tb_geom.specs.declared.point.Point.{Point};

    ghost Value = { List Point };

    ghost use Rattle.region_bytes.specs.Words.{words_in};
    ghost use Rattle.region_bytes.specs.Scan.{points_in};

    ghost view = { λ s. points_in s.within s.v (words_in s.rest.now) };
}

impl<'a> DataPoints<'a> {
    /// The points of these bytes, which begin with the place of a row.
    pub fn new(bytes: &'a [u8]) -> Self
        ensures { result ≡ points_in false (pos 0) (words_in bytes.entry.now) }
    {
        DataPoints {
            within: false,
            v: 0,
            rest: bytes,
        }
    }
}

impl<'a> Iterator for DataPoints<'a> {
    type Item = Point;

    ghost next_gives = { YieldsFirst (λ rest. rest) };

    ghost remaining = { item_count (λ rest. rest) };

    fn next(&mut self) -> Option<Point> {
        'words: loop {
            let [high, low, rest @ ..] = self.rest else {
                return None;
            };
            let word = i32::from(i16::from_be_bytes([*high, *low]));
            self.rest = rest;
            if !self.within {
                self.v = word;
                self.within = true;
                continue;
            }
            if word == END {
                self.within = false;
                continue;
            }
            return Some(Point { h: word, v: self.v });
        }
    }
}
