//! The inversion points of a region's bytes, in both forms.
ghost use Rattle.std.specs.Prelude.{◌≡◌, ◌∷◌, [], false, pos};
ghost use Rattle.std.specs.Iterator.{YieldsFirst, item_count};
ghost use Rattle.region_bytes.specs.Words.{words_in};
ghost use Rattle.region_bytes.specs.Scan.{points_in};
ghost use Rattle.region_bytes.specs.Points.{corners};

use crate::data_points::DataPoints;
use std::marker::Model;
use tb_geom::{Point, Rect};

/// The inversion points of a region, row by row from the top down, as many as are left. They take no
/// memory.
#[derive(Debug, Drop)]
pub struct Points<'a> {
    /// The points of a rectangle, and how many of them are given.
    corners: [Point; 4],
    given: usize,
    rest: DataPoints<'a>,
}

impl<'a> Model for Points<'a> {
    ghost use Rattle.std.specs.Prelude.{◌≡◌, List, ◌++◌, length, drop};
    ghost use Rattle.tb_geom.specs.declared.point.Point.{Point};

    ghost Value = { List Point };

    ghost view = { λ s. drop s.given s.corners ++ s.rest };

    ghost invariant = { λ s. length s.corners ≡ 4 };
}

impl<'a> Points<'a> {
    /// The points of a rectangle.
    pub(crate) fn of_rect(rect: Rect) -> Self
        ensures { result ≡ corners rect }
    {
        Points {
            corners: corners(rect),
            given: 0,
            rest: DataPoints::new(&[]),
        }
    }

    /// The points of data.
    pub(crate) fn of_data(bytes: &'a [u8]) -> Self
        ensures { result ≡ points_in false (pos 0) (words_in bytes.entry.now) }
    {
        Points {
            corners: [Point { h: 0, v: 0 }; 4],
            given: 4,
            rest: DataPoints::new(bytes),
        }
    }
}

/// The four points of a rectangle, the upper two first.
fn corners(rect: Rect) -> [Point; 4]
    ensures { result ≡ corners rect }
{
    [
        Point {
            h: rect.left,
            v: rect.top,
        },
        Point {
            h: rect.right,
            v: rect.top,
        },
        Point {
            h: rect.left,
            v: rect.bottom,
        },
        Point {
            h: rect.right,
            v: rect.bottom,
        },
    ]
}

impl<'a> Iterator for Points<'a> {
    type Item = Point;

    ghost next_gives = { YieldsFirst (λ rest. rest) };

    ghost remaining = { item_count (λ rest. rest) };

    fn next(&mut self) -> Option<Point> {
        if self.given < 4 {
            let point = self.corners[self.given];
            self.given += 1;
            return Some(point);
        }
        self.rest.next()
    }
}
