//! The exact box of rows of points.
ghost use Rattle.std.specs.Prelude.{◌≡◌, ◌-◌, ◌≤◌, length, slice_index_or, pos};
ghost use Rattle.region_rows.specs.Rows.{AreRows};
ghost use Rattle.region_rows.specs.Hull.{IsHull};

use crate::row::Row;
use tb_geom::{FIRST_SIDE, LAST_SIDE, Rect};

/// The rectangle of no pixel.
pub const NOTHING: Rect = Rect {
    left: 0,
    top: 0,
    right: 0,
    bottom: 0,
};

/// The first and the last column of a row.
fn ends(points: &[i32]) -> (i32, i32)
    requires { 2 ≤ length points.now }
    ensures first { result.0 ≡ slice_index_or points.now 0 (pos 0) }
    ensures last { result.1 ≡ slice_index_or points.now (length points.now - 1) (pos 0) }
{
    match points {
        [first, .., last] => (*first, *last),
        _ => unreachable!(),
    }
}

/// The rectangle from the first to the last row and column of the points, 0 0 0 0 where there are none.
pub fn rows_hull(rows: &[Row]) -> Rect
    requires { AreRows rows.now }
    ensures { IsHull rows.now result }
{
    let (Some(first), Some(last)) = (rows.first(), rows.last()) else {
        return NOTHING;
    };
    let mut left = LAST_SIDE;
    let mut right = FIRST_SIDE;
    for row in rows {
        let (least, greatest) = ends(row.points());
        left = left.min(least);
        right = right.max(greatest);
    }
    Rect {
        left,
        top: first.v(),
        right,
        bottom: last.v(),
    }
}
