//! The columns at which rows turn, whichever row that is.
ghost use Rattle.std.specs.Prelude.{◌≡◌, ℤ, int_le, ◌≤ℤ◌, ◌<ℤ◌, All};
ghost use Rattle.region_bytes.specs.Points.{IsInRange, in_rows};
ghost use Rattle.region_rows.specs.Columns.{seen_column};
ghost use Rattle.region_rows.specs.Edges.{inside, IsCoordinate};

use crate::layers::signed;
use crate::row::Row;

/// The column of the point `x`, as it is seen, if it comes after the column `h` and before `first`; else `first`.
fn nearer(up: bool, x: i32, h: i32, first: i32) -> i32
    requires in_range { IsCoordinate x }
    requires order { h <ℤ first }
    ensures on { h <ℤ result }
    ensures up_to { result ≤ℤ first }
    ensures steady { (z : ℤ) → h ≤ℤ z → z <ℤ result → int_le x (seen_column up z) ≡ int_le x (seen_column up h) }
{
    let column = signed(up, x);
    if column <= h {
        return first;
    }
    first.min(column)
}

/// The first column right of `h`, as it is seen, at which a point of the row lies, or `limit` if that comes first.
fn next_point(points: &[i32], up: bool, h: i32, limit: i32) -> i32
    requires in_range { All IsCoordinate points.now }
    requires order { h <ℤ limit }
    ensures on { h <ℤ result }
    ensures up_to { result ≤ℤ limit }
    ensures steady { (z : ℤ) → h ≤ℤ z → z <ℤ result
        → inside points.now (seen_column up z) ≡ inside points.now (seen_column up h) }
{
    let mut first = limit;
    for &x in points {
        first = nearer(up, x, h, first);
    }
    first
}

/// The first column right of `h`, as it is seen, at which a point of any row lies, or `limit` if that comes first.
pub fn next_column(rows: &[Row], up: bool, h: i32, limit: i32) -> i32
    requires in_range { All IsInRange rows.now }
    requires order { h <ℤ limit }
    ensures on { h <ℤ result }
    ensures up_to { result ≤ℤ limit }
    ensures steady { (z v : ℤ) → h ≤ℤ z → z <ℤ result
        → in_rows rows.now (seen_column up z) v ≡ in_rows rows.now (seen_column up h) v }
{
    let mut first = limit;
    for row in rows {
        first = next_point(row.points(), up, h, first);
    }
    first
}
