//! Whether rows have a pixel.
ghost use Rattle.std.specs.Prelude.{◌≡◌, ◌&&◌, int_le};
ghost use Rattle.region_bytes.specs.Points.{in_rows};
ghost use Rattle.region_rows.specs.Edges.{inside};

use crate::row::Row;

/// Whether an odd number of columns is at `h` or left of it.
fn is_inside(points: &[i32], h: i32) -> bool
    ensures { result ≡ inside points.now h }
{
    let mut within = false;
    for &x in points {
        if x <= h {
            within = !within;
        }
    }
    within
}

/// Whether the row turns the pixel at the column `h` and the row `v`: it lies there or above, with an odd
/// number of points there or left of it.
fn turns(row: &Row, h: i32, v: i32) -> bool
    ensures { result ≡ (int_le row.now.0 v && inside row.now.1 h) }
{
    row.v() <= v && is_inside(row.points(), h)
}

/// Whether an odd number of points is at the column `h` and the row `v`, left of it, above it or both.
pub fn is_in_rows(rows: &[Row], h: i32, v: i32) -> bool
    ensures { result ≡ in_rows rows.now h v }
{
    let mut within = false;
    for row in rows {
        if turns(row, h, v) {
            within = !within;
        }
    }
    within
}
