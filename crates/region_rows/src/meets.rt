//! Whether rows have a pixel of a rectangle.
ghost use Rattle.std.specs.Prelude.{◌≡◌, ◌↔◌, ℕ, ◌+◌, ◌<◌, ◌≤◌, length, true, ℤ, ◌<ℤ◌, ◌≤ℤ◌, IsTrue, IfSome, All};
ghost use Rattle.tb_geom.specs.declared.point.Point.{Point};
ghost use Rattle.tb_geom.specs.Rects.{rect_holds};
ghost use Rattle.region_bytes.specs.Points.{ArePointRows, IsInRange, IsPointRow, in_rows};
ghost use Rattle.region_rows.specs.Edges.{inside, IsRising};
ghost use Rattle.region_rows.specs.Hull.{row_in};
ghost use Rattle.region_rows.specs.Meets.{HasBetween, HasTurn};
ghost use Rattle.region_rows.specs.Rows.{AreRows};

use crate::columns::next_column;
use crate::contains::is_in_rows;
use crate::kernel::{Cursor, count_to};
use crate::row::Row;
use tb_geom::Rect;

/// Whether a row has a pixel from the column `left` up to `right`.
fn has_between(points: &[i32], left: i32, right: i32) -> bool
    requires rising { IsRising points.now }
    requires order { left <ℤ right }
    ensures { IsTrue result ↔ HasBetween left right (inside points.now) }
{
    let at = count_to(points, Cursor::START, left);
    if at.inside {
        return true;
    }
    match points.get(at.next) {
        Some(x) => *x < right,
        None => false,
    }
}

/// How many rows lie at the row `v` or above it.
fn rows_to(rows: &[Row], v: i32) -> usize
    ensures within { result ≤ length rows.now }
    ensures upper { (k : ℕ) → k < result → (row_in rows.now k).0 ≤ℤ v }
    ensures lower { result < length rows.now → v <ℤ (row_in rows.now result).0 }
{
    let mut count = 0;
    while count < rows.len() {
        if v < rows[count].v() {
            return count;
        }
        count += 1;
    }
    count
}

/// The rows from the first one on that turns a column from `left` up to `right`.
fn turning_rows(rows: &[Row], left: i32, right: i32) -> &[Row]
    requires each { All IsPointRow rows.now }
    requires in_range { All IsInRange rows.now }
    requires order { left <ℤ right }
    ensures pixels { (h v : ℤ) → left ≤ℤ h → h <ℤ right → in_rows result.now h v ≡ in_rows rows.now h v }
    ensures in_range { All IsInRange result.now }
{
    let mut rest = rows;
    while let [row, after @ ..] = rest {
        if has_between(row.points(), left, right) {
            return rest;
        }
        rest = after;
    }
    rest
}

/// As many columns of a row are asked at most, each of all rows.
const TRIES: usize = 16;

/// Whether the row `v` has a pixel from the column `left` up to `right`, if a few columns tell.
fn leaves_between(rows: &[Row], v: i32, left: i32, right: i32) -> Option<bool>
    requires in_range { All IsInRange rows.now }
    ensures { IfSome result (λ found. IsTrue found ↔ HasBetween left right (λ h. in_rows rows.now h v)) }
{
    let mut h = left;
    for _ in 0..TRIES {
        if right <= h {
            return Some(false);
        }
        if is_in_rows(rows, h, v) {
            return Some(true);
        }
        h = next_column(rows, false, h, right);
    }
    None
}

/// Whether one of the rows above `bottom` turns a column from `left` up to `right`.
fn has_turn(rows: &[Row], bottom: i32, left: i32, right: i32) -> bool
    requires rows { ArePointRows rows.now }
    requires order { left <ℤ right }
    ensures { IsTrue result ↔ HasTurn rows.now bottom left right }
{
    for row in rows {
        if bottom <= row.v() {
            return false;
        }
        if has_between(row.points(), left, right) {
            return true;
        }
    }
    false
}

/// Whether rows have a pixel of the rectangle. One in its first row is what the rows of points up to there leave. Where that
/// row has none in its columns, the next row of points that turns one of them has one. None where a few columns of the
/// first row do not tell, since each is asked of all rows above.
pub fn meets_rows(rows: &[Row], rect: Rect) -> Option<bool>
    requires rows { AreRows rows.now }
    requires across { rect.left <ℤ rect.right }
    requires down { rect.top <ℤ rect.bottom }
    ensures { IfSome result
        (λ met. IsTrue met ↔ ((p : Point) × (in_rows rows.now p.h p.v ≡ true) × (rect_holds rect p ≡ true))) }
{
    let (upper, lower) = rows.split_at(rows_to(rows, rect.top));
    let turning = turning_rows(upper, rect.left, rect.right);
    match leaves_between(turning, rect.top, rect.left, rect.right) {
        Some(true) => Some(true),
        Some(false) => Some(has_turn(lower, rect.bottom, rect.left, rect.right)),
        None => None,
    }
}
