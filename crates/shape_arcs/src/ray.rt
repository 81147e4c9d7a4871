//! Where the rows of a rectangle turn from a direction on.
ghost use Rattle.std.specs.Prelude.{◌≡◌, ◌≤◌, ◌<◌, ◌<ℤ◌, ◌≤ℤ◌, true, false, ℕ, ℤ, nat_le, int_le};
ghost use Rattle.tb_geom.specs.Rects.{is_coordinate, is_in_range};
ghost use Rattle.region_rows.specs.Counts.{count_to};
ghost use Rattle.shape_arcs.specs.Directions.{direction};
ghost use Rattle.shape_arcs.specs.Rays.{is_from, seen};
ghost use Rattle.shape_arcs.specs.Sights.{from_at, IsNear, IsTurn, PointsSomewhere, PointsUp, opposite};

use crate::directions::direction;
use crate::sight::{is_from, seen};
use tb_geom::{Point, Rect};

/// Where a row turns: from the column on its pixels are from a direction on and those left of it are not, or the other
/// way round.
#[derive(Clone, Copy)]
pub struct Turn {
    pub column: i32,
    pub rises: bool,
}

/// Whether the pixel of the row `v` that has so many columns of the rectangle left of it is from a direction on.
fn from_at(rect: Rect, direction: Point, v: i32, columns: u64) -> bool
    requires in_range { is_in_range rect ≡ true }
    requires near { IsNear direction }
    requires top { rect.top ≤ℤ v }
    requires bottom { v <ℤ rect.bottom }
    requires within { columns < count_to rect.left rect.right }
    ensures { result ≡ from_at rect direction v columns }
{
    let h = rect.left + columns as i32;
    is_from(direction, seen(rect, Point { h, v }))
}

/// How many columns of the row `v` lie before a direction that points up. What is from it on stays so to the right, so
/// that the first column that is from it on is found by halving.
fn columns_before(rect: Rect, direction: Point, v: i32, columns: u64) -> u64
    requires in_range { is_in_range rect ≡ true }
    requires near { IsNear direction }
    requires up { PointsUp direction }
    requires top { rect.top ≤ℤ v }
    requires bottom { v <ℤ rect.bottom }
    requires all { columns ≡ count_to rect.left rect.right }
    ensures few { result ≤ columns }
    ensures edge { (i : ℕ) → i < columns → from_at rect direction v i ≡ nat_le result i }
{
    let mut low = 0;
    let mut high = columns;
    while low < high {
        let middle = (low + high) / 2;
        if from_at(rect, direction, v, middle) {
            high = middle;
        } else {
            low = middle + 1;
        }
    }
    low
}

/// How many columns there are from `low` up to `high`.
fn count(low: i32, high: i32) -> u64
    requires low { is_coordinate low ≡ true }
    requires high { is_coordinate high ≡ true }
    ensures value { result ≡ count_to low high }
    ensures most { result < 32768 }
{
    if low < high { (high - low) as u64 } else { 0 }
}

/// The first column of the row `v` from a direction on that points up, the right side where there is none.
fn first_from(rect: Rect, direction: Point, v: i32) -> i32
    requires in_range { is_in_range rect ≡ true }
    requires near { IsNear direction }
    requires up { PointsUp direction }
    requires top { rect.top ≤ℤ v }
    requires bottom { v <ℤ rect.bottom }
    requires some { rect.left <ℤ rect.right }
    ensures { IsTurn rect direction v result true }
{
    let columns = count(rect.left, rect.right);
    rect.left + columns_before(rect, direction, v, columns) as i32
}

/// Whether a direction points up, or level to the right.
fn points_up(direction: Point) -> bool
    ensures up { result ≡ true → PointsUp direction }
    ensures down { result ≡ false → PointsSomewhere direction → PointsUp (opposite direction) }
{
    direction.v < 0 || direction.v == 0 && 0 < direction.h
}

/// Where the row `v` turns from a degree on.
pub fn turn_at(rect: Rect, degree: i32, v: i32) -> Turn
    requires in_range { is_in_range rect ≡ true }
    requires top { rect.top ≤ℤ v }
    requires bottom { v <ℤ rect.bottom }
    requires some { rect.left <ℤ rect.right }
    ensures { IsTurn rect (direction degree) v result.column result.rises }
{
    let direction = direction(degree);
    let rises = points_up(direction);
    if rises {
        return Turn {
            column: first_from(rect, direction, v),
            rises,
        };
    }
    let opposite = Point {
        h: -direction.h,
        v: -direction.v,
    };
    Turn {
        column: first_from(rect, opposite, v),
        rises,
    }
}
