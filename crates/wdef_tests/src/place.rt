//! Where a window lies on the map that it is drawn on.
ghost use Rattle.std.specs.Prelude.{◌≡◌, pos, ◌+ℤ◌};

use tb_geom::Point;

/// Where the window's own 0 0 lies on the map.
pub const ORIGIN: Point = Point { h: 10, v: 20 };

/// The point of the map at which the window's pixel in this column and row lies.
pub fn place_of(column: i8, row: i8) -> Point
    ensures { result ≡ record { h = column +ℤ pos 10; v = row +ℤ pos 20 } }
{
    Point {
        h: i32::from(column) + ORIGIN.h,
        v: i32::from(row) + ORIGIN.v,
    }
}
