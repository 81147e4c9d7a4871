//! Where a window's picture lies on the screen.
ghost use Rattle.std.specs.Prelude.{◌≡◌, ◌+ℤ◌, true};
ghost use Rattle.tb_geom.specs.Points.{plus};
ghost use Rattle.tb_geom.specs.Rects.{in_plane, is_coordinate};

use tb_geom::Point;

/// Where the 0 0 of a picture lies on the screen, whose origin in a window at this place is given.
pub fn picture_place(place: Point, origin: Point) -> Point
    requires placed { in_plane place ≡ true }
    requires origin { in_plane origin ≡ true }
    ensures { result ≡ plus place origin }
{
    Point {
        h: sum(place.h, origin.h),
        v: sum(place.v, origin.v),
    }
}

/// The sum of two coordinates.
fn sum(a: i32, b: i32) -> i32
    requires a { is_coordinate a ≡ true }
    requires b { is_coordinate b ≡ true }
    ensures { result ≡ a +ℤ b }
{
    a + b
}
