//! Points seen from a window, and regions moved on the screen.
ghost use Rattle.std.specs.Prelude.{◌≡◌, ◌-ℤ◌, true, All};
ghost use Rattle.tb_geom.specs.declared.point.Point.{Point};
ghost use Rattle.tb_geom.specs.Points.{minus};
ghost use Rattle.tb_geom.specs.Pixels.{holds};
ghost use Rattle.tb_geom.specs.Rects.{in_plane, is_coordinate};
ghost use Rattle.scan_region.specs.Moves.{StaysInRange};
ghost use Rattle.window_list.specs.Owned.{AreMoved};

use scan_region::Region;
use tb_geom::Point;

/// The point of the screen in the coordinates of a window at this place; so also the way from the place to the point.
pub fn local(point: Point, place: Point) -> Point
    requires point { in_plane point ≡ true }
    requires place { in_plane place ≡ true }
    ensures { result ≡ minus point place }
{
    Point {
        h: difference(point.h, place.h),
        v: difference(point.v, place.v),
    }
}

/// How far a coordinate lies past another.
fn difference(there: i32, here: i32) -> i32
    requires there { is_coordinate there ≡ true }
    requires here { is_coordinate here ≡ true }
    ensures { result ≡ there -ℤ here }
{
    there - here
}

/// Moves a region, which stays in range.
pub fn move_by(region: &mut Region, by: Point)
    requires { StaysInRange region.old by }
    ensures { (p : Point) → holds region.new p ≡ holds region.old (minus p by) }
{
    region.offset(by.h, by.v).unwrap();
}

/// Moves each of these regions, which stay in range.
pub fn move_all(regions: &mut [Region], by: Point)
    requires { All (λ region. StaysInRange region by) regions.old }
    ensures { AreMoved by regions.old regions.new }
{
    for at in 0..regions.len() {
        move_by(&mut regions[at], by);
    }
}
