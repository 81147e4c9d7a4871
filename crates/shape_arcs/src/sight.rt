//! Where pixels are seen from the middle of a rectangle.
ghost use Rattle.std.specs.Prelude.{◌≡◌, true, ◌*ℤ◌, ◌-ℤ◌};
ghost use Rattle.tb_geom.specs.Rects.{in_plane, is_in_range};
ghost use Rattle.region_rows.specs.Edges.{IsCoordinate};
ghost use Rattle.shape_strips.specs.Places.{IsWithin};
ghost use Rattle.shape_arcs.specs.Rays.{cross, dot, is_from, past_middle, seen};
ghost use Rattle.shape_arcs.specs.Sights.{IsNear};

use tb_geom::{Point, Rect};

/// How far the centre of a column or a row lies past the middle of two sides, in half pixels.
fn past_middle(low: i32, high: i32, at: i32) -> i32
    requires low_in { IsCoordinate low }
    requires high_in { IsCoordinate high }
    requires at_in { IsCoordinate at }
    ensures value { result ≡ past_middle low high at }
    ensures within { IsWithin result 65536 }
{
    2 * at + 1 - (low + high)
}

/// That distance, as many times as there are rows or columns between the other two sides.
fn stretched(low: i32, high: i32, at: i32, first: i32, last: i32) -> i32
    requires low_in { IsCoordinate low }
    requires high_in { IsCoordinate high }
    requires at_in { IsCoordinate at }
    requires first_in { IsCoordinate first }
    requires last_in { IsCoordinate last }
    ensures { result ≡ past_middle low high at *ℤ (last -ℤ first) }
{
    past_middle(low, high, at) * (last - first)
}

/// Where a pixel is seen from the middle of a rectangle that is stretched to a square; the pixel in the middle,
/// straight up.
pub fn seen(rect: Rect, pixel: Point) -> Point
    requires in_range { is_in_range rect ≡ true }
    requires pixel_in { in_plane pixel ≡ true }
    ensures { result ≡ seen rect pixel }
{
    let h = stretched(rect.left, rect.right, pixel.h, rect.top, rect.bottom);
    let v = stretched(rect.top, rect.bottom, pixel.v, rect.left, rect.right);
    if h == 0 && v == 0 {
        return Point { h: 0, v: -1 };
    }
    Point { h, v }
}

/// A product, whose first factor lies no further than 65536 from 0.
fn product(a: i32, b: i32) -> i64
    requires { IsWithin a 65536 }
    ensures value { result ≡ a *ℤ b }
    ensures within { IsWithin result 140737488355328 }
{
    i64::from(a) * i64::from(b)
}

/// Above 0 where a point lies clockwise from a direction, by less than half a turn.
fn cross(direction: Point, point: Point) -> i64
    requires { IsNear direction }
    ensures { result ≡ cross direction point }
{
    product(direction.h, point.v) - product(direction.v, point.h)
}

/// Above 0 where a point lies to the side of a direction, by less than a quarter of a turn.
fn dot(direction: Point, point: Point) -> i64
    requires { IsNear direction }
    ensures { result ≡ dot direction point }
{
    product(direction.h, point.h) + product(direction.v, point.v)
}

/// Whether a point lies on the ray of a direction, or clockwise from it by less than half a turn.
pub fn is_from(direction: Point, point: Point) -> bool
    requires { IsNear direction }
    ensures { result ≡ is_from direction point }
{
    let cross = cross(direction, point);
    if cross == 0 {
        return 0 < dot(direction, point);
    }
    0 < cross
}
