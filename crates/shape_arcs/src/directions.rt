//! Directions by whole degrees.
ghost use Rattle.std.specs.Prelude.{◌≡◌, ◌<◌, ◌≤◌, ◌≤ℤ◌, pos};
ghost use Rattle.shape_arcs.specs.Directions.{direction, first_quarter, quarters, tangent};
ghost use Rattle.shape_arcs.specs.Sights.{IsNear};

use tb_geom::Point;

/// 65536 times the tangents of the degrees from 0 to 45, rounded.
const TANGENTS: [u32; 46] = [
    0, 1144, 2289, 3435, 4583, 5734, 6888, 8047, 9210, 10380, 11556, 12739, 13930, 15130, 16340,
    17560, 18792, 20036, 21294, 22566, 23853, 25157, 26478, 27818, 29179, 30560, 31964, 33392,
    34846, 36327, 37837, 39378, 40951, 42560, 44205, 45889, 47615, 49385, 51202, 53070, 54991,
    56970, 59009, 61113, 63287, 65536,
];

/// The tangent of one of them.
fn tangent(degree: usize) -> i32
    requires { degree ≤ 45 }
    ensures value { result ≡ pos (tangent degree) }
    ensures low { pos 0 ≤ℤ result }
    ensures high { result ≤ℤ pos 65536 }
{
    TANGENTS[degree] as i32
}

/// The direction of a degree below 90.
fn first_quarter(degree: usize) -> Point
    requires { degree < 90 }
    ensures value { result ≡ first_quarter degree }
    ensures near { IsNear result }
{
    if degree <= 45 {
        Point {
            h: tangent(degree),
            v: -65536,
        }
    } else {
        Point {
            h: 65536,
            v: -tangent(90 - degree),
        }
    }
}

/// A direction, so many quarters of a turn further.
fn turned(direction: Point, count: usize) -> Point
    requires { IsNear direction }
    ensures value { result ≡ quarters count direction }
    ensures near { IsNear result }
{
    let mut turned = direction;
    for _ in 0..count {
        turned = Point {
            h: -turned.v,
            v: turned.h,
        };
    }
    turned
}

/// The direction of a whole degree, which may be any, clockwise from straight up.
pub fn direction(degree: i32) -> Point
    ensures value { result ≡ direction degree }
    ensures near { IsNear result }
{
    let degree = degree.rem_euclid(360) as usize;
    turned(first_quarter(degree % 90), degree / 90)
}
