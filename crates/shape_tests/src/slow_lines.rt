//! Lines and polygons pixel by pixel.

use shape_strips::Pen;
use tb_geom::Point;
use test_pixels::pixels::{Pixels, mark};

/// How far it is from one column or row to another.
fn far(from: i32, to: i32) -> i64 {
    i64::from(to).wrapping_sub(i64::from(from))
}

/// A line from one point to another, drawn by a pen that hangs below and right of it.
#[derive(Clone, Copy)]
pub struct Line {
    pub from: Point,
    pub to: Point,
    pub pen: Pen,
}

/// Whether the pixel in column `x` and row `y` is the nearest one, in its column, to a line that goes `w` columns to
/// the right and `k` rows down; of two that are as near, the lower one.
fn is_nearest(w: i64, k: i64, x: i64, y: i64) -> bool {
    let twice = w
        .wrapping_mul(y)
        .wrapping_sub(k.wrapping_mul(x))
        .wrapping_mul(2);
    0 <= x && x <= w && w.wrapping_neg() < twice && twice <= w
}

/// Whether the thin line between two points has a pixel.
fn thin_has(from: Point, to: Point, h: i32, v: i32) -> bool {
    let (w, k) = (far(from.h, to.h), far(from.v, to.v));
    let (x, y) = (far(from.h, h), far(from.v, v));
    if w == 0 && k == 0 {
        return x == 0 && y == 0;
    }
    if k.wrapping_abs() <= w.wrapping_abs() {
        if 0 < w {
            is_nearest(w, k, x, y)
        } else {
            is_nearest(
                w.wrapping_neg(),
                k.wrapping_neg(),
                far(to.h, h),
                far(to.v, v),
            )
        }
    } else if 0 < k {
        is_nearest(k, w, y, x)
    } else {
        is_nearest(
            k.wrapping_neg(),
            w.wrapping_neg(),
            far(to.v, v),
            far(to.h, h),
        )
    }
}

impl Line {
    /// Whether the pen covers the pixel while its upper left pixel is on the thin line.
    pub fn has(&self, h: i32, v: i32) -> bool {
        for i in 0..self.pen.width {
            for j in 0..self.pen.height {
                let (left, top) = (h.wrapping_sub(i32::from(i)), v.wrapping_sub(i32::from(j)));
                if thin_has(self.from, self.to, left, top) {
                    return true;
                }
            }
        }
        false
    }
}

impl Pixels for Line {
    fn byte(&self, Point { h, v }: Point) -> u8 {
        mark(self.has(h, v))
    }
}

/// A polygon of these points.
#[derive(Clone, Copy)]
pub struct Polygon<'a>(pub &'a [Point]);

/// Whether the way between two points, from above, passes the middle of the pixel's row at the pixel's centre or left
/// of it.
pub fn turns(from: Point, to: Point, h: i32, v: i32) -> bool {
    let (upper, lower) = if from.v < to.v {
        (from, to)
    } else {
        (to, from)
    };
    if v < upper.v || lower.v <= v {
        return false;
    }
    let down = far(upper.v, v).wrapping_mul(2).wrapping_add(1);
    let right = far(upper.h, h).wrapping_mul(2).wrapping_add(1);
    let way = down.wrapping_mul(far(upper.h, lower.h));
    way <= right.wrapping_mul(far(upper.v, lower.v))
}

impl Polygon<'_> {
    /// Whether an odd number of its edges turns the pixel.
    pub fn has(&self, h: i32, v: i32) -> bool {
        let [.., last] = self.0 else {
            return false;
        };
        let mut has = false;
        let mut from = *last;
        for to in self.0 {
            has = has != turns(from, *to, h, v);
            from = *to;
        }
        has
    }
}

impl Pixels for Polygon<'_> {
    fn byte(&self, Point { h, v }: Point) -> u8 {
        mark(self.has(h, v))
    }
}

/// The frame of a polygon of these points: the lines of its edges.
#[derive(Clone, Copy)]
pub struct PolygonFrame<'a> {
    pub points: &'a [Point],
    pub pen: Pen,
}

impl PolygonFrame<'_> {
    /// Whether the line of an edge has the pixel.
    pub fn has(&self, h: i32, v: i32) -> bool {
        let [.., last] = self.points else {
            return false;
        };
        let pen = self.pen;
        let mut from = *last;
        for to in self.points {
            let to = *to;
            if (Line { from, to, pen }).has(h, v) {
                return true;
            }
            from = to;
        }
        false
    }
}

impl Pixels for PolygonFrame<'_> {
    fn byte(&self, Point { h, v }: Point) -> u8 {
        mark(self.has(h, v))
    }
}
