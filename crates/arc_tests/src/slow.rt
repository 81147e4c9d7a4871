//! Arcs pixel by pixel, by degrees.

use shape_strips::Pen;
use tb_geom::{Point, Rect};
use test_pixels::pixels::{Pixels, mark};

/// The tangents of the degrees from 0 to 45, as 65536ths.
const TANGENTS: [i64; 46] = [
    0, 1144, 2289, 3435, 4583, 5734, 6888, 8047, 9210, 10380, 11556, 12739, 13930, 15130, 16340,
    17560, 18792, 20036, 21294, 22566, 23853, 25157, 26478, 27818, 29179, 30560, 31964, 33392,
    34846, 36327, 37837, 39378, 40951, 42560, 44205, 45889, 47615, 49385, 51202, 53070, 54991,
    56970, 59009, 61113, 63287, 65536,
];

/// The tangent of the angle of a degree from the top or from the side, from 0 to 45.
fn tangent(degree: i32) -> i64 {
    match TANGENTS.get(degree.unsigned_abs() as usize) {
        Some(tangent) => *tangent,
        None => 0,
    }
}

/// How far right and how far down the direction of a degree goes.
fn direction(degree: i32) -> (i64, i64) {
    let degree = degree.rem_euclid(360);
    let far = 65536_i64;
    match degree / 45 {
        0 => (tangent(degree), far.wrapping_neg()),
        1 => (far, tangent(90_i32.wrapping_sub(degree)).wrapping_neg()),
        2 => (far, tangent(degree.wrapping_sub(90))),
        3 => (tangent(180_i32.wrapping_sub(degree)), far),
        4 => (tangent(degree.wrapping_sub(180)).wrapping_neg(), far),
        5 => (far.wrapping_neg(), tangent(270_i32.wrapping_sub(degree))),
        6 => (
            far.wrapping_neg(),
            tangent(degree.wrapping_sub(270)).wrapping_neg(),
        ),
        _ => (
            tangent(360_i32.wrapping_sub(degree)).wrapping_neg(),
            far.wrapping_neg(),
        ),
    }
}

/// How far the centre of a pixel lies right of the middle of two sides, or below, in half pixels.
fn past(low: i32, high: i32, at: i32) -> i64 {
    let twice = i64::from(at).wrapping_mul(2).wrapping_add(1);
    twice.wrapping_sub(i64::from(low).wrapping_add(i64::from(high)))
}

/// How long a side is.
fn side(low: i32, high: i32) -> i64 {
    i64::from(high).wrapping_sub(i64::from(low))
}

/// An oval, or its frame, in a wedge.
#[derive(Clone, Copy)]
pub struct SlowArc {
    pub rect: Rect,
    pub start: i16,
    pub angle: i16,
}

impl SlowArc {
    /// Whether a pixel is seen in the direction of a degree, or clockwise from there by less than half a turn.
    pub fn is_from(&self, degree: i32, h: i32, v: i32) -> bool {
        let r = self.rect;
        let mut x = past(r.left, r.right, h).wrapping_mul(side(r.top, r.bottom));
        let mut y = past(r.top, r.bottom, v).wrapping_mul(side(r.left, r.right));
        if x == 0 && y == 0 {
            x = 0;
            y = -1;
        }
        let (a, b) = direction(degree);
        let cross = a.wrapping_mul(y).wrapping_sub(b.wrapping_mul(x));
        let dot = a.wrapping_mul(x).wrapping_add(b.wrapping_mul(y));
        0 < cross || cross == 0 && 0 < dot
    }

    /// Whether the wedge has a pixel: it is passed by one of the degrees' steps, from each degree to the next.
    fn wedge_has(&self, h: i32, v: i32) -> bool {
        let (mut start, mut angle) = (i32::from(self.start), i32::from(self.angle));
        if angle < 0 {
            start = start.wrapping_add(angle);
            angle = angle.wrapping_neg();
        }
        for step in 0..angle.min(360) {
            let degree = start.wrapping_add(step);
            if self.is_from(degree, h, v) && !self.is_from(degree.wrapping_add(1), h, v) {
                return true;
            }
        }
        false
    }

    /// Whether the oval of a rectangle has a pixel.
    fn oval_has(&self, rect: Rect, h: i32, v: i32) -> bool {
        if !rect.contains(Point { h, v }) {
            return false;
        }
        let (w, k) = (side(rect.left, rect.right), side(rect.top, rect.bottom));
        let x = past(rect.left, rect.right, h).wrapping_mul(k);
        let y = past(rect.top, rect.bottom, v).wrapping_mul(w);
        let most = w.wrapping_mul(k);
        x.wrapping_mul(x).wrapping_add(y.wrapping_mul(y)) <= most.wrapping_mul(most)
    }

    /// Whether the arc has a pixel.
    pub fn has(&self, h: i32, v: i32) -> bool {
        self.oval_has(self.rect, h, v) && self.wedge_has(h, v)
    }
}

impl Pixels for SlowArc {
    fn byte(&self, Point { h, v }: Point) -> u8 {
        mark(self.has(h, v))
    }
}

/// The frame of an arc.
#[derive(Clone, Copy)]
pub struct SlowFrame {
    pub arc: SlowArc,
    pub pen: Pen,
}

impl SlowFrame {
    /// Whether the inside that the frame of the oval leaves has a pixel of the oval.
    fn inside_has(&self, h: i32, v: i32) -> bool {
        let (width, height) = (i32::from(self.pen.width), i32::from(self.pen.height));
        let outer = self.arc.rect;
        let inner = Rect {
            left: outer.left.wrapping_add(width),
            top: outer.top.wrapping_add(height),
            right: outer.right.wrapping_sub(width),
            bottom: outer.bottom.wrapping_sub(height),
        };
        self.arc.oval_has(inner, h, v)
            && self.arc.oval_has(outer, h.wrapping_sub(1), v)
            && self.arc.oval_has(outer, h.wrapping_add(1), v)
            && self.arc.oval_has(outer, h, v.wrapping_sub(1))
            && self.arc.oval_has(outer, h, v.wrapping_add(1))
    }

    /// Whether the frame has a pixel.
    pub fn has(&self, h: i32, v: i32) -> bool {
        let draws = 0 < self.pen.width && 0 < self.pen.height;
        draws && self.arc.has(h, v) && !self.inside_has(h, v)
    }
}

impl Pixels for SlowFrame {
    fn byte(&self, Point { h, v }: Point) -> u8 {
        mark(self.has(h, v))
    }
}
