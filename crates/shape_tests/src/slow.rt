//! Round shapes and frames pixel by pixel, by the distances of centres.

use shape_strips::{Corner, Pen};
use tb_geom::{Point, Rect};
use test_pixels::pixels::{Pixels, mark};

/// A rectangle whose corners are quarters of an oval.
#[derive(Clone, Copy)]
pub struct Round {
    pub rect: Rect,
    pub corner: Corner,
}

/// The frame of a round shape, drawn by a pen.
#[derive(Clone, Copy)]
pub struct Framed {
    pub shape: Round,
    pub pen: Pen,
}

/// The inside that a frame leaves.
#[derive(Clone, Copy)]
pub struct Inside(pub Framed);

/// A side of an oval that rounds corners: its length, no longer than the shape's `side`.
fn fitted(length: u16, side: i32) -> i64 {
    i64::from(length).min(i64::from(side))
}

/// How far, in half pixels, the centre of a place lies from the middle of the oval of the corner that it lies in, whose
/// side is `length` long; 0 between the corners. There are `before` places before it and `after` places after it.
fn apart(length: i64, before: i32, after: i32) -> i64 {
    let from_start = i64::from(before).wrapping_mul(2).wrapping_add(1);
    let from_end = i64::from(after).wrapping_mul(2).wrapping_add(1);
    if from_start < length {
        length.wrapping_sub(from_start)
    } else if from_end < length {
        length.wrapping_sub(from_end)
    } else {
        0
    }
}

impl Round {
    /// Whether the shape has a pixel: the pixel's centre lies in the oval of a corner, or between the corners.
    pub fn has(&self, h: i32, v: i32) -> bool {
        let r = self.rect;
        if !r.contains(Point { h, v }) {
            return false;
        }
        let width = fitted(self.corner.width, r.right.wrapping_sub(r.left));
        let height = fitted(self.corner.height, r.bottom.wrapping_sub(r.top));
        let across = apart(
            width,
            h.wrapping_sub(r.left),
            r.right.wrapping_sub(1).wrapping_sub(h),
        );
        let down = apart(
            height,
            v.wrapping_sub(r.top),
            r.bottom.wrapping_sub(1).wrapping_sub(v),
        );
        is_in_oval(width, height, across, down)
    }

    /// Whether it has the four pixels beside one.
    fn surrounds(&self, h: i32, v: i32) -> bool {
        self.has(h.wrapping_sub(1), v)
            && self.has(h.wrapping_add(1), v)
            && self.has(h, v.wrapping_sub(1))
            && self.has(h, v.wrapping_add(1))
    }

    /// The shape that is smaller by a pen on each side.
    fn less(&self, pen: Pen) -> Round {
        let (width, height) = (i32::from(pen.width), i32::from(pen.height));
        Round {
            rect: Rect {
                left: self.rect.left.wrapping_add(width),
                top: self.rect.top.wrapping_add(height),
                right: self.rect.right.wrapping_sub(width),
                bottom: self.rect.bottom.wrapping_sub(height),
            },
            corner: Corner {
                width: less_twice(self.corner.width, pen.width),
                height: less_twice(self.corner.height, pen.height),
            },
        }
    }
}

/// Whether a place so many half pixels from the middle of an oval of this size lies in the oval.
fn is_in_oval(width: i64, height: i64, across: i64, down: i64) -> bool {
    let x = across.wrapping_mul(height);
    let y = down.wrapping_mul(width);
    let most = width.wrapping_mul(height);
    x.wrapping_mul(x).wrapping_add(y.wrapping_mul(y)) <= most.wrapping_mul(most)
}

/// A side of a corner, less a side of a pen twice.
fn less_twice(side: u16, pen: u16) -> u16 {
    side.saturating_sub(pen.saturating_mul(2))
}

impl Framed {
    /// Whether the inside that the frame leaves has a pixel.
    fn inside_has(&self, h: i32, v: i32) -> bool {
        self.shape.less(self.pen).has(h, v) && self.shape.has(h, v) && self.shape.surrounds(h, v)
    }
}

impl Pixels for Round {
    fn byte(&self, Point { h, v }: Point) -> u8 {
        mark(self.has(h, v))
    }
}

impl Pixels for Framed {
    fn byte(&self, Point { h, v }: Point) -> u8 {
        let Pen { width, height } = self.pen;
        let draws = width > 0 && height > 0;
        mark(draws && self.shape.has(h, v) && !self.inside_has(h, v))
    }
}

impl Pixels for Inside {
    fn byte(&self, Point { h, v }: Point) -> u8 {
        mark(self.0.inside_has(h, v))
    }
}
