//! Insets and frames pixel by pixel, as the definition says them.

use tb_geom::Point;
use test_pixels::pixels::{Pixels, mark};

/// The inset of a set.
#[derive(Clone, Copy)]
pub struct SlowInset<P> {
    pub set: P,
    pub dh: i16,
    pub dv: i16,
}

/// The frame of a set, drawn by a pen of so many columns and rows.
#[derive(Clone, Copy)]
pub struct SlowFrame<P> {
    pub set: P,
    pub pen: (u8, u8),
}

/// What pixels are asked of: whether all of them are in a set, and whether one is.
#[derive(Clone, Copy)]
struct Asked {
    all: bool,
    one: bool,
}

impl Asked {
    fn none() -> Asked {
        Asked {
            all: true,
            one: false,
        }
    }

    fn ask(&mut self, has: bool) {
        self.all = self.all && has;
        self.one = self.one || has;
    }

    /// All have to be, or one where the distance is negative.
    fn answer(&self, distance: i16) -> bool {
        if distance < 0 { self.one } else { self.all }
    }
}

/// Whether the pixels of a row within the distance keep a pixel.
fn keeps_across<P: Pixels>(set: &P, point: Point, dh: i16) -> bool {
    let far = i32::from(dh.unsigned_abs());
    let mut asked = Asked::none();
    for i in -far..far + 1 {
        let h = point.h.wrapping_add(i);
        asked.ask(set.byte(Point { h, v: point.v }) == b'#');
    }
    asked.answer(dh)
}

/// Whether those of a column, which the rows keep, keep the pixel.
fn keeps<P: Pixels>(set: &P, point: Point, dh: i16, dv: i16) -> bool {
    let far = i32::from(dv.unsigned_abs());
    let mut asked = Asked::none();
    for j in -far..far + 1 {
        let v = point.v.wrapping_add(j);
        asked.ask(keeps_across(set, Point { h: point.h, v }, dh));
    }
    asked.answer(dv)
}

impl<P: Pixels> Pixels for SlowInset<P> {
    fn byte(&self, point: Point) -> u8 {
        mark(keeps(&self.set, point, self.dh, self.dv))
    }
}

impl<P: Pixels> Pixels for SlowFrame<P> {
    fn byte(&self, point: Point) -> u8 {
        let (width, height) = (i16::from(self.pen.0), i16::from(self.pen.1));
        if width == 0 || height == 0 {
            return mark(false);
        }
        mark(self.set.byte(point) == b'#' && !keeps(&self.set, point, width, height))
    }
}
