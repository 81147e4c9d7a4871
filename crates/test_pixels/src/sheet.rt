//! What tests draw on, and a pattern with which they do.

use crate::pixels::{Pixels, mark};
use bit_map::{Mode, Pattern};
use tb_geom::{Point, Rect};

/// The modes, by their numbers.
pub const MODES: [Mode; 8] = [
    Mode::Copy,
    Mode::Or,
    Mode::Xor,
    Mode::Bic,
    Mode::NotCopy,
    Mode::NotOr,
    Mode::NotXor,
    Mode::NotBic,
];

/// A pattern with no two rows and no two columns alike.
pub const MIXED: Pattern = Pattern {
    rows: [0x80, 0xC1, 0x22, 0xF5, 0x1A, 0x0F, 0x99, 0x6E],
};

/// The pixels that are drawn on.
pub const SHEET: Rect = Rect {
    left: 0,
    top: 0,
    right: 13,
    bottom: 11,
};

/// What the sheet has before.
pub struct Sheet;

impl Pixels for Sheet {
    fn byte(&self, point: Point) -> u8 {
        mark(before(point))
    }
}

/// The bit that the sheet has before.
pub fn before(point: Point) -> bool {
    point.h.rem_euclid(3) == point.v.rem_euclid(2)
}

/// The bit after the mixed pattern, its origin at `offset`, was put down by the mode.
pub fn inked(offset: Point, mode: Mode, point: Point) -> bool {
    let column = (i64::from(point.h) - i64::from(offset.h)).rem_euclid(8);
    let row = (i64::from(point.v) - i64::from(offset.v)).rem_euclid(8);
    let source = (MIXED.rows[row as usize] >> (7 - column as u8)) % 2 == 1;
    mode.apply(source, before(point))
}
