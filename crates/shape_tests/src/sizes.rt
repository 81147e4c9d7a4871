//! The shapes that are tried: all sizes up to 24 by 24 pixels.

use shape_strips::{Corner, Pen};
use tb_geom::Rect;
use test_pixels::rect;

/// One more than the most columns or rows that are tried.
pub const SIZES: u16 = 25;

/// A rectangle of this size.
pub fn sized(width: u16, height: u16) -> Rect {
    rect!(
        -3,
        2,
        i32::from(width).wrapping_sub(3),
        i32::from(height).wrapping_add(2)
    )
}

/// The rectangle with one more row and one more column on each side.
pub fn bordered(rect: Rect) -> Rect {
    Rect {
        left: rect.left.wrapping_sub(1),
        top: rect.top.wrapping_sub(1),
        right: rect.right.wrapping_add(1),
        bottom: rect.bottom.wrapping_add(1),
    }
}

/// A corner of this size.
pub fn corner(width: u16, height: u16) -> Corner {
    Corner { width, height }
}

/// A pen of this size.
pub fn pen(width: u16, height: u16) -> Pen {
    Pen { width, height }
}
