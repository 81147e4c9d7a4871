//! What crates of tests share to look at single pixels. None of their tests stands here, since a crate with tests is proved
//! twice.
//!
//! `pixels` has what they look at, and pictures of it. `sheet` has what they draw on, and `images` maps of 8 by 8 pixels with
//! their images as text. `small` has a FONT record. The macros `point` and `rect` are short words for points and rectangles.
#![tactic(auto)]

/// A point, by its column and its row.
#[macro_export]
macro_rules! point {
    ($h:expr, $v:expr) => {
        tb_geom::Point { h: $h, v: $v }
    };
}

/// A rectangle, by its left side, its top, its right side and its bottom.
#[macro_export]
macro_rules! rect {
    ($left:expr, $top:expr, $right:expr, $bottom:expr) => {
        tb_geom::Rect {
            left: $left,
            top: $top,
            right: $right,
            bottom: $bottom,
        }
    };
}

pub mod images;
pub mod pixels;
pub mod sheet;
pub mod small;
