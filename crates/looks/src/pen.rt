//! Where a text stands.
ghost use Rattle.std.specs.Prelude.{◌≡◌, ◌≤◌, true, pos, ◌+ℤ◌, ◌-ℤ◌, length};
ghost use Rattle.std.specs.Int.{int_div_euclid};
ghost use Rattle.strike_font.specs.Record.{ascent, descent};
ghost use Rattle.looks.specs.Letters.{lettering, pen_column, baseline_row, plate_rect, pen_point, is_pen_column};

use crate::rects::sides;
use strike_font::Font;
use tb_geom::{Point, Rect};

/// Where a text begins.
#[derive(Clone, Copy, Debug, PartialEq, Eq)]
pub enum Pen {
    /// At a column.
    At(i32),
    /// So that it is in the middle of the columns from 0 up to this one.
    Middle(u16),
}

/// The rows from `top` up to `bottom` behind a text in the middle of a width, with a margin at both
/// sides.
#[derive(Clone, Copy, Debug, PartialEq, Eq)]
pub struct Plate {
    pub width: u16,
    pub margin: u8,
    pub top: i32,
    pub bottom: i32,
}

/// The row of a text's baseline.
#[derive(Clone, Copy, Debug, PartialEq, Eq)]
pub enum Baseline {
    /// A row.
    At(i32),
    /// So that the rows of the font are in the middle of the rows from 0 up to this one: half of the
    /// rows and the ascent without the descent, rounded down.
    Middle(u16),
}

/// Where a text stands.
#[derive(Clone, Copy, Debug, PartialEq, Eq)]
pub struct Place {
    pub pen: Pen,
    pub baseline: Baseline,
}

/// The column at which a text of this width begins.
#[tactic(auto, unfolding(crate::specs::Letters::pen_column))]
fn pen_column(text_width: u32, pen: Pen) -> i32
    requires { text_width ≤ 16711425 }
    ensures { result ≡ pen_column text_width pen }
{
    match pen {
        Pen::At(h) => h,
        Pen::Middle(width) => middle(width, text_width),
    }
}

/// Half of what a text leaves of a width, rounded down.
fn middle(width: u16, text_width: u32) -> i32
    requires { text_width ≤ 16711425 }
    ensures value { result ≡ int_div_euclid (pos width -ℤ pos text_width) (pos 2) }
    ensures near { is_pen_column result ≡ true }
{
    (i32::from(width) - text_width as i32).div_euclid(2)
}

/// The rectangle behind a text of this width.
#[tactic(auto, unfolding(crate::specs::Letters::pen_column))]
pub(crate) fn plate_rect(text_width: u32, plate: Plate) -> Rect
    requires { text_width ≤ 16711425 }
    ensures { result ≡ plate_rect text_width plate }
{
    let left = middle(plate.width, text_width);
    sides(
        before(left, plate.margin),
        plate.top,
        after(left, text_width, plate.margin),
        plate.bottom,
    )
}

/// The column so far left of a pen.
fn before(left: i32, margin: u8) -> i32
    requires { is_pen_column left ≡ true }
    ensures { result ≡ left -ℤ pos margin }
{
    left - i32::from(margin)
}

/// The column so far right of the end of a text.
fn after(left: i32, text_width: u32, margin: u8) -> i32
    requires pen { is_pen_column left ≡ true }
    requires width { text_width ≤ 16711425 }
    ensures { result ≡ left +ℤ pos text_width +ℤ pos margin }
{
    left + text_width as i32 + i32::from(margin)
}

/// The row of a text's baseline in a font.
#[tactic(auto, unfolding(crate::specs::Letters::baseline_row))]
fn baseline_row(font: &Font, baseline: Baseline) -> i32
    ensures { result ≡ baseline_row (ascent font.now) (descent font.now) baseline }
{
    match baseline {
        Baseline::At(v) => v,
        Baseline::Middle(rows) => {
            (i32::from(rows) + i32::from(font.ascent()) - i32::from(font.descent())).div_euclid(2)
        }
    }
}

/// The point from which a text is drawn in a font.
pub(crate) fn pen_point(font: &Font, text: &[u8], place: Place) -> Point
    requires { length text.now ≤ 65535 }
    ensures { result ≡ pen_point (lettering font.now text.now) place }
{
    Point {
        h: pen_column(font.width(text), place.pen),
        v: baseline_row(font, place.baseline),
    }
}
