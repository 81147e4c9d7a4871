//! Checksums: to add a number is to multiply by 31 first.

use scan_region::{Region, Span};
use tb_geom::Rect;

/// A checksum with a number more.
pub fn plus(sum: u32, number: i32) -> u32 {
    sum.wrapping_mul(31).wrapping_add(number.unsigned_abs())
}

/// A checksum with a box more.
pub fn plus_box(sum: u32, area: Rect) -> u32 {
    let sum = plus(plus(sum, area.left), area.top);
    plus(plus(sum, area.right), area.bottom)
}

/// A checksum with a span more.
pub fn plus_span(sum: u32, span: Span) -> u32 {
    plus(plus(plus(sum, span.v), span.left), span.right)
}

/// A checksum with the spans of a region more, from the top.
pub fn plus_spans(sum: u32, region: &Region) -> u32 {
    let mut sum = sum;
    for span in region.spans() {
        sum = plus_span(sum, span);
    }
    sum
}
