//! What tests look at pixel by pixel, and pictures of it: `#` for a black pixel or one that a set has, and `.` for
//! one that is white or not in the set.

use bit_map::{BitImage, BitMap};
use scan_region::{Region, Span};
use std::alloc::{AllocError, Global};
use tb_geom::{Point, Rect, Refusal};

/// What has a byte for each pixel.
pub trait Pixels {
    fn byte(&self, point: Point) -> u8;
}

/// The byte of a pixel that is black or in the set, or is not.
pub fn mark(has: bool) -> u8 {
    if has { b'#' } else { b'.' }
}

/// A pixel that the map lacks is a blank.
impl Pixels for BitMap {
    fn byte(&self, point: Point) -> u8 {
        if self.bounds().contains(point) {
            mark(self.get(point))
        } else {
            b' '
        }
    }
}

/// A pixel that the image lacks is a blank.
impl Pixels for BitImage<'_> {
    fn byte(&self, point: Point) -> u8 {
        if self.contains(point) {
            mark(self.bit(point))
        } else {
            b' '
        }
    }
}

impl Pixels for Region {
    fn byte(&self, point: Point) -> u8 {
        mark(self.contains(point))
    }
}

/// The pixels of the sides, row by row, with a newline after each row.
pub fn picture<P: Pixels>(alloc: Global, of: &P, sides: Rect) -> Result<Vec<u8>, AllocError> {
    let mut text = Vec::new(alloc);
    for v in sides.top..sides.bottom {
        for h in sides.left..sides.right {
            text.push(of.byte(Point { h, v }))?;
        }
        text.push(b'\n')?;
    }
    Ok(text)
}

/// Whether the two have the same byte at each pixel of the sides.
pub fn are_alike<P: Pixels, Q: Pixels>(one: &P, other: &Q, sides: Rect) -> bool {
    for v in sides.top..sides.bottom {
        for h in sides.left..sides.right {
            if one.byte(Point { h, v }) != other.byte(Point { h, v }) {
                return false;
            }
        }
    }
    true
}

/// The runs of black pixels within the sides, row by row.
pub fn runs<P: Pixels>(alloc: Global, of: &P, sides: Rect) -> Result<Vec<Span>, AllocError> {
    let mut runs = Vec::new(alloc);
    for v in sides.top..sides.bottom {
        let mut start = None;
        for h in sides.left..sides.right {
            let is_black = of.byte(Point { h, v }) == b'#';
            match start {
                None if is_black => start = Some(h),
                Some(left) if !is_black => {
                    start = None;
                    runs.push(Span { v, left, right: h })?;
                }
                _ => {}
            }
        }
    }
    Ok(runs)
}

/// Whether the region has the black pixels within the sides, whose last column is white, and no other, by `contains`
/// and by its spans.
pub fn is_region_of<P: Pixels>(
    alloc: Global,
    region: &Region,
    of: &P,
    sides: Rect,
) -> Result<bool, AllocError> {
    let spans: Vec<Span> = region.spans().collect(alloc)?;
    Ok(spans.as_slice() == runs(alloc, of, sides)?.as_slice() && are_alike(region, of, sides))
}

/// The rectangle of one pixel.
pub fn pixel(h: i32, v: i32) -> Rect {
    Rect {
        left: h,
        top: v,
        right: h.wrapping_add(1),
        bottom: v.wrapping_add(1),
    }
}

/// The region of the black pixels within the sides, made of single ones.
pub fn region_of<P: Pixels>(alloc: Global, of: &P, sides: Rect) -> Result<Region, Refusal> {
    let mut region = Region::empty(alloc);
    for v in sides.top..sides.bottom {
        for h in sides.left..sides.right {
            if of.byte(Point { h, v }) == b'#' {
                let one = Region::from_rect(alloc, pixel(h, v))?;
                region = region.union(alloc, &one)?;
            }
        }
    }
    Ok(region)
}

/// A map of this many columns and rows that has these pixels.
pub fn map_of<P: Pixels>(
    alloc: Global,
    of: &P,
    width: i32,
    height: i32,
) -> Result<BitMap, Refusal> {
    let mut map = BitMap::new(alloc, width, height)?;
    let bounds = map.bounds();
    for v in bounds.top..bounds.bottom {
        for h in bounds.left..bounds.right {
            let point = Point { h, v };
            if map.bounds().contains(point) {
                map.set(point, of.byte(point) == b'#');
            }
        }
    }
    Ok(map)
}
