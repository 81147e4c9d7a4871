//! Drawing by words, beside what single pixels give.

use crate::blits::Thirds;
use bit_blit::{copy, fill, invert, shift};
use bit_map::{BitImage, BitMap, Mode, eight_within};
use scan_region::Region;
use std::alloc::Global;
use std::test::Fail;
use tb_geom::{Point, Rect, Refusal};
use test_pixels::pixels::{Pixels, are_alike, map_of, mark};
use test_pixels::rect;
use test_pixels::sheet::MIXED;

/// How many rows each map has.
const ROWS: i32 = 5;

/// The widths of maps.
const WIDTHS: [i32; 5] = [1, 63, 64, 65, 200];

/// The bits that a map has before.
fn before(point: Point) -> bool {
    let (h, v) = (i64::from(point.h), i64::from(point.v));
    (h.wrapping_mul(h)
        .wrapping_add(h.wrapping_mul(7))
        .wrapping_add(v.wrapping_mul(13)))
    .rem_euclid(5)
        < 2
}

/// What a map has before.
struct Old;

impl Pixels for Old {
    fn byte(&self, point: Point) -> u8 {
        mark(before(point))
    }
}

/// A map with those bits.
fn old_map(alloc: Global, width: i32) -> Result<BitMap, Refusal> {
    map_of(alloc, &Old, width, ROWS)
}

/// Two rectangles without a third: their sides meet those of words, or do not, and some lie off the map.
fn some_region(alloc: Global) -> Result<Region, Refusal> {
    let first = Region::from_rect(alloc, rect!(-3, -1, 70, 4))?;
    let second = Region::from_rect(alloc, rect!(66, 2, 300, 9))?;
    let hole = Region::from_rect(alloc, rect!(5, 1, 64, 2))?;
    let both = first.union(alloc, &second)?;
    Ok(both.diff(alloc, &hole)?)
}

/// The point that lies `distance` before another.
fn source_of(point: Point, distance: Point) -> Point {
    Point {
        h: point.h.wrapping_sub(distance.h),
        v: point.v.wrapping_sub(distance.v),
    }
}

/// The bits before, shifted in a region.
#[derive(Drop)]
struct Shifted<'a> {
    region: &'a Region,
    bounds: Rect,
    distance: Point,
}

impl Pixels for Shifted<'_> {
    fn byte(&self, point: Point) -> u8 {
        let source = source_of(point, self.distance);
        let is_moved = self.region.contains(point) && self.bounds.contains(source);
        mark(before(if is_moved { source } else { point }))
    }
}

#[test]
fn shifts_by_words_as_by_pixels(rt: HostRuntime) -> Result<(), Fail> {
    let region = some_region(rt.alloc())?;
    for width in WIDTHS {
        for v in -2..3 {
            for h in -65..66 {
                let distance = Point { h, v };
                let mut map = old_map(rt.alloc(), width)?;
                let bounds = map.bounds();
                shift(&mut map, &region, distance);
                let due = Shifted {
                    region: &region,
                    bounds,
                    distance,
                };
                assert!(rt; are_alike(&map, &due, bounds));
            }
        }
    }
    Ok(())
}

/// The bits before, with those of a source put down in a region by exclusive or.
#[derive(Drop)]
struct Copied<'a> {
    region: &'a Region,
    sides: Rect,
    origin: Point,
}

impl Pixels for Copied<'_> {
    fn byte(&self, point: Point) -> u8 {
        let source = source_of(point, self.origin);
        let is_put = self.region.contains(point) && self.sides.contains(source);
        mark(before(point) != (is_put && before(source)))
    }
}

#[test]
fn copies_by_words_as_by_pixels(rt: HostRuntime) -> Result<(), Fail> {
    let region = some_region(rt.alloc())?;
    for width in WIDTHS {
        let source = old_map(rt.alloc(), width)?;
        for h in -65..66 {
            let origin = Point { h, v: 1 };
            let mut map = old_map(rt.alloc(), 200)?;
            copy(&mut map, &region, &source, origin, Mode::Xor);
            let due = Copied {
                region: &region,
                sides: source.bounds(),
                origin,
            };
            assert!(rt; are_alike(&map, &due, map.bounds()));
        }
    }
    Ok(())
}

/// An image of 70 by 2, in rows of 9 bytes.
const ROWS_OF_BITS: [u8; 18] = [
    0x81, 0x42, 0x24, 0x18, 0xFF, 0x00, 0x7E, 0x01, 0xF8, 0x12, 0x34, 0x56, 0x78, 0x9A, 0xBC, 0xDE,
    0xF0, 0x0C,
];

/// The bits before, with the image put down by or.
#[derive(Drop)]
struct Imaged {
    origin: Point,
}

/// Whether the image is black at a place.
fn is_black(h: i32, v: i32) -> bool {
    let place = v.unsigned_abs() as usize * 9 + h.unsigned_abs() as usize / 8;
    match ROWS_OF_BITS.get(place) {
        Some(byte) => (*byte >> (7 - h.rem_euclid(8) as u8)) % 2 == 1,
        None => false,
    }
}

impl Pixels for Imaged {
    fn byte(&self, point: Point) -> u8 {
        let source = source_of(point, self.origin);
        let is_put = rect!(0, 0, 70, 2).contains(source)
            && is_black(source.h.clamp(0, 69), source.v.clamp(0, 1));
        mark(before(point) || is_put)
    }
}

#[test]
fn copies_images_by_words_as_by_pixels(rt: HostRuntime) -> Result<(), Fail> {
    let all = Region::from_rect(rt.alloc(), rect!(0, 0, 200, ROWS))?;
    let image = BitImage::new(70, 2, &ROWS_OF_BITS);
    for h in -71..201 {
        let origin = Point { h, v: 2 };
        let mut map = old_map(rt.alloc(), 200)?;
        copy(&mut map, &all, &image, origin, Mode::Or);
        assert!(rt; are_alike(&map, &Imaged { origin }, map.bounds()));
    }
    Ok(())
}

/// The bits before, with the pattern put down in a region by exclusive or, and all of the region inverted.
#[derive(Drop)]
struct Inked<'a> {
    region: &'a Region,
    offset: Point,
}

impl Pixels for Inked<'_> {
    fn byte(&self, point: Point) -> u8 {
        let place = source_of(point, self.offset);
        let row = MIXED.rows[place.v.rem_euclid(8) as usize];
        let ink = (row >> (7 - place.h.rem_euclid(8) as u8)) % 2 == 1;
        mark(before(point) != (self.region.contains(point) && !ink))
    }
}

#[test]
fn fills_and_inverts_by_words_as_by_pixels(rt: HostRuntime) -> Result<(), Fail> {
    let region = some_region(rt.alloc())?;
    for width in WIDTHS {
        for h in -9..10 {
            let offset = Point { h, v: h };
            let mut map = old_map(rt.alloc(), width)?;
            fill(&mut map, &region, offset, MIXED, Mode::Xor);
            invert(&mut map, &region);
            let due = Inked {
                region: &region,
                offset,
            };
            assert!(rt; are_alike(&map, &due, map.bounds()));
        }
    }
    Ok(())
}

#[test]
fn eight_bytes_are_a_word(rt: HostRuntime) {
    let bytes = [1, 2, 3, 4, 5, 6, 7, 8, 9];
    assert!(rt; eight_within(&bytes, 1) == 0x0203_0405_0607_0809);
}

#[test]
fn shifts_every_third_pixel_of_130(rt: HostRuntime) -> Result<(), Fail> {
    let row = rect!(0, 0, 130, 1);
    let mut map = BitMap::new(rt.alloc(), 130, 1)?;
    for h in 0..130 {
        let point = Point { h, v: 0 };
        if map.bounds().contains(point) {
            map.set(point, h % 3 == 0);
        }
    }
    let region = Region::from_rect(rt.alloc(), row)?;
    shift(&mut map, &region, Point { h: 1, v: 0 });
    // pixel 0 has no source, and stays
    assert!(rt; are_alike(&map, &Thirds(1), row));
    Ok(())
}
