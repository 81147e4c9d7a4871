//! Drawings against a plain loop over all pixels.
use bit_blit::{Inverse, copy, draw_cut, draw_rect, fill, invert, shift};
use bit_map::{BitImage, BitMap, Mode};
use scan_region::{Cut, Region};
use std::alloc::Global;
use std::test::Fail;
use tb_geom::{Point, Rect, Refusal};
use test_pixels::pixels::{Pixels, are_alike, map_of, mark, picture};
use test_pixels::sheet::{MIXED, MODES, SHEET, Sheet, before, inked};
use test_pixels::{point, rect};

/// The sheet with the region filled.
#[derive(Drop)]
struct Filled<'a> {
    region: &'a Region,
    offset: Point,
    mode: Mode,
}

impl Pixels for Filled<'_> {
    fn byte(&self, point: Point) -> u8 {
        mark(if self.region.contains(point) {
            inked(self.offset, self.mode, point)
        } else {
            before(point)
        })
    }
}

/// A region of several spans a row that reaches past the sheet on all sides.
fn around_the_sheet(alloc: Global) -> Result<Region, Refusal> {
    let outer = Region::from_rect(alloc, rect!(-20, -30, 9, 40))?;
    let inner = Region::from_rect(alloc, rect!(3, 2, 6, 8))?;
    let right = Region::from_rect(alloc, rect!(11, 5, 300, 60))?;
    Ok(outer.diff(alloc, &inner)?.union(alloc, &right)?)
}

/// Places of the pattern's origin.
const OFFSETS: [Point; 5] = [
    point!(0, 0),
    point!(3, -2),
    point!(-13, 22),
    point!(i32::MIN, i32::MAX),
    point!(i32::MAX, i32::MIN),
];

#[test]
fn fills_as_a_loop_over_all_pixels(rt: HostRuntime) -> Result<(), Fail> {
    let region = around_the_sheet(rt.alloc())?;
    for offset in OFFSETS {
        for mode in MODES {
            let mut map = map_of(rt.alloc(), &Sheet, 13, 11)?;
            fill(&mut map, &region, offset, MIXED, mode);
            let filled = Filled {
                region: &region,
                offset,
                mode,
            };
            assert!(rt; are_alike(&map, &filled, SHEET));
        }
    }
    Ok(())
}

/// The sheet with the pixels of a rectangle inverted.
#[derive(Drop)]
struct Inverted(Rect);

impl Pixels for Inverted {
    fn byte(&self, point: Point) -> u8 {
        mark(before(point) != self.0.contains(point))
    }
}

/// Rectangles on the sheet, over its sides, without pixels and far away.
const RECTANGLES: [Rect; 8] = [
    rect!(2, 3, 5, 7),
    rect!(-4, -1, 4, 2),
    rect!(9, 8, 400, 90),
    rect!(5, 0, 5, 11),
    rect!(8, 3, 4, 9),
    rect!(20, 20, 30, 30),
    rect!(i32::MIN, i32::MIN, i32::MAX, i32::MAX),
    rect!(i32::MAX, 0, i32::MIN, 5),
];

#[test]
fn draws_rectangles_of_any_sides(rt: HostRuntime) -> Result<(), Fail> {
    for sides in RECTANGLES {
        let mut map = map_of(rt.alloc(), &Sheet, 13, 11)?;
        draw_rect(&mut map, sides, &Inverse);
        assert!(rt; are_alike(&map, &Inverted(sides), SHEET));
    }
    Ok(())
}

/// The sheet with the pixels of a region inverted.
#[derive(Drop)]
struct InvertedIn<'a>(&'a Region);

impl Pixels for InvertedIn<'_> {
    fn byte(&self, point: Point) -> u8 {
        mark(before(point) != self.0.contains(point))
    }
}

#[test]
fn inverts_a_region(rt: HostRuntime) -> Result<(), Fail> {
    let region = around_the_sheet(rt.alloc())?;
    let mut map = map_of(rt.alloc(), &Sheet, 13, 11)?;
    invert(&mut map, &region);
    assert!(rt; are_alike(&map, &InvertedIn(&region), SHEET));
    Ok(())
}

/// The rectangles in each of which a pixel of the cut lies.
const INSIDE: [Rect; 2] = [rect!(-3, 1, 10, 9), rect!(2, -4, 300, 8)];

/// The rectangle in which none does.
const OUTSIDE: Rect = rect!(4, 3, 7, 6);

/// The sheet with the pixels of an area inverted that the cut leaves.
#[derive(Drop)]
struct InvertedWithin(Rect);

impl Pixels for InvertedWithin {
    fn byte(&self, point: Point) -> u8 {
        let is_cut = OUTSIDE.contains(point) || !INSIDE.iter().all(|part| part.contains(point));
        mark(before(point) != (self.0.contains(point) && !is_cut))
    }
}

#[test]
fn draws_within_a_cut(rt: HostRuntime) -> Result<(), Fail> {
    let first = Region::from_rect(rt.alloc(), INSIDE[0])?;
    let second = Region::from_rect(rt.alloc(), INSIDE[1])?;
    let hole = Region::from_rect(rt.alloc(), OUTSIDE)?;
    let cut = Cut {
        inside: [Some(&first), None, Some(&second)],
        outside: Some(&hole),
    };
    for area in RECTANGLES {
        let mut map = map_of(rt.alloc(), &Sheet, 13, 11)?;
        draw_cut(&mut map, &cut, area, &Inverse);
        assert!(rt; are_alike(&map, &InvertedWithin(area), SHEET));
    }
    Ok(())
}

/// The pixel that lies `distance` before a point, if the sheet has it.
fn source_of(point: Point, distance: Point) -> Option<Point> {
    let h = point.h.checked_sub(distance.h)?;
    let v = point.v.checked_sub(distance.v)?;
    let source = Point { h, v };
    if SHEET.contains(source) {
        Some(source)
    } else {
        None
    }
}

/// The sheet with the bits of a region's pixels shifted.
#[derive(Drop)]
struct Shifted<'a> {
    region: &'a Region,
    distance: Point,
}

impl Pixels for Shifted<'_> {
    fn byte(&self, point: Point) -> u8 {
        let source = match source_of(point, self.distance) {
            Some(source) if self.region.contains(point) => source,
            _ => point,
        };
        mark(before(source))
    }
}

/// How far pixels are shifted, in columns or in rows.
const DISTANCES: [i32; 9] = [i32::MIN, -3, -2, -1, 0, 1, 2, 3, i32::MAX];

#[test]
fn shifts_as_a_loop_over_the_old_bits(rt: HostRuntime) -> Result<(), Fail> {
    let region = around_the_sheet(rt.alloc())?;
    for v in DISTANCES {
        for h in DISTANCES {
            let distance = Point { h, v };
            let mut map = map_of(rt.alloc(), &Sheet, 13, 11)?;
            shift(&mut map, &region, distance);
            let shifted = Shifted {
                region: &region,
                distance,
            };
            assert!(rt; are_alike(&map, &shifted, SHEET));
        }
    }
    Ok(())
}

/// A row whose every third pixel is black, from a first one on, and whose pixel 0 is black too.
pub struct Thirds(pub i32);

impl Pixels for Thirds {
    fn byte(&self, point: Point) -> u8 {
        mark(point.h == 0 || point.h.rem_euclid(3) == self.0)
    }
}

#[test]
fn shifts_a_long_row_by_one(rt: HostRuntime) -> Result<(), Fail> {
    let row = rect!(0, 0, 130, 1);
    let mut map = map_of(rt.alloc(), &Thirds(0), 130, 1)?;
    let region = Region::from_rect(rt.alloc(), row)?;
    shift(&mut map, &region, point!(1, 0));
    // pixel 0 has no source, and stays
    assert!(rt; are_alike(&map, &Thirds(1), row));
    Ok(())
}

/// The row that each mode leaves of the old bits `..##` and the source bits `.#.#`.
const LEFT_BY: [(Mode, &'static [u8]); 8] = [
    (Mode::Copy, b".#.#\n"),
    (Mode::Or, b".###\n"),
    (Mode::Xor, b".##.\n"),
    (Mode::Bic, b"..#.\n"),
    (Mode::NotCopy, b"#.#.\n"),
    (Mode::NotOr, b"#.##\n"),
    (Mode::NotXor, b"#..#\n"),
    (Mode::NotBic, b"...#\n"),
];

#[test]
fn copies_by_each_mode(rt: HostRuntime) -> Result<(), Fail> {
    let row = rect!(0, 0, 4, 1);
    let all = Region::from_rect(rt.alloc(), row)?;
    let old = Region::from_rect(rt.alloc(), rect!(2, 0, 4, 1))?;
    for (mode, left) in LEFT_BY {
        let mut map = map_of(rt.alloc(), &old, 4, 1)?;
        let image = BitImage::new(4, 1, &[0x50]);
        copy(&mut map, &all, &image, point!(0, 0), mode);
        assert!(rt; picture(rt.alloc(), &map, row)?.as_slice() == left);
    }
    Ok(())
}

/// The sheet with the bits of another map, whose 0 0 lies at `origin`, where a region has them.
#[derive(Drop)]
struct Copied<'a> {
    region: &'a Region,
    source: &'a BitMap,
    origin: Point,
}

impl Pixels for Copied<'_> {
    fn byte(&self, point: Point) -> u8 {
        let h = point.h.saturating_sub(self.origin.h);
        let v = point.v.saturating_sub(self.origin.v);
        let place = Point { h, v };
        if self.region.contains(point) && self.source.bounds().contains(place) {
            self.source.byte(place)
        } else {
            mark(before(point))
        }
    }
}

/// Where the 0 0 of a source comes to lie.
const ORIGINS: [Point; 5] = [
    point!(0, 0),
    point!(3, 2),
    point!(-2, -1),
    point!(11, 9),
    point!(i32::MIN, i32::MAX),
];

#[test]
fn copies_from_another_map(rt: HostRuntime) -> Result<(), Fail> {
    let region = around_the_sheet(rt.alloc())?;
    let source = map_of(rt.alloc(), &Thirds(2), 7, 5)?;
    for origin in ORIGINS {
        let mut map = map_of(rt.alloc(), &Sheet, 13, 11)?;
        copy(&mut map, &region, &source, origin, Mode::Copy);
        let copied = Copied {
            region: &region,
            source: &source,
            origin,
        };
        assert!(rt; are_alike(&map, &copied, SHEET));
    }
    Ok(())
}
