//! Regions against slow programs over sets of single pixels.

use scan_region::{Region, Span};
use std::alloc::{AllocError, Global};
use std::test::Fail;
use tb_geom::{Point, Rect, Refusal};
use test_pixels::pixels::{Pixels, is_region_of, mark, picture, pixel, region_of};
use test_pixels::rect;

/// How two regions make a third.
#[derive(Clone, Copy)]
enum Operator {
    Sect,
    Union,
    Diff,
    Xor,
    CutTo,
    Joined,
    Less,
}

const OPERATORS: [Operator; 4] = [
    Operator::Sect,
    Operator::Union,
    Operator::Diff,
    Operator::Xor,
];

/// These, and those that use up the first region, or both.
const ALL_OPERATORS: [Operator; 7] = [
    Operator::Sect,
    Operator::Union,
    Operator::Diff,
    Operator::Xor,
    Operator::CutTo,
    Operator::Joined,
    Operator::Less,
];

impl Operator {
    fn region(self, alloc: Global, a: &Region, b: &Region) -> Result<Region, AllocError> {
        match self {
            Operator::Sect => a.sect(alloc, b),
            Operator::Union => a.union(alloc, b),
            Operator::Diff => a.diff(alloc, b),
            Operator::Xor => a.xor(alloc, b),
            Operator::CutTo => a.copy(alloc)?.cut_to(alloc, b),
            Operator::Joined => a.copy(alloc)?.joined(alloc, b.copy(alloc)?),
            Operator::Less => a.copy(alloc)?.less(alloc, b),
        }
    }

    /// The bits that the operator keeps of two sets of bits.
    fn mask(self, a: usize, b: usize) -> usize {
        match self {
            Operator::Sect | Operator::CutTo => a & b,
            Operator::Union | Operator::Joined => a | b,
            Operator::Diff | Operator::Less => a & !b,
            Operator::Xor => a ^ b,
        }
    }
}

/// The pixels of three rectangles.
struct Shape([Rect; 3]);

const SHAPES: [Shape; 4] = [
    Shape([rect!(0, 0, 4, 4), rect!(2, 2, 6, 7), rect!(5, 0, 7, 1)]),
    Shape([rect!(1, 1, 3, 3), rect!(3, 1, 5, 3), rect!(1, 5, 8, 6)]),
    Shape([rect!(0, 3, 8, 4), rect!(0, 0, 0, 0), rect!(6, 4, 7, 8)]),
    Shape([rect!(0, 0, 8, 8), rect!(3, 2, 1, 5), rect!(0, 7, 1, 9)]),
];

impl Shape {
    /// 1 for a pixel of the shape, and else 0.
    fn bit(&self, point: Point) -> usize {
        usize::from(self.0.iter().any(|sides| sides.contains(point)))
    }
}

impl Pixels for Shape {
    fn byte(&self, point: Point) -> u8 {
        mark(self.bit(point) == 1)
    }
}

/// What an operator is to make of two shapes.
#[derive(Drop)]
struct Made<'a> {
    operator: Operator,
    a: &'a Shape,
    b: &'a Shape,
}

impl Pixels for Made<'_> {
    fn byte(&self, point: Point) -> u8 {
        mark(self.operator.mask(self.a.bit(point), self.b.bit(point)) == 1)
    }
}

/// The shapes, and a border around them.
const AROUND_SHAPES: Rect = rect!(-2, -2, 11, 11);

#[test]
fn operators_agree_with_single_pixels(rt: HostRuntime) -> Result<(), Fail> {
    let alloc = rt.alloc();
    for a in &SHAPES {
        for b in &SHAPES {
            let first = region_of(alloc, a, AROUND_SHAPES)?;
            let second = region_of(alloc, b, AROUND_SHAPES)?;
            for operator in ALL_OPERATORS {
                let made = operator.region(alloc, &first, &second)?;
                let pixels = Made { operator, a, b };
                assert!(rt; is_region_of(alloc, &made, &pixels, AROUND_SHAPES)?);
            }
        }
    }
    Ok(())
}

/// A set of pixels with `0 <= h < 3` and `0 <= v < 3`: a bit for each pixel, from the low bit on, by rows.
#[derive(Clone, Copy)]
struct Mask(usize);

/// Where the pixels of masks lie.
const MASKED: Rect = rect!(0, 0, 3, 3);

/// The same, and a border around them.
const AROUND_MASKED: Rect = rect!(-1, -1, 4, 4);

/// The bit of a pixel, and 0 for one that masks lack.
fn bit(Point { h, v }: Point) -> usize {
    match (h, v) {
        (0, 0) => 1,
        (1, 0) => 2,
        (2, 0) => 4,
        (0, 1) => 8,
        (1, 1) => 16,
        (2, 1) => 32,
        (0, 2) => 64,
        (1, 2) => 128,
        (2, 2) => 256,
        _ => 0,
    }
}

impl Pixels for Mask {
    fn byte(&self, point: Point) -> u8 {
        mark(self.0 & bit(point) != 0)
    }
}

/// The regions of all masks, from 0 on.
fn all_regions(alloc: Global) -> Result<Vec<Region>, Refusal> {
    let mut regions = Vec::new(alloc);
    for mask in 0..512 {
        regions.push(region_of(alloc, &Mask(mask), MASKED)?)?;
    }
    Ok(regions)
}

#[test]
fn operators_agree_on_all_pairs_within_three_by_three(rt: HostRuntime) -> Result<(), Fail> {
    let alloc = rt.alloc();
    let regions = all_regions(alloc)?;
    for (a, first) in regions.iter().enumerate() {
        for (b, second) in regions.iter().enumerate() {
            assert!(rt; first.equals(second) == (a == b));
            for operator in OPERATORS {
                let made = operator.region(alloc, first, second)?;
                let mask = Mask(operator.mask(a, b));
                assert!(rt; is_region_of(alloc, &made, &mask, AROUND_MASKED)?);
            }
        }
    }
    Ok(())
}

/// The rectangle around the pixels of a mask.
fn bounds_of(mask: Mask) -> Rect {
    let mut bounds = rect!(0, 0, 0, 0);
    for v in 0..3 {
        for h in 0..3 {
            if mask.byte(Point { h, v }) == b'#' {
                bounds = bounds.union(pixel(h, v));
            }
        }
    }
    bounds
}

/// Whether a rectangle encloses one of the pixels of a mask.
fn meets(mask: Mask, sides: Rect) -> bool {
    for v in 0..3 {
        for h in 0..3 {
            if mask.byte(Point { h, v }) == b'#' && sides.contains(Point { h, v }) {
                return true;
            }
        }
    }
    false
}

/// Whether the region meets what its mask does, of all rectangles with sides in -1..=4.
fn meets_alike(region: &Region, mask: Mask) -> bool {
    for n in 0..1296 {
        let sides = rect!(n % 6 - 1, n / 6 % 6 - 1, n / 36 % 6 - 1, n / 216 - 1);
        if region.meets_rect(sides) != meets(mask, sides) {
            return false;
        }
    }
    true
}

/// Whether a copy moves alone, with all its pixels, and is the same when it is back.
fn copies(alloc: Global, region: &Region, mask: Mask) -> Result<bool, Refusal> {
    let mut copy = region.copy(alloc)?;
    copy.offset(3, -2)?;
    let is_alone = is_region_of(alloc, region, &mask, AROUND_MASKED)?;
    let moved = picture(alloc, &copy, rect!(2, -3, 7, 2))?;
    let is_moved = moved.as_slice() == picture(alloc, &mask, AROUND_MASKED)?.as_slice();
    copy.offset(-3, 2)?;
    Ok(is_alone && is_moved && copy.equals(region))
}

/// Every pixel that there can be.
const ALL: Rect = rect!(i32::MIN, i32::MIN, i32::MAX, i32::MAX);

#[test]
fn answers_for_all_sets_within_three_by_three(rt: HostRuntime) -> Result<(), Fail> {
    for (mask, region) in all_regions(rt.alloc())?.iter().enumerate() {
        assert!(rt; region.is_empty() == (mask == 0));
        assert!(rt; region.meets_rect(ALL) == (mask != 0));
        assert!(rt; region.bbox() == bounds_of(Mask(mask)));
        assert!(rt; meets_alike(region, Mask(mask)));
        assert!(rt; copies(rt.alloc(), region, Mask(mask))?);
    }
    Ok(())
}

/// Sides of which one is out of range.
const OUT_OF_RANGE: [Rect; 20] = [
    rect!(-16385, 0, 5, 5),
    rect!(0, -16385, 5, 5),
    rect!(0, 0, -16385, 5),
    rect!(0, 0, 5, -16385),
    rect!(-16385, 9, -16385, 3),
    rect!(16384, 0, 5, 5),
    rect!(0, 16384, 5, 5),
    rect!(0, 0, 16384, 5),
    rect!(0, 0, 5, 16384),
    rect!(16384, 9, 16384, 3),
    rect!(i32::MIN, 0, 5, 5),
    rect!(0, i32::MIN, 5, 5),
    rect!(0, 0, i32::MIN, 5),
    rect!(0, 0, 5, i32::MIN),
    rect!(i32::MIN, 9, i32::MIN, 3),
    rect!(i32::MAX, 0, 5, 5),
    rect!(0, i32::MAX, 5, 5),
    rect!(0, 0, i32::MAX, 5),
    rect!(0, 0, 5, i32::MAX),
    rect!(i32::MAX, 9, i32::MAX, 3),
];

/// A row as wide as the range.
const WIDEST: Span = Span {
    v: 16382,
    left: -16384,
    right: 16383,
};

#[test]
fn sides_of_rectangles_are_judged(rt: HostRuntime) -> Result<(), Fail> {
    for sides in OUT_OF_RANGE {
        let refusal = Region::from_rect(rt.alloc(), sides).err();
        assert!(rt; refusal == Some(Refusal::OutOfRange));
    }
    let widest = Region::from_rect(rt.alloc(), rect!(-16384, 16382, 16383, 16383))?;
    let spans: Vec<Span> = widest.spans().collect(rt.alloc())?;
    assert!(rt; spans.as_slice() == [WIDEST].as_slice());
    Ok(())
}

/// The sides of a region, how far it is to move, the answer, and its sides then.
const MOVES: [(Rect, i32, i32, Result<(), Refusal>, Rect); 9] = [
    (ONE, 16379, 16380, Ok(()), rect!(16377, 16380, 16383, 16383)),
    (
        ONE,
        -16382,
        -16384,
        Ok(()),
        rect!(-16384, -16384, -16378, -16381),
    ),
    (ONE, 16380, 0, Err(Refusal::OutOfRange), ONE),
    (ONE, -16383, 0, Err(Refusal::OutOfRange), ONE),
    (ONE, 0, 16381, Err(Refusal::OutOfRange), ONE),
    (ONE, 0, -16385, Err(Refusal::OutOfRange), ONE),
    (ONE, i32::MAX, 0, Err(Refusal::OutOfRange), ONE),
    (ONE, 0, i32::MIN, Err(Refusal::OutOfRange), ONE),
    (
        rect!(4, 4, 4, 9),
        i32::MAX,
        i32::MIN,
        Ok(()),
        rect!(0, 0, 0, 0),
    ),
];

const ONE: Rect = rect!(-2, 0, 4, 3);

#[test]
fn moves_up_to_the_edge_of_the_range(rt: HostRuntime) -> Result<(), Fail> {
    for (sides, dh, dv, answer, after) in MOVES {
        let mut region = Region::from_rect(rt.alloc(), sides)?;
        assert!(rt; region.offset(dh, dv) == answer);
        assert!(rt; region.equals(&Region::from_rect(rt.alloc(), after)?));
    }
    Ok(())
}
