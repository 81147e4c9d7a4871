//! Bytes of what two regions make together, and of regions that are moved.

use crate::bytes::Told;
use pixel_rows::{Combination, can_move, combined_bytes, moved_bytes};
use region_bytes::RegionBytes;
use std::alloc::{AllocError, Global};
use std::test::Fail;
use tb_geom::{Point, Rect, Refusal};
use test_pixels::pixels::{Pixels, are_alike, mark, region_of};
use test_pixels::rect;

/// How many sets of pixels there are within 3 by 3.
const SETS: u16 = 512;

/// The rectangle of these sets.
const SIDES: Rect = rect!(-1, -1, 2, 2);

/// A set of pixels within 3 by 3, one bit for each.
#[derive(Clone, Copy)]
struct Small(u16);

impl Pixels for Small {
    fn byte(&self, point: Point) -> u8 {
        let mut bits = self.0;
        for v in SIDES.top..SIDES.bottom {
            for h in SIDES.left..SIDES.right {
                if point == (Point { h, v }) {
                    return mark(bits % 2 == 1);
                }
                bits /= 2;
            }
        }
        mark(false)
    }
}

/// The bytes of all these sets, made of single pixels.
fn all_bytes(alloc: Global) -> Result<Vec<Vec<u8>>, Refusal> {
    let mut all = Vec::new(alloc);
    for bits in 0..SETS {
        let region = region_of(alloc, &Small(bits), SIDES)?;
        all.push(region.to_bytes(alloc)?)?;
    }
    Ok(all)
}

/// Whether what two sets make together has these bytes.
fn is_made(
    alloc: Global,
    how: Combination,
    [first, second]: [&RegionBytes<'_>; 2],
    wanted: Option<&Vec<u8>>,
) -> Result<bool, Refusal> {
    let Some(wanted) = wanted else {
        return Ok(false);
    };
    let made = combined_bytes(alloc, how, first, second)?;
    Ok(made.as_slice() == wanted.as_slice())
}

/// Whether all four combinations of two sets have their bytes.
fn is_each_made(
    alloc: Global,
    all: &[Vec<u8>],
    regions: &[RegionBytes<'_>],
    [a, b]: [u16; 2],
) -> Result<bool, Refusal> {
    let (Some(first), Some(second)) = (regions.get(usize::from(a)), regions.get(usize::from(b)))
    else {
        return Ok(false);
    };
    let both = [first, second];
    let bytes = |bits: u16| all.get(usize::from(bits));
    Ok(
        is_made(alloc, Combination::Union, both, bytes(a | b))?
            && is_made(alloc, Combination::Sect, both, bytes(a & b))?
            && is_made(alloc, Combination::Diff, both, bytes(a & !b))?
            && is_made(alloc, Combination::Xor, both, bytes(a ^ b))?,
    )
}

#[test]
fn small_sets_make_their_pixels_together(rt: HostRuntime) -> Result<(), Fail> {
    let all = all_bytes(rt.alloc())?;
    let mut regions = Vec::new(rt.alloc());
    for bytes in &all {
        regions.push(RegionBytes::read(bytes.as_slice())?)?;
    }
    for a in 0..SETS {
        for b in 0..SETS {
            assert!(rt; is_each_made(rt.alloc(), all.as_slice(), regions.as_slice(), [a, b])?);
        }
    }
    Ok(())
}

/// A set of pixels, moved.
#[derive(Clone, Copy)]
struct Shifted(Small, Point);

impl Pixels for Shifted {
    fn byte(&self, point: Point) -> u8 {
        self.0.byte(Point {
            h: point.h.wrapping_sub(self.1.h),
            v: point.v.wrapping_sub(self.1.v),
        })
    }
}

/// Whether the bytes of a moved set say its pixels. A move out of range is known as that.
fn is_moved(alloc: Global, bits: u16, dh: i16, dv: i16) -> Result<bool, Refusal> {
    let (dh, dv) = (i32::from(dh), i32::from(dv));
    let bytes = region_of(alloc, &Small(bits), SIDES)?.to_bytes(alloc)?;
    let region = RegionBytes::read(bytes.as_slice())?;
    if !can_move(&region, dh, dv) {
        return Ok(false);
    }
    let moved = moved_bytes(alloc, &region, dh, dv)?;
    let told = Told(RegionBytes::read(moved.as_slice())?);
    let around = rect!(
        dh.wrapping_sub(3),
        dv.wrapping_sub(3),
        dh.wrapping_add(4),
        dv.wrapping_add(4)
    );
    let shifted = Shifted(Small(bits), Point { h: dh, v: dv });
    Ok(are_alike(&told, &shifted, around))
}

#[test]
fn small_sets_are_moved(rt: HostRuntime) -> Result<(), Fail> {
    for bits in 0..SETS {
        assert!(rt; is_moved(rt.alloc(), bits, 0, 0)?);
        assert!(rt; is_moved(rt.alloc(), bits, 5, -7)?);
        assert!(rt; is_moved(rt.alloc(), bits, -16383, 16381)?);
        assert!(rt; is_moved(rt.alloc(), bits, 16381, -16383)?);
    }
    Ok(())
}

#[test]
fn sets_are_moved_up_to_the_last_pixel(rt: HostRuntime) -> Result<(), Fail> {
    let alloc = rt.alloc();
    assert!(rt; is_moved(alloc, 256, 16381, 16381)?);
    assert!(rt; !is_moved(alloc, 256, 16382, 0)?);
    assert!(rt; !is_moved(alloc, 256, 0, 16382)?);
    assert!(rt; is_moved(alloc, 1, -16383, -16383)?);
    assert!(rt; !is_moved(alloc, 1, -16384, 0)?);
    assert!(rt; !is_moved(alloc, 1, 0, -16384)?);
    assert!(rt; is_moved(alloc, 0, -32768, 32767)?);
    Ok(())
}

/// Adds a word.
fn push(bytes: &mut Vec<u8>, word: u16) -> Result<(), AllocError> {
    bytes.extend_from_slice(&word.to_be_bytes())
}

/// The bytes of no pixel.
const NOTHING: [u8; 10] = [0, 10, 0, 0, 0, 0, 0, 0, 0, 0];

/// The bytes of words.
fn bytes_of(alloc: Global, words: &[u16]) -> Result<Vec<u8>, AllocError> {
    let mut bytes = Vec::new(alloc);
    for word in words {
        push(&mut bytes, *word)?;
    }
    Ok(bytes)
}

/// The words of the first pixel of the range, of the last one, and of both.
const FIRST: [u16; 5] = [10, 0xC000, 0xC000, 0xC001, 0xC001];

const LAST: [u16; 5] = [10, 0x3FFE, 0x3FFE, 0x3FFF, 0x3FFF];

const BOTH: [u16; 22] = [
    44, 0xC000, 0xC000, 0x3FFF, 0x3FFF, 0xC000, 0xC000, 0xC001, 0x7FFF, 0xC001, 0xC000, 0xC001,
    0x7FFF, 0x3FFE, 0x3FFE, 0x3FFF, 0x7FFF, 0x3FFF, 0x3FFE, 0x3FFF, 0x7FFF, 0x7FFF,
];

#[test]
fn pixels_at_both_ends_of_the_range_are_joined(rt: HostRuntime) -> Result<(), Fail> {
    let alloc = rt.alloc();
    let (upper, lower) = (bytes_of(alloc, &FIRST)?, bytes_of(alloc, &LAST)?);
    let first = RegionBytes::read(upper.as_slice())?;
    let last = RegionBytes::read(lower.as_slice())?;
    let both = combined_bytes(alloc, Combination::Union, &first, &last)?;
    assert!(rt; both.as_slice() == bytes_of(alloc, &BOTH)?.as_slice());
    let none = combined_bytes(alloc, Combination::Sect, &first, &last)?;
    assert!(rt; none.as_slice() == NOTHING.as_slice());
    Ok(())
}

/// How many pixels a comb has.
const TEETH: u16 = 4000;

/// Adds a row of the points of a comb.
fn push_row(bytes: &mut Vec<u8>, v: u16) -> Result<(), AllocError> {
    push(bytes, v)?;
    for h in 0..TEETH.wrapping_mul(2) {
        push(bytes, h)?;
    }
    push(bytes, 0x7FFF)
}

/// The bytes of a comb: each other pixel of a row.
fn comb(alloc: Global, v: u16) -> Result<Vec<u8>, AllocError> {
    let last = TEETH.wrapping_mul(2).wrapping_sub(1);
    let mut bytes = bytes_of(alloc, &[32020, v, 0, v.wrapping_add(1), last])?;
    push_row(&mut bytes, v)?;
    push_row(&mut bytes, v.wrapping_add(1))?;
    push(&mut bytes, 0x7FFF)?;
    Ok(bytes)
}

#[test]
fn two_combs_are_too_long_together(rt: HostRuntime) -> Result<(), Fail> {
    let alloc = rt.alloc();
    let (upper, lower) = (comb(alloc, 3)?, comb(alloc, 9)?);
    let first = RegionBytes::read(upper.as_slice())?;
    let second = RegionBytes::read(lower.as_slice())?;
    let both = combined_bytes(alloc, Combination::Union, &first, &second);
    assert!(rt; matches!(both, Err(Refusal::TooLong)));
    let parts = combined_bytes(alloc, Combination::Xor, &first, &second);
    assert!(rt; matches!(parts, Err(Refusal::TooLong)));
    let none = combined_bytes(alloc, Combination::Sect, &first, &second)?;
    assert!(rt; none.as_slice() == NOTHING.as_slice());
    let rest = combined_bytes(alloc, Combination::Diff, &second, &first)?;
    assert!(rt; rest.as_slice() == lower.as_slice());
    Ok(())
}

#[test]
fn a_comb_is_moved(rt: HostRuntime) -> Result<(), Fail> {
    let alloc = rt.alloc();
    let (upper, lower) = (comb(alloc, 3)?, comb(alloc, 9)?);
    let region = RegionBytes::read(upper.as_slice())?;
    if !can_move(&region, 0, 6) {
        return Err(Fail::from(Refusal::OutOfRange));
    }
    let moved = moved_bytes(alloc, &region, 0, 6)?;
    assert!(rt; moved.as_slice() == lower.as_slice());
    Ok(())
}
