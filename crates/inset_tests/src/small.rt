//! Insets and frames against the slow program.
ghost use Rattle.tb_geom.specs.Pixels.{holds};
ghost use Rattle.region_bytes.specs.Bytes.{IsWord};
ghost use Rattle.region_inset.specs.Insets.{inset, LiesInRange};

use crate::sets::{FIELD, Mixed, SETS, SIDES, Told, set_of};
use crate::slow::{SlowFrame, SlowInset};
use region_bytes::RegionBytes;
use region_inset::{
    FrameRegion, Inset, can_inset, frame_of_region, frame_region_bytes, inset_bytes, pixel_region,
};
use scan_region::Region;
use shape_strips::Pen;
use std::alloc::{AllocError, Global};
use std::test::Fail;
use tb_geom::{Rect, Refusal};
use test_pixels::pixels::{Pixels, are_alike, is_region_of, region_of};
use test_pixels::rect;

/// A rectangle around all insets of the small sets that are tried.
const AROUND: Rect = rect!(-5, -5, 6, 6);

/// A rectangle around those of the mixed sets.
const WIDE: Rect = rect!(-5, -5, 16, 14);

/// Distances of all signs.
const DISTANCES: [(i16, i16); 11] = [
    (0, 0),
    (1, 1),
    (-1, -1),
    (1, -1),
    (-1, 1),
    (2, -1),
    (-2, 1),
    (0, -2),
    (-1, 0),
    (-3, 2),
    (1, -3),
];

/// Pens with a size, and without, by their columns and rows.
const PENS: [(u8, u8); 6] = [(1, 1), (1, 2), (2, 1), (3, 3), (0, 1), (2, 0)];

/// The region of the inset of a region.
fn inset_of(alloc: Global, region: &RegionBytes<'_>, dh: i32, dv: i32) -> Result<Region, AllocError>
    requires across { IsWord dh }
    requires down { IsWord dv }
    requires in_range { LiesInRange (inset (holds region.now) dh dv) }
{
    pixel_region(alloc, &Inset { region, dh, dv })
}

/// Whether the inset of a region has the pixels that the slow program gives, as bytes and as a region.
fn is_inset<P: Pixels + Copy>(
    alloc: Global,
    region: &RegionBytes<'_>,
    set: &P,
    (dh, dv): (i16, i16),
    sides: Rect,
) -> Result<bool, Refusal> {
    let slow = SlowInset { set: *set, dh, dv };
    let (dh, dv) = (i32::from(dh), i32::from(dv));
    if !can_inset(region, dh, dv) {
        return Ok(false);
    }
    let bytes = inset_bytes(alloc, region, dh, dv)?;
    let told = Told(RegionBytes::read(bytes.as_slice())?);
    let made = inset_of(alloc, region, dh, dv)?;
    Ok(are_alike(&told, &slow, sides) && is_region_of(alloc, &made, &slow, sides)?)
}

/// Whether all insets that are tried of a set are.
fn are_inset<P: Pixels + Copy>(
    alloc: Global,
    set: &P,
    sides: Rect,
    around: Rect,
) -> Result<bool, Refusal> {
    let bytes = region_of(alloc, set, sides)?.to_bytes(alloc)?;
    let region = RegionBytes::read(bytes.as_slice())?;
    for distances in DISTANCES {
        if !is_inset(alloc, &region, set, distances, around)? {
            return Ok(false);
        }
    }
    Ok(true)
}

#[test]
fn small_sets_are_inset(rt: HostRuntime) -> Result<(), Fail> {
    for number in 0..SETS {
        assert!(rt; are_inset(rt.alloc(), &set_of(number), SIDES, AROUND)?);
    }
    Ok(())
}

#[test]
fn mixed_sets_are_inset(rt: HostRuntime) -> Result<(), Fail> {
    for number in 0..7 {
        assert!(rt; are_inset(rt.alloc(), &Mixed(number), FIELD, WIDE)?);
    }
    Ok(())
}

/// Whether the frame of a region has the pixels that the slow program gives, as bytes and as a region.
fn is_framed<P: Pixels + Copy>(
    alloc: Global,
    region: &RegionBytes<'_>,
    set: &P,
    size: (u8, u8),
    sides: Rect,
) -> Result<bool, Refusal> {
    let slow = SlowFrame {
        set: *set,
        pen: size,
    };
    let pen = Pen {
        width: u16::from(size.0),
        height: u16::from(size.1),
    };
    let bytes = frame_region_bytes(alloc, region, pen)?;
    let told = Told(RegionBytes::read(bytes.as_slice())?);
    let frame = frame_of_region(alloc, region, pen)?;
    let made = pixel_region(alloc, &FrameRegion { region, pen })?;
    Ok(
        are_alike(&told, &slow, sides)
            && is_region_of(alloc, &frame, &slow, sides)?
            && is_region_of(alloc, &made, &slow, sides)?,
    )
}

/// Whether all frames that are tried of a set are.
fn are_framed<P: Pixels + Copy>(
    alloc: Global,
    set: &P,
    sides: Rect,
    around: Rect,
) -> Result<bool, Refusal> {
    let bytes = region_of(alloc, set, sides)?.to_bytes(alloc)?;
    let region = RegionBytes::read(bytes.as_slice())?;
    for pen in PENS {
        if !is_framed(alloc, &region, set, pen, around)? {
            return Ok(false);
        }
    }
    Ok(true)
}

#[test]
fn small_sets_are_framed(rt: HostRuntime) -> Result<(), Fail> {
    for number in 0..SETS {
        assert!(rt; are_framed(rt.alloc(), &set_of(number), SIDES, AROUND)?);
    }
    Ok(())
}

#[test]
fn mixed_sets_are_framed(rt: HostRuntime) -> Result<(), Fail> {
    for number in 0..7 {
        assert!(rt; are_framed(rt.alloc(), &Mixed(number), FIELD, WIDE)?);
    }
    Ok(())
}
