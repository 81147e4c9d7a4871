//! Pictures of arcs, and their bytes.

use scan_region::Region;
use shape_arcs::{RayStrip, arc_bytes, arc_region, frame_arc_bytes, frame_arc_region};
use shape_region::{oval_region, strip_region};
use shape_strips::Pen;
use std::alloc::Global;
use std::test::Fail;
use tb_geom::{Rect, Refusal};
use test_pixels::pixels::picture;
use test_pixels::rect;

/// Whether a region lies within these sides, and has the pixels there that are drawn, row by row.
fn shows(alloc: Global, region: &Region, sides: Rect, drawn: &[u8]) -> Result<bool, Refusal> {
    let shown = picture(alloc, region, sides)?;
    Ok(shown.as_slice() == drawn && region.bbox().union(sides) == sides)
}

/// The sides of most pictures.
const EIGHT: Rect = rect!(0, 0, 8, 8);

const SEVEN: Rect = rect!(0, 0, 7, 7);

/// From the top to the right side.
const QUARTER: &'static [u8] =
    b"....##..\n....###.\n....####\n....####\n........\n........\n........\n........\n";

/// A quarter back from the lower left corner.
const BOTTOM: &'static [u8] =
    b"........\n........\n........\n........\n....#...\n...###..\n..#####.\n..####..\n";

/// Three quarters from the upper right corner on.
const THREE_QUARTERS: &'static [u8] =
    b".......\n.....#.\n##..###\n###.###\n#######\n.#####.\n..###..\n";

/// From the upper right corner to the lower one.
const RIGHT_END: &'static [u8] = b"........\n.....###\n.....###\n........\n";

/// Nothing of 7 by 7 pixels.
const NOTHING: &'static [u8] = b".......\n.......\n.......\n.......\n.......\n.......\n.......\n";

#[test]
fn arcs_are_drawn(rt: HostRuntime) -> Result<(), Fail> {
    let alloc = rt.alloc();
    let arc = arc_region(alloc, EIGHT, 0, 90)?;
    assert!(rt; shows(alloc, &arc, EIGHT, QUARTER)?);
    let arc = arc_region(alloc, EIGHT, 225, -90)?;
    assert!(rt; shows(alloc, &arc, EIGHT, BOTTOM)?);
    let arc = arc_region(alloc, SEVEN, 45, 270)?;
    assert!(rt; shows(alloc, &arc, SEVEN, THREE_QUARTERS)?);
    let flat = rect!(0, 0, 8, 4);
    let arc = arc_region(alloc, flat, 45, 90)?;
    assert!(rt; shows(alloc, &arc, flat, RIGHT_END)?);
    Ok(())
}

#[test]
fn three_wedges_make_the_oval(rt: HostRuntime) -> Result<(), Fail> {
    let alloc = rt.alloc();
    let mut left = oval_region(alloc, SEVEN)?;
    for (start, angle) in [(0, 120), (240, -120), (-120, 120)] {
        let arc = arc_region(alloc, SEVEN, start, angle)?;
        left = left.xor(alloc, &arc)?;
    }
    assert!(rt; shows(alloc, &left, SEVEN, NOTHING)?);
    Ok(())
}

/// The pixels from 3 o'clock on.
const HALF: &'static [u8] = b".......\n.......\n.......\n....###\n#######\n#######\n#######\n";

#[test]
fn half_a_rectangle_is_drawn(rt: HostRuntime) -> Result<(), Fail> {
    let alloc = rt.alloc();
    let strip = RayStrip {
        rect: SEVEN,
        degree: 90,
    };
    assert!(rt; shows(alloc, &strip_region(alloc, &strip)?, SEVEN, HALF)?);
    Ok(())
}

/// The upper half of a frame, drawn by a pen of 2 by 1.
const ARCH: &'static [u8] =
    b"..####..\n.##..##.\n##....##\n##....##\n........\n........\n........\n........\n";

/// A pen of this size.
fn pen(width: u16, height: u16) -> Pen {
    Pen { width, height }
}

#[test]
fn frames_of_arcs_are_drawn(rt: HostRuntime) -> Result<(), Fail> {
    let alloc = rt.alloc();
    let frame = frame_arc_region(alloc, EIGHT, 270, 180, pen(2, 1))?;
    assert!(rt; shows(alloc, &frame, EIGHT, ARCH)?);
    let frame = frame_arc_region(alloc, SEVEN, 270, 180, pen(0, 1))?;
    assert!(rt; shows(alloc, &frame, SEVEN, NOTHING)?);
    Ok(())
}

/// The bytes of three quarters of an oval.
const THREE_QUARTERS_TOLD: [u8; 84] = [
    0, 0x54, 0, 1, 0, 0, 0, 7, 0, 7, 0, 1, 0, 5, 0, 6, 0x7F, 0xFF, 0, 2, 0, 0, 0, 2, 0, 4, 0, 5, 0,
    6, 0, 7, 0x7F, 0xFF, 0, 3, 0, 2, 0, 3, 0x7F, 0xFF, 0, 4, 0, 3, 0, 4, 0x7F, 0xFF, 0, 5, 0, 0, 0,
    1, 0, 6, 0, 7, 0x7F, 0xFF, 0, 6, 0, 1, 0, 2, 0, 5, 0, 6, 0x7F, 0xFF, 0, 7, 0, 2, 0, 5, 0x7F,
    0xFF, 0x7F, 0xFF,
];

/// The bytes of one pixel, the middle one and two above it, and of none.
const UPWARD: [u8; 10] = [0, 10, 0, 0, 0, 3, 0, 4, 0, 4];

const NONE: [u8; 10] = [0, 10, 0, 0, 0, 0, 0, 0, 0, 0];

const RIGHT_END_TOLD: [u8; 10] = [0, 10, 0, 1, 0, 5, 0, 3, 0, 8];

#[test]
fn bytes_of_arcs_are_written(rt: HostRuntime) -> Result<(), Fail> {
    let alloc = rt.alloc();
    let bytes = arc_bytes(alloc, SEVEN, 45, 270)?;
    assert!(rt; bytes.as_slice() == THREE_QUARTERS_TOLD.as_slice());
    let bytes = arc_bytes(alloc, SEVEN, 0, 1)?;
    assert!(rt; bytes.as_slice() == UPWARD.as_slice());
    let bytes = arc_bytes(alloc, SEVEN, 350, 20)?;
    assert!(rt; bytes.as_slice() == UPWARD.as_slice());
    let bytes = arc_bytes(alloc, SEVEN, 90, 0)?;
    assert!(rt; bytes.as_slice() == NONE.as_slice());
    let bytes = arc_bytes(alloc, rect!(0, 0, 8, 4), 45, 90)?;
    assert!(rt; bytes.as_slice() == RIGHT_END_TOLD.as_slice());
    let bytes = frame_arc_bytes(alloc, SEVEN, 0, 1, pen(1, 0))?;
    assert!(rt; bytes.as_slice() == NONE.as_slice());
    Ok(())
}

/// A rectangle with a side out of range.
const TOO_LARGE: Rect = rect!(0, 0, 16384, 1);

#[test]
fn rectangles_out_of_range_are_refused(rt: HostRuntime) -> Result<(), Fail> {
    let alloc = rt.alloc();
    assert!(rt;
        matches!(
            arc_region(alloc, TOO_LARGE, 0, 90),
            Err(Refusal::OutOfRange)
        )
    );
    let frame = frame_arc_region(alloc, TOO_LARGE, 0, 90, pen(1, 1));
    assert!(rt; matches!(frame, Err(Refusal::OutOfRange)));
    Ok(())
}

/// As large as a rectangle can be, and as wide and as high.
const WIDEST: Rect = rect!(-16384, 16381, 16383, 16383);

const HIGHEST: Rect = rect!(16381, -16384, 16383, 16383);

#[test]
fn arcs_reach_the_ends_of_the_range(rt: HostRuntime) -> Result<(), Fail> {
    let arc = arc_region(rt.alloc(), WIDEST, -32768, 32767)?;
    assert!(rt; !arc.is_empty());
    let arc = arc_region(rt.alloc(), HIGHEST, 32767, -32768)?;
    assert!(rt; !arc.is_empty());
    Ok(())
}

#[test]
fn bytes_of_a_great_arc_are_too_long(rt: HostRuntime) {
    let refused = arc_bytes(rt.alloc(), rect!(0, 0, 6000, 6000), 0, 300);
    assert!(rt; matches!(refused, Err(Refusal::TooLong)));
}
