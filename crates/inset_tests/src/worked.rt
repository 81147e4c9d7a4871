//! Insets and a frame that were worked out by hand, as words and as a picture.

use crate::sets::bytes_of;
use region_bytes::RegionBytes;
use region_inset::{can_inset, frame_of_region, inset_bytes};
use shape_strips::Pen;
use std::alloc::Global;
use std::test::Fail;
use tb_geom::Refusal;
use test_pixels::pixels::picture;
use test_pixels::rect;

/// A region, its distances, and its inset.
struct Worked {
    region: &'static [u16],
    distances: (i16, i16),
    inset: &'static [u16],
}

/// An oval of 5 by 5 pixels.
const OVAL: [u16; 26] = [
    52, 0, 0, 5, 5, 0, 1, 4, 0x7FFF, 1, 0, 1, 4, 5, 0x7FFF, 4, 0, 1, 4, 5, 0x7FFF, 5, 1, 4, 0x7FFF,
    0x7FFF,
];

/// What a column and a row less on each side leave of it: a cross.
const CROSS: [u16; 26] = [
    52, 1, 1, 4, 4, 1, 2, 3, 0x7FFF, 2, 1, 2, 3, 4, 0x7FFF, 3, 1, 2, 3, 4, 0x7FFF, 4, 2, 3, 0x7FFF,
    0x7FFF,
];

/// The rectangle l1 t1 r7 b7.
const RECTANGLE: [u16; 5] = [10, 1, 1, 7, 7];

const NOTHING: [u16; 5] = [10, 0, 0, 0, 0];

/// The rectangles l0 t0 r3 b1 and l2 t1 r6 b2.
const STEP: [u16; 20] = [
    40, 0, 0, 2, 6, 0, 0, 3, 0x7FFF, 1, 0, 2, 3, 6, 0x7FFF, 2, 2, 6, 0x7FFF, 0x7FFF,
];

/// One pixel of the first and two of the second are left, and each of these grows by a row above and below.
const TWO: [u16; 22] = [
    44, 0xFFFF, 1, 3, 5, 0xFFFF, 1, 2, 0x7FFF, 0, 3, 5, 0x7FFF, 2, 1, 2, 0x7FFF, 3, 3, 5, 0x7FFF,
    0x7FFF,
];

/// A rectangle that ends with the last column, and is four rows high.
const BESIDE: [u16; 5] = [10, 1, 0x3FF0, 5, 0x3FFF];

static WORKED: [Worked; 5] = [
    Worked {
        region: &OVAL,
        distances: (1, 1),
        inset: &CROSS,
    },
    Worked {
        region: &RECTANGLE,
        distances: (-1, -2),
        inset: &[10, 0xFFFF, 0, 9, 8],
    },
    Worked {
        region: &RECTANGLE,
        distances: (3, 0),
        inset: &NOTHING,
    },
    Worked {
        region: &STEP,
        distances: (1, -1),
        inset: &TWO,
    },
    Worked {
        region: &BESIDE,
        distances: (-10, 100),
        inset: &NOTHING,
    },
];

/// Whether a region has its inset.
fn is_inset(alloc: Global, row: &Worked) -> Result<bool, Refusal> {
    let bytes = bytes_of(alloc, row.region)?;
    let region = RegionBytes::read(bytes.as_slice())?;
    let (dh, dv) = row.distances;
    let (dh, dv) = (i32::from(dh), i32::from(dv));
    if !can_inset(&region, dh, dv) {
        return Ok(false);
    }
    let inset = inset_bytes(alloc, &region, dh, dv)?;
    Ok(inset.as_slice() == bytes_of(alloc, row.inset)?.as_slice())
}

#[test]
fn regions_have_the_insets_that_were_worked_out(rt: HostRuntime) -> Result<(), Fail> {
    for row in &WORKED {
        assert!(rt; is_inset(rt.alloc(), row)?);
    }
    Ok(())
}

/// The frame of the rectangle, drawn by a pen of 1 by 2.
const FRAME: &[u8] = b"\
........
.######.
.######.
.#....#.
.#....#.
.######.
.######.
........
";

#[test]
fn a_rectangle_has_its_frame(rt: HostRuntime) -> Result<(), Fail> {
    let bytes = bytes_of(rt.alloc(), &RECTANGLE)?;
    let region = RegionBytes::read(bytes.as_slice())?;
    let pen = Pen {
        width: 1,
        height: 2,
    };
    let frame = frame_of_region(rt.alloc(), &region, pen)?;
    let drawn = picture(rt.alloc(), &frame, rect!(0, 0, 8, 8))?;
    assert!(rt; drawn.as_slice() == FRAME);
    Ok(())
}
