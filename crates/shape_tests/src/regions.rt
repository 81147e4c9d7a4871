//! Regions of round shapes, frames and insides.

use crate::sizes::{SIZES, bordered, corner, pen, sized};
use crate::slow::{Framed, Inside, Round};
use scan_region::Region;
use shape_region::{
    frame_oval_region, frame_rect_region, frame_round_rect_region, inside_region, oval_region,
    round_rect_region, strip_region,
};
use shape_strips::{Pen, RoundStrip};
use std::alloc::Global;
use std::test::Fail;
use tb_geom::{Rect, Refusal};
use test_pixels::pixels::{is_region_of, picture};
use test_pixels::rect;

/// Whether a frame and its inside are made of the pixels that a slow program gives.
fn is_framed(alloc: Global, shape: Round, pen: Pen) -> Result<bool, Refusal> {
    let Round { rect, corner } = shape;
    let framed = Framed { shape, pen };
    let sides = bordered(rect);
    let frame = frame_round_rect_region(alloc, rect, corner, pen)?;
    let inside = inside_region(alloc, rect, corner, pen)?;
    Ok(
        is_region_of(alloc, &frame, &framed, sides)?
            && is_region_of(alloc, &inside, &Inside(framed), sides)?,
    )
}

/// Whether a shape, its frames and their insides are.
fn is_made(alloc: Global, shape: Round) -> Result<bool, Refusal> {
    let made = round_rect_region(alloc, shape.rect, shape.corner)?;
    Ok(
        is_region_of(alloc, &made, &shape, bordered(shape.rect))?
            && is_framed(alloc, shape, pen(1, 1))?
            && is_framed(alloc, shape, pen(3, 2))?,
    )
}

/// Whether shapes of this size with several corners are.
fn are_made(alloc: Global, width: u16, height: u16) -> Result<bool, Refusal> {
    let rect = sized(width, height);
    for (width, height) in [(3, 5), (16, 16)] {
        let corner = corner(width, height);
        if !is_made(alloc, Round { rect, corner })? {
            return Ok(false);
        }
    }
    Ok(true)
}

#[test]
fn round_rectangles_are_made_of_their_pixels(rt: HostRuntime) -> Result<(), Fail> {
    let alloc = rt.alloc();
    for width in 0..SIZES {
        for height in 0..SIZES {
            assert!(rt; are_made(alloc, width, height)?);
        }
    }
    Ok(())
}

/// Whether an oval and its frame are made of the pixels that a slow program gives.
fn is_oval(alloc: Global, width: u16, height: u16) -> Result<bool, Refusal> {
    let rect = sized(width, height);
    let shape = Round {
        rect,
        corner: corner(width, height),
    };
    let pen = pen(1, 1);
    let oval = oval_region(alloc, rect)?;
    let frame = frame_oval_region(alloc, rect, pen)?;
    let sides = bordered(rect);
    Ok(
        is_region_of(alloc, &oval, &shape, sides)?
            && is_region_of(alloc, &frame, &Framed { shape, pen }, sides)?,
    )
}

#[test]
fn every_small_oval_is_made_of_its_pixels(rt: HostRuntime) -> Result<(), Fail> {
    let alloc = rt.alloc();
    for width in 0..SIZES {
        for height in 0..SIZES {
            assert!(rt; is_oval(alloc, width, height)?);
        }
    }
    Ok(())
}

/// Whether a region lies within these sides, and has the pixels there that are drawn, row by row.
pub fn shows(alloc: Global, region: &Region, sides: Rect, drawn: &[u8]) -> Result<bool, Refusal> {
    let shown = picture(alloc, region, sides)?;
    Ok(shown.as_slice() == drawn && region.bbox().union(sides) == sides)
}

/// The sides of most pictures.
pub const EIGHT: Rect = rect!(0, 0, 8, 8);

/// An oval of 8 by 8 pixels.
const OVAL: &'static [u8] =
    b"..####..\n.######.\n########\n########\n########\n########\n.######.\n..####..\n";

/// Its frame, drawn by a pen of 1 by 1.
const OVAL_FRAME: &'static [u8] =
    b"..####..\n.#....#.\n#......#\n#......#\n#......#\n#......#\n.#....#.\n..####..\n";

#[test]
fn ovals_are_drawn(rt: HostRuntime) -> Result<(), Fail> {
    let alloc = rt.alloc();
    assert!(rt; shows(alloc, &oval_region(alloc, EIGHT)?, EIGHT, OVAL)?);
    let frame = frame_oval_region(alloc, EIGHT, pen(1, 1))?;
    assert!(rt; shows(alloc, &frame, EIGHT, OVAL_FRAME)?);
    Ok(())
}

/// An oval of 7 by 5 pixels.
const ODD_OVAL: &'static [u8] = b".#####.\n#######\n#######\n#######\n.#####.\n";

/// An oval of 8 by 2 pixels, which does not touch its left and its right side.
const FLAT_OVAL: &'static [u8] = b".######.\n.######.\n";

/// A rectangle of 8 by 6 pixels with corners of 4 by 6.
const ROUND: &'static [u8] = b".######.\n########\n########\n########\n########\n.######.\n";

#[test]
fn shapes_of_other_sizes_are_drawn(rt: HostRuntime) -> Result<(), Fail> {
    let alloc = rt.alloc();
    let sides = rect!(0, 0, 7, 5);
    assert!(rt; shows(alloc, &oval_region(alloc, sides)?, sides, ODD_OVAL)?);
    let sides = rect!(0, 0, 8, 2);
    assert!(rt; shows(alloc, &oval_region(alloc, sides)?, sides, FLAT_OVAL)?);
    let sides = rect!(0, 0, 8, 6);
    let shape = round_rect_region(alloc, sides, corner(4, 6))?;
    assert!(rt; shows(alloc, &shape, sides, ROUND)?);
    Ok(())
}

/// The frame of a flat oval, which has no gap.
const FLAT_FRAME: &'static [u8] =
    b"...##############...\n###..............###\n...##############...\n";

#[test]
fn frames_of_flat_ovals_are_closed(rt: HostRuntime) -> Result<(), Fail> {
    let alloc = rt.alloc();
    let sides = rect!(0, 0, 20, 3);
    let frame = frame_oval_region(alloc, sides, pen(1, 1))?;
    assert!(rt; shows(alloc, &frame, sides, FLAT_FRAME)?);
    Ok(())
}

/// The frame of a rectangle with corners of 5 by 5, drawn by a pen of 2 by 1.
const ROUND_FRAME: &'static [u8] =
    b".######.\n##....##\n##....##\n##....##\n##....##\n##....##\n##....##\n.######.\n";

/// The frame of a rectangle, drawn by a pen of 1 by 2.
const RECT_FRAME: &'static [u8] =
    b"########\n########\n#......#\n#......#\n#......#\n#......#\n########\n########\n";

#[test]
fn frames_are_drawn_by_their_pens(rt: HostRuntime) -> Result<(), Fail> {
    let alloc = rt.alloc();
    let frame = frame_round_rect_region(alloc, EIGHT, corner(5, 5), pen(2, 1))?;
    assert!(rt; shows(alloc, &frame, EIGHT, ROUND_FRAME)?);
    let frame = frame_rect_region(alloc, EIGHT, pen(1, 2))?;
    assert!(rt; shows(alloc, &frame, EIGHT, RECT_FRAME)?);
    Ok(())
}

#[test]
fn a_strip_is_made_a_region(rt: HostRuntime) -> Result<(), Fail> {
    let alloc = rt.alloc();
    let strip = RoundStrip {
        rect: EIGHT,
        corner: corner(8, 8),
    };
    assert!(rt; shows(alloc, &strip_region(alloc, &strip)?, EIGHT, OVAL)?);
    Ok(())
}

/// A rectangle with a side out of range.
const TOO_LARGE: Rect = rect!(0, 0, 16384, 1);

#[test]
fn rectangles_out_of_range_are_refused(rt: HostRuntime) -> Result<(), Fail> {
    let alloc = rt.alloc();
    assert!(rt; matches!(oval_region(alloc, TOO_LARGE), Err(Refusal::OutOfRange)));
    let shape = round_rect_region(alloc, TOO_LARGE, corner(1, 1));
    assert!(rt; matches!(shape, Err(Refusal::OutOfRange)));
    let frame = frame_oval_region(alloc, TOO_LARGE, pen(0, 0));
    assert!(rt; matches!(frame, Err(Refusal::OutOfRange)));
    let frame = frame_rect_region(alloc, TOO_LARGE, pen(1, 1));
    assert!(rt; matches!(frame, Err(Refusal::OutOfRange)));
    let frame = frame_round_rect_region(alloc, TOO_LARGE, corner(1, 1), pen(1, 1));
    assert!(rt; matches!(frame, Err(Refusal::OutOfRange)));
    let inside = inside_region(alloc, TOO_LARGE, corner(1, 1), pen(1, 1));
    assert!(rt; matches!(inside, Err(Refusal::OutOfRange)));
    Ok(())
}

/// As wide as a rectangle can be.
const WIDEST: Rect = rect!(-16384, 16375, 16383, 16383);

#[test]
fn shapes_reach_the_ends_of_the_range(rt: HostRuntime) -> Result<(), Fail> {
    let shape = round_rect_region(rt.alloc(), WIDEST, corner(65535, 6))?;
    assert!(rt; shape.bbox() == WIDEST);
    Ok(())
}
