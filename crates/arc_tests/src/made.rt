//! Small arcs and their frames, compared with a slow program.

use crate::slow::{SlowArc, SlowFrame};
use region_bytes::RegionBytes;
use shape_arcs::{arc_bytes, arc_region, frame_arc_bytes, frame_arc_region};
use shape_strips::Pen;
use std::alloc::Global;
use std::test::Fail;
use tb_geom::{Point, Rect, Refusal};
use test_pixels::pixels::{Pixels, are_alike, is_region_of, mark};
use test_pixels::rect;

/// One more than the most columns or rows that are tried.
const SIZES: u16 = 8;

/// A rectangle of this size.
fn sized(width: u16, height: u16) -> Rect {
    rect!(
        -3,
        2,
        i32::from(width).wrapping_sub(3),
        i32::from(height).wrapping_add(2)
    )
}

/// The rectangle with one more row and one more column on each side.
fn bordered(rect: Rect) -> Rect {
    Rect {
        left: rect.left.wrapping_sub(1),
        top: rect.top.wrapping_sub(1),
        right: rect.right.wrapping_add(1),
        bottom: rect.bottom.wrapping_add(1),
    }
}

/// The pixels that bytes say.
#[derive(Drop)]
struct Told<'a>(RegionBytes<'a>);

impl Pixels for Told<'_> {
    fn byte(&self, point: Point) -> u8 {
        mark(self.0.contains(point))
    }
}

/// Whether bytes are those of a region of these pixels.
fn say<P: Pixels>(bytes: &[u8], of: &P, sides: Rect) -> Result<bool, Refusal> {
    let told = Told(RegionBytes::read(bytes)?);
    Ok(are_alike(&told, of, sides))
}

/// Whether the region of an arc and its bytes have the pixels that a slow program gives.
fn is_made(alloc: Global, arc: SlowArc) -> Result<bool, Refusal> {
    let SlowArc { rect, start, angle } = arc;
    if !rect.is_in_range() {
        return Ok(false);
    }
    let sides = bordered(rect);
    let region = arc_region(alloc, rect, start, angle)?;
    let bytes = arc_bytes(alloc, rect, start, angle)?;
    Ok(is_region_of(alloc, &region, &arc, sides)? && say(bytes.as_slice(), &arc, sides)?)
}

/// Whether its frame and the bytes of that have.
fn is_framed(alloc: Global, arc: SlowArc, pen: Pen) -> Result<bool, Refusal> {
    let SlowArc { rect, start, angle } = arc;
    if !rect.is_in_range() {
        return Ok(false);
    }
    let frame = SlowFrame { arc, pen };
    let sides = bordered(rect);
    let region = frame_arc_region(alloc, rect, start, angle, pen)?;
    let bytes = frame_arc_bytes(alloc, rect, start, angle, pen)?;
    Ok(is_region_of(alloc, &region, &frame, sides)? && say(bytes.as_slice(), &frame, sides)?)
}

/// The wedges that are tried: narrow and broad ones, none and all, back and on, from the sides, the corners and
/// between.
const WEDGES: [(i16, i16); 14] = [
    (0, 0),
    (0, 90),
    (10, 35),
    (45, 90),
    (90, 180),
    (100, 181),
    (180, 270),
    (270, 180),
    (-30, 300),
    (350, 20),
    (30, -200),
    (721, -359),
    (200, 360),
    (-32768, 32767),
];

#[test]
fn small_arcs_are_made_of_their_pixels(rt: HostRuntime) -> Result<(), Fail> {
    let alloc = rt.alloc();
    for width in 0..SIZES {
        for height in 0..SIZES {
            let rect = sized(width, height);
            for (start, angle) in WEDGES {
                assert!(rt; is_made(alloc, SlowArc { rect, start, angle })?);
            }
        }
    }
    Ok(())
}

#[test]
fn frames_of_small_arcs_are_made_of_their_pixels(rt: HostRuntime) -> Result<(), Fail> {
    let alloc = rt.alloc();
    for width in 0..SIZES {
        for height in 0..SIZES {
            let rect = sized(width, height);
            for (start, angle) in WEDGES {
                let arc = SlowArc { rect, start, angle };
                let (thin, thick) = (
                    Pen {
                        width: 1,
                        height: 1,
                    },
                    Pen {
                        width: 2,
                        height: 1,
                    },
                );
                assert!(rt; is_framed(alloc, arc, thin)? && is_framed(alloc, arc, thick)?);
            }
        }
    }
    Ok(())
}

#[test]
fn each_degree_is_where_it_ought_to_be(rt: HostRuntime) -> Result<(), Fail> {
    let alloc = rt.alloc();
    let rect = sized(7, 5);
    for start in -5..365 {
        let arc = SlowArc {
            rect,
            start,
            angle: 1,
        };
        assert!(rt; is_made(alloc, arc)?);
    }
    Ok(())
}
