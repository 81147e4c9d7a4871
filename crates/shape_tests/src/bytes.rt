//! Bytes of the regions of shapes.

use crate::sizes::{bordered, corner, pen, sized};
use crate::slow::{Framed, Inside, Round};
use region_bytes::RegionBytes;
use shape_region::{Frame, Rows, Solid, TwoRuns, form_bytes, form_region};
use shape_strips::{InsideStrip, Pen, RoundStrip, Run};
use std::alloc::Global;
use std::test::Fail;
use tb_geom::{Point, Rect, Refusal};
use test_pixels::pixels::{Pixels, are_alike, mark};
use test_pixels::rect;

/// One more than the most columns or rows of a shape whose bytes are tried.
const SIZES: u16 = 13;

/// The pixels that bytes say.
#[derive(Drop)]
pub struct Told<'a>(pub RegionBytes<'a>);

impl Pixels for Told<'_> {
    fn byte(&self, point: Point) -> u8 {
        mark(self.0.contains(point))
    }
}

/// Whether the bytes of a shape say the pixels that a slow program gives, and are those of its region.
fn are_bytes_of<R: Rows, P: Pixels>(
    alloc: Global,
    form: &R,
    of: &P,
    sides: Rect,
) -> Result<bool, Refusal> {
    let bytes = form_bytes(alloc, form)?;
    let told = Told(RegionBytes::read(bytes.as_slice())?);
    let again = form_region(alloc, form)?.to_bytes(alloc)?;
    Ok(bytes.as_slice() == again.as_slice() && are_alike(&told, of, sides))
}

/// Whether the bytes of a shape, of its frame and of the inside that this leaves are.
fn are_told(alloc: Global, shape: Round, pen: Pen) -> Result<bool, Refusal> {
    let Round { rect, corner } = shape;
    if !rect.is_in_range() {
        return Ok(false);
    }
    let framed = Framed { shape, pen };
    let sides = bordered(rect);
    let round = RoundStrip { rect, corner };
    let inside = InsideStrip { rect, corner, pen };
    Ok(
        are_bytes_of(alloc, &Solid { strip: &round }, &shape, sides)?
            && are_bytes_of(alloc, &Frame { rect, corner, pen }, &framed, sides)?
            && are_bytes_of(alloc, &Solid { strip: &inside }, &Inside(framed), sides)?,
    )
}

#[test]
fn bytes_say_the_pixels_of_every_small_shape(rt: HostRuntime) -> Result<(), Fail> {
    let alloc = rt.alloc();
    for width in 0..SIZES {
        for height in 0..SIZES {
            let rect = sized(width, height);
            let oval = Round {
                rect,
                corner: corner(width, height),
            };
            let round = Round {
                rect,
                corner: corner(3, 5),
            };
            assert!(rt; are_told(alloc, oval, pen(1, 1))?);
            assert!(rt; are_told(alloc, round, pen(3, 2))?);
        }
    }
    Ok(())
}

/// The bytes of the region of an oval of 5 by 5 pixels.
const OVAL: [u8; 52] = [
    0, 0x34, 0, 0, 0, 0, 0, 5, 0, 5, 0, 0, 0, 1, 0, 4, 0x7F, 0xFF, 0, 1, 0, 0, 0, 1, 0, 4, 0, 5,
    0x7F, 0xFF, 0, 4, 0, 0, 0, 1, 0, 4, 0, 5, 0x7F, 0xFF, 0, 5, 0, 1, 0, 4, 0x7F, 0xFF, 0x7F, 0xFF,
];

#[test]
fn bytes_of_an_oval_are_written(rt: HostRuntime) -> Result<(), Fail> {
    let strip = RoundStrip {
        rect: rect!(0, 0, 5, 5),
        corner: corner(5, 5),
    };
    let bytes = form_bytes(rt.alloc(), &Solid { strip: &strip })?;
    assert!(rt; bytes.as_slice() == OVAL.as_slice());
    Ok(())
}

#[test]
fn bytes_of_a_great_oval_are_too_long(rt: HostRuntime) {
    let strip = RoundStrip {
        rect: rect!(0, 0, 5000, 5000),
        corner: corner(5000, 5000),
    };
    let refused = form_bytes(rt.alloc(), &Solid { strip: &strip });
    assert!(rt; matches!(refused, Err(Refusal::TooLong)));
}

/// The columns from 2 up to 9.
const OUTER: Run = Run { left: 2, right: 9 };

/// One column of these, and none.
const INNER: Run = Run { left: 4, right: 5 };

const EMPTY: Run = Run { left: 4, right: 4 };

#[test]
fn rows_have_the_edges_of_their_runs(rt: HostRuntime) {
    let ring = TwoRuns::around(OUTER, INNER).edges();
    assert!(rt; ring.as_slice() == [2, 4, 5, 9].as_slice());
    assert!(rt; TwoRuns::one(OUTER).edges().as_slice() == [2, 9].as_slice());
    let whole = TwoRuns::around(OUTER, EMPTY).edges();
    assert!(rt; whole.as_slice() == [2, 9].as_slice());
    assert!(rt; TwoRuns::around(OUTER, OUTER).edges().is_empty());
    assert!(rt; TwoRuns::none().edges().is_empty());
}
