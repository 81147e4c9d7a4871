//! Forms that calls carry, made regions and bytes.

use crate::bytes::Told;
use crate::sizes::{bordered, corner, pen, sized};
use crate::slow::{Framed, Round};
use lent_ops::{CornerRef, FormRef, PenRef};
use region_bytes::RegionBytes;
use std::alloc::Global;
use std::test::Fail;
use tb_geom::{Rect, Refusal};
use test_pixels::pixels::{Pixels, are_alike, is_region_of};

/// The corner of the forms that are tried, and their pen.
const CORNER: CornerRef = CornerRef {
    width: 3,
    height: 5,
};

const PEN: PenRef = PenRef {
    width: 2,
    height: 1,
};

/// One more than the most columns or rows of a form that is tried.
const SIZES: u16 = 10;

/// Whether a form is in range, and made of the pixels that a slow program gives, as a region and as bytes.
fn is_made<P: Pixels>(alloc: Global, form: FormRef, of: &P, sides: Rect) -> Result<bool, Refusal> {
    if !form.is_near() || form.is_long() {
        return Ok(false);
    }
    let region = form.to_region(alloc)?;
    let bytes = form.to_bytes(alloc)?;
    let told = Told(RegionBytes::read(bytes.as_slice())?);
    Ok(is_region_of(alloc, &region, of, sides)? && are_alike(&told, of, sides))
}

/// Whether a painted form, and the same form framed, are.
fn are_made(
    alloc: Global,
    painted: FormRef,
    framed: FormRef,
    shape: Round,
) -> Result<bool, Refusal> {
    let sides = bordered(shape.rect);
    let frame = Framed {
        shape,
        pen: pen(2, 1),
    };
    Ok(is_made(alloc, painted, &shape, sides)? && is_made(alloc, framed, &frame, sides)?)
}

/// Whether all forms of a rectangle of this size are.
fn is_each_made(alloc: Global, width: u16, height: u16) -> Result<bool, Refusal> {
    let rect = sized(width, height);
    let shape = |width, height| Round {
        rect,
        corner: corner(width, height),
    };
    let (plain, round, oval) = (shape(0, 0), shape(3, 5), shape(width, height));
    let (rect_form, rect_frame) = (FormRef::Rect(rect), FormRef::FrameRect(rect, PEN));
    let round_form = FormRef::Round(rect, CORNER);
    let round_frame = FormRef::FrameRound(rect, CORNER, PEN);
    let (oval_form, oval_frame) = (FormRef::Oval(rect), FormRef::FrameOval(rect, PEN));
    Ok(
        are_made(alloc, rect_form, rect_frame, plain)?
            && are_made(alloc, round_form, round_frame, round)?
            && are_made(alloc, oval_form, oval_frame, oval)?,
    )
}

#[test]
fn forms_are_made_of_their_pixels(rt: HostRuntime) -> Result<(), Fail> {
    let alloc = rt.alloc();
    for width in 0..SIZES {
        for height in 0..SIZES {
            assert!(rt; is_each_made(alloc, width, height)?);
        }
    }
    Ok(())
}
