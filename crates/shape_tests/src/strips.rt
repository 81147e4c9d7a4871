//! Strips, row by row.

use crate::sizes::{SIZES, bordered, corner, pen, sized};
use crate::slow::{Framed, Inside, Round};
use shape_strips::{Corner, InsideStrip, Pen, RoundStrip, Run, Strip};
use std::test::Fail;
use tb_geom::{Point, Rect};
use test_pixels::pixels::{Pixels, mark};
use test_pixels::rect;

#[test]
fn runs_share_columns(rt: HostRuntime) -> Result<(), Fail> {
    let run = Run { left: 2, right: 9 };
    let other = Run { left: 0, right: 5 };
    assert!(rt; run.sect(other) == Run { left: 2, right: 5 });
    assert!(rt; run.inner() == Run { left: 3, right: 8 });
    let none = Run::empty();
    assert!(rt; none.right <= none.left);
    Ok(())
}

#[test]
fn corners_have_sizes(rt: HostRuntime) -> Result<(), Fail> {
    assert!(rt; Corner::none() == corner(0, 0));
    assert!(rt; Corner::of_oval(rect!(-3, 2, 4, 7)) == corner(7, 5));
    assert!(rt; Corner::of_oval(rect!(4, 7, -3, 7)) == corner(0, 0));
    Ok(())
}

#[test]
fn pens_have_sizes(rt: HostRuntime) -> Result<(), Fail> {
    assert!(rt; pen(1, 2).has_size());
    assert!(rt; !pen(0, 2).has_size());
    assert!(rt; !pen(1, 0).has_size());
    Ok(())
}

/// Whether a run is the row `v` of a set, in the columns of the sides.
fn is_row<P: Pixels>(run: Run, of: &P, v: i32, sides: Rect) -> bool {
    for h in sides.left..sides.right {
        let has = run.left <= h && h < run.right;
        if of.byte(Point { h, v }) != mark(has) {
            return false;
        }
    }
    true
}

/// Whether the runs of a strip are the rows of a set, within the sides.
pub fn are_rows<S: Strip, P: Pixels>(strip: &S, of: &P, sides: Rect) -> bool {
    for v in sides.top..sides.bottom {
        if !is_row(strip.run(v), of, v, sides) {
            return false;
        }
    }
    true
}

/// Whether the runs of a round shape are those of the slow program.
fn is_round(shape: Round) -> bool {
    let Round { rect, corner } = shape;
    if !rect.is_in_range() {
        return false;
    }
    let strip = RoundStrip { rect, corner };
    strip.bounds() == rect && are_rows(&strip, &shape, bordered(rect))
}

/// Whether so are the runs of its inside.
fn is_inside(shape: Round, pen: Pen) -> bool {
    let Round { rect, corner } = shape;
    if !rect.is_in_range() {
        return false;
    }
    let strip = InsideStrip { rect, corner, pen };
    let inside = Inside(Framed { shape, pen });
    strip.bounds() == rect && are_rows(&strip, &inside, bordered(rect))
}

/// Whether an oval of this size and its inside have the right runs, and the round rectangles that have its corners
/// and are wider and higher by so much.
fn are_shapes(width: u16, height: u16, more: u16) -> bool {
    let rect = sized(width.saturating_add(more), height.saturating_add(more));
    let corner = corner(width, height);
    let shape = Round { rect, corner };
    is_round(shape) && is_inside(shape, pen(1, 1))
}

#[test]
fn shapes_with_every_small_corner_are_their_runs(rt: HostRuntime) -> Result<(), Fail> {
    for width in 0..SIZES {
        for height in 0..SIZES {
            assert!(rt; are_shapes(width, height, 0));
            assert!(rt; are_shapes(width, height, 1));
        }
    }
    Ok(())
}

/// The sizes of further pens.
const PENS: [(u16, u16); 6] = [(0, 2), (1, 0), (2, 1), (1, 3), (5, 5), (99, 1)];

/// Whether the insides that these pens leave of an oval, and of shapes with other corners, have the right runs.
fn are_insides(rect: Rect) -> bool {
    for (width, height) in PENS {
        for corner in [Corner::none(), corner(7, 4), corner(99, 99)] {
            if !is_inside(Round { rect, corner }, pen(width, height)) {
                return false;
            }
        }
    }
    true
}

#[test]
fn insides_of_other_pens_are_their_runs(rt: HostRuntime) -> Result<(), Fail> {
    for width in 0..12 {
        for height in 0..12 {
            assert!(rt; are_insides(sized(width, height)));
        }
    }
    Ok(())
}

#[test]
fn shapes_turned_inside_out_have_no_pixel(rt: HostRuntime) -> Result<(), Fail> {
    let rect = rect!(4, 2, -3, 7);
    let corner = corner(5, 5);
    assert!(rt;
        are_rows(
            &RoundStrip { rect, corner },
            &Round { rect, corner },
            rect!(-5, 0, 9, 9)
        )
    );
    Ok(())
}
