//! Lines, row by row and as regions.

use crate::regions::{EIGHT, shows};
use crate::slow_lines::Line;
use crate::strips::are_rows;
use shape_region::line_region;
use shape_strips::{LineStrip, Pen};
use std::alloc::Global;
use std::test::Fail;
use tb_geom::{Point, Rect, Refusal};
use test_pixels::pixels::is_region_of;
use test_pixels::{point, rect};

/// The sides within which lines are looked at.
const SIDES: Rect = rect!(-2, -2, 13, 13);

/// Whether the runs of a line are those of the slow program.
fn is_line(from: Point, to: Point, pen: Pen) -> bool {
    if !pen.fits_at(from) || !pen.fits_at(to) {
        return false;
    }
    let strip = LineStrip { from, to, pen };
    are_rows(&strip, &Line { from, to, pen }, SIDES)
}

/// The pens that draw each line.
const PENS: [Pen; 9] = [
    Pen {
        width: 1,
        height: 1,
    },
    Pen {
        width: 1,
        height: 2,
    },
    Pen {
        width: 1,
        height: 3,
    },
    Pen {
        width: 2,
        height: 1,
    },
    Pen {
        width: 2,
        height: 2,
    },
    Pen {
        width: 2,
        height: 3,
    },
    Pen {
        width: 3,
        height: 1,
    },
    Pen {
        width: 3,
        height: 2,
    },
    Pen {
        width: 3,
        height: 3,
    },
];

/// Whether all lines from a point to those of 9 by 9 pixels are, with each of these pens.
fn are_lines(from: Point, pens: &[Pen]) -> bool {
    for h in 0..9 {
        for v in 0..9 {
            for pen in pens {
                if !is_line(from, Point { h, v }, *pen) {
                    return false;
                }
            }
        }
    }
    true
}

#[test]
fn every_line_within_nine_by_nine_is_its_runs(rt: HostRuntime) -> Result<(), Fail> {
    for h in 0..9 {
        for v in 0..9 {
            assert!(rt; are_lines(Point { h, v }, &PENS[..1]));
        }
    }
    Ok(())
}

#[test]
fn lines_of_pens_up_to_three_by_three_are_their_runs(rt: HostRuntime) -> Result<(), Fail> {
    assert!(rt; are_lines(point!(0, 0), &PENS));
    assert!(rt; are_lines(point!(8, 0), &PENS));
    assert!(rt; are_lines(point!(0, 8), &PENS));
    assert!(rt; are_lines(point!(8, 8), &PENS));
    Ok(())
}

/// Whether a line is made of the pixels that the slow program gives.
fn is_made(alloc: Global, line: Line) -> Result<bool, Refusal> {
    let made = line_region(alloc, line.from, line.to, line.pen)?;
    Ok(is_region_of(alloc, &made, &line, SIDES)?)
}

#[test]
fn regions_of_lines_are_made_of_their_pixels(rt: HostRuntime) -> Result<(), Fail> {
    let alloc = rt.alloc();
    let from = point!(4, 3);
    for h in 0..9 {
        for v in 0..9 {
            let to = Point { h, v };
            assert!(rt;
                is_made(
                    alloc,
                    Line {
                        from,
                        to,
                        pen: PENS[0]
                    }
                )?
            );
            assert!(rt;
                is_made(
                    alloc,
                    Line {
                        from,
                        to,
                        pen: PENS[5]
                    }
                )?
            );
        }
    }
    Ok(())
}

#[test]
fn lines_reach_the_ends_of_the_range(rt: HostRuntime) -> Result<(), Fail> {
    let alloc = rt.alloc();
    let (dot, none) = (
        PENS[0],
        Pen {
            width: 0,
            height: 1,
        },
    );
    let line = line_region(alloc, point!(16382, 0), point!(-16384, 0), dot)?;
    assert!(rt; line.bbox() == rect!(-16384, 0, 16383, 1));
    let past = point!(16383, 0);
    assert!(rt;
        matches!(
            line_region(alloc, past, point!(0, 0), dot),
            Err(Refusal::OutOfRange)
        )
    );
    assert!(rt;
        matches!(
            line_region(alloc, point!(0, 0), past, dot),
            Err(Refusal::OutOfRange)
        )
    );
    assert!(rt; line_region(alloc, past, point!(0, 0), none)?.is_empty());
    Ok(())
}

/// A line from the upper left corner of 8 by 8 pixels to the column 6 of the row 3, drawn by a pen of 1 by 1.
const FLAT: &'static [u8] =
    b"#.......\n.##.....\n...##...\n.....##.\n........\n........\n........\n........\n";

/// A line from the column 1 of the row 0 to the column 4 of the row 5, drawn by a pen of 2 by 2.
const STEEP: &'static [u8] =
    b".##.....\n.###....\n..##....\n..###...\n...##...\n...###..\n....##..\n........\n";

#[test]
fn lines_are_drawn(rt: HostRuntime) -> Result<(), Fail> {
    let alloc = rt.alloc();
    let flat = line_region(alloc, point!(6, 3), point!(0, 0), PENS[0])?;
    assert!(rt; shows(alloc, &flat, EIGHT, FLAT)?);
    let steep = line_region(alloc, point!(1, 0), point!(4, 5), PENS[4])?;
    assert!(rt; shows(alloc, &steep, EIGHT, STEEP)?);
    Ok(())
}
