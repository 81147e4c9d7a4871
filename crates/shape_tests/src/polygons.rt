//! Bands of edges row by row, and regions of polygons.

use crate::regions::{EIGHT, shows};
use crate::slow_lines::{Polygon, PolygonFrame, turns};
use crate::strips::are_rows;
use scan_region::Region;
use shape_region::{frame_polygon_region, polygon_region};
use shape_strips::{BandStrip, Pen};
use std::alloc::{AllocError, Global};
use std::test::Fail;
use tb_geom::{Point, Rect, Refusal};
use test_pixels::pixels::{Pixels, is_region_of, mark};
use test_pixels::{point, rect};

/// The sides within which bands and polygons are looked at.
pub const SIDES: Rect = rect!(-2, -2, 15, 15);

/// A band of an edge.
#[derive(Clone, Copy)]
struct Band {
    from: Point,
    to: Point,
    right: i32,
}

impl Pixels for Band {
    fn byte(&self, Point { h, v }: Point) -> u8 {
        mark(turns(self.from, self.to, h, v) && h < self.right)
    }
}

/// Whether the runs of a band are those of the slow program.
fn is_band(from: Point, to: Point, right: i32) -> bool {
    if !from.is_in_range() || !to.is_in_range() || right < 0 || 14 < right {
        return false;
    }
    are_rows(
        &BandStrip { from, to, right },
        &Band { from, to, right },
        SIDES,
    )
}

/// Whether those of all edges from a point within 9 by 9 pixels are.
fn are_bands(from: Point) -> bool {
    for h in 0..9 {
        for v in 0..9 {
            let to = Point { h, v };
            if !is_band(from, to, 12) || !is_band(from, to, 4) {
                return false;
            }
        }
    }
    true
}

#[test]
fn bands_of_every_edge_within_nine_by_nine_are_their_runs(rt: HostRuntime) -> Result<(), Fail> {
    for h in 0..9 {
        for v in 0..9 {
            assert!(rt; are_bands(Point { h, v }));
        }
    }
    Ok(())
}

/// Numbers that look as if they were drawn by lot, from a linear congruential generator.
#[derive(Drop)]
pub struct Lot(pub u32);

impl Lot {
    /// The next number, from 0 to 12.
    fn number(&mut self) -> i32 {
        self.0 = self.0.wrapping_mul(1_664_525).wrapping_add(1_013_904_223);
        (self.0 >> 16) as i32 % 13
    }

    /// The next point.
    pub fn point(&mut self) -> Point {
        Point {
            h: self.number(),
            v: self.number(),
        }
    }
}

/// Whether a polygon is made of the pixels that the slow program gives.
fn is_polygon(alloc: Global, points: &[Point]) -> Result<bool, Refusal> {
    let made = polygon_region(alloc, points)?;
    Ok(is_region_of(alloc, &made, &Polygon(points), SIDES)?)
}

/// Whether its frame is, drawn by a pen.
fn is_frame(alloc: Global, points: &[Point], pen: Pen) -> Result<bool, Refusal> {
    let made = frame_polygon_region(alloc, points, pen)?;
    Ok(is_region_of(alloc, &made, &PolygonFrame { points, pen }, SIDES)?)
}

#[test]
fn polygons_are_made_of_their_pixels(rt: HostRuntime) -> Result<(), Fail> {
    let alloc = rt.alloc();
    let mut lot = Lot(1);
    for _ in 0..1500 {
        let points = [
            lot.point(),
            lot.point(),
            lot.point(),
            lot.point(),
            lot.point(),
            lot.point(),
        ];
        assert!(rt; is_polygon(alloc, &points)?);
        assert!(rt; is_polygon(alloc, &points[..5])?);
        assert!(rt; is_polygon(alloc, &points[..4])?);
        assert!(rt; is_polygon(alloc, &points[..3])?);
    }
    Ok(())
}

/// So many points by lot.
fn points_by_lot(alloc: Global, lot: &mut Lot, count: usize) -> Result<Vec<Point>, AllocError> {
    let mut points = Vec::new(alloc);
    for _ in 0..count {
        points.push(lot.point())?;
    }
    Ok(points)
}

#[test]
fn polygons_of_many_points_are_made_of_their_pixels(rt: HostRuntime) -> Result<(), Fail> {
    let alloc = rt.alloc();
    let mut lot = Lot(3);
    for count in 29..101 {
        let points = points_by_lot(alloc, &mut lot, count)?;
        assert!(rt; is_polygon(alloc, points.as_slice())?);
    }
    Ok(())
}

#[test]
fn polygons_reach_the_last_column(rt: HostRuntime) -> Result<(), Fail> {
    let alloc = rt.alloc();
    let points = [
        point!(16380, 1),
        point!(16383, 1),
        point!(16383, 5),
        point!(16380, 5),
    ];
    let all = Region::from_rect(alloc, rect!(16380, 1, 16383, 5))?;
    assert!(rt; polygon_region(alloc, &points)?.equals(&all));
    Ok(())
}

/// Pens that draw frames.
pub const PENS: [Pen; 3] = [
    Pen {
        width: 1,
        height: 1,
    },
    Pen {
        width: 2,
        height: 1,
    },
    Pen {
        width: 2,
        height: 3,
    },
];

#[test]
fn frames_of_polygons_are_made_of_their_pixels(rt: HostRuntime) -> Result<(), Fail> {
    let alloc = rt.alloc();
    let mut lot = Lot(2);
    for _ in 0..40 {
        let points = [
            lot.point(),
            lot.point(),
            lot.point(),
            lot.point(),
            lot.point(),
            lot.point(),
        ];
        for pen in PENS {
            assert!(rt; is_frame(alloc, &points, pen)?);
            assert!(rt; is_frame(alloc, &points[..3], pen)?);
            assert!(rt; is_frame(alloc, &points[..1], pen)?);
        }
    }
    Ok(())
}

#[test]
fn polygons_of_two_points_and_less_have_no_pixel(rt: HostRuntime) -> Result<(), Fail> {
    let alloc = rt.alloc();
    let points = [point!(1, 2), point!(5, 9)];
    assert!(rt; polygon_region(alloc, &points)?.is_empty());
    assert!(rt; polygon_region(alloc, &points[..1])?.is_empty());
    assert!(rt; polygon_region(alloc, &points[..0])?.is_empty());
    Ok(())
}

#[test]
fn points_out_of_range_are_refused(rt: HostRuntime) -> Result<(), Fail> {
    let alloc = rt.alloc();
    let points = [point!(1, 2), point!(5, 16384), point!(3, 3)];
    let pen = PENS[0];
    assert!(rt; matches!(polygon_region(alloc, &points), Err(Refusal::OutOfRange)));
    assert!(rt;
        matches!(
            frame_polygon_region(alloc, &points, pen),
            Err(Refusal::OutOfRange)
        )
    );
    Ok(())
}

/// The upper left half of 8 by 8 pixels, without its right border.
const HALF: &'static [u8] =
    b"#######.\n######..\n#####...\n####....\n###.....\n##......\n#.......\n........\n";

/// The frame of a triangle, drawn by a pen of 1 by 1.
const TRIANGLE: &'static [u8] =
    b"##......\n#.####..\n.#....##\n.#....#.\n.#...#..\n.#..#...\n..##....\n..#.....\n";

#[test]
fn polygons_and_their_frames_are_drawn(rt: HostRuntime) -> Result<(), Fail> {
    let alloc = rt.alloc();
    let half = [point!(0, 0), point!(8, 0), point!(0, 8)];
    assert!(rt; shows(alloc, &polygon_region(alloc, &half)?, EIGHT, HALF)?);
    let corners = [point!(0, 0), point!(7, 2), point!(2, 7)];
    let frame = frame_polygon_region(alloc, &corners, PENS[0])?;
    assert!(rt; shows(alloc, &frame, EIGHT, TRIANGLE)?);
    Ok(())
}
