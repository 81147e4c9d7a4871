//! Bytes of polygons, and of their frames.

use crate::bytes::Told;
use crate::polygons::{Lot, PENS, SIDES};
use crate::slow_lines::{Polygon, PolygonFrame};
use region_bytes::RegionBytes;
use shape_region::{are_in_range, fits_at_all, frame_polygon_bytes, polygon_bytes};
use shape_strips::Pen;
use std::alloc::Global;
use std::test::Fail;
use tb_geom::{Point, Refusal};
use test_pixels::pixels::are_alike;
use test_pixels::point;

/// The bytes of a polygon.
fn bytes_of(alloc: Global, points: &[Point]) -> Result<Vec<u8>, Refusal> {
    if !are_in_range(points) {
        return Err(Refusal::OutOfRange);
    }
    polygon_bytes(alloc, points)
}

/// Those of its frame.
fn frame_bytes_of(alloc: Global, points: &[Point], pen: Pen) -> Result<Vec<u8>, Refusal> {
    if !fits_at_all(points, pen) {
        return Err(Refusal::OutOfRange);
    }
    frame_polygon_bytes(alloc, points, pen)
}

/// The upper left half of 8 by 8 pixels, without its right border: a column less in each row.
const HALF: [u8; 76] = [
    0, 0x4C, 0, 0, 0, 0, 0, 7, 0, 7, 0, 0, 0, 0, 0, 7, 0x7F, 0xFF, 0, 1, 0, 6, 0, 7, 0x7F, 0xFF, 0,
    2, 0, 5, 0, 6, 0x7F, 0xFF, 0, 3, 0, 4, 0, 5, 0x7F, 0xFF, 0, 4, 0, 3, 0, 4, 0x7F, 0xFF, 0, 5, 0,
    2, 0, 3, 0x7F, 0xFF, 0, 6, 0, 1, 0, 2, 0x7F, 0xFF, 0, 7, 0, 0, 0, 1, 0x7F, 0xFF, 0x7F, 0xFF,
];

/// The lower right half, with it: a column more in each row.
const OTHER_HALF: [u8; 84] = [
    0, 0x54, 0, 0, 0, 0, 0, 8, 0, 8, 0, 0, 0, 7, 0, 8, 0x7F, 0xFF, 0, 1, 0, 6, 0, 7, 0x7F, 0xFF, 0,
    2, 0, 5, 0, 6, 0x7F, 0xFF, 0, 3, 0, 4, 0, 5, 0x7F, 0xFF, 0, 4, 0, 3, 0, 4, 0x7F, 0xFF, 0, 5, 0,
    2, 0, 3, 0x7F, 0xFF, 0, 6, 0, 1, 0, 2, 0x7F, 0xFF, 0, 7, 0, 0, 0, 1, 0x7F, 0xFF, 0, 8, 0, 0, 0,
    8, 0x7F, 0xFF, 0x7F, 0xFF,
];

/// A star of five points, whose rays cross.
const STAR: [u8; 84] = [
    0, 0x54, 0, 1, 0, 1, 0, 8, 0, 7, 0, 1, 0, 3, 0, 5, 0x7F, 0xFF, 0, 3, 0, 1, 0, 7, 0x7F, 0xFF, 0,
    4, 0, 1, 0, 3, 0, 5, 0, 7, 0x7F, 0xFF, 0, 5, 0, 2, 0, 3, 0, 4, 0, 6, 0x7F, 0xFF, 0, 6, 0, 4, 0,
    5, 0x7F, 0xFF, 0, 7, 0, 1, 0, 3, 0, 5, 0, 7, 0x7F, 0xFF, 0, 8, 0, 1, 0, 2, 0, 6, 0, 7, 0x7F,
    0xFF, 0x7F, 0xFF,
];

/// The frame of a triangle, drawn by a pen of 1 by 1.
const TRIANGLE: [u8; 84] = [
    0, 0x54, 0, 0, 0, 0, 0, 8, 0, 8, 0, 0, 0, 0, 0, 2, 0x7F, 0xFF, 0, 1, 0, 1, 0, 6, 0x7F, 0xFF, 0,
    2, 0, 0, 0, 8, 0x7F, 0xFF, 0, 3, 0, 7, 0, 8, 0x7F, 0xFF, 0, 4, 0, 5, 0, 7, 0x7F, 0xFF, 0, 5, 0,
    4, 0, 6, 0x7F, 0xFF, 0, 6, 0, 1, 0, 5, 0x7F, 0xFF, 0, 7, 0, 3, 0, 4, 0x7F, 0xFF, 0, 8, 0, 2, 0,
    3, 0x7F, 0xFF, 0x7F, 0xFF,
];

#[test]
fn bytes_of_polygons_are_written(rt: HostRuntime) -> Result<(), Fail> {
    let alloc = rt.alloc();
    let half = [point!(0, 0), point!(8, 0), point!(0, 8)];
    assert!(rt; bytes_of(alloc, &half)?.as_slice() == HALF.as_slice());
    let other = [point!(8, 0), point!(8, 8), point!(0, 8)];
    assert!(rt; bytes_of(alloc, &other)?.as_slice() == OTHER_HALF.as_slice());
    let rays = [
        point!(4, 0),
        point!(7, 8),
        point!(0, 3),
        point!(8, 3),
        point!(1, 8),
    ];
    assert!(rt; bytes_of(alloc, &rays)?.as_slice() == STAR.as_slice());
    Ok(())
}

/// The bytes of the region without pixels.
const NONE: [u8; 10] = [0, 10, 0, 0, 0, 0, 0, 0, 0, 0];

/// Two pixels beside each other.
const DOT: [u8; 10] = [0, 10, 0, 1, 0, 2, 0, 2, 0, 4];

#[test]
fn bytes_of_few_points_are_written(rt: HostRuntime) -> Result<(), Fail> {
    let alloc = rt.alloc();
    let points = [point!(2, 1), point!(4, 3)];
    assert!(rt; bytes_of(alloc, &points)?.as_slice() == NONE.as_slice());
    assert!(rt; bytes_of(alloc, &points[..1])?.as_slice() == NONE.as_slice());
    assert!(rt; bytes_of(alloc, &points[..0])?.as_slice() == NONE.as_slice());
    assert!(rt; frame_bytes_of(alloc, &points[..0], PENS[1])?.as_slice() == NONE.as_slice());
    assert!(rt; frame_bytes_of(alloc, &points[..1], PENS[1])?.as_slice() == DOT.as_slice());
    Ok(())
}

#[test]
fn bytes_of_frames_of_polygons_are_written(rt: HostRuntime) -> Result<(), Fail> {
    let alloc = rt.alloc();
    let corners = [point!(0, 0), point!(7, 2), point!(2, 7)];
    let bytes = frame_bytes_of(alloc, &corners, PENS[0])?;
    assert!(rt; bytes.as_slice() == TRIANGLE.as_slice());
    Ok(())
}

/// Whether the bytes of a polygon, and those of its frame, say the pixels that the slow program gives.
fn are_told(alloc: Global, points: &[Point], pen: Pen) -> Result<bool, Refusal> {
    let bytes = bytes_of(alloc, points)?;
    let told = Told(RegionBytes::read(bytes.as_slice())?);
    let frame = frame_bytes_of(alloc, points, pen)?;
    let framed = Told(RegionBytes::read(frame.as_slice())?);
    Ok(
        are_alike(&told, &Polygon(points), SIDES)
            && are_alike(&framed, &PolygonFrame { points, pen }, SIDES),
    )
}

#[test]
fn bytes_say_the_pixels_of_polygons(rt: HostRuntime) -> Result<(), Fail> {
    let mut lot = Lot(3);
    for _ in 0..20 {
        let points = [
            lot.point(),
            lot.point(),
            lot.point(),
            lot.point(),
            lot.point(),
        ];
        for pen in PENS {
            assert!(rt; are_told(rt.alloc(), &points, pen)?);
            assert!(rt; are_told(rt.alloc(), &points[..3], pen)?);
        }
    }
    Ok(())
}

/// How many points the right border of a long polygon has.
const TEETH: i32 = 300;

/// A long polygon, each of whose rows differs from the one above.
fn saw(alloc: Global) -> Result<Vec<Point>, Refusal> {
    let mut points = Vec::new(alloc);
    for tooth in 0..TEETH {
        let h = 16 * (tooth % 2);
        let v = tooth.wrapping_mul(16);
        points.push(Point { h, v })?;
    }
    points.push(Point {
        h: -5,
        v: 16 * (TEETH - 1),
    })?;
    points.push(Point { h: -5, v: 0 })?;
    Ok(points)
}

#[test]
fn bytes_of_a_long_polygon_are_too_long(rt: HostRuntime) -> Result<(), Fail> {
    let points = saw(rt.alloc())?;
    let refused = bytes_of(rt.alloc(), points.as_slice());
    assert!(rt; matches!(refused, Err(Refusal::TooLong)));
    let refused = frame_bytes_of(rt.alloc(), points.as_slice(), PENS[0]);
    assert!(rt; matches!(refused, Err(Refusal::TooLong)));
    Ok(())
}

#[test]
fn points_of_bytes_are_judged(rt: HostRuntime) {
    let points = [point!(1, 2), point!(5, 16383)];
    assert!(rt; are_in_range(&points));
    assert!(rt; fits_at_all(&points[..1], PENS[2]));
    assert!(rt; !fits_at_all(&points, PENS[2]));
    assert!(rt; !are_in_range(&[point!(16384, 2)]));
}
