//! Regions of shapes.

use crate::sums::plus_spans;
use scan_region::Region;
use shape_region::{frame_oval_region, line_region, oval_region, polygon_region};
use shape_strips::Pen;
use std::alloc::Global;
use tb_geom::{Point, Rect, Refusal};
use test_pixels::rect;

/// The sides of the ovals: 200 by 120.
const OVAL: Rect = rect!(40, 30, 240, 150);

/// A star of twelve points, over 200 rows.
static STAR: [Point; 12] = [
    Point { h: 150, v: 20 },
    Point { h: 175, v: 76 },
    Point { h: 236, v: 70 },
    Point { h: 200, v: 120 },
    Point { h: 236, v: 170 },
    Point { h: 175, v: 164 },
    Point { h: 150, v: 220 },
    Point { h: 125, v: 164 },
    Point { h: 64, v: 170 },
    Point { h: 100, v: 120 },
    Point { h: 64, v: 70 },
    Point { h: 125, v: 76 },
];

/// A shape whose region is made.
#[derive(Clone, Copy)]
pub enum Made {
    /// An oval of 200 by 120.
    Oval,
    /// Its frame, by a pen of 3 by 2.
    Ring,
    /// A line of 300 by 200, by a pen of one pixel.
    Line,
    /// A polygon of twelve points over 200 rows.
    Polygon,
}

impl Made {
    fn region(self, alloc: Global) -> Result<Region, Refusal> {
        match self {
            Made::Oval => oval_region(alloc, OVAL),
            Made::Ring => frame_oval_region(alloc, OVAL, pen(3, 2)),
            Made::Line => {
                let (from, to) = (Point { h: 10, v: 10 }, Point { h: 310, v: 210 });
                line_region(alloc, from, to, pen(1, 1))
            }
            Made::Polygon => polygon_region(alloc, &STAR),
        }
    }
}

fn pen(width: u16, height: u16) -> Pen {
    Pen { width, height }
}

/// Makes the region of a shape.
pub fn make(alloc: Global, shape: Made, rounds: u32) -> Result<u32, Refusal> {
    let mut region = shape.region(alloc)?;
    for _ in 1..rounds {
        region = shape.region(alloc)?;
    }
    Ok(plus_spans(0, &region))
}
