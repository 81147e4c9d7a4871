//! Regions of polygons.
ghost use Rattle.std.specs.Prelude.{◌≡◌, true, false, IfOk, IfErr, Err};
ghost use Rattle.tb_geom.specs.declared.point.Point.{Point};
ghost use Rattle.tb_geom.specs.Rects.{in_plane};
ghost use Rattle.tb_geom.specs.Pixels.{holds};
ghost use Rattle.shape_region.specs.Polygons.{are_in_plane, odd_edges, polygon_holds};

use crate::pass::pass_region;
use scan_region::Region;
use std::alloc::{AllocError, Global};
use tb_geom::{Point, Refusal};

/// The pixels of a polygon of these points, whose edges go from each to the next and from the last to the first: those
/// that an odd number of edges turns (*Inside Macintosh* I, "QuickDraw": `PaintPoly`). A polygon of one or two points
/// has no pixel. OutOfRange exactly where a point lies outside -16384..=16383; else it refuses only for want of memory.
pub fn polygon_region(alloc: Global, points: &[Point]) -> Result<Region, Refusal>
    ensures pixels { IfOk result (λ region. (p : Point) → holds region p ≡ polygon_holds points.now p) }
    ensures out_of_range { are_in_plane points.now ≡ false → result ≡ Err Refusal.OutOfRange }
    ensures refused { are_in_plane points.now ≡ true → IfErr result (λ e. e ≡ Refusal.NoMemory) }
{
    if !are_in_range(points) {
        return Err(Refusal::OutOfRange);
    }
    let [first, rest @ ..] = points else {
        return Ok(Region::empty(alloc));
    };
    Ok(closed_region(alloc, *first, rest)?)
}

/// Whether all points lie in -16384..=16383.
pub fn are_in_range(points: &[Point]) -> bool
    ensures { result ≡ are_in_plane points.now }
{
    points.iter().all(|point| point.is_in_range())
}

/// How many points a polygon may have beside its first one whose region is made in one pass.
const FEW: usize = 31;

/// The region of a polygon by its first point and the others: in one pass where these are few, and else the odd sum of
/// what a chord from the first point leaves on either side.
fn closed_region(alloc: Global, first: Point, others: &[Point]) -> Result<Region, AllocError>
    requires first_in { in_plane first ≡ true }
    requires others_in { are_in_plane others.now ≡ true }
    ensures { IfOk result (λ region. (p : Point) → holds region p ≡ odd_edges first others.now first p) }
{
    if others.len() <= FEW {
        return pass_region(alloc, first, others);
    }
    let middle = others.len() / 2;
    let before = closed_region(alloc, first, &others[..middle + 1])?;
    let after = closed_region(alloc, first, &others[middle..])?;
    before.xor(alloc, &after)
}
