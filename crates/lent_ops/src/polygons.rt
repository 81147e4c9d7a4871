//! Polygons whose bytes are judged.
ghost use Rattle.std.specs.Prelude.{◌≡◌, true, false, IfOk, MatchResult};
ghost use Rattle.std.specs.List.{list_all};
ghost use Rattle.tb_geom.specs.declared.point.Point.{Point};
ghost use Rattle.tb_geom.specs.Pixels.{holds};
ghost use Rattle.shape_strips.specs.Lines.{pen_fits};
ghost use Rattle.shape_region.specs.Polygons.{are_in_plane, polygon_holds, frame_polygon_holds};
ghost use Rattle.pixel_rows.specs.Told.{AreRegionBytes, IsNotTold};
ghost use Rattle.lent_ops.specs.Points.{are_many, points_of};

use crate::points::Points;
use scan_region::Region;
use shape_region::{frame_polygon_bytes, frame_polygon_region, polygon_bytes, polygon_region};
use shape_strips::Pen;
use std::alloc::{AllocError, Global};
use tb_geom::{Point, Refusal};

/// The bytes of the points of a polygon: 1024 points at most, each in -16384..=16383.
#[derive(Clone, Copy)]
pub(crate) struct Polygon<'a> {
    pub(crate) bytes: &'a [u8],
    ghost near: { are_in_plane (points_of bytes.now) ≡ true },
    ghost few: { are_many bytes.now ≡ false },
}

impl Polygon<'_> {
    /// The region of its pixels.
    pub(crate) fn region(&self, alloc: Global) -> Result<Region, AllocError>
        ensures { IfOk result (λ region. (p : Point) → holds region p ≡ polygon_holds (points_of self.now.bytes.now) p) }
    {
        match polygon_region(alloc, Points::new(self.bytes).as_slice()) {
            Ok(region) => Ok(region),
            Err(_) => Err(AllocError),
        }
    }

    /// The bytes of that region. It refuses as `FormRef::to_bytes` does.
    pub(crate) fn told(&self, alloc: Global) -> Result<Vec<u8>, Refusal>
        ensures { MatchResult result (λ bytes. AreRegionBytes (polygon_holds (points_of self.now.bytes.now)) bytes.items)
            (IsNotTold (polygon_holds (points_of self.now.bytes.now))) }
    {
        polygon_bytes(alloc, Points::new(self.bytes).as_slice())
    }
}

/// The bytes of the points of a polygon, and a pen that frames it: 1024 points at most, and the pen fits at each.
#[derive(Clone, Copy)]
pub(crate) struct FramedPolygon<'a> {
    pub(crate) bytes: &'a [u8],
    pub(crate) pen: Pen,
    ghost near: { list_all (pen_fits pen) (points_of bytes.now) ≡ true },
    ghost few: { are_many bytes.now ≡ false },
}

impl FramedPolygon<'_> {
    /// The region of the frame.
    pub(crate) fn region(&self, alloc: Global) -> Result<Region, AllocError>
        ensures { IfOk result (λ region. (p : Point)
            → holds region p ≡ frame_polygon_holds (points_of self.now.bytes.now) self.now.pen p) }
    {
        match frame_polygon_region(alloc, Points::new(self.bytes).as_slice(), self.pen) {
            Ok(region) => Ok(region),
            Err(_) => Err(AllocError),
        }
    }

    /// The bytes of that region. It refuses as `FormRef::to_bytes` does.
    pub(crate) fn told(&self, alloc: Global) -> Result<Vec<u8>, Refusal>
        ensures { MatchResult result
            (λ bytes. AreRegionBytes (frame_polygon_holds (points_of self.now.bytes.now) self.now.pen) bytes.items)
            (IsNotTold (frame_polygon_holds (points_of self.now.bytes.now) self.now.pen)) }
    {
        frame_polygon_bytes(alloc, Points::new(self.bytes).as_slice(), self.pen)
    }
}
