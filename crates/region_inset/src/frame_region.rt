//! The frame of a region.
ghost use Rattle.std.specs.Prelude.{◌≡◌, ℤ, IfOk, MatchResult};
ghost use Rattle.tb_geom.specs.declared.point.Point.{Point};
ghost use Rattle.tb_geom.specs.Pixels.{holds};
ghost use Rattle.pixel_rows.specs.Told.{AreRegionBytes, IsNotTold};
ghost use Rattle.region_inset.specs.Insets.{region_frame};

use crate::inset_row::{inset_row, inset_turns, turns_at};
use crate::making::pixel_region;
use pixel_rows::{
    Columns, Combination, PixelRows, meant_columns, pixel_bytes, region_bounds, region_row,
};
use region_bytes::RegionBytes;
use scan_region::Region;
use shape_strips::Pen;
use std::alloc::{AllocError, Global};
use tb_geom::{Rect, Refusal};

/// The frame of a region: the region less its inset by the pen. A pen without width or height draws nothing.
#[derive(Clone, Copy)]
pub struct FrameRegion<'a, 'b> {
    pub region: &'a RegionBytes<'b>,
    pub pen: Pen,
}

impl PixelRows for FrameRegion<'_, '_> {
    ghost pixels = { λ s. region_frame (holds s.region.now) s.pen };

    fn bounds(&self) -> Rect {
        region_bounds(self.region)
    }

    fn row(&self, v: i32) -> Columns {
        if !self.pen.has_size() {
            return Columns::none();
        }
        let (across, down) = (i32::from(self.pen.width), i32::from(self.pen.height));
        let bounds = region_bounds(self.region);
        let inside = inset_row(self.region, across, down, v, bounds);
        meant_columns(
            Combination::Diff,
            &region_row(self.region, v),
            &inside,
            bounds,
        )
    }

    fn turns(&self, v: i32) -> bool {
        turns_at(self.region, v)
            || inset_turns(
                self.region,
                i32::from(self.pen.width),
                i32::from(self.pen.height),
                v,
            )
    }
}

/// The bytes of the region of a region's frame (*Inside Macintosh* I, "QuickDraw": `FrameRgn`), written row by row,
/// without a region. For each row in which some point comes within the pen's height, or goes out, all points of the
/// region are gone through once for each row of its box within that height. TooLong where the bytes would be more than
/// 32766, also where memory is refused; else it refuses only for want of memory.
pub fn frame_region_bytes(
    alloc: Global,
    region: &RegionBytes<'_>,
    pen: Pen,
) -> Result<Vec<u8>, Refusal>
    ensures { MatchResult result (λ bytes. AreRegionBytes (region_frame (holds region.now) pen) bytes.items)
        (IsNotTold (region_frame (holds region.now) pen)) }
{
    pixel_bytes(alloc, &FrameRegion { region, pen })
}

/// The region of a region's frame, in its coordinate space (*Inside Macintosh* I, "QuickDraw": `FrameRgn`).
pub fn frame_of_region(
    alloc: Global,
    region: &RegionBytes<'_>,
    pen: Pen,
) -> Result<Region, AllocError>
    ensures { IfOk result (λ frame. (p : Point) → holds frame p ≡ region_frame (holds region.now) pen p) }
{
    pixel_region(alloc, &FrameRegion { region, pen })
}
