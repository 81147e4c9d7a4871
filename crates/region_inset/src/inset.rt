//! The inset of a region.
ghost use Rattle.std.specs.Prelude.{◌≡◌, ℤ, MatchResult};
ghost use Rattle.tb_geom.specs.Pixels.{holds};
ghost use Rattle.region_bytes.specs.Bytes.{IsWord};
ghost use Rattle.pixel_rows.specs.Told.{AreRegionBytes, IsNotTold};
ghost use Rattle.region_inset.specs.Insets.{inset, LiesInRange};

use crate::inset_row::{inset_row, inset_turns};
use crate::range::inset_bounds;
use pixel_rows::{Columns, PixelRows, pixel_bytes};
use region_bytes::RegionBytes;
use std::alloc::Global;
use tb_geom::{Rect, Refusal};

/// The inset of a region by `dh` columns and `dv` rows, where it lies in range.
#[derive(Clone, Copy)]
pub struct Inset<'a, 'b> {
    pub region: &'a RegionBytes<'b>,
    pub dh: i32,
    pub dv: i32,
    ghost across: { IsWord dh },
    ghost down: { IsWord dv },
    ghost in_range: { LiesInRange (inset (holds region.now) dh dv) },
}

impl PixelRows for Inset<'_, '_> {
    ghost pixels = { λ s. inset (holds s.region.now) s.dh s.dv };

    fn bounds(&self) -> Rect {
        inset_bounds(self.region, self.dh, self.dv)
    }

    fn row(&self, v: i32) -> Columns {
        inset_row(self.region, self.dh, self.dv, v, self.bounds())
    }

    fn turns(&self, v: i32) -> bool {
        inset_turns(self.region, self.dh, self.dv, v)
    }
}

/// The bytes of the region of a region's inset (*Inside Macintosh* I, "QuickDraw": `InsetRgn`), written row by row,
/// without a region: by `dh` columns first, and then what that gives by `dv` rows. A pixel stays where all pixels
/// within the distance, to the left and right, or above and below, are in the set; by a negative distance, where one
/// is. For each row in which some point comes within the distance, or goes out, all points of the region are gone
/// through once for each row of its box within the distance. TooLong where the bytes would be more than 32766, also
/// where memory is refused; else it refuses only for want of memory.
pub fn inset_bytes(
    alloc: Global,
    region: &RegionBytes<'_>,
    dh: i32,
    dv: i32,
) -> Result<Vec<u8>, Refusal>
    requires across { IsWord dh }
    requires down { IsWord dv }
    requires in_range { LiesInRange (inset (holds region.now) dh dv) }
    ensures { MatchResult result (λ bytes. AreRegionBytes (inset (holds region.now) dh dv) bytes.items)
        (IsNotTold (inset (holds region.now) dh dv)) }
{
    pixel_bytes(alloc, &Inset { region, dh, dv })
}
