//! The bytes of a region that is moved.
ghost use Rattle.std.specs.Prelude.{◌≡◌, true, false, ℤ, ◌-ℤ◌, ◌↔◌, IsTrue, MatchResult};
ghost use Rattle.tb_geom.specs.declared.point.Point.{Point};
ghost use Rattle.tb_geom.specs.Pixels.{holds};
ghost use Rattle.tb_geom.specs.Rects.{between, is_in_range};
ghost use Rattle.region_bytes.specs.Bytes.{IsWord};
ghost use Rattle.region_rows.specs.Moves.{StaysInRange};
ghost use Rattle.pixel_rows.specs.Columns.{has_column};
ghost use Rattle.pixel_rows.specs.Combined.{moved};
ghost use Rattle.pixel_rows.specs.Told.{AreRegionBytes, IsNotTold};

use crate::columns::Columns;
use crate::pixel_rows::{PixelRows, pixel_bytes};
use crate::reading::{has_points, region_bounds, region_row};
use region_bytes::RegionBytes;
use std::alloc::Global;
use tb_geom::{Rect, Refusal};

/// The pixels of a region, moved `dh` columns to the right and `dv` rows down, where they stay in range.
#[derive(Clone, Copy)]
pub struct Moved<'a, 'b> {
    pub region: &'a RegionBytes<'b>,
    pub dh: i32,
    pub dv: i32,
    ghost across: { IsWord dh },
    ghost down: { IsWord dv },
    ghost stays: { StaysInRange region.now (record { h = dh; v = dv }) },
}

impl PixelRows for Moved<'_, '_> {
    ghost pixels = { λ s. moved (holds s.region.now) (record { h = s.dh; v = s.dv }) };

    fn bounds(&self) -> Rect {
        let bounds = region_bounds(self.region);
        match bounds.offset(self.dh, self.dv) {
            Ok(moved) => moved,
            Err(_) => bounds,
        }
    }

    fn row(&self, v: i32) -> Columns {
        moved_columns(
            &region_row(self.region, v - self.dv),
            self.dh,
            self.bounds(),
        )
    }

    fn turns(&self, v: i32) -> bool {
        has_points(self.region, v - self.dv)
    }
}

/// The columns moved `dh` to the right, all of which lie within the bounds.
fn moved_columns(columns: &Columns, dh: i32, bounds: Rect) -> Columns
    requires across { IsWord dh }
    requires in_range { is_in_range bounds ≡ true }
    requires within { (h : ℤ) → between bounds.left h bounds.right ≡ false → has_column columns.now (h -ℤ dh) ≡ false }
    ensures { (h : ℤ) → has_column result h ≡ has_column columns.now (h -ℤ dh) }
{
    let mut row = Columns::none();
    for h in bounds.left..bounds.right {
        if columns.has(h - dh) {
            row.flip(h);
        }
    }
    row
}

/// Whether each pixel of a region, moved `dh` columns to the right and `dv` rows down, has all sides in -16384..=16383.
pub fn can_move(region: &RegionBytes<'_>, dh: i32, dv: i32) -> bool
    ensures { IsTrue result ↔ StaysInRange region.now (record { h = dh; v = dv }) }
{
    let bounds = region.bbox();
    bounds.is_empty() || bounds.offset(dh, dv).is_ok()
}

/// The bytes of the region of a region's pixels, moved `dh` columns to the right and `dv` rows down (*Inside Macintosh*
/// I, "QuickDraw": `OffsetRgn`), written row by row, without a region. For each row of its box, all points of the
/// region are gone through, and for each that has points, the columns of the box. TooLong where the bytes would be more
/// than 32766, also where memory is refused; else it refuses only for want of memory.
pub fn moved_bytes(
    alloc: Global,
    region: &RegionBytes<'_>,
    dh: i32,
    dv: i32,
) -> Result<Vec<u8>, Refusal>
    requires across { IsWord dh }
    requires down { IsWord dv }
    requires stays { StaysInRange region.now (record { h = dh; v = dv }) }
    ensures { MatchResult result
        (λ bytes. AreRegionBytes (moved (holds region.now) (record { h = dh; v = dv })) bytes.items)
        (IsNotTold (moved (holds region.now) (record { h = dh; v = dv }))) }
{
    pixel_bytes(alloc, &Moved { region, dh, dv })
}
