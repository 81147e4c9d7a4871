//! The bytes of what two regions make together.
ghost use Rattle.std.specs.Prelude.{◌≡◌, true, false, ℤ, MatchResult};
ghost use Rattle.tb_geom.specs.Pixels.{holds};
ghost use Rattle.tb_geom.specs.Rects.{between, is_in_range};
ghost use Rattle.pixel_rows.specs.Columns.{has_column};
ghost use Rattle.pixel_rows.specs.Combined.{combined, means};
ghost use Rattle.pixel_rows.specs.Told.{AreRegionBytes, IsNotTold};

use crate::columns::Columns;
use crate::combination::Combination;
use crate::pixel_rows::{PixelRows, pixel_bytes};
use crate::reading::{has_points, region_bounds, region_row};
use region_bytes::RegionBytes;
use std::alloc::Global;
use tb_geom::{Rect, Refusal};

/// The pixels that are meant of two regions.
#[derive(Clone, Copy)]
pub struct Combined<'a, 'b> {
    pub how: Combination,
    pub first: &'a RegionBytes<'b>,
    pub second: &'a RegionBytes<'b>,
}

impl PixelRows for Combined<'_, '_> {
    ghost pixels = { λ s. combined s.how (holds s.first.now) (holds s.second.now) };

    fn bounds(&self) -> Rect {
        region_bounds(self.first).union(region_bounds(self.second))
    }

    fn row(&self, v: i32) -> Columns {
        let (first, second) = (region_row(self.first, v), region_row(self.second, v));
        meant_columns(self.how, &first, &second, self.bounds())
    }

    fn turns(&self, v: i32) -> bool {
        has_points(self.first, v) || has_points(self.second, v)
    }
}

/// The columns that are meant of two rows, all of which lie within the bounds.
pub fn meant_columns(how: Combination, first: &Columns, second: &Columns, bounds: Rect) -> Columns
    requires in_range { is_in_range bounds ≡ true }
    requires within { (h : ℤ) → between bounds.left h bounds.right ≡ false
        → means how (has_column first.now h) (has_column second.now h) ≡ false }
    ensures { (h : ℤ) → has_column result h ≡ means how (has_column first.now h) (has_column second.now h) }
{
    let mut row = Columns::none();
    for h in bounds.left..bounds.right {
        if how.means(first.has(h), second.has(h)) {
            row.flip(h);
        }
    }
    row
}

/// The bytes of the region of the pixels that two regions make together (*Inside Macintosh* I, "QuickDraw": `UnionRgn`,
/// `SectRgn`, `DiffRgn`, `XorRgn`), written row by row, without a region. For each row between the top and the bottom
/// of both, all points of both are gone through, and for each that has points of theirs, the columns between the sides
/// of both. TooLong where the bytes would be more than 32766, also where memory is refused; else it refuses only for
/// want of memory.
pub fn combined_bytes(
    alloc: Global,
    how: Combination,
    first: &RegionBytes<'_>,
    second: &RegionBytes<'_>,
) -> Result<Vec<u8>, Refusal>
    ensures { MatchResult result
        (λ bytes. AreRegionBytes (combined how (holds first.now) (holds second.now)) bytes.items)
        (IsNotTold (combined how (holds first.now) (holds second.now))) }
{
    pixel_bytes(alloc, &Combined { how, first, second })
}
