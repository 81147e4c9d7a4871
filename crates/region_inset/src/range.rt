//! Whether the inset of a region lies in range.
ghost use Rattle.std.specs.Prelude.{◌&&◌, int_le, ◌≡◌, ◌↔◌, true, false, ℤ, pos, negsuc, ◌+ℤ◌, ◌-ℤ◌, ◌≤ℤ◌, IsTrue};
ghost use Rattle.tb_geom.specs.declared.point.Point.{Point};
ghost use Rattle.tb_geom.specs.Pixels.{holds};
ghost use Rattle.tb_geom.specs.Rects.{between, is_in_range, rect_holds};
ghost use Rattle.region_bytes.specs.Bytes.{IsWord};
ghost use Rattle.region_rows.specs.Edges.{IsCoordinate};
ghost use Rattle.region_rows.specs.Moves.{is_pixel_in_range};
ghost use Rattle.pixel_rows.specs.Columns.{has_column};
ghost use Rattle.region_inset.specs.Insets.{inset, LiesInRange};
ghost use Rattle.region_inset.specs.Near.{widening, IsDistance};
ghost use Rattle.region_inset.specs.Ranges.{LiesAcross, IsLevel};

use crate::inset_row::{inset_has, inset_row, inset_turns};
use crate::near::widening;
use pixel_rows::{Columns, region_bounds};
use region_bytes::RegionBytes;
use tb_geom::{FIRST_SIDE, LAST_SIDE, Rect};

/// Whether each pixel of a region's inset by `dh` columns and `dv` rows has all sides in -16384..=16383. An inset that
/// is widened may lie in range though the region's box, widened, does not: rows that reach out of range may be lost
/// again to those above and below. So where the box does, the rows beside the range are asked.
pub fn can_inset(region: &RegionBytes<'_>, dh: i32, dv: i32) -> bool
    requires across { IsWord dh }
    requires down { IsWord dv }
    ensures { IsTrue result ↔ LiesInRange (inset (holds region.now) dh dv) }
{
    if !lies_across(region, dh, dv) {
        return false;
    }
    lies_down(region, dh, dv)
}

/// Whether the columns of an inset lie in range.
fn lies_across(region: &RegionBytes<'_>, dh: i32, dv: i32) -> bool
    requires across { IsDistance dh }
    requires down { IsDistance dv }
    ensures { IsTrue result ↔ LiesAcross (inset (holds region.now) dh dv) }
{
    let bounds = region_bounds(region);
    if stays(bounds.left, bounds.right, dh) {
        return true;
    }
    if meets_column(region, dh, dv, FIRST_SIDE - 1) {
        return false;
    }
    !meets_column(region, dh, dv, LAST_SIDE)
}

/// Whether the rows of an inset lie in range, where its columns do.
fn lies_down(region: &RegionBytes<'_>, dh: i32, dv: i32) -> bool
    requires across { IsDistance dh }
    requires down { IsDistance dv }
    requires columns { LiesAcross (inset (holds region.now) dh dv) }
    ensures { IsTrue result ↔ LiesInRange (inset (holds region.now) dh dv) }
{
    let bounds = region_bounds(region);
    if stays(bounds.top, bounds.bottom, dv) {
        return true;
    }
    if meets_row(region, dh, dv, FIRST_SIDE - 1) {
        return false;
    }
    !meets_row(region, dh, dv, LAST_SIDE)
}

/// Whether two sides stay in range where a set is widened.
fn stays(first: i32, last: i32, d: i32) -> bool
    requires first { IsCoordinate first }
    requires last { IsCoordinate last }
    requires distance { IsDistance d }
    ensures { result ≡ (int_le (negsuc 16383) (first -ℤ widening d) && int_le (last +ℤ widening d) (pos 16383)) }
{
    let widening = widening(d);
    FIRST_SIDE <= first - widening && last + widening <= LAST_SIDE
}

/// Whether an inset has a pixel of the column `h`, in the rows of the range and one on either side.
fn meets_column(region: &RegionBytes<'_>, dh: i32, dv: i32, h: i32) -> bool
    requires across { IsDistance dh }
    requires down { IsDistance dv }
    requires column { IsWord h }
    ensures { IsTrue result
        ↔ ((v : ℤ) × IsLevel v × (inset (holds region.now) dh dv (record { h = h; v = v }) ≡ true)) }
{
    if inset_has(region, dh, dv, h, FIRST_SIDE - 1) {
        return true;
    }
    for v in FIRST_SIDE..LAST_SIDE + 1 {
        if turns_to(region, dh, dv, h, v) {
            return true;
        }
    }
    false
}

/// Whether an inset has the pixel at column `h` and row `v`, where the one above is none of it.
fn turns_to(region: &RegionBytes<'_>, dh: i32, dv: i32, h: i32, v: i32) -> bool
    requires across { IsDistance dh }
    requires down { IsDistance dv }
    requires column { IsWord h }
    requires row { IsWord v }
    requires above { inset (holds region.now) dh dv (record { h = h; v = v -ℤ pos 1 }) ≡ false }
    ensures { result ≡ inset (holds region.now) dh dv (record { h = h; v = v }) }
{
    if !inset_turns(region, dh, dv, v) {
        return false;
    }
    inset_has(region, dh, dv, h, v)
}

/// Whether an inset has a pixel of the row `v`, where its columns lie in range.
fn meets_row(region: &RegionBytes<'_>, dh: i32, dv: i32, v: i32) -> bool
    requires across { IsDistance dh }
    requires down { IsDistance dv }
    requires row { IsWord v }
    requires columns { LiesAcross (inset (holds region.now) dh dv) }
    ensures { IsTrue result ↔ ((h : ℤ) × (inset (holds region.now) dh dv (record { h = h; v = v }) ≡ true)) }
{
    let bounds = Rect {
        left: FIRST_SIDE,
        top: FIRST_SIDE,
        right: LAST_SIDE,
        bottom: LAST_SIDE,
    };
    has_any(&inset_row(region, dh, dv, v, bounds), bounds)
}

/// Whether a row has a column within the bounds.
fn has_any(columns: &Columns, bounds: Rect) -> bool
    ensures { IsTrue result
        ↔ ((h : ℤ) × (between bounds.left h bounds.right ≡ true) × (has_column columns.now h ≡ true)) }
{
    for h in bounds.left..bounds.right {
        if columns.has(h) {
            return true;
        }
    }
    false
}

/// A rectangle in range around those pixels of an inset that lie in range.
pub fn inset_bounds(region: &RegionBytes<'_>, dh: i32, dv: i32) -> Rect
    requires across { IsDistance dh }
    requires down { IsDistance dv }
    ensures in_range { is_in_range result ≡ true }
    ensures around { (p : Point) → is_pixel_in_range p ≡ true → rect_holds result p ≡ false
        → inset (holds region.now) dh dv p ≡ false }
{
    let bounds = region_bounds(region);
    let (across, down) = (widening(dh), widening(dv));
    Rect {
        left: FIRST_SIDE.max(bounds.left - across),
        top: FIRST_SIDE.max(bounds.top - down),
        right: LAST_SIDE.min(bounds.right + across),
        bottom: LAST_SIDE.min(bounds.bottom + down),
    }
}
