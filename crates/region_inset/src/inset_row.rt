//! Rows and pixels of the inset of a region.
ghost use Rattle.std.specs.Prelude.{◌≡◌, ◌&&◌, true, false, ℤ};
ghost use Rattle.tb_geom.specs.Pixels.{holds};
ghost use Rattle.tb_geom.specs.Rects.{between, is_in_range};
ghost use Rattle.region_bytes.specs.Bytes.{IsWord};
ghost use Rattle.pixel_rows.specs.Columns.{has_column, IsSteady};
ghost use Rattle.region_inset.specs.Insets.{inset};
ghost use Rattle.region_inset.specs.Near.{IsDistance};

use crate::narrowed::{narrowed_at, narrowed_columns};
use crate::near::{joining, narrows, reach};
use pixel_rows::{Columns, has_points, meant_columns, region_bounds, region_row};
use region_bytes::RegionBytes;
use tb_geom::Rect;

/// The columns within the bounds in which the row `v` of a region's inset has its pixels. Those rows within the
/// distance that turn, and the first, are narrowed, and then joined.
pub fn inset_row(region: &RegionBytes<'_>, dh: i32, dv: i32, v: i32, bounds: Rect) -> Columns
    requires across { IsDistance dh }
    requires down { IsDistance dv }
    requires row { IsWord v }
    requires in_range { is_in_range bounds ≡ true }
    ensures { (h : ℤ) → has_column result h
        ≡ (between bounds.left h bounds.right && inset (holds region.now) dh dv (record { h = h; v = v })) }
{
    let (reach, all) = (reach(dv), narrows(dv));
    let (first, last) = (v - reach, v + reach);
    let mut row = narrowed_columns(&region_row(region, first), dh, bounds);
    for y in first + 1..last + 1 {
        if turns_at(region, y) {
            let narrowed = narrowed_columns(&region_row(region, y), dh, bounds);
            row = meant_columns(joining(all), &row, &narrowed, bounds);
        }
    }
    row
}

/// Whether a region's inset has the pixel at column `h` and row `v`.
pub fn inset_has(region: &RegionBytes<'_>, dh: i32, dv: i32, h: i32, v: i32) -> bool
    requires across { IsDistance dh }
    requires down { IsDistance dv }
    requires column { IsWord h }
    requires row { IsWord v }
    ensures { result ≡ inset (holds region.now) dh dv (record { h = h; v = v }) }
{
    let (reach, all) = (reach(dv), narrows(dv));
    let (first, last) = (v - reach, v + reach);
    let mut answer = narrowed_at(&region_row(region, first), dh, h);
    for y in first + 1..last + 1 {
        if turns_at(region, y) {
            let narrowed = narrowed_at(&region_row(region, y), dh, h);
            answer = joining(all).means(answer, narrowed);
        }
    }
    answer
}

/// Whether the row `v` of a region may have other pixels than the row above: points lie in the row.
pub fn turns_at(region: &RegionBytes<'_>, v: i32) -> bool
    ensures { result ≡ false → IsSteady (holds region.now) v }
{
    let bounds = region_bounds(region);
    if v < bounds.top || bounds.bottom < v {
        return false;
    }
    has_points(region, v)
}

/// Whether the row `v` of a region's inset may have other pixels than the row above: points lie in the row that comes
/// in, or in the one below that which goes out.
pub fn inset_turns(region: &RegionBytes<'_>, dh: i32, dv: i32, v: i32) -> bool
    requires down { IsDistance dv }
    requires row { IsWord v }
    ensures { result ≡ false → IsSteady (inset (holds region.now) dh dv) v }
{
    let reach = reach(dv);
    turns_at(region, v + reach) || turns_at(region, v - reach)
}
