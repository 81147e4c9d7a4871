//! The rows of a region whose bytes are read where they lie.
ghost use Rattle.std.specs.Prelude.{◌≡◌, false, ℤ};
ghost use Rattle.tb_geom.specs.declared.point.Point.{Point};
ghost use Rattle.tb_geom.specs.Pixels.{holds};
ghost use Rattle.tb_geom.specs.Rects.{IsBoxOf};
ghost use Rattle.region_rows.specs.Edges.{IsCoordinate};
ghost use Rattle.pixel_rows.specs.Bounds.{AreBounds};
ghost use Rattle.pixel_rows.specs.Columns.{IsSteady, has_column, is_edge};

use crate::columns::Columns;
use region_bytes::{Form, RegionBytes};
use tb_geom::Rect;

/// The smallest rectangle around the pixels of a region, which is in range.
pub fn region_bounds(region: &RegionBytes<'_>) -> Rect
    ensures bounds { AreBounds (holds region.now) result }
    ensures exact { IsBoxOf result (holds region.now) }
{
    match region.form() {
        Form::Rect(rect) => rect,
        Form::Rows(_) => region.bbox(),
    }
}

/// The columns in which the row `v` of a region has its pixels. All points of the region are gone through.
pub fn region_row(region: &RegionBytes<'_>, v: i32) -> Columns
    ensures { (h : ℤ) → has_column result h ≡ holds region.now (record { h = h; v = v }) }
{
    row_within(region, v, region_bounds(region))
}

/// The columns in which the row `v` of a region has its pixels, which lie within the bounds.
fn row_within(region: &RegionBytes<'_>, v: i32, bounds: Rect) -> Columns
    requires { AreBounds (holds region.now) bounds }
    ensures { (h : ℤ) → has_column result h ≡ holds region.now (record { h = h; v = v }) }
{
    row_edges(region, v).turned(bounds)
}

/// The columns at which the runs of the row `v` of a region begin and end: those at which an odd number of points lies
/// in the row or above it.
fn row_edges(region: &RegionBytes<'_>, v: i32) -> Columns
    ensures { (h : ℤ) → IsCoordinate h → has_column result h ≡ is_edge (holds region.now) h v }
{
    let mut edges = Columns::none();
    for p in region.points() {
        if p.v <= v {
            edges.flip(p.h);
        }
    }
    edges
}

/// Whether a region has points in the row `v`.
pub fn has_points(region: &RegionBytes<'_>, v: i32) -> bool
    ensures { result ≡ false → IsSteady (holds region.now) v }
{
    for p in region.points() {
        if p.v == v {
            return true;
        }
    }
    false
}
