//! Whether pixels of a window are right.
ghost use Rattle.std.specs.Prelude.{◌≡◌, ◌&&◌, true};
ghost use Rattle.tb_geom.specs.declared.point.Point.{Point};
ghost use Rattle.tb_geom.specs.Points.{minus};
ghost use Rattle.tb_geom.specs.Pixels.{holds};
ghost use Rattle.tb_geom.specs.Rects.{in_plane};
ghost use Rattle.region_bytes.specs.Edges.{differ};
ghost use Rattle.bit_map.specs.Bits.{on_map, bit};
ghost use Rattle.scan_region.specs.Scan.{span_holds};
ghost use Rattle.window_update.specs.Rightness.{IsAgreement};
ghost use Rattle.window_update.specs.Sets.{judged_set};

use crate::areas::JudgedArea;
use bit_map::BitMap;
use scan_region::{Region, Span};
use tb_geom::Point;
use window_list::local;

/// Whether two maps have the same bits in what of a region lies in an area, which is in the coordinates of a window at
/// this place.
pub(crate) fn agree(
    screen: &BitMap,
    image: &BitMap,
    region: &Region,
    place: Point,
    area: &JudgedArea<'_>,
) -> bool
    requires place { in_plane place ≡ true }
    requires plane { (p : Point) → holds region.now p ≡ true → in_plane p ≡ true }
    requires screen { (p : Point) → holds region.now p ≡ true → on_map screen.now p ≡ true }
    requires image { (p : Point) → holds region.now p ≡ true → on_map image.now p ≡ true }
    ensures { IsAgreement (λ p. holds region.now p && judged_set area.now (minus p place)) screen.now image.now result }
{
    for span in region.spans() {
        if !agree_in_row(screen, image, span, place, area) {
            return false;
        }
    }
    true
}

/// The same of a span.
fn agree_in_row(
    screen: &BitMap,
    image: &BitMap,
    span: Span,
    place: Point,
    area: &JudgedArea<'_>,
) -> bool
    requires place { in_plane place ≡ true }
    requires plane { (p : Point) → span_holds span p ≡ true → in_plane p ≡ true }
    requires screen { (p : Point) → span_holds span p ≡ true → on_map screen.now p ≡ true }
    requires image { (p : Point) → span_holds span p ≡ true → on_map image.now p ≡ true }
    ensures { IsAgreement (λ p. span_holds span p && judged_set area.now (minus p place)) screen.now image.now result }
{
    for h in span.left..span.right {
        if differ_at(screen, image, Point { h, v: span.v }, place, area) {
            return false;
        }
    }
    true
}

/// Whether they have different bits at a point, which lies in the area.
fn differ_at(
    screen: &BitMap,
    image: &BitMap,
    point: Point,
    place: Point,
    area: &JudgedArea<'_>,
) -> bool
    requires place { in_plane place ≡ true }
    requires plane { in_plane point ≡ true }
    requires screen { on_map screen.now point ≡ true }
    requires image { on_map image.now point ≡ true }
    ensures { result ≡ (differ (bit screen.now point) (bit image.now point)
        && judged_set area.now (minus point place)) }
{
    screen.get(point) != image.get(point) && area.contains(local(point, place))
}
