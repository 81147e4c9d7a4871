//! Shifting pixels within one map.
ghost use Rattle.std.specs.Prelude.{◌≡◌, true, ◌&&◌};
ghost use Rattle.tb_geom.specs.declared.point.Point.{Point};
ghost use Rattle.tb_geom.specs.Points.{minus};
ghost use Rattle.tb_geom.specs.Rects.{rect_holds};
ghost use Rattle.tb_geom.specs.Pixels.{holds};
ghost use Rattle.scan_region.specs.Scan.{span_holds};
ghost use Rattle.bit_map.specs.Bits.{on_map};
ghost use Rattle.bit_blit.specs.Draws.{DrawsOnce};
ghost use Rattle.bit_blit.specs.Shifts.{shift_holds, shifted, is_onward};

use bit_map::BitMap;
use scan_region::{Region, Span};
use tb_geom::{Point, Rect};

/// Gives each pixel of the region, in map coordinates, that the map holds the bit that its source
/// had: the pixel that lies `distance` before it (*Inside Macintosh* I, "QuickDraw": `ScrollRect` moves
/// bits so). A pixel whose source is off the map stays. Region and distance may be any, and source and
/// destination may overlap. It takes no memory.
///
/// Rows and their parts are taken in the order of a screen's scan, or against it where the distance
/// leads onward in it, and so are the words of a part (`shift_run`). So the source of a pixel is always
/// one that still has its old bit.
pub fn shift(map: &mut BitMap, region: &Region, distance: Point)
    ensures { DrawsOnce (shift_holds map.old (holds region.now) distance) (shifted map.old distance)
        map.old map.new }
{
    let area = area_with_source(map, distance);
    if is_onward(distance) {
        'up: for span in region.spans_up() {
            shift_span(map, span, area, distance);
        }
    } else {
        'down: for span in region.spans() {
            shift_span(map, span, area, distance);
        }
    }
}

/// Whether the distance leads down, or to the right in one row.
fn is_onward(distance: Point) -> bool
    ensures { result ≡ is_onward distance }
{
    distance.v > 0 || (distance.v == 0 && distance.h > 0)
}

/// The pixels of the map whose source is on the map.
fn area_with_source(map: &BitMap, distance: Point) -> Rect
    ensures { (p : Point) → rect_holds result p ≡ (on_map map.now p && on_map map.now (minus p distance)) }
{
    let bounds = map.bounds();
    bounds.sect(Rect {
        left: distance.h,
        top: distance.v,
        right: bounds.right.saturating_add(distance.h),
        bottom: bounds.bottom.saturating_add(distance.v),
    })
}

/// Shifts to the pixels of a span, of which `area` has those whose source is on the map.
fn shift_span(map: &mut BitMap, span: Span, area: Rect, distance: Point)
    requires { (p : Point) → rect_holds area p ≡ (on_map map.old p && on_map map.old (minus p distance)) }
    ensures { DrawsOnce (shift_holds map.old (span_holds span) distance) (shifted map.old distance)
        map.old map.new }
{
    if area.top <= span.v && span.v < area.bottom {
        let left = span.left.max(area.left);
        let right = span.right.min(area.right);
        map.shift_run(span.v, left, right, distance);
    }
}
