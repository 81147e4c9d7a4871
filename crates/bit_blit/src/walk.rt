//! The walk over the pixels of a rectangle, of a region and of what a cut leaves.
ghost use Rattle.std.specs.Prelude.{◌≡◌, ◌&&◌};
ghost use Rattle.tb_geom.specs.Rects.{rect_holds};
ghost use Rattle.tb_geom.specs.Pixels.{holds};
ghost use Rattle.scan_region.specs.Cuts.{cut_inside, cut_holds};
ghost use Rattle.bit_blit.specs.Draws.{DrawsOnce, in_row};

use bit_map::{BitMap, Rule};
use scan_region::{Cut, Region};
use tb_geom::{Point, Rect};

/// Gives each pixel of the rectangle that the map holds the value of the rule. The rectangle, in map
/// coordinates, may be any.
pub fn draw_rect<R: Rule>(map: &mut BitMap, rect: Rect, rule: &R)
    ensures { DrawsOnce (rect_holds rect) (R.value rule.now) map.old map.new }
{
    let shared = map.bounds().sect(rect);
    for v in shared.top..shared.bottom {
        map.draw_run(v, shared.left, shared.right, rule);
    }
}

/// The cut that leaves the pixels of one region.
pub fn cut_inside<'a>(region: &'a Region) -> Cut<'a>
    ensures { result ≡ cut_inside region.entry }
{
    Cut {
        inside: [Some(region), None, None],
        outside: None,
    }
}

/// Gives each pixel of the region that the map holds the value of the rule. The region, in map
/// coordinates, may be any. It takes no memory.
pub fn draw_region<R: Rule>(map: &mut BitMap, region: &Region, rule: &R)
    ensures { DrawsOnce (holds region.now) (R.value rule.now) map.old map.new }
{
    let cut = cut_inside(region);
    draw_cut(map, &cut, region.bbox(), rule);
}

/// Gives each pixel of the area that the cut leaves and the map holds the value of the rule. The area,
/// in map coordinates, may be any. It takes no memory.
pub fn draw_cut<R: Rule>(map: &mut BitMap, cut: &Cut, area: Rect, rule: &R)
    ensures { DrawsOnce (λ p. rect_holds area p && cut_holds cut.now p) (R.value rule.now) map.old map.new }
{
    draw_spans(map, cut, map.bounds().sect(area), rule);
}

/// The same, by going along every row of the area.
fn draw_spans<R: Rule>(map: &mut BitMap, cut: &Cut, area: Rect, rule: &R)
    ensures { DrawsOnce (λ p. rect_holds area p && cut_holds cut.now p) (R.value rule.now) map.old map.new }
{
    for span in cut.spans_within(area) {
        draw_span(map, span.v, span.left, span.right, rule);
    }
}

/// Gives each pixel of the row `v` from the column `left` up to the column `right` that the map holds
/// the value of the rule. The row and the columns, in map coordinates, may be any.
fn draw_span<R: Rule>(map: &mut BitMap, v: i32, left: i32, right: i32, rule: &R)
    ensures { DrawsOnce (in_row v left right) (R.value rule.now) map.old map.new }
{
    let bounds = map.bounds();
    if bounds.top <= v && v < bounds.bottom {
        map.draw_run(v, left.max(bounds.left), right.min(bounds.right), rule);
    }
}
