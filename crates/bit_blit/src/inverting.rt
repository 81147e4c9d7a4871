//! Inverting.
ghost use Rattle.std.specs.Prelude.{not};
ghost use Rattle.tb_geom.specs.Pixels.{holds};
ghost use Rattle.bit_blit.specs.Draws.{DrawsOnce};

use crate::walk::draw_region;
use bit_map::{BitMap, Effect, Effects, Rule};
use scan_region::Region;
use tb_geom::Point;

/// Inverts each pixel of the region, in map coordinates, that the map holds (*Inside Macintosh* I,
/// "QuickDraw": `InvertRgn`). It takes no memory.
pub fn invert(map: &mut BitMap, region: &Region)
    ensures { DrawsOnce (holds region.now) (λ _ old. not old) map.old map.new }
{
    draw_region(map, region, &Inverse);
}

/// Inverts a pixel.
#[derive(Clone, Copy, Debug, PartialEq, Eq)]
pub struct Inverse;

impl Rule for Inverse {
    ghost value = { λ _ _ old. not old };

    fn value(&self, _point: Point, old: bool) -> bool {
        !old
    }

    fn word(&self, _start: Point, _count: usize, old: u64) -> u64 {
        Effects::all(Effect::INVERT).of(old)
    }

    fn words(&self, _start: Point, run: &mut [u64]) {
        Effects::all(Effect::INVERT).lay(run);
    }
}
