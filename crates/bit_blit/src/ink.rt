//! Filling with a pattern.
ghost use Rattle.std.specs.Prelude.{◌≡◌, ◌-ℤ◌, ◌%◌, ℕ, Bool};
ghost use Rattle.tb_geom.specs.Points.{minus};
ghost use Rattle.tb_geom.specs.Pixels.{holds};
ghost use Rattle.bit_blit.specs.Draws.{DrawsOnce};
ghost use Rattle.bit_map.specs.Modes.{mode_bit};
ghost use Rattle.bit_map.specs.Patterns.{pattern_bit, eighth_of};
ghost use Rattle.bit_map.specs.Rules.{right_of, effects_bit};

use crate::walk::draw_region;
use bit_map::{BitMap, Effects, Mode, Pattern, Rule};
use scan_region::Region;
use tb_geom::Point;

/// Puts the pattern down by the mode on each pixel of the region, in map coordinates, that the map
/// holds. `offset` is the pattern's origin in map coordinates and may be any. It takes no memory.
pub fn fill(map: &mut BitMap, region: &Region, offset: Point, pattern: Pattern, mode: Mode)
    ensures { DrawsOnce (holds region.now)
        (λ p old. mode_bit mode (pattern_bit pattern (minus p offset)) old) map.old map.new }
{
    let ink = Ink {
        pattern,
        offset,
        mode,
    };
    draw_region(map, region, &ink);
}

/// A pattern with its origin at `offset`, in map coordinates, put down by a mode.
#[derive(Clone, Copy, Debug, PartialEq, Eq)]
pub struct Ink {
    pub pattern: Pattern,
    pub offset: Point,
    pub mode: Mode,
}

impl Rule for Ink {
    ghost value = { λ ink p old. mode_bit ink.mode (pattern_bit ink.pattern (minus p ink.offset)) old };

    fn value(&self, point: Point, old: bool) -> bool {
        let source = self.pattern.bit(near_origin(point, self.offset));
        self.mode.apply(source, old)
    }

    fn word(&self, start: Point, _count: usize, old: u64) -> u64 {
        self.effects(start).of(old)
    }

    fn words(&self, start: Point, run: &mut [u64]) {
        self.effects(start).lay(run);
    }
}

impl Ink {
    /// What it makes of the bits of a row, of which the first lies at `start`.
    fn effects(&self, start: Point) -> Effects
        ensures { (k : ℕ) (old : Bool) → effects_bit result (k % 64) old
            ≡ mode_bit self.now.mode (pattern_bit self.now.pattern (minus (right_of start k) self.now.offset)) old }
    {
        self.pattern
            .effects(self.mode, near_origin(start, self.offset))
    }
}

/// A point that a pattern takes for the point as seen from the origin, of which it has the remainders
/// by 8.
fn near_origin(point: Point, origin: Point) -> Point
    ensures across { eighth_of result.h ≡ eighth_of (point.h -ℤ origin.h) }
    ensures down { eighth_of result.v ≡ eighth_of (point.v -ℤ origin.v) }
{
    Point {
        h: eighths_between(origin.h, point.h),
        v: eighths_between(origin.v, point.v),
    }
}

/// A number with the remainder by 8 that the distance from `origin` to `x` has. The distance itself
/// may be too great for an `i32`.
fn eighths_between(origin: i32, x: i32) -> i32
    ensures { eighth_of result ≡ eighth_of (x -ℤ origin) }
{
    x.rem_euclid(8) - origin.rem_euclid(8)
}
