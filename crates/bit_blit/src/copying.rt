//! Copying bits.
ghost use Rattle.std.specs.Prelude.{◌≡◌, ◌<◌, ◌≤ℤ◌, ℕ, pos, true, false, Bool, ◌&&◌, if◌then◌else◌};
ghost use Rattle.std.specs.Int.{saturate_signed, w32};
ghost use Rattle.std.specs.Prelude.{◌-ℤ◌};
ghost use Rattle.tb_geom.specs.declared.point.Point.{Point};
ghost use Rattle.tb_geom.specs.Points.{PixelSet, minus};
ghost use Rattle.tb_geom.specs.Pixels.{holds};
ghost use Rattle.bit_map.specs.Bits.{on_map, bit};
ghost use Rattle.bit_map.specs.Images.{image_holds, image_bit};
ghost use Rattle.bit_map.specs.Modes.{mode_bit};
ghost use Rattle.bit_map.specs.Rules.{right_of};
ghost use Rattle.bit_map.specs.Words.{bit_in};
ghost use Rattle.bit_blit.specs.Draws.{DrawsOnce};
ghost use Rattle.bit_blit.specs.Sources.{IsNearSource};

use crate::walk::draw_region;
use bit_map::{BitImage, BitMap, Mode, Rule, blended};
use scan_region::Region;
use tb_geom::Point;

/// What bits are copied from: pixels with coordinates in 0..=65534, and a bit for each.
pub trait Source {
    ghost has: { Self → PixelSet };

    ghost bit_at: { Self → PixelSet };

    /// Whether the source has the pixel at a point.
    fn contains(&self, point: Point) -> bool
        ensures value { result ≡ has self.now point }
        ensures near { IsNearSource (has self.now) };

    /// The bit at a point that the source has.
    fn bit(&self, point: Point) -> bool
        requires { has self.now point ≡ true }
        ensures { result ≡ bit_at self.now point };

    /// Which of the 64 pixels of a row from `start` on the source has, the first at the high bit.
    fn held(&self, start: Point) -> u64
        ensures value { (k : ℕ) → k < 64 → bit_in result k ≡ has self.now (right_of start k) }
        ensures near { IsNearSource (has self.now) };

    /// The bits of the 64 pixels of a row from `start` on. Those that the source has not may be any.
    fn word(&self, start: Point) -> u64
        requires { pos 0 ≤ℤ start.h }
        ensures { (k : ℕ) → k < 64 → has self.now (right_of start k) ≡ true
            → bit_in result k ≡ bit_at self.now (right_of start k) };
}

impl Source for BitMap {
    ghost has = { on_map };

    ghost bit_at = { bit };

    fn contains(&self, point: Point) -> bool {
        self.bounds().contains(point)
    }

    fn bit(&self, point: Point) -> bool {
        self.get(point)
    }

    fn held(&self, start: Point) -> u64 {
        BitMap::held(self, start)
    }

    fn word(&self, start: Point) -> u64 {
        BitMap::word(self, start)
    }
}

impl Source for BitImage<'_> {
    ghost has = { image_holds };

    ghost bit_at = { image_bit };

    fn contains(&self, point: Point) -> bool {
        BitImage::contains(self, point)
    }

    fn bit(&self, point: Point) -> bool {
        BitImage::bit(self, point)
    }

    fn held(&self, start: Point) -> u64 {
        BitImage::held(self, start)
    }

    fn word(&self, start: Point) -> u64 {
        BitImage::word(self, start)
    }
}

/// Puts the source, whose 0 0 comes to lie at `origin`, down by the mode on each pixel of the region
/// that the map holds and the source then has (*Inside Macintosh* I, "QuickDraw": `CopyBits`, of equal
/// sizes). Every other pixel stays. Region and origin are in map coordinates, and may be any. It takes
/// no memory.
pub fn copy<S: Source>(map: &mut BitMap, region: &Region, source: &S, origin: Point, mode: Mode)
    ensures { DrawsOnce (holds region.now)
        (λ p old. if S.has source.now (minus p origin) then mode_bit mode (S.bit_at source.now (minus p origin)) old
        else old)
        map.old map.new }
{
    let copied = Copied {
        source,
        origin,
        mode,
    };
    draw_region(map, region, &copied);
}

/// A source with its 0 0 at `origin`, in map coordinates, put down by a mode.
#[derive(Clone, Copy)]
pub struct Copied<'a, S> {
    pub source: &'a S,
    pub origin: Point,
    pub mode: Mode,
}

impl<S: Source> Rule for Copied<'_, S> {
    ghost value = { λ r p old. if S.has r.source.now (minus p r.origin)
        then mode_bit r.mode (S.bit_at r.source.now (minus p r.origin)) old else old };

    fn value(&self, point: Point, old: bool) -> bool {
        let place = from_origin(point, self.origin);
        if self.source.contains(place) {
            self.mode.apply(self.source.bit(place), old)
        } else {
            old
        }
    }

    fn word(&self, start: Point, _count: usize, old: u64) -> u64 {
        let place = from_origin(start, self.origin);
        let held = self.source.held(place);
        let bits = source_word(self.source, place);
        blended(old, self.mode.effects(bits).of(old), held)
    }
}

/// The bits of 64 pixels of a row of a source. Those that it has not may be any.
fn source_word<S: Source>(source: &S, start: Point) -> u64
    requires { IsNearSource (S.has source.now) }
    ensures { (k : ℕ) → k < 64 → S.has source.now (right_of start k) ≡ true
        → bit_in result k ≡ S.bit_at source.now (right_of start k) }
{
    if start.h < 0 {
        let first = Point { h: 0, v: start.v };
        source.word(first) >> start.h.unsigned_abs().min(63)
    } else {
        source.word(start)
    }
}

/// The point as seen from the origin. Where that is no point, it is one that no source has, and so are
/// the points right of it.
fn from_origin(point: Point, origin: Point) -> Point
    ensures here { (s : PixelSet) → IsNearSource s → (s result ≡ s (minus point origin))
        × (s result ≡ true → result ≡ minus point origin) }
    ensures row { (s : PixelSet) → IsNearSource s → (k : ℕ) → k < 64
        → (s (right_of result k) ≡ s (minus (right_of point k) origin))
        × (s (right_of result k) ≡ true → right_of result k ≡ minus (right_of point k) origin) }
{
    Point {
        h: point.h.saturating_sub(origin.h),
        v: point.v.saturating_sub(origin.v),
    }
}
