//! A base image, copied.
//!
//! A map that begins its rows with a word each has the pixels of another such map in the same words. So of what is copied, whole
//! words are put down a row at a time, and no pixel is looked at.
ghost use Rattle.std.specs.Prelude.{◌≡◌, ◌<◌, ◌*◌, ℕ, pos, true, IfSome, length, if◌then◌else◌};
ghost use Rattle.tb_geom.specs.Rects.{rect_holds};
ghost use Rattle.bit_map.specs.Bits.{bit, on_map};
ghost use Rattle.bit_map.specs.Rules.{right_of};
ghost use Rattle.bit_map.specs.Words.{place_bit};
ghost use Rattle.bit_blit.specs.Draws.{Draws};

use bit_blit::{Copied, draw_rect};
use bit_map::{BitMap, Mode, Rule};
use tb_geom::{Point, Rect};

/// Gives the pixels of a rectangle the bits that another map of the same size has there.
pub(crate) fn cover(map: &mut BitMap, rect: Rect, base: &BitMap)
    requires width { map.old.width ≡ base.now.width }
    requires height { map.old.height ≡ base.now.height }
    ensures { Draws (rect_holds rect) (λ p _. bit base.now p) map.old map.new }
{
    draw_rect(map, rect, &Base { map: base });
}

/// The bits of a base image, each at its own point.
#[derive(Clone, Copy)]
struct Base<'a> {
    map: &'a BitMap,
}

/// The same, as bits that are copied pixel by pixel.
fn copied(map: &BitMap) -> Copied<'_, BitMap>
    ensures source { result.source.now ≡ map.entry.now }
    ensures origin { result.origin ≡ record { h = pos 0; v = pos 0 } }
    ensures mode { result.mode ≡ Mode.Copy }
{
    Copied {
        source: map,
        origin: Point { h: 0, v: 0 },
        mode: Mode::Copy,
    }
}

impl Rule for Base<'_> {
    ghost value = { λ r p old. if on_map r.map.now p then bit r.map.now p else old };

    fn value(&self, point: Point, old: bool) -> bool {
        copied(self.map).value(point, old)
    }

    fn word(&self, start: Point, count: usize, old: u64) -> u64 {
        copied(self.map).word(start, count, old)
    }

    fn words(&self, start: Point, run: &mut [u64]) {
        match words_at(self.map, start, run.len()) {
            Some(words) => run.copy_from_slice(words),
            None => copied(self.map).words(start, run),
        }
    }
}

/// The words of the pixels of a row from `start` on, so many words, where one of the map's words begins there and the map has
/// all these pixels.
fn words_at(map: &BitMap, start: Point, count: usize) -> Option<&[u64]>
    ensures all { IfSome result (λ words. length words.now ≡ count) }
    ensures bits { IfSome result (λ words. (k : ℕ) → k < 64 * count → (on_map map.now (right_of start k) ≡ true)
        × (place_bit words.now k ≡ bit map.now (right_of start k))) }
{
    let bounds = map.bounds();
    if !bounds.contains(start) {
        return None;
    }
    let (column, whole) = (start.h as usize, bounds.right as usize / 64);
    if column % 64 != 0 {
        return None;
    }
    let first = column / 64;
    if whole - first < count {
        return None;
    }
    Some(&map.row(start.v as u16)[first..first + count])
}
