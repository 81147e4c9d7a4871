//! The rules by which a canvas is drawn on.
ghost use Rattle.std.specs.Prelude.{◌≡◌, false, IfSome};
ghost use Rattle.bit_map.specs.Rules.{HasColumns};
ghost use Rattle.draw_port.specs.Places.{stopped, IsSeenRun};

use bit_blit::Rule;
use bit_map::{Effect, Effects, bit_in, one_bit, right_of};
use tb_geom::Point;

/// A rule in the coordinates of an origin on a map, as a rule of the map.
#[derive(Drop)]
pub struct Seen<'a, R> {
    pub rule: &'a R,
    pub origin: Point,
}

impl<R: Rule> Rule for Seen<'_, R> {
    ghost value = { λ s p old. R.value s.rule.now (stopped p s.origin) old };

    fn value(&self, point: Point, old: bool) -> bool {
        self.rule.value(from_origin(point, self.origin), old)
    }

    fn word(&self, start: Point, count: usize, old: u64) -> u64 {
        match run_from_origin(start, self.origin, count) {
            Some(seen) => self.rule.word(seen, count, old),
            None => {
                let mut new = 0;
                for k in 0..count {
                    let bit = self.value(right_of(start, k), bit_in(old, k));
                    new |= one_bit(k, bit);
                }
                new
            }
        }
    }

    fn words(&self, start: Point, run: &mut [u64]) {
        match run_from_origin(start, self.origin, 64 * run.len()) {
            Some(seen) => self.rule.words(seen, run),
            None => {
                for (k, word) in run.iter_mut().enumerate() {
                    *word = self.word(right_of(start, 64 * k), 64, *word);
                }
            }
        }
    }
}

/// The point as seen from the origin, as far as numbers of 32 bits go.
fn from_origin(point: Point, origin: Point) -> Point
    ensures { result ≡ stopped point origin }
{
    Point {
        h: point.h.saturating_sub(origin.h),
        v: point.v.saturating_sub(origin.v),
    }
}

/// The first point of a run as seen from the origin, if numbers of 32 bits go as far as the run.
fn run_from_origin(start: Point, origin: Point, count: usize) -> Option<Point>
    requires { HasColumns start count }
    ensures { IfSome result (IsSeenRun origin start count) }
{
    let h = start.h.checked_sub(origin.h)?;
    h.checked_add(count as i32)?;
    Some(Point {
        h,
        v: start.v.saturating_sub(origin.v),
    })
}

/// White.
#[derive(Clone, Copy)]
pub struct White;

impl Rule for White {
    ghost value = { λ _ _ _. false };

    fn value(&self, _point: Point, _old: bool) -> bool {
        false
    }

    fn word(&self, _start: Point, _count: usize, old: u64) -> u64 {
        Effects::all(Effect::WHITE).of(old)
    }

    fn words(&self, _start: Point, run: &mut [u64]) {
        Effects::all(Effect::WHITE).lay(run);
    }
}
