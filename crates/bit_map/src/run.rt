//! Runs of bits in words, and what a rule makes of them.
ghost use Rattle.std.specs.Prelude.{◌≡◌, ◌+◌, ◌*◌, ◌%◌, ◌^◌, ◌<◌, ◌≤◌, length};
ghost use Rattle.bit_map.specs.Rules.{IsPartRuled, HasColumns};

use crate::rule::{Rule, right_of};
use crate::words::{black_run, blended};
use tb_geom::Point;

/// Gives each of some bits of one word its new bit, `count` of them from `place` on.
fn rule_part<R: Rule>(words: &mut [u64], place: usize, count: usize, start: Point, rule: &R)
    requires within { place + count ≤ 64 * length words.old }
    requires one { place % 64 + count ≤ 64 }
    requires columns { HasColumns start count }
    ensures { IsPartRuled (R.value rule.now) start place count words.old words.new }
{
    if 0 < count {
        let first = place % 64;
        let old = words[place / 64];
        let new = rule.word(start, count, old << first) >> first;
        words[place / 64] = blended(old, new, black_run(first, count));
    }
}

/// Gives each bit of some words its new bit.
fn rule_whole<R: Rule>(words: &mut [u64], place: usize, count: usize, start: Point, rule: &R)
    requires within { place + count ≤ 64 * length words.old }
    requires whole { count % 64 ≡ 0 }
    requires aligned { 0 < count → place % 64 ≡ 0 }
    requires columns { HasColumns start count }
    ensures { IsPartRuled (R.value rule.now) start place count words.old words.new }
{
    if 0 < count {
        let first = place / 64;
        rule.words(start, &mut words[first..first + count / 64]);
    }
}

/// How many of `count` bits from a place on lie in the word that has begun before it.
pub(crate) fn head_of(place: usize, count: usize) -> usize
    ensures within { result ≤ count }
    ensures one { place % 64 + result ≤ 64 }
    ensures aligned { result < count → (place + result) % 64 ≡ 0 }
{
    ((64 - place % 64) % 64).min(count)
}

/// Gives each of some bits its new bit, `count` of them from `place` on. The first of them is that of
/// the pixel at `start`.
pub(crate) fn rule_run<R: Rule>(
    words: &mut [u64],
    place: usize,
    count: usize,
    start: Point,
    rule: &R,
)
    requires within { place + count ≤ 64 * length words.old }
    requires near { place + count < 2 ^ 64 }
    requires columns { HasColumns start count }
    ensures { IsPartRuled (R.value rule.now) start place count words.old words.new }
{
    let head = head_of(place, count);
    let tail = (count - head) % 64;
    let middle = count - head - tail;
    let (second, third) = (right_of(start, head), right_of(start, head + middle));
    rule_part(words, place, head, start, rule);
    rule_whole(words, place + head, middle, second, rule);
    rule_part(words, place + head + middle, tail, third, rule);
}
