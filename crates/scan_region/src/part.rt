//! How one region of a cut lets the pixels of a row through.
ghost use Rattle.std.specs.Prelude.{◌≡◌, ◌⊎◌, ◌<◌, ◌≤◌, ℕ, List, ℤ, true, false, not, pos, length, ◌≤ℤ◌, ◌<ℤ◌, ◌+ℤ◌};
ghost use Rattle.std.specs.Prelude.{◌-ℤ◌};
ghost use Rattle.tb_geom.specs.Points.{PixelSet};
ghost use Rattle.region_rows.specs.Bits.{has_bit};
ghost use Rattle.scan_region.specs.Parts.{IsAcross, IsFit, IsPart, IsSteady, lets, part_counts, test_set};
ghost use Rattle.region_rows.specs.Seen.{seen_point, seen_set};

use crate::region::Region;
use region_rows::{Layer, Line};
use tb_geom::Point;

/// Columns, from the first one up to another, as they are seen from above or turned by half a turn.
#[derive(Clone, Copy)]
pub struct Columns {
    pub up: bool,
    pub left: i32,
    pub right: i32,
}

/// A region whose pixels are asked one by one, in the columns at which its rows turn.
#[derive(Clone, Copy)]
pub struct PixelTest<'a> {
    pub region: &'a Region,
    /// Whether it lets through what it lacks, and not what it has.
    pub lacks: bool,
    pub up: bool,
    pub right: i32,
    /// Whether the pixel at hand is let through.
    pub counts: bool,
}

/// What one region of a cut, or one that is not there, lets through of a row.
#[derive(Clone, Copy)]
pub enum Part<'a> {
    /// All pixels.
    Open,
    /// What a line has.
    Lined(Layer<'a>),
    /// What a test tells, where there was no room for a line.
    Tested(PixelTest<'a>),
}

/// A column or a row of pixels, as it is seen.
fn seen_from(up: bool, x: i32) -> i32
    requires { x <ℤ pos 2147483647 }
    ensures { result ≡ (seen_point up (record { h = x; v = x })).h }
{
    if up {
        return -2 - x;
    }
    x
}

impl PixelTest<'_> {
    /// Whether the pixel that is seen in the column `h` and the row `v` is let through.
    fn has(&self, h: i32, v: i32) -> bool
        requires column { h <ℤ pos 2147483647 }
        requires row { v <ℤ pos 2147483647 }
        ensures { result ≡ test_set self.now (record { h = h; v = v }) }
    {
        let point = Point {
            h: seen_from(self.up, h),
            v: seen_from(self.up, v),
        };
        self.region.contains(point) != self.lacks
    }

    /// The first column right of `at` in the row `v` that is let through where `at` is not, or is not where `at`
    /// is; the limit if that comes first.
    fn turn(&self, v: i32, at: i32, limit: i32) -> i32
        requires row { v <ℤ pos 2147483647 }
        requires order { at <ℤ limit }
        ensures on { at <ℤ result }
        ensures up { result ≤ℤ limit }
        ensures steady { (x : ℤ) → at ≤ℤ x → x <ℤ result
            → test_set self.now (record { h = x; v = v }) ≡ test_set self.now (record { h = at; v = v }) }
        ensures turned { result <ℤ limit → test_set self.now (record { h = result; v = v })
            ≡ not (test_set self.now (record { h = at; v = v })) }
    {
        let here = self.has(at, v);
        let mut x = self.region.next_column(self.up, at, limit);
        while x < limit {
            if self.has(x, v) != here {
                return x;
            }
            x = self.region.next_column(self.up, x, limit);
        }
        limit
    }
}

impl<'a> Part<'a> {
    /// What a region lets through of the columns: what it has or, where `lacks` is set, what it lacks; all where
    /// there is no region. A line for it takes the places from `free` on, if there is room.
    pub fn new(
        region: Option<&'a Region>,
        lacks: bool,
        columns: Columns,
        free: &mut usize,
    ) -> Part<'a>
        requires order { columns.left ≤ℤ columns.right }
        requires room { free.old ≤ 8192 }
        ensures part { (words : List ℕ) → ((k : ℕ) → has_bit words k ≡ false) → (v : ℤ)
            → IsPart words result (seen_set columns.up (lets lacks region.entry)) v columns.right }
        ensures fit { IsFit columns.left columns.right free.old free.new result }
        ensures room { free.new ≤ 8192 }
    {
        let Some(region) = region else {
            return Part::Open;
        };
        let width = columns.right.abs_diff(columns.left) as usize;
        if 8192 - *free < width {
            return Part::Tested(PixelTest {
                region,
                lacks,
                up: columns.up,
                right: columns.right,
                counts: lacks,
            });
        }
        let line = Line {
            left: columns.left,
            right: columns.right,
            base: *free,
            first: lacks,
        };
        *free += width;
        Part::Lined(region.layer(columns.up, line))
    }

    /// Whether the pixel at hand is let through.
    pub fn counts(&self) -> bool
        ensures { result ≡ part_counts self.now }
    {
        match self {
            Part::Open => true,
            Part::Lined(layer) => layer.counts,
            Part::Tested(test) => test.counts,
        }
    }

    /// The column of the next turn right of `at` in the row `v`, or the limit if that comes first.
    pub fn turn(&self, words: &[u64], v: i32, at: i32, limit: i32) -> i32
        requires size { length words.now ≡ 128 }
        requires row { v <ℤ pos 2147483647 }
        requires order { at <ℤ limit }
        requires across { IsAcross self.now at limit }
        ensures on { at <ℤ result }
        ensures up { result ≤ℤ limit }
        ensures steady { IsSteady words.now self.now v at result }
        ensures turned { result <ℤ limit → part_counts self.now ≡ true
            → (s : PixelSet) → IsPart words.now self.now s v at → s (record { h = result; v = v }) ≡ false }
    {
        match self {
            Part::Open => limit,
            Part::Lined(layer) => layer.line.turn(words, at, limit),
            Part::Tested(test) => test.turn(v, at, limit),
        }
    }

    /// Goes on to the pixel in the column `to` of the row `v`, before which the part does not turn.
    pub fn pass(&mut self, words: &[u64], v: i32, to: i32)
        requires size { length words.now ≡ 128 }
        requires row { v <ℤ pos 2147483647 }
        requires column { to <ℤ pos 2147483647 }
        requires across { IsAcross self.old (to -ℤ pos 1) (to +ℤ pos 1) }
        ensures part { (s : PixelSet) (at : ℤ) → at <ℤ to → IsSteady words.now self.old v at to
            → IsPart words.now self.old s v at → IsPart words.now self.new s v to }
        ensures fit { (left right : ℤ) (low high : ℕ) → IsFit left right low high self.old
            → IsFit left right low high self.new }
    {
        match self {
            Part::Open => {}
            Part::Lined(layer) => layer.pass(words, to),
            Part::Tested(test) => test.counts = test.has(to, v),
        }
    }

    /// Goes on to the first pixel of the row `v`.
    pub fn down(&mut self, words: &mut [u64], left: i32, v: i32)
        requires size { length words.old ≡ 128 }
        requires row { v <ℤ pos 2147483647 }
        requires column { left <ℤ pos 2147483647 }
        requires fit { (right : ℤ) × (low : ℕ) × (high : ℕ) × IsFit left right low high self.old }
        ensures part { (s : PixelSet) (w at : ℤ) → w ≤ℤ v → IsPart words.old self.old s w at
            → IsPart words.new self.new s v left }
        ensures apart { (right : ℤ) (low high k : ℕ) → IsFit left right low high self.old → (k < low) ⊎ (high ≤ k)
            → has_bit words.new k ≡ has_bit words.old k }
        ensures length { length words.new ≡ length words.old }
        ensures fit { (right : ℤ) (low high : ℕ) → IsFit left right low high self.old
            → IsFit left right low high self.new }
    {
        match self {
            Part::Open => {}
            Part::Lined(layer) => layer.down(words, v),
            Part::Tested(test) => test.counts = test.has(left, v),
        }
    }

    /// The rows from the row `v` at hand up to this one have the same pixels.
    pub fn until(&self, v: i32) -> i32
        requires { (left : ℤ) × (right : ℤ) × (low : ℕ) × (high : ℕ) × IsFit left right low high self.now }
        ensures { (words : List ℕ) (s : PixelSet) (at : ℤ) → IsPart words self.now s v at → (h w : ℤ) → v ≤ℤ w
            → w <ℤ result
            → s (record { h = h; v = w }) ≡ s (record { h = h; v = v }) }
    {
        match self {
            Part::Open => i32::MAX,
            Part::Lined(layer) => layer.until(),
            Part::Tested(_) => v,
        }
    }
}
