//! Bitmaps.
ghost use Rattle.std.specs.Prelude.{◌≡◌, ◌<◌, ◌≤◌, ◌≤ℤ◌, ◌<ℤ◌, ◌-ℤ◌, ◌+◌, ◌*◌, ◌&&◌, pos, true, false, nat_abs, length};
ghost use Rattle.std.specs.Prelude.{IfOk, IfErr, ℕ, if◌then◌else◌};
ghost use Rattle.tb_geom.specs.declared.point.Point.{Point};
ghost use Rattle.tb_geom.specs.Points.{minus};
ghost use Rattle.tb_geom.specs.Rects.{rect_holds};
ghost use Rattle.bit_map.specs.Bits.{on_map, bit, count, is_point, in_row, bounds_of, is_side};
ghost use Rattle.bit_map.specs.Rules.{right_of};
ghost use Rattle.bit_map.specs.Words.{words_across, bit_in, place_bit};

use crate::image::is_below;
use crate::moves::{move_run, word_from};
use crate::rule::Rule;
use crate::run::rule_run;
use crate::words::{bit_in, held, with_bit};
use crate::writes::{Writes, Written};
use std::alloc::Global;
use std::marker::Model;
use tb_geom::{Point, Rect, Refusal};

/// A rectangle of bits, its top left pixel at 0 0. Each side is 0..=32767 pixels long. Each row begins
/// with a word of its own; what the bits past its last column are does not matter. How often each pixel
/// was written is a part of what a map means, and takes no bytes.
#[derive(Debug, Drop)]
pub struct BitMap {
    width: u16,
    height: u16,
    words: Vec<u64>,
    writes: Writes,
}

const _: () = prove!(size_of::<BitMap>() == 32);

impl Model for BitMap {
    ghost use Rattle.bit_map.specs.Bits.{Bits};
    ghost use Rattle.bit_map.specs.Words.{black_of, IsWholeMap};
    ghost use Rattle.bit_map.specs.Counts.{counts_of};

    ghost Value = { Bits };

    ghost view = { λ m. record {
      width = m.width;
      height = m.height;
      black = black_of m.width m.height m.words.items;
      counts = counts_of m.width m.height m.writes.tag.numbers;
    } };

    ghost invariant = { λ m. IsWholeMap m.width m.height m.words.items };
}

/// Whether a map may have a side of this length: 0..=32767.
fn is_side(n: i32) -> bool
    ensures { result ≡ is_side n }
{
    0 <= n && n <= 32767
}

/// A number that is not negative.
fn natural(n: i32) -> usize
    requires { pos 0 ≤ℤ n }
    ensures { pos result ≡ n }
{
    n as usize
}

/// How many columns there are from one on and up to another.
fn columns_between(left: i32, right: i32) -> usize
    requires low { pos 0 ≤ℤ left }
    requires rising { left <ℤ right }
    ensures { pos result ≡ right -ℤ left }
{
    natural(right - left)
}

/// How many words a row of so many columns takes.
fn words_across(width: u16) -> usize
    ensures { result ≡ words_across width }
{
    (usize::from(width) + 63) / 64
}

impl BitMap {
    /// A map of this many columns and rows, all white. OutOfRange exactly where one of the two is not
    /// in 0..=32767, and otherwise only NoMemory.
    pub fn new(alloc: Global, width: i32, height: i32) -> Result<BitMap, Refusal>
        ensures sides { IfOk result (λ map. (pos map.width ≡ width) × (pos map.height ≡ height)) }
        ensures white { IfOk result (λ map. (p : Point) → bit map p ≡ false) }
        ensures unwritten { IfOk result (λ map. (p : Point) → count map p ≡ 0) }
        ensures in_range { IfOk result (λ map. (is_side width && is_side height) ≡ true) }
        ensures refused { IfErr result (λ e.
            e ≡ (if is_side width && is_side height then Refusal.NoMemory else Refusal.OutOfRange)) }
    {
        if is_side(width) && is_side(height) {
            let (width, height) = (width as u16, height as u16);
            let words = vec![in alloc; 0; usize::from(height) * words_across(width)]?;
            Ok(BitMap {
                width,
                height,
                words,
                writes: Writes::new(),
            })
        } else {
            Err(Refusal::OutOfRange)
        }
    }

    /// The rectangle of the map's pixels, from 0 0.
    pub fn bounds(&self) -> Rect
        ensures sides { result ≡ bounds_of self.now }
        ensures pixels { (p : Point) → rect_holds result p ≡ on_map self.now p }
        ensures limits { (self.now.width ≤ 32767) × (self.now.height ≤ 32767) }
    {
        Rect {
            left: 0,
            top: 0,
            right: i32::from(self.width),
            bottom: i32::from(self.height),
        }
    }

    /// The bit at a point of the map.
    pub fn get(&self, point: Point) -> bool
        requires { on_map self.now point ≡ true }
        ensures { result ≡ bit self.now point }
    {
        let place = self.place(point);
        bit_in(self.words[place / 64], place % 64)
    }

    /// Which of the 64 pixels of a row from `start` on the map has, the first at the high bit.
    #[tactic(auto, unfolding(crate::specs::Bits::on_map))]
    pub fn held(&self, start: Point) -> u64
        ensures value { (k : ℕ) → k < 64 → bit_in result k ≡ on_map self.now (right_of start k) }
        ensures limits { (self.now.width ≤ 32767) × (self.now.height ≤ 32767) }
    {
        if is_below(self.height, start.v) {
            held(self.width, start.h)
        } else {
            0
        }
    }

    /// The bits of the 64 pixels of a row from `start` on, the first at the high bit. Those off the map
    /// may be any.
    pub fn word(&self, start: Point) -> u64
        requires { pos 0 ≤ℤ start.h }
        ensures { (k : ℕ) → k < 64 → on_map self.now (right_of start k) ≡ true
            → bit_in result k ≡ bit self.now (right_of start k) }
    {
        if is_below(self.height, start.v) {
            let row = natural(start.v) * (64 * words_across(self.width));
            word_from(self.words.as_slice(), row + natural(start.h))
        } else {
            0
        }
    }

    /// The words of the row `v`, each with 64 pixels, the leftmost of them at the high bit. The bits past
    /// the last column may be any.
    pub fn row(&self, v: u16) -> &[u64]
        requires { v < self.now.height }
        ensures words { length result.now ≡ words_across self.now.width }
        ensures bits { (h : ℕ) → h < self.now.width → place_bit result.now h
            ≡ bit self.now (record { h = pos h; v = pos v }) }
    {
        let across = words_across(self.width);
        let first = usize::from(v) * across;
        &self.words[first..first + across]
    }

    /// Gives the point of the map the bit `value`. Every other bit stays.
    pub fn set(&mut self, point: Point, value: bool)
        requires { on_map self.old point ≡ true }
        ensures bits { (p : Point) → bit self.new p ≡ (if is_point point p then value else bit self.old p) }
        ensures counts { (p : Point) → count self.new p ≡ (if is_point point p then count self.old p + 1
            else count self.old p) }
        ensures width { self.new.width ≡ self.old.width }
        ensures height { self.new.height ≡ self.old.height }
    {
        let place = self.place(point);
        self.words[place / 64] = with_bit(self.words[place / 64], place % 64, value);
        self.writes.add(Written {
            width: self.width,
            height: self.height,
            v: point.v,
            left: point.h,
            count: 1,
        });
    }

    /// Gives each pixel of the row `v` from the column `left` up to the column `right`, all in map
    /// coordinates, the value of the rule. Every other bit stays.
    pub fn draw_run<R: Rule>(&mut self, v: i32, left: i32, right: i32, rule: &R)
        requires { (p : Point) → in_row v left right p ≡ true → on_map self.old p ≡ true }
        ensures bits { (p : Point) → bit self.new p
            ≡ (if in_row v left right p then R.value rule.now p (bit self.old p) else bit self.old p) }
        ensures counts { (p : Point) → count self.new p ≡ (if in_row v left right p then count self.old p + 1
            else count self.old p) }
        ensures width { self.new.width ≡ self.old.width }
        ensures height { self.new.height ≡ self.old.height }
    {
        if left < right {
            let start = Point { h: left, v };
            let place = self.place(start);
            let count = columns_between(left, right);
            rule_run(self.words.as_mut_slice(), place, count, start, rule);
            self.writes.add(Written {
                width: self.width,
                height: self.height,
                v: start.v,
                left: start.h,
                count,
            });
        }
    }

    /// Gives each pixel of the row `v` from the column `left` up to the column `right`, all in map
    /// coordinates, the old bit of the pixel that lies `distance` before it. Every other bit stays.
    pub fn shift_run(&mut self, v: i32, left: i32, right: i32, distance: Point)
        requires { (p : Point) → in_row v left right p ≡ true
            → (on_map self.old p && on_map self.old (minus p distance)) ≡ true }
        ensures bits { (p : Point) → bit self.new p
            ≡ (if in_row v left right p then bit self.old (minus p distance) else bit self.old p) }
        ensures counts { (p : Point) → count self.new p ≡ (if in_row v left right p then count self.old p + 1
            else count self.old p) }
        ensures width { self.new.width ≡ self.old.width }
        ensures height { self.new.height ≡ self.old.height }
    {
        if left < right {
            let place = self.place(Point { h: left, v });
            let source = self.place(Point {
                h: left - distance.h,
                v: v - distance.v,
            });
            let count = columns_between(left, right);
            move_run(self.words.as_mut_slice(), place, source, count);
            self.writes.add(Written {
                width: self.width,
                height: self.height,
                v,
                left,
                count,
            });
        }
    }

    /// Where the bit at a point of the map stands in the words.
    fn place(&self, point: Point) -> usize
        requires { on_map self.now point ≡ true }
        ensures value { result ≡ nat_abs point.v * (64 * words_across self.now.width) + nat_abs point.h }
        ensures limits { (self.now.width ≤ 32767) × (self.now.height ≤ 32767) }
    {
        natural(point.v) * (64 * words_across(self.width)) + natural(point.h)
    }
}
