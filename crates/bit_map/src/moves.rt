//! Runs of bits, moved within words.
ghost use Rattle.std.specs.Prelude.{◌≡◌, ◌+◌, ◌-◌, ◌*◌, ◌%◌, ◌^◌, ◌<◌, ◌≤◌, ℕ, length, slice_index, nat_lt};
ghost use Rattle.std.specs.Prelude.{if◌then◌else◌};
ghost use Rattle.bit_map.specs.Words.{bit_in, place_bit, IsMoved, IsRestored};

use crate::run::head_of;
use crate::words::{black_from, black_run, blended};
use std::simd::prelude::*;

/// The word at a place, 0 past the last.
fn word_at(words: &[u64], place: usize) -> u64
    ensures { result ≡ slice_index words.now place }
{
    match words.get(place) {
        Some(word) => *word,
        None => 0,
    }
}

/// The bits of two words one after the other, from a bit of the first on.
pub(crate) fn joined(near: u64, far: u64, first: usize) -> u64
    requires { first < 64 }
    ensures { (k : ℕ) → k < 64 → bit_in result k
        ≡ (if nat_lt (first + k) 64 then bit_in near (first + k) else bit_in far (first + k - 64)) }
{
    (near << first) | ((far >> 1) >> (63 - first))
}

/// The bits of five words one after the other, from a bit of the first on, as four words.
fn joined_lanes(words: &[u64], bit: u64) -> u64x4
    requires long { length words.now ≡ 5 }
    requires bit_in { bit < 64 }
    ensures all { length result ≡ 4 }
    ensures each { (j k : ℕ) → j < 4 → k < 64 → bit_in (slice_index result j) k
        ≡ place_bit words.now (64 * j + bit + k) }
{
    let near = u64x4::from_slice(&words[0..4]) << u64x4::splat(bit);
    let far = (u64x4::from_slice(&words[1..5]) >> u64x4::splat(1)) >> u64x4::splat(63 - bit);
    near | far
}

/// The 64 bits from a place on, the places of the words' bits counted on from word to word; white past the last.
pub fn word_from(words: &[u64], place: usize) -> u64
    ensures { (k : ℕ) → k < 64 → bit_in result k ≡ place_bit words.now (place + k) }
{
    let near = word_at(words, place / 64);
    let far = word_at(words, place / 64 + 1);
    joined(near, far, place % 64)
}

/// Moves bits to a part of one word.
fn move_part(words: &mut [u64], place: usize, source: usize, count: usize)
    requires within { place + count ≤ 64 * length words.old }
    requires one { place % 64 + count ≤ 64 }
    ensures { IsMoved place source count words.old words.new }
{
    if 0 < count {
        let first = place % 64;
        let new = word_from(words, source) >> first;
        let mask = black_run(first, count);
        words[place / 64] = blended(words[place / 64], new, mask);
    }
}

/// The 64 bits from the bit `bit` of a word on.
fn word_of(words: &[u64], near: usize, bit: usize) -> u64
    requires bit_in { bit < 64 }
    requires source { near < length words.now }
    requires far { 0 < bit → near + 1 < length words.now }
    ensures { (k : ℕ) → k < 64 → bit_in result k ≡ place_bit words.now (64 * near + bit + k) }
{
    if bit == 0 {
        words[near]
    } else {
        joined(words[near], words[near + 1], bit)
    }
}

/// Four times 64 bits from the bit `bit` of a word on.
fn four_of(words: &[u64], near: usize, bit: usize) -> u64x4
    requires bit_in { bit < 64 }
    requires source { near + 4 ≤ length words.now }
    requires far { 0 < bit → near + 4 < length words.now }
    ensures all { length result ≡ 4 }
    ensures each { (j k : ℕ) → j < 4 → k < 64 → bit_in (slice_index result j) k
        ≡ place_bit words.now (64 * (near + j) + bit + k) }
{
    if bit == 0 {
        return u64x4::from_slice(&words[near..near + 4]);
    }
    joined_lanes(&words[near..near + 5], bit as u64)
}

/// Moves bits to a whole word, from the bit `bit` of another on.
fn move_word(words: &mut [u64], at: usize, near: usize, bit: usize)
    requires within { at < length words.old }
    requires bit_in { bit < 64 }
    requires source { near < length words.old }
    requires far { 0 < bit → near + 1 < length words.old }
    ensures { IsMoved (64 * at) (64 * near + bit) 64 words.old words.new }
{
    words[at] = word_of(words, near, bit);
}

/// Moves bits to four whole words, from the bit `bit` of another on.
fn move_four(words: &mut [u64], at: usize, near: usize, bit: usize)
    requires within { at + 4 ≤ length words.old }
    requires bit_in { bit < 64 }
    requires source { near + 4 ≤ length words.old }
    requires far { 0 < bit → near + 4 < length words.old }
    ensures { IsMoved (64 * at) (64 * near + bit) 256 words.old words.new }
{
    let lanes = four_of(words, near, bit);
    lanes.copy_to_slice(&mut words[at..at + 4]);
}

/// Moves bits to words, four at a time, from the first ones on.
fn down_by_four(words: &mut [u64], first: usize, fours: usize, near: usize, bit: usize)
    requires within { first + (4 * fours) ≤ length words.old }
    requires bit_in { bit < 64 }
    requires source { near + (4 * fours) ≤ length words.old }
    requires far { 0 < bit → near + (4 * fours) < length words.old }
    requires back { first ≤ near }
    ensures { IsMoved (64 * first) (64 * near + bit) (64 * (4 * fours)) words.old words.new }
{
    for k in 0..fours {
        move_four(words, first + 4 * k, near + 4 * k, bit);
    }
}

/// Moves bits to words, from the first one on.
fn down_by_one(words: &mut [u64], first: usize, count: usize, near: usize, bit: usize)
    requires within { first + count ≤ length words.old }
    requires bit_in { bit < 64 }
    requires source { near + count ≤ length words.old }
    requires far { 0 < bit → near + count < length words.old }
    requires back { first ≤ near }
    ensures { IsMoved (64 * first) (64 * near + bit) (64 * count) words.old words.new }
{
    for k in 0..count {
        move_word(words, first + k, near + k, bit);
    }
}

/// Moves bits to words, four at a time, from the last ones on.
fn up_by_four(words: &mut [u64], first: usize, fours: usize, near: usize, bit: usize)
    requires within { first + (4 * fours) ≤ length words.old }
    requires bit_in { bit < 64 }
    requires source { near + (4 * fours) ≤ length words.old }
    requires far { 0 < bit → near + (4 * fours) < length words.old }
    requires ahead { 64 * near + bit ≤ 64 * first }
    ensures { IsMoved (64 * first) (64 * near + bit) (64 * (4 * fours)) words.old words.new }
{
    for k in (0..fours).rev() {
        move_four(words, first + 4 * k, near + 4 * k, bit);
    }
}

/// Moves bits to words, from the last one on.
fn up_by_one(words: &mut [u64], first: usize, count: usize, near: usize, bit: usize)
    requires within { first + count ≤ length words.old }
    requires bit_in { bit < 64 }
    requires source { near + count ≤ length words.old }
    requires far { 0 < bit → near + count < length words.old }
    requires ahead { 64 * near + bit ≤ 64 * first }
    ensures { IsMoved (64 * first) (64 * near + bit) (64 * count) words.old words.new }
{
    for k in (0..count).rev() {
        move_word(words, first + k, near + k, bit);
    }
}

/// Moves bits to words, from the first ones on.
fn move_down(words: &mut [u64], first: usize, count: usize, near: usize, bit: usize)
    requires within { first + count ≤ length words.old }
    requires bit_in { bit < 64 }
    requires source { near + count ≤ length words.old }
    requires far { 0 < bit → near + count < length words.old }
    requires back { first ≤ near }
    ensures { IsMoved (64 * first) (64 * near + bit) (64 * count) words.old words.new }
{
    let fours = count / 4;
    down_by_four(words, first, fours, near, bit);
    down_by_one(words, first + 4 * fours, count % 4, near + 4 * fours, bit);
}

/// Moves bits to words, from the last ones on.
fn move_up(words: &mut [u64], first: usize, count: usize, near: usize, bit: usize)
    requires within { first + count ≤ length words.old }
    requires bit_in { bit < 64 }
    requires source { near + count ≤ length words.old }
    requires far { 0 < bit → near + count < length words.old }
    requires ahead { 64 * near + bit ≤ 64 * first }
    ensures { IsMoved (64 * first) (64 * near + bit) (64 * count) words.old words.new }
{
    let rest = count % 4;
    up_by_four(words, first + rest, count / 4, near + rest, bit);
    up_by_one(words, first, rest, near, bit);
}

/// Moves bits to whole words, in the order in which each still has its old bits when it is read.
#[inline(always)]
fn move_whole(words: &mut [u64], place: usize, source: usize, count: usize)
    requires within { place + count ≤ 64 * length words.old }
    requires whole { count % 64 ≡ 0 }
    requires aligned { 0 < count → place % 64 ≡ 0 }
    requires source_in { source + count ≤ 64 * length words.old }
    ensures { IsMoved place source count words.old words.new }
{
    if 0 < count {
        let (first, near, bit) = (place / 64, source / 64, source % 64);
        if source < place {
            move_up(words, first, count / 64, near, bit);
        } else {
            move_down(words, first, count / 64, near, bit);
        }
    }
}

/// Gives a word the bits `old` where the mask is white.
fn restore(words: &mut [u64], at: usize, old: u64, mask: u64)
    requires { at < length words.old }
    ensures { IsRestored at old mask words.old words.new }
{
    words[at] = blended(old, words[at], mask);
}

/// Moves all bits of the words that have one of them, and gives the others of these their old bits again.
fn move_wide(words: &mut [u64], place: usize, source: usize, count: usize)
    requires some { 0 < count }
    requires within { place + count ≤ 64 * length words.old }
    requires left { place % 64 ≤ source }
    requires right { source + count + 63 ≤ 64 * length words.old }
    requires near { 64 * length words.old < 2 ^ 64 }
    ensures { IsMoved place source count words.old words.new }
{
    let (first, last) = (place / 64, (place + count - 1) / 64);
    let (left, right) = (words[first], words[last]);
    let gap = place % 64;
    move_whole(words, 64 * first, source - gap, 64 * (last - first + 1));
    restore(words, first, left, black_from(gap));
    restore(words, last, right, black_run(0, place + count - 64 * last));
}

/// Moves bits in three parts: those of a word that has begun, those of whole words, and those that are
/// left.
#[inline(never)]
fn move_parts(words: &mut [u64], place: usize, source: usize, count: usize)
    requires within { place + count ≤ 64 * length words.old }
    requires source_in { source + count ≤ 64 * length words.old }
    requires near { 64 * length words.old < 2 ^ 64 }
    ensures { IsMoved place source count words.old words.new }
{
    let head = head_of(place, count);
    let tail = (count - head) % 64;
    let last = count - tail;
    if source < place {
        move_part(words, place + last, source + last, tail);
        move_whole(words, place + head, source + head, last - head);
        move_part(words, place, source, head);
    } else {
        move_part(words, place, source, head);
        move_whole(words, place + head, source + head, last - head);
        move_part(words, place + last, source + last, tail);
    }
}

/// Moves `count` bits from a place on to another, in the order in which each is still an old one when
/// it is read.
pub(crate) fn move_run(words: &mut [u64], place: usize, source: usize, count: usize)
    requires some { 0 < count }
    requires within { place + count ≤ 64 * length words.old }
    requires source_in { source + count ≤ 64 * length words.old }
    requires near { 64 * length words.old + 63 < 2 ^ 64 }
    ensures { IsMoved place source count words.old words.new }
{
    if place % 64 <= source && source + count + 63 <= 64 * words.len() {
        move_wide(words, place, source, count);
    } else {
        move_parts(words, place, source, count);
    }
}
