//! Bitmaps, patterns and modes, by tables from outside.

use bit_map::{BitImage, BitMap, Mode, Pattern};
use std::alloc::Global;
use std::test::Fail;
use tb_geom::{Point, Rect, Refusal};
use test_pixels::pixels::picture;
use test_pixels::{point, rect};

/// Each mode with its two numbers, and its new bits where the source and the old bit are white and
/// white, white and black, black and white, black and black.
const MODES: [(Mode, u8, u8, [bool; 4]); 8] = [
    (Mode::Copy, 0, 8, [false, false, true, true]),
    (Mode::Or, 1, 9, [false, true, true, true]),
    (Mode::Xor, 2, 10, [false, true, true, false]),
    (Mode::Bic, 3, 11, [false, true, false, false]),
    (Mode::NotCopy, 4, 12, [true, true, false, false]),
    (Mode::NotOr, 5, 13, [true, true, false, true]),
    (Mode::NotXor, 6, 14, [true, false, false, true]),
    (Mode::NotBic, 7, 15, [false, false, false, true]),
];

/// The new bits of a mode, in the same order.
fn bits(mode: Mode) -> [bool; 4] {
    [
        mode.apply(false, false),
        mode.apply(false, true),
        mode.apply(true, false),
        mode.apply(true, true),
    ]
}

/// The new bits of the effects of a mode, in the same order.
fn effects(mode: Mode) -> [bool; 4] {
    let on_white = mode.effect(false);
    let on_black = mode.effect(true);
    [
        on_white.of(false),
        on_white.of(true),
        on_black.of(false),
        on_black.of(true),
    ]
}

#[test]
fn modes_by_number_and_truth_table(rt: HostRuntime) {
    for (mode, source, pattern, table) in MODES {
        assert!(rt; mode.source_number() == source && mode.pattern_number() == pattern);
        assert!(rt; bits(mode) == table);
        assert!(rt; effects(mode) == table);
    }
}

/// The standard patterns, with their even rows and their odd rows.
const PATTERNS: [(Pattern, u8, u8); 5] = [
    (Pattern::BLACK, 0xFF, 0xFF),
    (Pattern::DARK_GRAY, 0x77, 0xDD),
    (Pattern::GRAY, 0xAA, 0x55),
    (Pattern::LIGHT_GRAY, 0x88, 0x22),
    (Pattern::WHITE, 0, 0),
];

/// Points, and whether they are black in the repeated pattern of the rows 80 01 00 00 00 00 00 40.
const REPEATED: [(Point, bool); 17] = [
    (point!(0, 0), true),
    (point!(1, 0), false),
    (point!(7, 0), false),
    (point!(7, 1), true),
    (point!(0, 1), false),
    (point!(1, 7), true),
    (point!(6, 7), false),
    (point!(9, 15), true),
    (point!(-8, -8), true),
    (point!(-1, 1), true),
    (point!(-1, -7), true),
    (point!(-7, -1), true),
    (point!(1, -1), true),
    (point!(-1, -1), false),
    (point!(i32::MIN, i32::MIN), true),
    (point!(i32::MAX, 1), true),
    (point!(1, i32::MAX), true),
];

#[test]
fn patterns_by_value_and_over_the_plane(rt: HostRuntime) {
    for (pattern, even, odd) in PATTERNS {
        assert!(rt; pattern.rows == [even, odd, even, odd, even, odd, even, odd]);
    }
    let pattern = Pattern {
        rows: [0x80, 0x01, 0, 0, 0, 0, 0, 0x40],
    };
    for (point, black) in REPEATED {
        assert!(rt; pattern.bit(point) == black);
    }
}

#[test]
fn puts_a_pattern_down_on_words(rt: HostRuntime) {
    let pattern = Pattern {
        rows: [0x80, 0xC1, 0, 0, 0, 0, 0, 0x40],
    };
    let effects = pattern.effects(Mode::Xor, point!(-3, 9));
    // the columns 5, 6, 7, 0 and so on of the second row, time after time
    assert!(rt; effects.of(0) == 0x3838_3838_3838_3838);
    let mut run = [0, u64::MAX];
    effects.lay(&mut run);
    assert!(rt; run == [0x3838_3838_3838_3838, 0xC7C7_C7C7_C7C7_C7C7]);
}

/// The sides of a map, and the bounds that it has then.
const SIZES: [(i32, i32, Result<Rect, Refusal>); 10] = [
    (0, 5, Ok(rect!(0, 0, 0, 5))),
    (5, 0, Ok(rect!(0, 0, 5, 0))),
    (0, 0, Ok(rect!(0, 0, 0, 0))),
    (32767, 1, Ok(rect!(0, 0, 32767, 1))),
    (1, 32767, Ok(rect!(0, 0, 1, 32767))),
    (32768, 1, Err(Refusal::OutOfRange)),
    (1, 32768, Err(Refusal::OutOfRange)),
    (-1, 1, Err(Refusal::OutOfRange)),
    (1, -1, Err(Refusal::OutOfRange)),
    (i32::MAX, i32::MIN, Err(Refusal::OutOfRange)),
];

/// The bounds of a map of this size.
fn bounds(alloc: Global, width: i32, height: i32) -> Result<Rect, Refusal> {
    Ok(BitMap::new(alloc, width, height)?.bounds())
}

#[test]
fn sides_from_none_to_the_longest(rt: HostRuntime) {
    for (width, height, answer) in SIZES {
        assert!(rt; bounds(rt.alloc(), width, height) == answer);
    }
}

/// A map of 3 by 2 with one black pixel, and what lies around it.
const MARKED: &[u8] = b"     \n ..# \n ... \n     \n";

#[test]
fn keeps_a_bit_for_each_pixel(rt: HostRuntime) -> Result<(), Fail> {
    let mut map = BitMap::new(rt.alloc(), 3, 2)?;
    let marked = point!(2, 0);
    assert!(rt; map.bounds().contains(marked));
    map.set(marked, true);
    let shown = picture(rt.alloc(), &map, rect!(-1, -1, 4, 3))?;
    assert!(rt; shown.as_slice() == MARKED);
    Ok(())
}

/// Each mode, its two names, and its two numbers.
const NAMES: [(Mode, &'static [u8], &'static [u8]); 8] = [
    (Mode::Copy, b"srcCopy", b"patCopy"),
    (Mode::Or, b"srcOr", b"patOr"),
    (Mode::Xor, b"srcXor", b"patXor"),
    (Mode::Bic, b"srcBic", b"patBic"),
    (Mode::NotCopy, b"notSrcCopy", b"notPatCopy"),
    (Mode::NotOr, b"notSrcOr", b"notPatOr"),
    (Mode::NotXor, b"notSrcXor", b"notPatXor"),
    (Mode::NotBic, b"notSrcBic", b"notPatBic"),
];

/// Words that are the name of no mode.
const NO_NAMES: [&'static [u8]; 5] = [b"", b"patBlue", b"PatCopy", b"patCopy ", b"patCop"];

#[test]
fn names_modes(rt: HostRuntime) {
    for (mode, source, pattern) in NAMES {
        assert!(rt; mode.source_name().as_bytes() == source);
        assert!(rt; mode.pattern_name().as_bytes() == pattern);
        assert!(rt; Mode::from_source_name(source) == Some(mode));
        assert!(rt; Mode::from_pattern_name(pattern) == Some(mode));
        assert!(rt; Mode::from_source_name(pattern).is_none());
    }
    for word in NO_NAMES {
        assert!(rt; Mode::from_pattern_name(word).is_none());
    }
}

/// Two rows of ten pixels: the second byte of each has two bits that count.
static ROWS: [u8; 4] = [0xA0, 0x7F, 0x01, 0x80];

#[test]
fn reads_bit_images(rt: HostRuntime) -> Result<(), Fail> {
    let image = BitImage::new(10, 3, &ROWS);
    let text = picture(rt.alloc(), &image, rect!(-1, -1, 11, 4))?;
    // the third row has no bytes
    let wanted = b"            \n #.#......# \n .......##. \n .......... \n            \n";
    assert!(rt; text.as_slice() == wanted.as_slice());
    Ok(())
}
