//! The calls of a canvas and of pictures.

use bit_map::{BitMap, Mode, Pattern};
use draw_port::{
    Bytes, Canvas, Cut, Line, Op, Picture, RowsOfBits, Shape, ShortText, TextMode, TextRun,
};
use scan_region::Region;
use std::alloc::Global;
use std::test::Fail;
use strike_font::Font;
use tb_geom::{Point, Rect, Refusal};
use test_pixels::images::{NOTHING_CUT, drawn, image_of, push, shade, shows};
use test_pixels::small::SMALL;
use test_pixels::{point, rect};

/// Each mode, and the new bit where the source and the old bit are white and white, white and black, black and white,
/// black and black.
const MODES: [(Mode, [bool; 4]); 8] = [
    (Mode::Copy, [false, false, true, true]),
    (Mode::Or, [false, true, true, true]),
    (Mode::Xor, [false, true, true, false]),
    (Mode::Bic, [false, true, false, false]),
    (Mode::NotCopy, [true, true, false, false]),
    (Mode::NotOr, [true, true, false, true]),
    (Mode::NotXor, [true, false, false, true]),
    (Mode::NotBic, [false, false, false, true]),
];

/// The bit that a row of the table gives.
fn put(table: [bool; 4], source: bool, old: bool) -> bool {
    match (source, old) {
        (false, false) => table[0],
        (false, true) => table[1],
        (true, false) => table[2],
        (true, true) => table[3],
    }
}

/// Operations by one mode, which lie over one another.
fn by_mode(alloc: Global, mode: Mode) -> Result<Picture, Refusal> {
    let row = Line {
        start: point!(0, 3),
        count: 5,
    };
    let column = Line {
        start: point!(5, -2),
        count: 9,
    };
    let mut picture = Picture::new(alloc);
    push(
        &mut picture,
        Shape::Fill(rect!(0, 0, 8, 8), shade(Pattern::DARK_GRAY, Mode::Copy)),
    )?;
    push(
        &mut picture,
        Shape::Fill(rect!(-3, 1, 6, 99), shade(Pattern::LIGHT_GRAY, mode)),
    )?;
    push(
        &mut picture,
        Shape::Frame(rect!(1, 1, 7, 6), shade(Pattern::GRAY, mode)),
    )?;
    push(&mut picture, Shape::HLine(row, shade(Pattern::BLACK, mode)))?;
    push(
        &mut picture,
        Shape::VLine(column, shade(Pattern::GRAY, mode)),
    )?;
    push(&mut picture, Shape::Invert(rect!(3, 3, 20, 5)))?;
    push(&mut picture, Shape::Erase(rect!(-4, 6, 2, 8)))?;
    Ok(picture)
}

/// What the same operations make of a pixel of the map, where a row of the table is the mode.
fn plain_bit(table: [bool; 4], h: i32, v: i32) -> bool {
    let even = v % 2 == 0;
    let gray = even == (h % 2 == 0);
    let light = if even { h % 4 == 0 } else { h % 4 == 2 };
    let mut bit = if even { h % 4 != 0 } else { h % 4 != 2 };
    if h < 6 && 1 <= v {
        bit = put(table, light, bit);
    }
    let in_frame = 1 <= h && h <= 6 && 1 <= v && v <= 5;
    let in_hole = 2 <= h && h <= 5 && 2 <= v && v <= 4;
    if in_frame && !in_hole {
        bit = put(table, gray, bit);
    }
    if v == 3 && h <= 4 {
        bit = put(table, true, bit);
    }
    if h == 5 && v <= 6 {
        bit = put(table, gray, bit);
    }
    if 3 <= h && (v == 3 || v == 4) {
        bit = !bit;
    }
    bit && !(h < 2 && 6 <= v)
}

#[test]
fn operations_go_on_from_white(rt: HostRuntime) -> Result<(), Fail> {
    let alloc = rt.alloc();
    let font = Font::from_bytes(alloc, &SMALL)?;
    for (mode, table) in MODES {
        let mut wanted = Vec::new(alloc);
        let picture = by_mode(alloc, mode)?;
        for v in 0..8 {
            for h in 0..8 {
                let bit = plain_bit(table, h, v);
                wanted.push(if bit { b'1' } else { b'0' })?;
                assert!(rt; picture.bit(&font, Point { h, v }) == bit);
            }
            wanted.push(b' ')?;
        }
        let shown = drawn(alloc, &font, &picture)?;
        assert!(rt; shown.as_slice() == wanted.as_slice());
    }
    Ok(())
}

/// A clipped text and rows of bits.
fn owned(alloc: Global) -> Result<Picture, Refusal> {
    let run = TextRun {
        pen: point!(0, 2),
        mode: TextMode::Or,
        text: ShortText::new(b"AB")?.copy(),
    };
    let rows = RowsOfBits {
        place: point!(0, 2),
        width: 9,
        height: 1,
        mode: Mode::Copy,
        rows: Bytes::new(alloc, &[0x81, 0x80])?,
    };
    let mut picture = Picture::new(alloc);
    picture.push(Op {
        clip: Some(Region::from_rect(alloc, rect!(1, 0, 8, 8))?),
        shape: Shape::Text(run),
    })?;
    push(&mut picture, Shape::Bits(rows))?;
    Ok(picture)
}

#[test]
fn copies_are_pictures_of_their_own(rt: HostRuntime) -> Result<(), Fail> {
    let alloc = rt.alloc();
    let font = Font::from_bytes(alloc, &SMALL)?;
    let mut picture = owned(alloc)?;
    let copy = picture.copy(alloc)?;
    assert!(rt; picture.ops().len() == 2 && copy.ops().len() == 2);
    picture.clear();
    assert!(rt; picture.ops().is_empty());
    let shown = drawn(alloc, &font, &copy)?;
    assert!(rt;
        shows(
            &shown,
            "00010000 01010000 10000001 00000000 00000000 00000000 00000000 00000000 "
        )
    );
    let shown = drawn(alloc, &font, &picture)?;
    assert!(rt;
        shows(
            &shown,
            "00000000 00000000 00000000 00000000 00000000 00000000 00000000 00000000 "
        )
    );
    Ok(())
}

#[test]
fn a_picture_holds_1024_operations(rt: HostRuntime) -> Result<(), Fail> {
    let alloc = rt.alloc();
    let font = Font::from_bytes(alloc, &SMALL)?;
    let mut picture = Picture::new(alloc);
    let one = Op {
        clip: None,
        shape: Shape::Invert(rect!(0, 0, 1, 1)),
    };
    for _ in 0..1023 {
        picture.push(one.copy(alloc)?)?;
    }
    assert!(rt; picture.bit(&font, point!(0, 0)));
    assert!(rt; picture.push(one.copy(alloc)?) == Ok(()));
    assert!(rt; picture.push(one) == Err(Refusal::TooMany));
    assert!(rt; picture.ops().len() == 1024 && !picture.bit(&font, point!(0, 0)));
    Ok(())
}

#[test]
fn a_text_holds_255_characters(rt: HostRuntime) -> Result<(), Fail> {
    let longest = ShortText::new(&[b'A'; 255])?;
    assert!(rt; longest.as_slice().len() == 255);
    assert!(rt; matches!(ShortText::new(&[b'A'; 256]), Err(Refusal::TooLong)));
    let bytes = Bytes::new(rt.alloc(), b"AB")?;
    assert!(rt; bytes.as_slice() == b"AB".as_slice());
    assert!(rt; TextMode::Xor.mode() == Mode::Xor);
    Ok(())
}

/// The cut of what lies in one region and not in another.
fn cut<'a>(second: Option<&'a Region>, outside: Option<&'a Region>) -> Cut<'a> {
    Cut {
        inside: [None, second, None],
        outside,
    }
}

#[test]
fn a_canvas_keeps_to_its_clip_and_its_cut(rt: HostRuntime) -> Result<(), Fail> {
    let alloc = rt.alloc();
    let font = Font::from_bytes(alloc, &SMALL)?;
    let mut map = BitMap::new(alloc, 8, 8)?;
    let left = Region::from_rect(alloc, rect!(0, 0, 5, 8))?;
    let hole = Region::from_rect(alloc, rect!(3, 3, 4, 4))?;
    let cut = cut(Some(&left), Some(&hole));
    assert!(rt; cut.holds(point!(4, 3)) && !cut.holds(point!(3, 3)) && !cut.holds(point!(5, 3)));
    let mut canvas = Canvas {
        map: &mut map,
        clip: rect!(1, 1, 7, 7),
        origin: point!(2, 2),
        cut: &cut,
        font: &font,
    };
    canvas.fill_all(Pattern::BLACK, Mode::Copy);
    canvas.invert(rect!(0, 0, 2, 2));
    canvas.bits(point!(-1, -1), 2, 1, &[0x40], Mode::Copy);
    canvas.fill(rect!(-9, 3, 9, 9), Pattern::GRAY, Mode::Copy);
    canvas.text(b"A", point!(1, 2), Mode::Xor);
    let shown = image_of(alloc, &map)?;
    assert!(rt;
        shows(
            &shown,
            "00000000 00111000 01011000 01000000 01111000 01010000 00101000 00000000 "
        )
    );
    Ok(())
}

#[test]
fn pictures_lie_over_what_stands_there_or_over_white(rt: HostRuntime) -> Result<(), Fail> {
    let alloc = rt.alloc();
    let font = Font::from_bytes(alloc, &SMALL)?;
    let mut map = BitMap::new(alloc, 8, 8)?;
    let picture = owned(alloc)?;
    let mut canvas = Canvas {
        map: &mut map,
        clip: rect!(0, 0, 8, 4),
        origin: point!(-1, 0),
        cut: &NOTHING_CUT,
        font: &font,
    };
    canvas.fill_all(Pattern::GRAY, Mode::Copy);
    canvas.paint_all(&picture);
    let shown = image_of(alloc, &map)?;
    assert!(rt;
        shows(
            &shown,
            "01110101 10101010 00000011 10101010 00000000 00000000 00000000 00000000 "
        )
    );
    Ok(())
}
