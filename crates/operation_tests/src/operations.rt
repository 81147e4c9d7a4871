//! Operations, one after another.

use bit_map::{Mode, Pattern};
use draw_port::{Bytes, Line, Op, Picture, RowsOfBits, Shape, ShortText, TextMode, TextRun};
use scan_region::Region;
use std::alloc::{AllocError, Global};
use std::test::Fail;
use strike_font::Font;
use tb_geom::{Point, Refusal};
use test_pixels::images::{drawn, push, shade, shows};
use test_pixels::small::SMALL;
use test_pixels::{point, rect};

/// The image of two shapes without a clip, the second over the first.
fn one_over_another(alloc: Global, first: Shape, second: Shape) -> Result<Vec<u8>, Refusal> {
    let font = Font::from_bytes(alloc, &SMALL)?;
    let mut picture = Picture::new(alloc);
    push(&mut picture, first)?;
    push(&mut picture, second)?;
    drawn(alloc, &font, &picture)
}

/// The image of one shape over the pattern gray.
fn over_gray(alloc: Global, shape: Shape) -> Result<Vec<u8>, Refusal> {
    let gray = Shape::Fill(rect!(0, 0, 8, 8), shade(Pattern::GRAY, Mode::Copy));
    one_over_another(alloc, gray, shape)
}

/// Whether the image of one shape over the pattern gray has these rows.
fn is_over_gray(alloc: Global, shape: Shape, rows: &str) -> Result<bool, Refusal> {
    Ok(shows(&over_gray(alloc, shape)?, rows))
}

/// Whether the image of two shapes, the second over the first, has these rows.
fn is_one_over_another(
    alloc: Global,
    first: Shape,
    second: Shape,
    rows: &str,
) -> Result<bool, Refusal> {
    Ok(shows(&one_over_another(alloc, first, second)?, rows))
}

/// The image of one shape by this font.
fn image_by(alloc: Global, font: &Font, shape: Shape) -> Result<Vec<u8>, Refusal> {
    let mut picture = Picture::new(alloc);
    push(&mut picture, shape)?;
    drawn(alloc, font, &picture)
}

fn line(h: i32, v: i32, count: u16) -> Line {
    Line {
        start: point!(h, v),
        count,
    }
}

fn text(text: &[u8], pen: Point, mode: TextMode) -> Result<Shape, Refusal> {
    let text = ShortText::new(text)?;
    Ok(Shape::Text(TextRun { pen, mode, text }))
}

fn bits(
    alloc: Global,
    place: Point,
    width: u16,
    height: u16,
    mode: Mode,
    rows: &[u8],
) -> Result<Shape, AllocError> {
    let rows = Bytes::new(alloc, rows)?;
    Ok(Shape::Bits(RowsOfBits {
        place,
        width,
        height,
        mode,
        rows,
    }))
}

#[test]
fn rectangles(rt: HostRuntime) -> Result<(), Fail> {
    let alloc = rt.alloc();
    assert!(rt;
        is_over_gray(
            alloc,
            Shape::Erase(rect!(2, 1, 5, 3)),
            "10101010 01000101 10000010 01010101 10101010 01010101 10101010 01010101 "
        )?
    );
    assert!(rt;
        is_over_gray(
            alloc,
            Shape::Invert(rect!(2, 1, 5, 3)),
            "10101010 01101101 10010010 01010101 10101010 01010101 10101010 01010101 "
        )?
    );
    let light = shade(Pattern::LIGHT_GRAY, Mode::Copy);
    assert!(rt;
        is_over_gray(
            alloc,
            Shape::Fill(rect!(2, 1, 5, 3), light),
            "10101010 01100101 10001010 01010101 10101010 01010101 10101010 01010101 "
        )?
    );
    let black = shade(Pattern::BLACK, Mode::Xor);
    assert!(rt;
        is_over_gray(
            alloc,
            Shape::Frame(rect!(1, 2, 6, 6), black),
            "10101010 01010101 11010110 00010001 11101110 00101001 10101010 01010101 "
        )?
    );
    Ok(())
}

#[test]
fn lines(rt: HostRuntime) -> Result<(), Fail> {
    let alloc = rt.alloc();
    let row = Shape::HLine(line(3, 4, 3), shade(Pattern::BLACK, Mode::Bic));
    assert!(rt;
        is_over_gray(
            alloc,
            row,
            "10101010 01010101 10101010 01010101 10100010 01010101 10101010 01010101 "
        )?
    );
    let column = Shape::VLine(line(4, 3, 9), shade(Pattern::BLACK, Mode::Or));
    assert!(rt;
        is_over_gray(
            alloc,
            column,
            "10101010 01010101 10101010 01011101 10101010 01011101 10101010 01011101 "
        )?
    );
    Ok(())
}

#[test]
fn images_and_regions(rt: HostRuntime) -> Result<(), Fail> {
    let alloc = rt.alloc();
    let image = bits(alloc, point!(5, 6), 3, 2, Mode::Copy, &[0xA0, 0x40])?;
    assert!(rt;
        is_over_gray(
            alloc,
            image,
            "10101010 01010101 10101010 01010101 10101010 01010101 10101101 01010010 "
        )?
    );
    let region = Region::from_rect(alloc, rect!(0, 0, 3, 2))?;
    let region = region.union(alloc, &Region::from_rect(alloc, rect!(6, 1, 9, 3))?)?;
    let region = Shape::FillRgn(region, shade(Pattern::WHITE, Mode::NotCopy));
    assert!(rt;
        is_over_gray(
            alloc,
            region,
            "11101010 11110111 10101011 01010101 10101010 01010101 10101010 01010101 "
        )?
    );
    Ok(())
}

#[test]
fn texts(rt: HostRuntime) -> Result<(), Fail> {
    let alloc = rt.alloc();
    assert!(rt;
        is_over_gray(
            alloc,
            text(b"A", point!(1, 3), TextMode::Xor)?,
            "10101010 00010101 10001010 01010101 10101010 01010101 10101010 01010101 "
        )?
    );
    assert!(rt;
        is_over_gray(
            alloc,
            text(b"A", point!(0, 2), TextMode::Bic)?,
            "00101010 00010101 10101010 01010101 10101010 01010101 10101010 01010101 "
        )?
    );
    let font = Font::from_bytes(alloc, &SMALL)?;
    let both = image_by(alloc, &font, text(b"AB", point!(0, 2), TextMode::Or)?)?;
    assert!(rt;
        shows(
            &both,
            "10010000 01010000 00000000 00000000 00000000 00000000 00000000 00000000 "
        )
    );
    Ok(())
}

#[test]
fn the_built_in_font(rt: HostRuntime) -> Result<(), Fail> {
    let alloc = rt.alloc();
    let font = Font::built_in(alloc)?;
    let letter = image_by(alloc, &font, text(b"A", point!(1, 7), TextMode::Or)?)?;
    assert!(rt;
        shows(
            &letter,
            "00010000 00101000 01000100 01000100 01111100 01000100 01000100 00000000 "
        )
    );
    Ok(())
}

/// The small font with an A of 3 columns that moves the pen by 1.
fn overlapping(alloc: Global) -> Result<Font, Refusal> {
    let mut record = SMALL;
    record[26] = 0xE0;
    record[33] = 3;
    record[37] = 1;
    Font::from_bytes(alloc, &record)
}

#[test]
fn what_several_glyphs_have_is_inverted_once(rt: HostRuntime) -> Result<(), Fail> {
    let alloc = rt.alloc();
    let font = overlapping(alloc)?;
    let shown = image_by(alloc, &font, text(b"AA", point!(1, 3), TextMode::Xor)?)?;
    assert!(rt;
        shows(
            &shown,
            "00000000 01111000 00111000 00000000 00000000 00000000 00000000 00000000 "
        )
    );
    Ok(())
}

#[test]
fn clips_are_kept(rt: HostRuntime) -> Result<(), Fail> {
    let alloc = rt.alloc();
    let font = Font::from_bytes(alloc, &SMALL)?;
    let mut picture = Picture::new(alloc);
    let gray = shade(Pattern::GRAY, Mode::Copy);
    let black = shade(Pattern::BLACK, Mode::Xor);
    let image = bits(alloc, point!(2, 1), 3, 2, Mode::NotCopy, &[0xA0, 0x40])?;
    push(&mut picture, Shape::Fill(rect!(0, 0, 8, 2), gray))?;
    push(&mut picture, Shape::Fill(rect!(0, 0, 4, 2), black))?;
    push(&mut picture, image)?;
    picture.push(Op {
        clip: Some(Region::from_rect(alloc, rect!(6, 0, 8, 2))?),
        shape: Shape::Frame(rect!(5, 0, 8, 4), shade(Pattern::BLACK, Mode::Or)),
    })?;
    let shown = drawn(alloc, &font, &picture)?;
    assert!(rt;
        shows(
            &shown,
            "01011011 10010101 00101000 00000000 00000000 00000000 00000000 00000000 "
        )
    );
    picture.clear();
    picture.push(Op {
        clip: Some(Region::from_rect(alloc, rect!(1, 0, 8, 8))?),
        shape: text(b"AB", point!(0, 2), TextMode::Or)?,
    })?;
    let shown = drawn(alloc, &font, &picture)?;
    assert!(rt;
        shows(
            &shown,
            "00010000 01010000 00000000 00000000 00000000 00000000 00000000 00000000 "
        )
    );
    Ok(())
}

#[test]
fn the_last_operation_is_drawn_last(rt: HostRuntime) -> Result<(), Fail> {
    let alloc = rt.alloc();
    let (left, all) = (rect!(0, 0, 4, 8), rect!(0, 0, 8, 8));
    assert!(rt;
        is_one_over_another(
            alloc,
            Shape::Erase(left),
            Shape::Invert(all),
            "11111111 11111111 11111111 11111111 11111111 11111111 11111111 11111111 "
        )?
    );
    assert!(rt;
        is_one_over_another(
            alloc,
            Shape::Invert(all),
            Shape::Erase(left),
            "00001111 00001111 00001111 00001111 00001111 00001111 00001111 00001111 "
        )?
    );
    Ok(())
}
