//! The pixels of texts, by pictures.
ghost use Rattle.std.specs.Prelude.{◌≤◌, length};

use std::alloc::{AllocError, Global};
use std::test::Fail;
use strike_font::{Font, Glyph};
use tb_geom::{Point, Rect};
use test_pixels::point;
use test_pixels::small::{SMALL, with_word};

/// The pixels of the sides, row by row, with a newline after each row: 1 where the text has the pixel, and 0 elsewhere.
fn picture(
    alloc: Global,
    font: &Font,
    text: &[u8],
    pen: Point,
    sides: Rect,
) -> Result<Vec<u8>, AllocError>
    requires { length text.now ≤ 65535 }
{
    let mut rows = Vec::new(alloc);
    for v in sides.top..sides.bottom {
        for h in sides.left..sides.right {
            let has = font.text_pixel(text, pen, Point { h, v });
            rows.push(if has { b'1' } else { b'0' })?;
        }
        rows.push(b'\n')?;
    }
    Ok(rows)
}

/// The rectangle from 0 0 on with so many columns and rows.
fn from_zero(right: i32, bottom: i32) -> Rect {
    Rect {
        left: 0,
        top: 0,
        right,
        bottom,
    }
}

/// The text `AB` in the small font, which lacks B, with the pen at 0 2.
const LACKING: &[u8] = b"100100\n010100\n000000\n";

#[test]
fn a_missing_character_is_drawn(rt: HostRuntime) -> Result<(), Fail> {
    let font = Font::from_bytes(rt.alloc(), &SMALL)?;
    let shown = picture(rt.alloc(), &font, b"AB", point!(0, 2), from_zero(6, 3))?;
    assert!(rt; shown.as_slice() == LACKING);
    assert!(rt; font.ascent() == 2 && font.descent() == 0 && font.width(b"AB") == 5);
    Ok(())
}

/// A glyph of the small font, by its first column, its columns and its width.
fn glyph(first: u16, columns: u16, width: u8) -> Glyph {
    Glyph {
        first,
        columns,
        offset: 0,
        width,
    }
}

#[test]
fn glyphs_of_the_small_font(rt: HostRuntime) -> Result<(), Fail> {
    let font = Font::from_bytes(rt.alloc(), &SMALL)?;
    let own = font.glyph(b'A');
    assert!(rt; own == glyph(0, 2, 3));
    assert!(rt; font.glyph(b'@') == glyph(2, 1, 2) && font.glyph(b'B') == glyph(2, 1, 2));
    assert!(rt; font.glyph_pixel(own, 1, -1) && !font.glyph_pixel(own, 2, -2));
    Ok(())
}

/// The text `BAB` with the pen at 2 2, where kernMax is -2, and A has the offset 1 and the width 0.
const MOVED: &[u8] = b"10110\n10101\n00000\n";

#[test]
fn kerning_and_offsets_move_glyphs(rt: HostRuntime) -> Result<(), Fail> {
    let record = with_word(with_word(SMALL, 4, 0xFFFE), 18, 0x0100);
    let font = Font::from_bytes(rt.alloc(), &record)?;
    let shown = picture(rt.alloc(), &font, b"BAB", point!(2, 2), from_zero(5, 3))?;
    assert!(rt; shown.as_slice() == MOVED);
    Ok(())
}

/// Where the pen starts, and a point that the text A has then.
const FAR: [(Point, Point); 4] = [
    (point!(i32::MAX, i32::MAX), point!(i32::MAX, i32::MAX - 2)),
    (
        point!(i32::MAX - 1, i32::MAX),
        point!(i32::MAX, i32::MAX - 1),
    ),
    (point!(i32::MIN, i32::MIN + 2), point!(i32::MIN, i32::MIN)),
    (point!(i32::MIN, 0), point!(i32::MIN + 1, -1)),
];

#[test]
fn pens_at_the_ends_of_the_plane(rt: HostRuntime) -> Result<(), Fail> {
    let font = Font::from_bytes(rt.alloc(), &SMALL)?;
    for (pen, has) in FAR {
        assert!(rt; font.text_pixel(b"A", pen, has));
        assert!(rt; !font.text_pixel(b"A", has, pen));
    }
    Ok(())
}

/// The letter A of the built-in font, with the pen at 1 7.
const LETTER: &[u8] =
    b"00010000\n00101000\n01000100\n01000100\n01111100\n01000100\n01000100\n00000000\n";

/// The text `Hgy~!` in the built-in font, with the pen at 0 7.
const WORD: &[u8] = b"\
100010000000000000010000001000
100010000000000000101010001000
100010011100100010000100001000
111110100110100010000000001000
100010100110011110000000001000
100010011010000010000000000000
100010000010100010000000001000
000000011100011100000000000000
";

/// A space, three characters that the built-in font lacks, and a zero.
const LACKED: &[u8] = b"\
000000111110111110111110011100
000000100010100010100010100010
000000100010100010100010100110
000000100010100010100010101010
000000100010100010100010110010
000000100010100010100010100010
000000111110111110111110011100
000000000000000000000000000000
";

#[test]
fn the_built_in_font(rt: HostRuntime) -> Result<(), Fail> {
    let font = Font::built_in(rt.alloc())?;
    let letter = picture(rt.alloc(), &font, b"A", point!(1, 7), from_zero(8, 8))?;
    assert!(rt; letter.as_slice() == LETTER);
    let word = picture(rt.alloc(), &font, b"Hgy~!", point!(0, 7), from_zero(30, 8))?;
    assert!(rt; word.as_slice() == WORD);
    let lacked = picture(
        rt.alloc(),
        &font,
        b" \x7F\x1F\xFF0",
        point!(0, 7),
        from_zero(30, 8),
    )?;
    assert!(rt; lacked.as_slice() == LACKED);
    assert!(rt; font.ascent() == 7 && font.descent() == 1 && font.width(b"Hgy~!") == 30);
    Ok(())
}

#[test]
fn the_box_of_a_glyph(rt: HostRuntime) -> Result<(), Fail> {
    let record = with_word(with_word(SMALL, 4, 0xFFFE), 18, 0x0103);
    let font = Font::from_bytes(rt.alloc(), &record)?;
    assert!(rt; font.height() == 2 && font.kern() == -2);
    let sides = Rect {
        left: 9,
        top: -2,
        right: 11,
        bottom: 0,
    };
    assert!(rt; font.glyph_rect(font.glyph(b'A'), 10) == sides);
    assert!(rt;
        font.text_bit(b"AA", -1, -2) && !font.text_bit(b"AA", -2, -2) && font.text_bit(b"AA", 3, -1)
    );
    Ok(())
}

#[test]
fn a_tile_of_a_text(rt: HostRuntime) -> Result<(), Fail> {
    let record = with_word(with_word(SMALL, 4, 0xFFFE), 18, 0x0103);
    let font = Font::from_bytes(rt.alloc(), &record)?;
    let tile = font.tile(b"AA", -2, -2);
    assert!(rt; !tile.bit(0, 0) && tile.bit(1, 0) && tile.bit(5, 1) && !tile.bit(1, -1));
    assert!(rt; tile.word(1, 0) / 2_u64.pow(63) == 1 && tile.word(-62, 0) % 2 == 1);
    assert!(rt; tile.word(0, 16) == 0 && tile.word(512, 0) == 0);
    let (same, reach) = font.tile_and_reach(b"AA", -2, -2);
    assert!(rt; same.word(0, 0) == tile.word(0, 0) && !font.text_bit(b"AA", i64::from(reach), -1));
    let around = font.text_rect(b"AA");
    assert!(rt; around.contains(Point { h: -1, v: -2 }) && around.contains(Point { h: 3, v: -1 }));
    Ok(())
}
