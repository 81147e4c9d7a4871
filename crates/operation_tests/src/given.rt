//! Operations as calls carry them.

use bit_map::{Mode, Pattern};
use draw_port::{Picture, TextMode};
use lent_ops::{BitsRef, CornerRef, FormRef, LineRef, OpRef, PenRef, ShapeRef, TextRef};
use std::test::Fail;
use strike_font::Font;
use tb_geom::{BytesRef, Rect, Refusal};
use test_pixels::images::{drawn, shade, shows};
use test_pixels::small::SMALL;
use test_pixels::{point, rect};

/// The bytes of the rectangle with left 6, top 0, right 8 and bottom 2.
const CORNER: [u8; 10] = [0, 10, 0, 0, 0, 6, 0, 2, 0, 8];

/// The same with the right side 20000.
const FAR: [u8; 10] = [0, 10, 0, 0, 0, 6, 0, 2, 0x4E, 0x20];

fn bits(width: i32, height: i32, rows: &[u8]) -> ShapeRef<'_> {
    ShapeRef::Bits(BitsRef {
        place: point!(5, 0),
        width,
        height,
        mode: Mode::NotCopy,
        rows: BytesRef::new(rows),
    })
}

fn text(text: &[u8]) -> ShapeRef<'_> {
    ShapeRef::Text(TextRef {
        pen: point!(0, 2),
        mode: TextMode::Or,
        text: BytesRef::new(text),
    })
}

/// A line to the right from the last row and column of all.
fn line(count: i32) -> ShapeRef<'static> {
    let start = point!(16383, 16383);
    ShapeRef::HLine(LineRef { start, count }, shade(Pattern::BLACK, Mode::Copy))
}

/// Why an operation with these bytes of a clip is refused.
fn refusal(clip: Option<&[u8]>, shape: ShapeRef) -> Option<Refusal> {
    let clip = match clip {
        None => None,
        Some(bytes) => Some(BytesRef::new(bytes)),
    };
    OpRef { clip, shape }.judge().err()
}

#[test]
fn the_first_reason_is_given(rt: HostRuntime) {
    let wide = [0; 33];
    let long = [b'A'; 256];
    assert!(rt; refusal(Some(&[1]), bits(3, 2, &[0xA0])) == Some(Refusal::BadSyntax));
    assert!(rt; refusal(None, bits(0, 2, &[])) == Some(Refusal::BadSyntax));
    assert!(rt; refusal(None, bits(i32::MAX, i32::MAX, &[])) == Some(Refusal::BadSyntax));
    assert!(rt; refusal(Some(&[1]), bits(257, 1, &wide)) == Some(Refusal::BadRegion));
    assert!(rt; refusal(Some(&FAR), text(&long)) == Some(Refusal::OutOfRange));
    assert!(rt; refusal(None, bits(257, 1, &wide)) == Some(Refusal::OutOfRange));
    assert!(rt; refusal(None, line(1025)) == Some(Refusal::OutOfRange));
    assert!(rt; refusal(None, line(-1)) == Some(Refusal::OutOfRange));
    assert!(rt; refusal(None, line(1024)) == None);
    assert!(rt; refusal(None, ShapeRef::Erase(rect!(0, 0, 1, 16384))) == Some(Refusal::OutOfRange));
    assert!(rt; refusal(None, ShapeRef::Erase(rect!(5, 5, -16384, 1))) == None);
    assert!(rt; refusal(Some(&CORNER), text(&long)) == Some(Refusal::TooLong));
    assert!(rt; refusal(Some(&CORNER), text(&long[1..])) == None);
    let region = ShapeRef::FillRgn(BytesRef::new(&FAR), shade(Pattern::BLACK, Mode::Copy));
    assert!(rt; refusal(Some(&[1]), region) == Some(Refusal::BadRegion));
}

#[test]
fn given_operations_are_drawn(rt: HostRuntime) -> Result<(), Fail> {
    let alloc = rt.alloc();
    let font = Font::from_bytes(alloc, &SMALL)?;
    let mut picture = Picture::new(alloc);
    let image = OpRef {
        clip: Some(BytesRef::new(&CORNER)),
        shape: bits(3, 2, &[0xA0, 0x40]),
    };
    picture.push(image.to_op(alloc)?)?;
    let letters = OpRef {
        clip: None,
        shape: text(b"AB"),
    };
    picture.push(letters.to_op(alloc)?)?;
    let corner = OpRef {
        clip: None,
        shape: ShapeRef::FillRgn(BytesRef::new(&CORNER), shade(Pattern::BLACK, Mode::Xor)),
    };
    picture.push(corner.to_op(alloc)?)?;
    let shown = drawn(alloc, &font, &picture)?;
    assert!(rt;
        shows(
            &shown,
            "10010001 01010010 00000000 00000000 00000000 00000000 00000000 00000000 "
        )
    );
    Ok(())
}

/// A form that is filled.
fn filled(form: FormRef<'_>) -> ShapeRef<'_> {
    ShapeRef::Form(form, shade(Pattern::BLACK, Mode::Xor))
}

/// The sides of most forms.
const EIGHT: Rect = rect!(0, 0, 8, 8);

/// Why a round rectangle with this corner is refused.
fn corner_refusal(width: i32, height: i32) -> Option<Refusal> {
    let corner = CornerRef { width, height };
    refusal(None, filled(FormRef::Round(EIGHT, corner)))
}

/// Why the frame of an oval by this pen is refused.
fn pen_refusal(width: i32, height: i32) -> Option<Refusal> {
    let pen = PenRef { width, height };
    refusal(None, filled(FormRef::FrameOval(EIGHT, pen)))
}

#[test]
fn forms_are_refused_out_of_range(rt: HostRuntime) {
    let far = rect!(0, 0, 16384, 1);
    let out = Some(Refusal::OutOfRange);
    assert!(rt; refusal(None, filled(FormRef::Oval(EIGHT))) == None);
    assert!(rt; refusal(None, filled(FormRef::Oval(far))) == out);
    assert!(rt; refusal(None, filled(FormRef::Rect(far))) == out);
    assert!(rt; corner_refusal(0, 32767) == None);
    assert!(rt; corner_refusal(-1, 0) == out);
    assert!(rt; corner_refusal(0, -1) == out);
    assert!(rt; corner_refusal(32768, 1) == out);
    assert!(rt; corner_refusal(1, 32768) == out);
    assert!(rt; pen_refusal(1024, 0) == None);
    assert!(rt; pen_refusal(1025, 1) == out);
    assert!(rt; pen_refusal(1, 1025) == out);
    assert!(rt; pen_refusal(-1, 1) == out);
    assert!(rt; pen_refusal(1, -1) == out);
    assert!(rt; refusal(Some(&[1]), filled(FormRef::Oval(far))) == Some(Refusal::BadRegion));
}

/// Why a polygon of these bytes is refused.
fn polygon_refusal(bytes: &[u8]) -> Option<Refusal> {
    refusal(None, filled(FormRef::Polygon(BytesRef::new(bytes))))
}

#[test]
fn polygons_have_1024_points_at_most(rt: HostRuntime) {
    let mut bytes = [0; 4100];
    assert!(rt; polygon_refusal(&bytes[..4096]) == None);
    assert!(rt; polygon_refusal(&bytes[..4095]) == Some(Refusal::BadSyntax));
    assert!(rt; polygon_refusal(&bytes[..4099]) == Some(Refusal::BadSyntax));
    assert!(rt; polygon_refusal(&bytes) == Some(Refusal::TooLong));
    bytes[4098] = 0x40;
    assert!(rt; polygon_refusal(&bytes) == Some(Refusal::OutOfRange));
}

/// A triangle: the points 0 0, 8 0 and 0 8.
const TRIANGLE: [u8; 12] = [0, 0, 0, 0, 0, 0, 0, 8, 0, 8, 0, 0];

#[test]
fn polygons_are_drawn(rt: HostRuntime) -> Result<(), Fail> {
    let alloc = rt.alloc();
    let font = Font::from_bytes(alloc, &SMALL)?;
    let mut picture = Picture::new(alloc);
    let triangle = OpRef {
        clip: None,
        shape: filled(FormRef::Polygon(BytesRef::new(&TRIANGLE))),
    };
    picture.push(triangle.to_op(alloc)?)?;
    let shown = drawn(alloc, &font, &picture)?;
    assert!(rt;
        shows(
            &shown,
            "11111110 11111100 11111000 11110000 11100000 11000000 10000000 00000000 "
        )
    );
    Ok(())
}

#[test]
fn forms_are_drawn(rt: HostRuntime) -> Result<(), Fail> {
    let alloc = rt.alloc();
    let font = Font::from_bytes(alloc, &SMALL)?;
    let mut picture = Picture::new(alloc);
    let corner = CornerRef {
        width: 5,
        height: 5,
    };
    let pen = PenRef {
        width: 2,
        height: 1,
    };
    let frame = OpRef {
        clip: None,
        shape: filled(FormRef::FrameRound(EIGHT, corner, pen)),
    };
    picture.push(frame.to_op(alloc)?)?;
    let shown = drawn(alloc, &font, &picture)?;
    assert!(rt;
        shows(
            &shown,
            "01111110 11000011 11000011 11000011 11000011 11000011 11000011 01111110 "
        )
    );
    let round = OpRef {
        clip: None,
        shape: filled(FormRef::Round(EIGHT, corner)),
    };
    picture.push(round.to_op(alloc)?)?;
    let shown = drawn(alloc, &font, &picture)?;
    assert!(rt;
        shows(
            &shown,
            "00000000 00111100 00111100 00111100 00111100 00111100 00111100 00000000 "
        )
    );
    Ok(())
}
