//! Lines that ask for the region of a form, and lines that draw one.

use command_words::{Verb, verb_of};
use desk_call::WindowCall;
use lent_ops::{CornerRef, FormRef, PenRef, RegionRef, ShapeRef};
use line_words::Words;
use tb_geom::{BytesRef, Rect, Refusal};

/// What a line of at most 100 bytes asks about windows in a script of this version, which is read from the room. NoSuchName
/// where its first word is no verb for windows.
fn asked<'a>(
    version: i32,
    room: &'a mut [u8; 100],
    line: &[u8],
) -> Result<WindowCall<'a>, Refusal> {
    let Some(bytes) = room.get_mut(..line.len()) else {
        return Err(Refusal::TooLong);
    };
    bytes.copy_from_slice(line);
    let (word, words) = Words::new(bytes).word()?;
    match verb_of(version, word.as_slice()) {
        Some(Verb::Window(verb)) => verb.call(version, words),
        _ => Err(Refusal::NoSuchName),
    }
}

/// No corner, and no pen.
const NONE: [i32; 2] = [0, 0];

/// A letter for a form, the sides of its rectangle, those of its corner or its degrees, and the sides of its pen.
fn numbers(form: &FormRef) -> (u8, Rect, [i32; 2], [i32; 2]) {
    let of_corner = |corner: &CornerRef| [corner.width, corner.height];
    let of_pen = |pen: &PenRef| [pen.width, pen.height];
    match form {
        FormRef::Rect(rect) => (b'r', *rect, NONE, NONE),
        FormRef::Round(rect, corner) => (b'c', *rect, of_corner(corner), NONE),
        FormRef::Oval(rect) => (b'o', *rect, NONE, NONE),
        FormRef::FrameRect(rect, pen) => (b'R', *rect, NONE, of_pen(pen)),
        FormRef::FrameRound(rect, corner, pen) => (b'C', *rect, of_corner(corner), of_pen(pen)),
        FormRef::FrameOval(rect, pen) => (b'O', *rect, NONE, of_pen(pen)),
        FormRef::Arc(rect, angles) => (b'a', *rect, [angles.start, angles.angle], NONE),
        FormRef::FrameArc(rect, angles, pen) => {
            (b'A', *rect, [angles.start, angles.angle], of_pen(pen))
        }
        FormRef::Line(from, to, pen) => {
            let ends = Rect {
                left: from.h,
                top: from.v,
                right: to.h,
                bottom: to.v,
            };
            (b'l', ends, NONE, of_pen(pen))
        }
        FormRef::Polygon(bytes) => (b'p', box_of(bytes), NONE, NONE),
        FormRef::FramePolygon(bytes, pen) => (b'P', box_of(bytes), NONE, of_pen(pen)),
    }
}

/// The first four bytes of some.
fn box_of(bytes: &BytesRef) -> Rect {
    let at = |place: usize| bytes
        .as_slice()
        .get(place)
        .map_or(-1, |byte| i32::from(*byte));
    Rect {
        left: at(0),
        top: at(1),
        right: at(2),
        bottom: at(3),
    }
}

/// The form whose region a line asks for, or the form that it draws, in a script of this version.
fn form_of(version: i32, line: &[u8]) -> Option<(u8, Rect, [i32; 2], [i32; 2])> {
    match asked(version, &mut [0; 100], line).ok()? {
        WindowCall::Region(RegionRef::Form(form)) => Some(numbers(&form)),
        WindowCall::Draw(drawing) => match drawing.operation.shape {
            ShapeRef::Form(form, _) => Some(numbers(&form)),
            _ => None,
        },
        _ => None,
    }
}

/// The rectangle of each line.
const SIDES: Rect = Rect {
    left: -1,
    top: 2,
    right: 300,
    bottom: -99999,
};

#[test]
fn numbers_of_forms_are_judged_by_nobody(rt: HostRuntime) {
    let lines: [(&[u8], u8, [i32; 2], [i32; 2]); 7] = [
        (b"region rect -1 2 300 -99999", b'r', NONE, NONE),
        (b"region round -1 2 300 -99999 -5 6", b'c', [-5, 6], NONE),
        (b"region oval -1 2 300 -99999", b'o', NONE, NONE),
        (b"region frect -1 2 300 -99999 7 -8", b'R', NONE, [7, -8]),
        (
            b"region fround -1 2 300 -99999 5 6 7 8",
            b'C',
            [5, 6],
            [7, 8],
        ),
        (b"region foval -1 2 300 -99999 7 8", b'O', NONE, [7, 8]),
        (b"region line -1 2 300 -99999 7 8", b'l', NONE, [7, 8]),
    ];
    for (line, letter, corner, pen) in lines {
        assert!(rt; form_of(3, line) == Some((letter, SIDES, corner, pen)));
        assert!(rt; asked(2, &mut [0; 100], line).err() == Some(Refusal::NoSuchName));
    }
}

#[test]
fn bytes_of_polygons_are_lent_as_they_stand(rt: HostRuntime) {
    let sides = Rect {
        left: 1,
        top: 2,
        right: 254,
        bottom: 255,
    };
    let lines: [(&[u8], u8, [i32; 2]); 3] = [
        (b"region poly 0102FEFF", b'p', NONE),
        (b"region fpoly 0102FEff00000000 7 -8", b'P', [7, -8]),
        (b"draw 1 fpoly 0102feFF 7 8 patCopy black", b'P', [7, 8]),
    ];
    for (line, letter, pen) in lines {
        assert!(rt; form_of(3, line) == Some((letter, sides, NONE, pen)));
    }
    let uneven: [&[u8]; 3] = [
        b"region poly 0102FE",
        b"region fpoly 0102 1 1",
        b"draw 1 poly 01 nomode black",
    ];
    for line in uneven {
        assert!(rt; asked(3, &mut [0; 100], line).err() == Some(Refusal::BadSyntax));
    }
}

#[test]
fn forms_are_drawn_from_version_3_on(rt: HostRuntime) {
    let line = b"draw 1 foval -1 2 300 -99999 7 8 patXor gray";
    assert!(rt; form_of(3, line) == Some((b'O', SIDES, NONE, [7, 8])));
    let clipped = b"draw 1 clip 000A round -1 2 300 -99999 5 6 patCopy black";
    assert!(rt; form_of(3, clipped) == Some((b'c', SIDES, [5, 6], NONE)));
    let unnamed = b"draw 1 oval 0 0 8 8 nomode black";
    assert!(rt; asked(3, &mut [0; 100], unnamed).err() == Some(Refusal::NoSuchName));
    for older in [line.as_slice(), clipped.as_slice(), unnamed.as_slice()] {
        assert!(rt; asked(1, &mut [0; 100], older).err() == Some(Refusal::BadSyntax));
        assert!(rt; asked(2, &mut [0; 100], older).err() == Some(Refusal::BadSyntax));
    }
}

#[test]
fn floating_windows_are_of_version_2(rt: HostRuntime) {
    let line = b"float plain 3 3 2 2 1 0 \"\"";
    let mut room = [0; 100];
    assert!(rt; asked(1, &mut room, line).err() == Some(Refusal::NoSuchName));
    assert!(rt; matches!(asked(2, &mut room, line), Ok(WindowCall::NewFloating(_))));
    assert!(rt; matches!(asked(3, &mut room, line), Ok(WindowCall::NewFloating(_))));
}
