//! Region bytes read in place, against a reader that counts inversion points.
use region_bytes::{Form, RegionBytes};
use std::alloc::{AllocError, Global};
use std::test::Fail;
use tb_geom::{Point, Rect, Refusal};
use test_pixels::pixels::{Pixels, are_alike, mark, picture};

/// The rectangle l2 t1 r5 b4.
const RECTANGLE: &[u8] = &[0, 0x0A, 0, 1, 0, 2, 0, 4, 0, 5];

const CORNER: Rect = Rect {
    left: 2,
    top: 1,
    right: 5,
    bottom: 4,
};

const NOTHING: Rect = Rect {
    left: 0,
    top: 0,
    right: 0,
    bottom: 0,
};

const EMPTY: &[u8] = &[0, 0x0A, 0, 0, 0, 0, 0, 0, 0, 0];

/// The rectangles l0 t0 r2 b2 and l0 t2 r4 b4.
const STEP: [u8; 36] = [
    0, 0x24, 0, 0, 0, 0, 0, 4, 0, 4, 0, 0, 0, 0, 0, 2, 0x7F, 0xFF, 0, 2, 0, 2, 0, 4, 0x7F, 0xFF, 0,
    4, 0, 0, 0, 4, 0x7F, 0xFF, 0x7F, 0xFF,
];

/// The rectangle l-1 t0 r5 b6 without l1 t2 r3 b4.
const RING: &[u8] = &[
    0, 0x2C, 0, 0, 0xFF, 0xFF, 0, 6, 0, 5, 0, 0, 0xFF, 0xFF, 0, 5, 0x7F, 0xFF, 0, 2, 0, 1, 0, 3,
    0x7F, 0xFF, 0, 4, 0, 1, 0, 3, 0x7F, 0xFF, 0, 6, 0xFF, 0xFF, 0, 5, 0x7F, 0xFF, 0x7F, 0xFF,
];

/// The pixels that tests look at.
const FIELD: Rect = Rect {
    left: -2,
    top: -1,
    right: 7,
    bottom: 7,
};

/// The pixels of a region, by its own answers.
#[derive(Drop)]
struct Own<'a>(RegionBytes<'a>);

impl Pixels for Own<'_> {
    fn byte(&self, point: Point) -> u8 {
        mark(self.0.contains(point))
    }
}

/// The word of this number, 0 where there is none.
fn word(bytes: &[u8], number: usize) -> i32 {
    let [high, low] = match bytes.chunks(2).nth(number) {
        Some([high, low]) => [*high, *low],
        _ => [0, 0],
    };
    i32::from(i16::from_be_bytes([high, low]))
}

/// Whether a region has a pixel: where nothing follows its box, whether that has it, and else whether
/// an odd number of points lie at the pixel, above it, left of it or both.
fn counted(bytes: &[u8], point: Point) -> bool {
    if bytes.len() == 10 {
        let across = word(bytes, 2) <= point.h && point.h < word(bytes, 4);
        return across && word(bytes, 1) <= point.v && point.v < word(bytes, 3);
    }
    let mut odd = false;
    let mut row = None;
    for number in 5..bytes.len() / 2 {
        let next = word(bytes, number);
        row = match row {
            None => Some(next),
            Some(_) if next == 32767 => None,
            Some(v) => {
                odd ^= next <= point.h && v <= point.v;
                Some(v)
            }
        };
    }
    odd
}

/// The pixels of a region's bytes, by that reader.
#[derive(Drop)]
struct SlowReader<'a>(&'a [u8]);

impl Pixels for SlowReader<'_> {
    fn byte(&self, point: Point) -> u8 {
        mark(counted(self.0, point))
    }
}

/// Whether the bytes are a region with this picture, by the region's own answer and by the other reader.
fn shows(alloc: Global, bytes: &[u8], wanted: &[u8]) -> Result<bool, AllocError> {
    let Ok(region) = RegionBytes::read(bytes) else {
        return Ok(false);
    };
    let pixels = picture(alloc, &Own(region), FIELD)?;
    let slow = picture(alloc, &SlowReader(bytes), FIELD)?;
    Ok(pixels.as_slice() == wanted && slow.as_slice() == wanted)
}

#[test]
fn regions_show_their_pixels(rt: HostRuntime) -> Result<(), Fail> {
    let none =
        b".........\n.........\n.........\n.........\n.........\n.........\n.........\n.........\n";
    let rectangle =
        b".........\n.........\n....###..\n....###..\n....###..\n.........\n.........\n.........\n";
    let step =
        b".........\n..##.....\n..##.....\n..####...\n..####...\n.........\n.........\n.........\n";
    let ring =
        b".........\n.######..\n.######..\n.##..##..\n.##..##..\n.######..\n.######..\n.........\n";
    assert!(rt; shows(rt.alloc(), EMPTY, none)?);
    assert!(rt; shows(rt.alloc(), RECTANGLE, rectangle)?);
    assert!(rt; shows(rt.alloc(), &STEP, step)?);
    assert!(rt; shows(rt.alloc(), RING, ring)?);
    Ok(())
}

/// Bytes that are refused, and why.
const REFUSED: &[(&[u8], Refusal)] = &[
    // the rectangle l0 t0 r2 b2 in the form of rows
    (
        &[
            0, 0x1C, 0, 0, 0, 0, 0, 2, 0, 2, 0, 0, 0, 0, 0, 2, 0x7F, 0xFF, 0, 2, 0, 0, 0, 2, 0x7F,
            0xFF, 0x7F, 0xFF,
        ],
        Refusal::BadRegion,
    ),
    // no pixel in the form of rows
    (
        &[0, 0x0C, 0, 0, 0, 0, 0, 0, 0, 0, 0x7F, 0xFF],
        Refusal::BadRegion,
    ),
    // a box without pixels that is not 0 0 0 0
    (&[0, 0x0A, 0, 1, 0, 1, 0, 1, 0, 1], Refusal::BadRegion),
    (&[0, 0x0A, 0, 0, 0, 0, 0, 0, 0, 1], Refusal::BadRegion),
    // one row, which has pixels in each row below it
    (
        &[
            0, 0x14, 0, 0, 0, 0, 0, 0, 0, 2, 0, 0, 0, 0, 0, 2, 0x7F, 0xFF, 0x7F, 0xFF,
        ],
        Refusal::BadRegion,
    ),
    // sides of 32767, 16384 and -16385
    (
        &[0, 0x0A, 0, 0, 0, 0, 0, 1, 0x7F, 0xFF],
        Refusal::OutOfRange,
    ),
    (&[0, 0x0A, 0, 0, 0, 0, 0x40, 0, 0, 1], Refusal::OutOfRange),
    (
        &[0, 0x0A, 0, 0, 0xBF, 0xFF, 0, 1, 0, 1],
        Refusal::OutOfRange,
    ),
    // rows that lie in range of their form alone
    (
        &[
            0, 0x24, 0, 0, 0, 0, 0, 4, 0x40, 0, 0, 0, 0, 0, 0, 2, 0x7F, 0xFF, 0, 2, 0, 2, 0x40, 0,
            0x7F, 0xFF, 0, 4, 0, 0, 0x40, 0, 0x7F, 0xFF, 0x7F, 0xFF,
        ],
        Refusal::OutOfRange,
    ),
    // the same, and a box that is not theirs
    (
        &[
            0, 0x24, 0, 0, 0, 0, 0, 4, 0x40, 1, 0, 0, 0, 0, 0, 2, 0x7F, 0xFF, 0, 2, 0, 2, 0x40, 0,
            0x7F, 0xFF, 0, 4, 0, 0, 0x40, 0, 0x7F, 0xFF, 0x7F, 0xFF,
        ],
        Refusal::BadRegion,
    ),
];

/// Why bytes are refused; None where they are not.
fn refusal(bytes: &[u8]) -> Option<Refusal> {
    RegionBytes::read(bytes).err()
}

#[test]
fn bytes_are_refused(rt: HostRuntime) {
    for (bytes, why) in REFUSED {
        assert!(rt; refusal(bytes) == Some(*why), "{bytes:?}");
    }
    assert!(rt; refusal(&[0, 0x0A, 0xC0, 0, 0xC0, 0, 0x3F, 0xFF, 0x3F, 0xFF]).is_none());
}

/// These bytes, with another one at this place.
fn with_byte(mut bytes: [u8; 36], place: usize, value: u8) -> [u8; 36] {
    if let Some(byte) = bytes.get_mut(place) {
        *byte = value;
    }
    bytes
}

#[test]
fn cut_bytes_are_refused(rt: HostRuntime) {
    for length in 0..36_u8 {
        let size = usize::from(length);
        assert!(rt;
            STEP.get(..size).and_then(refusal) == Some(Refusal::BadRegion),
            "{length}"
        );
        let told = with_byte(STEP, 1, length);
        // ten bytes are those of a box
        let wanted = if length == 10 {
            None
        } else {
            Some(Refusal::BadRegion)
        };
        assert!(rt; told.get(..size).and_then(refusal) == wanted, "{length}");
    }
}

/// Whether changed bytes are refused for their form or their range, or say the pixels that they have
/// by the other reader.
fn is_right(bytes: &[u8]) -> bool {
    match RegionBytes::read(bytes) {
        Ok(region) => are_alike(&Own(region), &SlowReader(bytes), FIELD),
        Err(why) => why == Refusal::BadRegion || why == Refusal::OutOfRange,
    }
}

#[test]
fn damaged_bytes_are_judged(rt: HostRuntime) {
    let mut taken = 0_u8;
    for (place, byte) in STEP.iter().enumerate() {
        for value in [
            0,
            1,
            3,
            0x7F,
            0x80,
            0xFF,
            byte.wrapping_add(1),
            byte.wrapping_sub(1),
        ] {
            let bytes = with_byte(STEP, place, value);
            assert!(rt; is_right(&bytes), "{place} {value}");
            if value != *byte && refusal(&bytes).is_none() {
                taken = taken.wrapping_add(1);
            }
        }
    }
    // the second row at 1 or 3, each written twice in the list
    assert!(rt; taken == 4);
}

/// The box of a region's bytes; None where they are none.
fn box_of(bytes: &[u8]) -> Option<Rect> {
    match RegionBytes::read(bytes) {
        Ok(region) => Some(region.bbox()),
        Err(_) => None,
    }
}

#[test]
fn regions_have_their_box(rt: HostRuntime) {
    let ring = Rect {
        left: -1,
        top: 0,
        right: 5,
        bottom: 6,
    };
    assert!(rt; box_of(RECTANGLE) == Some(CORNER));
    assert!(rt; box_of(EMPTY) == Some(NOTHING));
    assert!(rt; box_of(RING) == Some(ring));
}

/// The rectangle that the bytes are, or the points that they have after their box; two of none where they are no region.
fn form_of(bytes: &[u8]) -> (Option<Rect>, Option<&[u8]>) {
    match RegionBytes::read(bytes) {
        Ok(region) => match region.form() {
            Form::Rect(rect) => (Some(rect), None),
            Form::Rows(rows) => (None, Some(rows)),
        },
        Err(_) => (None, None),
    }
}

#[test]
fn regions_have_their_form_and_points(rt: HostRuntime) {
    assert!(rt; form_of(RECTANGLE) == (Some(CORNER), None));
    assert!(rt; form_of(EMPTY) == (Some(NOTHING), None));
    assert!(rt; form_of(&STEP) == (None, Some(&STEP[10..])));
}
