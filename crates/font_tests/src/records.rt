//! Which bytes are a FONT record.
use std::alloc::Global;
use strike_font::Font;
use tb_geom::Refusal;
use test_pixels::small::{SMALL, with_word};

/// Whether the bytes are a font.
fn judged(alloc: Global, bytes: &[u8]) -> Result<(), Refusal> {
    Font::from_bytes(alloc, bytes)?;
    Ok(())
}

#[test]
fn each_part_needs_its_bytes(rt: HostRuntime) {
    assert!(rt; judged(rt.alloc(), &SMALL) == Ok(()));
    for length in 0..42 {
        assert!(rt; judged(rt.alloc(), &SMALL[..length]) == Err(Refusal::BadFont));
    }
}

const BAD: Result<(), Refusal> = Err(Refusal::BadFont);

/// Two words of the small record, each by its place and as it is to be, and whether the record is a font then.
const ROWS: [(usize, u16, usize, u16, Result<(), Refusal>); 51] = [
    // fontType
    (0, 0x8FFF, 3, 4, BAD),
    (0, 0x9003, 3, 4, Ok(())),
    (0, 0x9004, 3, 4, BAD),
    (0, 0xAFFF, 3, 4, BAD),
    (0, 0xB000, 3, 4, Ok(())),
    (0, 0xB003, 3, 4, Ok(())),
    (0, 0xB004, 3, 4, BAD),
    (0, 0x0090, 3, 4, BAD),
    // firstChar and lastChar
    (1, 66, 2, 65, BAD),
    (1, 255, 2, 255, Ok(())),
    (1, 256, 2, 256, BAD),
    (1, 0xFFFF, 2, 0xFFFF, Ok(())),
    (1, 0x8000, 2, 0x8000, Ok(())),
    (1, 65, 2, 0xFFFF, BAD),
    // widMax, nDescent, fRectWidth and leading do not count
    (3, 0xFFFF, 5, 0xFFFF, Ok(())),
    (6, 0xFFFF, 11, 0xFFFF, Ok(())),
    // kernMax
    (4, 127, 3, 4, Ok(())),
    (4, 128, 3, 4, BAD),
    (4, 0xFF80, 3, 4, Ok(())),
    (4, 0xFF7F, 3, 4, BAD),
    // fRectHeight, by which the locations begin earlier or later
    (7, 0, 3, 4, BAD),
    (7, 1, 3, 4, BAD),
    (7, 1, 14, 0, Ok(())),
    (7, 3, 3, 4, Ok(())),
    (7, 6, 3, 4, BAD),
    (7, 128, 12, 0, BAD),
    (7, 0xFFFF, 12, 0, BAD),
    // owTLoc
    (8, 0, 3, 4, BAD),
    (8, 0xFFFF, 3, 4, BAD),
    (8, 1, 3, 4, Ok(())),
    (8, 9, 18, 0, Ok(())),
    (8, 11, 3, 4, BAD),
    (8, 0x7FFF, 3, 4, BAD),
    // ascent and descent
    (9, 127, 10, 127, Ok(())),
    (9, 128, 3, 4, BAD),
    (9, 0xFFFF, 3, 4, BAD),
    (10, 128, 3, 4, BAD),
    (10, 0xFFFF, 3, 4, BAD),
    // rowWords
    (12, 2, 3, 4, BAD),
    (12, 2048, 7, 1, BAD),
    (12, 0xFFFF, 3, 4, BAD),
    // locations
    (15, 2, 16, 2, Ok(())),
    (15, 3, 16, 2, BAD),
    (16, 3, 17, 3, Ok(())),
    (16, 4, 17, 3, BAD),
    (17, 16, 3, 4, Ok(())),
    (17, 17, 3, 4, BAD),
    (17, 0xFFFF, 3, 4, BAD),
    // offsets and widths: of A, of the missing symbol, and of the last place
    (18, 0xFFFF, 3, 4, Ok(())),
    (19, 0xFFFF, 3, 4, BAD),
    (20, 0, 3, 4, Ok(())),
];

#[test]
fn each_kind_of_bad_font(rt: HostRuntime) {
    for (first, one, second, other, answer) in ROWS {
        assert!(rt; first < 21 && second < 21);
        let record = with_word(with_word(SMALL, first, one), second, other);
        assert!(rt; judged(rt.alloc(), &record) == answer);
    }
}
