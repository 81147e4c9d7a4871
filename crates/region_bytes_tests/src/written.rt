//! Regions as bytes.

use scan_region::Region;
use scan_region::laws::{read_and_written, written_and_read};
use std::alloc::{AllocError, Global};
use std::test::Fail;
use tb_geom::{Point, Rect, Refusal};

/// The end of a row, and of the data.
const END: u16 = 0x7FFF;

/// The bytes of words.
fn bytes_of(alloc: Global, words: &[u16]) -> Result<Vec<u8>, AllocError> {
    let mut bytes = Vec::new(alloc);
    for word in words {
        bytes.extend_from_slice(&word.to_be_bytes())?;
    }
    Ok(bytes)
}

/// The region of these words.
fn read(alloc: Global, words: &[u16]) -> Result<Region, Refusal> {
    Region::from_bytes(alloc, bytes_of(alloc, words)?.as_slice())
}

/// Whether the region's bytes are these words.
fn is_written(alloc: Global, region: &Region, words: &[u16]) -> Result<bool, Refusal> {
    Ok(region.to_bytes(alloc)?.as_slice() == bytes_of(alloc, words)?.as_slice())
}

/// The region of a rectangle, by its left side, its top, its right side and its bottom.
fn block(alloc: Global, [left, top, right, bottom]: [i32; 4]) -> Result<Region, Refusal> {
    Region::from_rect(
        alloc,
        Rect {
            left,
            top,
            right,
            bottom,
        },
    )
}

/// A block, and a wider one below it.
const BLOCKS: [u16; 18] = [
    0x24, 0, 0, 4, 4, 0, 0, 2, END, 2, 2, 4, END, 4, 0, 4, END, END,
];

/// Two pixels of a row, with negative sides, and one below the first.
const APART: [u16; 20] = [
    0x28, 0xFFFE, 0xFFFF, 0, 3, 0xFFFE, 0xFFFF, 0, 2, 3, END, 0xFFFF, 2, 3, END, 0, 0xFFFF, 0, END,
    END,
];

/// A square with a hole.
const RING: [u16; 22] = [
    0x2C, 0, 0, 3, 3, 0, 0, 3, END, 1, 1, 2, END, 2, 1, 2, END, 3, 0, 3, END, END,
];

#[test]
fn worked_bytes(rt: HostRuntime) -> Result<(), Fail> {
    let alloc = rt.alloc();
    let one = block(alloc, [2, 1, 5, 4])?;
    assert!(rt; is_written(alloc, &one, &[0x0A, 1, 2, 4, 5])?);
    let none = one.xor(alloc, &one)?;
    assert!(rt; is_written(alloc, &none, &[0x0A, 0, 0, 0, 0])?);
    let below = block(alloc, [0, 2, 4, 4])?;
    let blocks = block(alloc, [0, 0, 2, 2])?.union(alloc, &below)?;
    assert!(rt; is_written(alloc, &blocks, &BLOCKS)?);
    Ok(())
}

/// Words, and why they are refused as a region's.
struct Refused(&'static [u16], Refusal);

const REFUSED: [Refused; 5] = [
    Refused(&[], Refusal::BadRegion),
    Refused(&[0x0C, 0, 0, 0, 0, END], Refusal::BadRegion),
    // a rectangle in long form
    Refused(
        &[0x1C, 0, 0, 2, 2, 0, 0, 2, END, 2, 0, 2, END, END],
        Refusal::BadRegion,
    ),
    // the right form, and a side out of range
    Refused(&[0x0A, 0, 0, 4, 0x7FFF], Refusal::OutOfRange),
    Refused(
        &[
            0x24, 0, 0, 0x4000, 4, 0, 0, 2, END, 2, 2, 4, END, 0x4000, 0, 4, END, END,
        ],
        Refusal::OutOfRange,
    ),
];

#[test]
fn other_words_are_refused(rt: HostRuntime) {
    for Refused(words, why) in &REFUSED {
        let refused = match read(rt.alloc(), words) {
            Ok(_) => None,
            Err(e) => Some(e),
        };
        assert!(rt; refused == Some(*why));
    }
}

/// Whether an odd number of the points of these words, after the box, lies at the point, above it, left
/// of it or both.
fn is_inverted(words: &[u16], point: Point) -> bool {
    let mut odd = false;
    let mut row: Option<i16> = None;
    for word in words {
        let number = i16::from_be_bytes(word.to_be_bytes());
        row = match row {
            None => Some(number),
            Some(_) if *word == END => None,
            Some(v) => {
                odd ^= i32::from(number) <= point.h && i32::from(v) <= point.v;
                row
            }
        };
    }
    odd
}

#[test]
fn pixels_are_those_of_the_points(rt: HostRuntime) -> Result<(), Fail> {
    let alloc = rt.alloc();
    let texts: [&[u16]; 3] = [&BLOCKS, &APART, &RING];
    for words in texts {
        let region = read(alloc, words)?;
        assert!(rt; is_written(alloc, &region, words)?);
        for v in -4..6 {
            for h in -4..6 {
                let point = Point { h, v };
                assert!(rt; region.contains(point) == is_inverted(&words[5..], point));
            }
        }
    }
    Ok(())
}

/// The sides of small blocks.
const BLOCK_SIDES: [[i32; 4]; 6] = [
    [0, 0, 2, 2],
    [1, 1, 4, 3],
    [2, 0, 3, 4],
    [-3, 3, 1, 4],
    [0, 0, 0, 0],
    [-16384, -16384, 16383, -16382],
];

#[test]
fn what_is_written_is_read(rt: HostRuntime) -> Result<(), Fail> {
    let alloc = rt.alloc();
    for a in BLOCK_SIDES {
        for b in BLOCK_SIDES {
            let region = block(alloc, a)?.xor(alloc, &block(alloc, b)?)?;
            assert!(rt; written_and_read(alloc, &region)?.equals(&region));
            let bytes = region.to_bytes(alloc)?;
            let again = read_and_written(alloc, bytes.as_slice())?;
            assert!(rt; again.as_slice() == bytes.as_slice());
        }
    }
    Ok(())
}

/// The pixels at 0, 2, 4 and so on of the row 0, so many.
fn dotted_row(alloc: Global, count: u8) -> Result<Region, Refusal> {
    let mut row = Region::empty(alloc);
    for i in 0..count {
        let left = 2 * i32::from(i);
        let dot = block(alloc, [left, 0, left + 1, 1])?;
        row = row.union(alloc, &dot)?;
    }
    Ok(row)
}

/// Copies of a row at the rows 0, 2, 4 and so on, so many.
fn rows_apart(alloc: Global, row: &Region, count: u8) -> Result<Region, Refusal> {
    let mut rows = Region::empty(alloc);
    for j in 0..count {
        let mut moved = row.copy(alloc)?;
        moved.offset(0, 2 * i32::from(j))?;
        rows = rows.union(alloc, &moved)?;
    }
    Ok(rows)
}

#[test]
fn bytes_are_at_most_32766(rt: HostRuntime) -> Result<(), Fail> {
    let alloc = rt.alloc();
    let row = dotted_row(alloc, 100)?;
    let fits = rows_apart(alloc, &row, 40)?;
    let bytes = fits.to_bytes(alloc)?;
    assert!(rt; bytes.len() == 32332);
    assert!(rt; bytes[..10] == [0x7E, 0x4C, 0, 0, 0, 0, 0, 0x4F, 0, 0xC7]);
    assert!(rt; Region::from_bytes(alloc, bytes.as_slice())?.equals(&fits));
    let long = rows_apart(alloc, &row, 41)?;
    let refused = match long.to_bytes(alloc) {
        Ok(_) => None,
        Err(e) => Some(e),
    };
    assert!(rt; refused == Some(Refusal::TooLong));
    Ok(())
}
