//! Where lines end, which line an offset lies on, and how wide bytes are.

use std::alloc::{AllocError, Global};
use std::test::Fail;
use text_lines::{ByteWidths, TextLine, break_text, byte_width, bytes_width, line_length, line_of};

/// As the built-in font: each byte is 6 pixels wide.
const SIX: ByteWidths = [6; 256];

/// A text, how wide its lines may be, and where its lines end.
struct Broken {
    room: Option<u16>,
    text: &'static [u8],
    ends: &'static [u16],
}

/// A text in lines of so many pixels, and where they end.
macro_rules! broken {
    ($room:expr, $text:expr, $ends:expr) => {
        Broken {
            room: Some($room),
            text: $text,
            ends: &$ends,
        }
    };
}

/// Worked out by hand, for bytes of 6 pixels.
static BY_HAND: [Broken; 8] = [
    broken!(60, b"The quick brown fox", [10, 19]),
    broken!(60, b"The quick     brown", [14, 19]),
    broken!(60, b"Incomprehensible", [10, 16]),
    broken!(60, b"The\r\rq", [4, 5, 6]),
    broken!(60, b"a\r", [2, 2]),
    broken!(60, b"", [0]),
    broken!(2, b"a b", [2, 3]),
    Broken {
        room: None,
        text: b"one two\rthree four",
        ends: &[8, 18],
    },
];

/// By the slow program, which looks for the greatest number of bytes that have room, for bytes that are as wide as
/// the rest of their division by 11.
static BY_SENTENCES: [Broken; 24] = [
    broken!(
        0,
        b"\r\rWc\rcb\r cba\t\rcaba",
        [1, 2, 3, 5, 6, 8, 9, 10, 11, 14, 15, 16, 17, 18]
    ),
    broken!(30, b"Wa\r \rWW \ra", [3, 5, 9, 10]),
    broken!(45, b"\r \tb  ", [1, 6]),
    broken!(3, b" abb\tb \tbaa", [1, 2, 3, 5, 8, 9, 10, 11]),
    broken!(9, b"a\r\t\t\tbW  b", [2, 5, 6, 9, 10]),
    broken!(30, b"a\tbcWbaa\r\rcW\rW", [2, 6, 9, 10, 13, 14]),
    broken!(45, b"\t\tb\t\tWa ", [5, 8]),
    broken!(14, b"aWc\tbacW\r a  ", [1, 4, 5, 7, 9, 10, 13]),
    broken!(9, b"bbWWa ", [1, 2, 3, 4, 6]),
    broken!(
        0,
        b"c\rc\tcc WWWcW\t\rb\tab",
        [2, 4, 7, 8, 9, 10, 11, 14, 16, 17, 18]
    ),
    broken!(45, b" W\t \t", [5]),
    broken!(
        9,
        b" cbcW\rb WWab \t\rWaac",
        [1, 2, 3, 4, 6, 8, 9, 10, 11, 15, 16, 17, 19]
    ),
    broken!(14, b"cb c\r caa\r  aab", [3, 5, 6, 8, 10, 12, 13, 14, 15]),
    broken!(20, b"  cbb\r", [2, 6, 6]),
    broken!(0, b"ac  b\rb\ta\ra\t\tab", [1, 4, 6, 8, 10, 13, 14, 15]),
    broken!(14, b"b \t \t\r", [6, 6]),
    broken!(30, b"ba b\raWb\r\r a  cWc ", [3, 5, 9, 10, 14, 18]),
    broken!(30, b"\rW \t W\tWW\tW Wcc\r a", [1, 5, 7, 10, 16, 18]),
    broken!(3, b" cb\r\r ", [1, 2, 4, 5, 6]),
    broken!(
        0,
        b"\t\r \r ba a   ac\t\rW",
        [2, 4, 5, 6, 8, 12, 13, 16, 17]
    ),
    broken!(3, b"Wcab\rb bWW\r ", [1, 2, 3, 5, 7, 8, 9, 11, 12]),
    broken!(9, b"\racW", [1, 3, 4]),
    broken!(30, b"c\tWb\t\tc\r\rWa\t \r ", [6, 8, 9, 14, 15]),
    broken!(9, b"bbWW\tb   a", [1, 2, 3, 5, 9, 10]),
];

/// Widths of all kinds, some of them 0.
fn odd_widths() -> ByteWidths {
    let mut widths = [0u8; 256];
    for (at, width) in widths.iter_mut().enumerate() {
        *width = (at % 11) as u8;
    }
    widths
}

/// Whether the lines of a text end there, and follow each other.
fn ends_so(alloc: Global, widths: &ByteWidths, broken: &Broken) -> Result<bool, AllocError> {
    let text = broken.text;
    let mut lines: Vec<TextLine> = Vec::with_capacity(alloc, 32001)?;
    if text.len() > 32000 {
        return Ok(false);
    }
    break_text(&mut lines, widths, broken.room, text);
    let mut start = 0;
    let mut same = lines.len() == broken.ends.len();
    for (line, end) in lines.iter().zip(broken.ends) {
        same = same && line.start == start && line.end == *end;
        start = *end;
    }
    Ok(same)
}

#[test]
fn lines_end_where_they_have_no_room(rt: HostRuntime) -> Result<(), Fail> {
    for broken in &BY_HAND {
        assert!(rt; ends_so(rt.alloc(), &SIX, broken)?);
    }
    Ok(())
}

#[test]
fn lines_end_as_the_sentences_say(rt: HostRuntime) -> Result<(), Fail> {
    let widths = odd_widths();
    for broken in &BY_SENTENCES {
        assert!(rt; ends_so(rt.alloc(), &widths, broken)?);
    }
    Ok(())
}

#[test]
fn an_offset_lies_on_the_last_line_that_begins_by_it(rt: HostRuntime) -> Result<(), Fail> {
    let text = b"The quick brown fox\r";
    let mut lines: Vec<TextLine> = Vec::with_capacity(rt.alloc(), 21)?;
    break_text(&mut lines, &SIX, Some(60), text);
    assert!(rt; line_of(&lines, 0) == 0 && line_of(&lines, 9) == 0);
    assert!(rt; line_of(&lines, 10) == 1 && line_of(&lines, 19) == 1);
    assert!(rt; line_of(&lines, 20) == 2 && line_of(&lines, 99) == 2);
    Ok(())
}

#[test]
fn bytes_are_as_wide_as_the_table_says(rt: HostRuntime) -> Result<(), Fail> {
    let widths = odd_widths();
    assert!(rt; byte_width(&widths, 100) == 1 && bytes_width(&widths, b"cdn") == 0 + 1 + 0);
    assert!(rt; line_length(&SIX, Some(17), b"abcd") == 2);
    Ok(())
}
