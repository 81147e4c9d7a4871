//! Where lines and offsets lie.

use crate::made::{line_is, mark, record, selects, standing, write};
use std::test::Fail;
use tb_geom::{Point, Rect, Refusal};
use text_record::{Justification, Placing, TextRecord};

/// Whether an offset has a place, given by its column and its top row.
fn lies_at(record: &TextRecord, offset: usize, h: i32, v: i32) -> bool {
    let place = record.place_of(offset);
    place.h == h && place.v == v
}

/// Places a text elsewhere.
fn move_to(record: &mut TextRecord, placing: Placing) -> Result<(), Refusal> {
    record.place(placing)
}

/// The offset at a point.
fn at(record: &TextRecord, h: i32, v: i32) -> usize {
    record.offset_at(Point { h, v })
}

/// Whether the word at an offset has the bytes from one offset up to another.
fn word_is(record: &TextRecord, offset: usize, start: usize, end: usize) -> bool {
    record.word_at(offset) == (start, end)
}

#[test]
fn a_new_record_is_judged(rt: HostRuntime) -> Result<(), Fail> {
    let narrow = Placing {
        width: 0,
        ..standing()
    };
    let far = Placing {
        left: 16777216,
        ..standing()
    };
    let made = record(rt.alloc(), standing(), Justification::Left, true)?;
    assert!(rt; made.bytes().is_empty() && line_is(&made, 0, 0, 0) && made.line_count() == 1);
    assert!(rt; made.is_shown() && !made.is_active() && made.has_caret() && !made.is_framed());
    assert!(rt; made.placing() == standing() && made.bounds() == standing().view);
    assert!(rt; made.line_height() == 10 && made.ascent() == 7 && made.wraps());
    assert!(rt; made.justification() == Justification::Left && made.selection() == (0, 0));
    assert!(rt; !narrow.is_allowed(false) && !far.is_allowed(false) && standing().is_allowed(true));
    match record(rt.alloc(), narrow, Justification::Left, true) {
        Ok(_) => assert!(rt; false),
        Err(refusal) => assert!(rt; refusal == Refusal::OutOfRange),
    }
    Ok(())
}

#[test]
fn words_go_to_the_next_line(rt: HostRuntime) -> Result<(), Fail> {
    let mut text = record(rt.alloc(), standing(), Justification::Left, true)?;
    write(&mut text, b"The quick brown fox")?;
    assert!(rt; selects(&text, 19, 19) && text.line_count() == 2);
    assert!(rt; line_is(&text, 0, 0, 10) && line_is(&text, 1, 10, 19));
    assert!(rt; lies_at(&text, 0, 5, 4) && lies_at(&text, 9, 59, 4));
    assert!(rt;
        lies_at(&text, 10, 5, 14) && lies_at(&text, 19, 59, 14) && lies_at(&text, 99, 59, 14)
    );
    Ok(())
}

#[test]
fn blanks_at_the_end_move_no_line(rt: HostRuntime) -> Result<(), Fail> {
    let placing = Placing {
        left: 0,
        top: 0,
        width: 101,
        view: Rect {
            left: 0,
            top: 0,
            right: 101,
            bottom: 30,
        },
    };
    let mut text = record(rt.alloc(), placing, Justification::Middle, true)?;
    write(&mut text, b"abc  ")?;
    assert!(rt; lies_at(&text, 0, 42, 0) && lies_at(&text, 5, 72, 0));
    text.justify(Justification::Right);
    assert!(rt; lies_at(&text, 0, 83, 0) && lies_at(&text, 5, 113, 0));
    assert!(rt; at(&text, 0, 5) == 0);
    assert!(rt; at(&text, 90, 5) == 1);
    Ok(())
}

#[test]
fn points_find_offsets_and_words(rt: HostRuntime) -> Result<(), Fail> {
    let mut text = record(rt.alloc(), standing(), Justification::Left, true)?;
    write(&mut text, b"The quick brown fox")?;
    assert!(rt; at(&text, 32, 8) == 5 && at(&text, 60, 8) == 9);
    assert!(rt; at(&text, 5, 20) == 10 && at(&text, -99, -99) == 0);
    assert!(rt; at(&text, 999, 999) == 19);
    assert!(rt; word_is(&text, 6, 4, 9) && word_is(&text, 3, 0, 3) && word_is(&text, 99, 16, 19));
    Ok(())
}

#[test]
fn another_width_breaks_anew(rt: HostRuntime) -> Result<(), Fail> {
    let mut text = record(rt.alloc(), standing(), Justification::Left, true)?;
    write(&mut text, b"one two")?;
    let narrow = Placing {
        width: 25,
        ..standing()
    };
    move_to(&mut text, narrow)?;
    assert!(rt; line_is(&text, 0, 0, 4) && line_is(&text, 1, 4, 7) && text.placing() == narrow);
    let wide = Placing {
        width: 16384,
        ..standing()
    };
    assert!(rt; move_to(&mut text, wide).is_err() && text.placing() == narrow);
    Ok(())
}

#[test]
fn flags_are_set(rt: HostRuntime) -> Result<(), Fail> {
    let mut text = record(rt.alloc(), standing(), Justification::Left, true)?;
    text.show(false);
    text.blink(false);
    assert!(rt; !text.is_shown() && !text.has_caret());
    text.activate(true);
    assert!(rt; text.is_active() && text.has_caret() && selects(&text, 0, 0));
    Ok(())
}

/// Whether the destination begins at a column and a row.
fn begins_at(record: &TextRecord, left: i32, top: i32) -> bool {
    let placing = record.placing();
    placing.left == left && placing.top == top
}

/// Where a text stands that begins at 1 1 and is 31 wide, in a view of 30 by 20.
fn in_a_low_view() -> Placing {
    Placing {
        left: 1,
        top: 1,
        width: 31,
        view: Rect {
            left: 1,
            top: 1,
            right: 31,
            bottom: 21,
        },
    }
}

#[test]
fn the_line_of_a_selection_is_brought_into_view(rt: HostRuntime) -> Result<(), Fail> {
    let mut text = record(rt.alloc(), in_a_low_view(), Justification::Left, true)?;
    write(&mut text, b"ab cd ef gh ij kl mn")?;
    assert!(rt; text.line_count() == 4 && text.edges() == (2, 32));
    text.show_selection();
    assert!(rt; begins_at(&text, 1, -19));
    text.scroll(0, 10)?;
    assert!(rt; begins_at(&text, 1, -9) && lies_at(&text, 20, 14, 21));
    mark(&mut text, 0, 0)?;
    text.show_selection();
    assert!(rt; begins_at(&text, 1, 1));
    match text.scroll(16777215, 0) {
        Ok(()) => assert!(rt; false),
        Err(refusal) => assert!(rt; refusal == Refusal::OutOfRange),
    }
    assert!(rt; begins_at(&text, 1, 1));
    Ok(())
}

#[test]
fn the_column_before_a_point_is_brought_into_view(rt: HostRuntime) -> Result<(), Fail> {
    let mut text = record(rt.alloc(), in_a_low_view(), Justification::Left, false)?;
    write(&mut text, b"abcdef")?;
    text.show_selection();
    assert!(rt; begins_at(&text, -6, 1) && lies_at(&text, 6, 31, 1));
    mark(&mut text, 0, 0)?;
    text.show_selection();
    assert!(rt; begins_at(&text, 1, 1));
    Ok(())
}
