//! Selecting with the mouse.

use crate::made::{record, standing, write};
use std::test::Fail;
use tb_geom::Point;
use text_edits::{Anchor, ClickMode, click_anchor, extend, extended, is_clicked};
use text_record::{Justification, TextRecord};

/// What is selected where the mouse is held at a point.
fn held(
    record: &mut TextRecord,
    anchor: Anchor,
    mode: ClickMode,
    h: i32,
    v: i32,
) -> (usize, usize) {
    if anchor.start <= anchor.end && anchor.end <= record.bytes().len() {
        let said = extended(record, anchor, mode, Point { h, v });
        extend(record, anchor, mode, Point { h, v });
        if record.selection() == (said.start, said.end) {
            return record.selection();
        }
    }
    (99999, 99999)
}

/// What stays selected after a click at a point.
fn clicked(record: &TextRecord, h: i32, v: i32, mode: ClickMode) -> Anchor {
    click_anchor(record, Point { h, v }, mode)
}

/// Whether a click at a point selects.
fn hits(record: &TextRecord, h: i32, v: i32) -> bool {
    is_clicked(record, Point { h, v })
}

#[test]
fn a_held_mouse_selects(rt: HostRuntime) -> Result<(), Fail> {
    let mut text = record(rt.alloc(), standing(), Justification::Left, true)?;
    write(&mut text, b"The quick brown fox")?;
    let point = clicked(&text, 32, 8, ClickMode::Points);
    assert!(rt; held(&mut text, point, ClickMode::Points, 32, 8) == (5, 5));
    assert!(rt; held(&mut text, point, ClickMode::Points, 60, 8) == (5, 9));
    assert!(rt; held(&mut text, point, ClickMode::Points, 5, 20) == (5, 10));
    let shift = clicked(&text, 5, 4, ClickMode::Extends);
    assert!(rt; held(&mut text, shift, ClickMode::Extends, 5, 4) == (0, 10));
    Ok(())
}

#[test]
fn a_double_click_selects_words(rt: HostRuntime) -> Result<(), Fail> {
    let mut text = record(rt.alloc(), standing(), Justification::Left, true)?;
    write(&mut text, b"The quick brown fox")?;
    let words = clicked(&text, 40, 8, ClickMode::Words);
    assert!(rt; held(&mut text, words, ClickMode::Words, 40, 8) == (4, 9));
    assert!(rt; held(&mut text, words, ClickMode::Words, 5, 20) == (4, 15));
    Ok(())
}

#[test]
fn a_click_in_the_view_of_a_shown_record_selects(rt: HostRuntime) -> Result<(), Fail> {
    let mut text = record(rt.alloc(), standing(), Justification::Left, true)?;
    assert!(rt; !hits(&text, 3, 8) && hits(&text, 32, 8));
    text.show(false);
    assert!(rt; !hits(&text, 32, 8));
    Ok(())
}
