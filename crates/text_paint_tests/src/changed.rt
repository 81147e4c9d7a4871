//! What of a picture stays where the selection or the bytes of a record change.

use crate::made::{Sheet, is_toggled, low_record, painted, record};
use std::alloc::Global;
use std::test::Fail;
use strike_font::Font;
use tb_geom::Refusal;
use test_pixels::pixels::are_alike;
use test_pixels::{point, rect};
use text_paint::{Selection, change_row};
use text_record::{Justification, Placing, TextRecord};

/// Where the texts stand: on lines of 20 columns.
const PLACE: Placing = Placing {
    left: 0,
    top: 2,
    width: 20,
    view: rect!(0, 2, 22, 33),
};

/// Where a selection begins and ends, whether its record is active, and whether the caret is on.
type Turn = (usize, usize, bool, bool);

/// Selections of a text of five bytes, each followed by the one that takes its place: a caret that is moved, goes out and comes
/// on again, a highlight in its place, that grows, shrinks, moves and goes, and a record that becomes inactive and active.
const TURNS: [Turn; 11] = [
    (0, 0, true, true),
    (4, 4, true, true),
    (4, 4, true, false),
    (4, 4, true, true),
    (1, 4, true, true),
    (0, 5, true, true),
    (2, 3, true, true),
    (4, 5, true, true),
    (4, 5, false, true),
    (1, 2, true, true),
    (5, 5, true, true),
];

/// A text on two lines that is selected so.
fn selected(alloc: Global, turn: Turn) -> Result<TextRecord, Refusal> {
    let (start, end, active, caret) = turn;
    let mut text = record(alloc, PLACE, Justification::Left, true, false, b"ab cd")?;
    let end = end.min(text.bytes().len());
    text.choose(start.min(end), end);
    text.activate(active);
    text.blink(caret);
    Ok(text)
}

#[test]
fn a_record_has_a_selection(rt: HostRuntime) -> Result<(), Fail> {
    let text = selected(rt.alloc(), (1, 4, true, false))?;
    let selection = Selection {
        start: 1,
        end: 4,
        active: true,
        caret: false,
    };
    assert!(rt; Selection::of(&text) == selection);
    Ok(())
}

#[test]
fn a_toggled_selection_is_as_if_drawn(rt: HostRuntime) -> Result<(), Fail> {
    let part = Sheet {
        width: 14,
        height: 22,
        clip: rect!(3, 2, 12, 20),
        origin: point!(2, 1),
    };
    for at in 1..TURNS.len() {
        let before = selected(rt.alloc(), TURNS[at - 1])?;
        let after = selected(rt.alloc(), TURNS[at])?;
        assert!(rt; is_toggled(rt.alloc(), &before, &after, Sheet::of(24, 24))?);
        assert!(rt; is_toggled(rt.alloc(), &before, &after, part)?);
    }
    Ok(())
}

#[test]
fn the_lines_before_a_change_stay(rt: HostRuntime) -> Result<(), Fail> {
    let font = Font::built_in(rt.alloc())?;
    let mut text = record(
        rt.alloc(),
        PLACE,
        Justification::Left,
        true,
        false,
        b"I\ra bc",
    )?;
    let before = painted(rt.alloc(), &font, &text, Sheet::of(24, 34))?;
    let end = text.bytes().len();
    let start = end.min(5);
    // The last word is shorter without its last byte, and goes up to the second line.
    assert!(rt; change_row(&text, start, &font) == 12);
    text.put(start, end, b"")?;
    let after = painted(rt.alloc(), &font, &text, Sheet::of(24, 34))?;
    assert!(rt; are_alike(&before, &after, rect!(0, 0, 24, 12)));
    assert!(rt; !are_alike(&before, &after, rect!(0, 12, 24, 22)));
    Ok(())
}

#[test]
fn a_change_begins_above_lines_lower_than_their_glyphs(rt: HostRuntime) -> Result<(), Fail> {
    let font = Font::built_in(rt.alloc())?;
    let text = low_record(rt.alloc(), PLACE, b"I\rV\rX")?;
    assert!(rt; change_row(&text, 0, &font) == -3);
    assert!(rt; change_row(&text, 3, &font) == -3);
    assert!(rt; change_row(&text, 5, &font) == 0);
    Ok(())
}
