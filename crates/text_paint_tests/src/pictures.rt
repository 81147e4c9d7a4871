//! What records show, as pictures: `#` where a pixel is black, and `.` where it is white.

use crate::made::{Sheet, is_painted, low_record, record};
use std::test::Fail;
use test_pixels::{point, rect};
use text_record::{Justification, Placing, TextRecord};

/// An I with the caret behind it, in a view of 10 by 10 at 1 1.
const CARET_BEHIND: &str = "\
............\n\
...###.#....\n\
....#..#....\n\
....#..#....\n\
....#..#....\n\
....#..#....\n\
....#..#....\n\
...###.#....\n\
.......#....\n\
.......#....\n\
.......#....\n\
............\n";

/// The same with the caret before it.
const CARET_BEFORE: &str = "\
............\n\
.#.###......\n\
.#..#.......\n\
.#..#.......\n\
.#..#.......\n\
.#..#.......\n\
.#..#.......\n\
.#.###......\n\
.#..........\n\
.#..........\n\
.#..........\n\
............\n";

/// The same of a record that is not active.
const INACTIVE: &str = "\
............\n\
...###......\n\
....#.......\n\
....#.......\n\
....#.......\n\
....#.......\n\
....#.......\n\
...###......\n\
............\n\
............\n\
............\n\
............\n";

/// `ab cd` in lines of 20 columns, with `b c` selected: the highlight of the first line goes to the end of the destination.
const WRAPPED: &str = "\
........................\n\
........................\n\
........############....\n\
........############....\n\
..##....#..#########....\n\
....#....##.########....\n\
..###...###.########....\n\
.#..#....##.########....\n\
..####..#..#########....\n\
.......#############....\n\
.......#############....\n\
.......#############....\n\
.######....#............\n\
.######....#............\n\
.#...##.##.#............\n\
..###.##..##............\n\
..######...#............\n\
..###.##..##............\n\
.#...##.##.#............\n\
.######.................\n\
.######.................\n\
.######.................\n\
........................\n\
........................\n";

/// A frame round a view of 6 by 5, which cuts a b.
const FRAMED: &str = "\
############.\n\
#..........#.\n\
#..........#.\n\
#...#......#.\n\
#...#.##...#.\n\
#...##..#..#.\n\
#...#...#..#.\n\
#...##..#..#.\n\
#..........#.\n\
#..........#.\n\
############.\n\
.............\n";

/// An I and a V on lines of 3 rows, both bytes behind the I selected: the glyphs of one line lie over the other.
const TALL: &str = "\
............\n\
..###.......\n\
...#........\n\
...#........\n\
.#.#.#......\n\
.#.#.#......\n\
.#.#.#.##...\n\
.#####.##...\n\
.#...#.##...\n\
.#.#.##.....\n\
.##.###.....\n\
.######.....\n\
............\n";

/// An a with two blanks that are selected, at the right.
const RIGHT: &str = "\
................########\n\
................########\n\
...........##...########\n\
.............#..########\n\
...........###..########\n\
..........#..#..########\n\
...........####.########\n\
................########\n\
................########\n\
................########\n";

/// Two lines in the middle.
const MIDDLE: &str = "\
................\n\
................\n\
......##........\n\
........#.......\n\
......###.......\n\
.....#..#.......\n\
......####......\n\
................\n\
................\n\
................\n\
..#.....#.......\n\
..#.....#.......\n\
..#.##..#.##....\n\
..##..#.##..#...\n\
..#...#.#...#...\n\
..##..#.##..#...\n\
..#.##..#.##....\n\
................\n\
................\n\
................\n";

/// A part of the wrapped text on a black map, with the 0 0 of the window at 2 1.
const INNER: &str = "\
##############\n\
##############\n\
###.........##\n\
###.......####\n\
###.......####\n\
###.##....#.##\n\
###...#....###\n\
###.###...####\n\
####..#....###\n\
###.####..#.##\n\
##############\n\
##############\n";

/// Where a text stands whose lines are so wide.
fn at(left: i32, top: i32, width: u16, view: tb_geom::Rect) -> Placing {
    Placing {
        left,
        top,
        width,
        view,
    }
}

/// Selects bytes, and makes the record active.
fn select(text: &mut TextRecord, start: usize, end: usize) {
    let all = text.bytes().len();
    let end = end.min(all);
    text.choose(start.min(end), end);
    text.activate(true);
}

#[test]
fn a_caret_shows_while_a_record_is_active(rt: HostRuntime) -> Result<(), Fail> {
    let place = at(1, 1, 10, rect!(1, 1, 11, 11));
    let mut text = record(rt.alloc(), place, Justification::Left, true, false, b"I")?;
    assert!(rt; is_painted(rt.alloc(), &text, Sheet::of(12, 12), INACTIVE)?);
    select(&mut text, 1, 1);
    assert!(rt; is_painted(rt.alloc(), &text, Sheet::of(12, 12), CARET_BEHIND)?);
    select(&mut text, 0, 0);
    assert!(rt; is_painted(rt.alloc(), &text, Sheet::of(12, 12), CARET_BEFORE)?);
    text.blink(false);
    assert!(rt; is_painted(rt.alloc(), &text, Sheet::of(12, 12), INACTIVE)?);
    select(&mut text, 0, 1);
    text.activate(false);
    assert!(rt; is_painted(rt.alloc(), &text, Sheet::of(12, 12), INACTIVE)?);
    Ok(())
}

#[test]
fn a_highlight_goes_on_to_the_end_of_a_wrapped_line(rt: HostRuntime) -> Result<(), Fail> {
    let place = at(0, 2, 20, rect!(0, 2, 22, 23));
    let mut text = record(
        rt.alloc(),
        place,
        Justification::Left,
        true,
        false,
        b"ab cd",
    )?;
    select(&mut text, 1, 4);
    assert!(rt; is_painted(rt.alloc(), &text, Sheet::of(24, 24), WRAPPED)?);
    let part = Sheet {
        width: 14,
        height: 12,
        clip: rect!(3, 2, 12, 10),
        origin: point!(2, 1),
    };
    assert!(rt; is_painted(rt.alloc(), &text, part, INNER)?);
    Ok(())
}

#[test]
fn a_frame_lies_round_a_view(rt: HostRuntime) -> Result<(), Fail> {
    let place = at(3, 2, 8, rect!(3, 3, 9, 8));
    let text = record(rt.alloc(), place, Justification::Left, true, true, b"b")?;
    assert!(rt; is_painted(rt.alloc(), &text, Sheet::of(13, 12), FRAMED)?);
    Ok(())
}

#[test]
fn lines_are_justified(rt: HostRuntime) -> Result<(), Fail> {
    let right = at(0, 0, 16, rect!(0, 0, 24, 10));
    let mut text = record(rt.alloc(), right, Justification::Right, true, false, b"a  ")?;
    select(&mut text, 1, 3);
    assert!(rt; is_painted(rt.alloc(), &text, Sheet::of(24, 10), RIGHT)?);
    let middle = at(0, 0, 16, rect!(0, 0, 16, 20));
    let text = record(
        rt.alloc(),
        middle,
        Justification::Middle,
        true,
        false,
        b"a\rbb",
    )?;
    assert!(rt; is_painted(rt.alloc(), &text, Sheet::of(16, 20), MIDDLE)?);
    Ok(())
}

#[test]
fn glyphs_may_be_higher_than_lines(rt: HostRuntime) -> Result<(), Fail> {
    let place = at(0, 6, 9, rect!(0, 0, 12, 13));
    let mut text = low_record(rt.alloc(), place, b"I\rV")?;
    select(&mut text, 1, 3);
    assert!(rt; is_painted(rt.alloc(), &text, Sheet::of(12, 13), TALL)?);
    Ok(())
}
