//! Points, rectangles and refusals, by examples from outside.

use std::alloc::{AllocError, Global};
use tb_geom::{Point, Rect, Refusal};
use test_pixels::{point, rect};

/// Two rectangles, the pixels of both, and the rectangle around both.
const PAIRS: [[Rect; 4]; 8] = [
    [
        rect!(0, 0, 3, 2),
        rect!(1, 1, 5, 5),
        rect!(1, 1, 3, 2),
        rect!(0, 0, 5, 5),
    ],
    [
        rect!(0, 0, 3, 2),
        rect!(3, 0, 5, 2),
        rect!(0, 0, 0, 0),
        rect!(0, 0, 5, 2),
    ],
    [
        rect!(0, 0, 3, 2),
        rect!(2, 2, 2, 9),
        rect!(0, 0, 0, 0),
        rect!(0, 0, 3, 2),
    ],
    [
        rect!(0, 0, 3, 2),
        rect!(-4, 1, 1, 2),
        rect!(0, 1, 1, 2),
        rect!(-4, 0, 3, 2),
    ],
    [
        rect!(4, 7, 4, 9),
        rect!(9, 9, 1, 1),
        rect!(0, 0, 0, 0),
        rect!(0, 0, 0, 0),
    ],
    [
        rect!(9, 9, 1, 1),
        rect!(9, 9, 1, 1),
        rect!(0, 0, 0, 0),
        rect!(0, 0, 0, 0),
    ],
    [
        rect!(4, 7, 4, 9),
        rect!(4, 7, 4, 9),
        rect!(0, 0, 0, 0),
        rect!(0, 0, 0, 0),
    ],
    [
        rect!(-2, -2, 9, 9),
        rect!(0, 0, 3, 2),
        rect!(0, 0, 3, 2),
        rect!(-2, -2, 9, 9),
    ],
];

#[test]
fn shared_and_joined_pixels(rt: HostRuntime) {
    for [a, b, shared, joined] in PAIRS {
        assert!(rt; a.sect(b) == shared && b.sect(a) == shared);
        assert!(rt; a.union(b) == joined && b.union(a) == joined);
    }
}

/// Points, and whether the rectangle -2 5 0 6 encloses them.
const ENCLOSED: [(Point, bool); 6] = [
    (point!(-2, 5), true),
    (point!(-1, 5), true),
    (point!(0, 5), false),
    (point!(-3, 5), false),
    (point!(-1, 4), false),
    (point!(-1, 6), false),
];

/// Some sides in small numbers.
const SIDES: [i32; 4] = [-1, 0, 1, 3];

#[test]
fn encloses_its_first_sides_and_not_its_last(rt: HostRuntime) {
    for (point, inside) in ENCLOSED {
        assert!(rt; rect!(-2, 5, 0, 6).contains(point) == inside);
    }
    for right in SIDES {
        for bottom in SIDES {
            assert!(rt; rect!(0, 0, right, bottom).is_empty() == (right < 1 || bottom < 1));
        }
    }
}

/// A rectangle, how far it is to move, and where it lies then.
const MOVES: [(Rect, i32, i32, Result<Rect, Refusal>); 7] = [
    (
        rect!(-2, 0, 4, 3),
        16379,
        -16384,
        Ok(rect!(16377, -16384, 16383, -16381)),
    ),
    (rect!(-2, 0, 4, 3), 16380, 0, Err(Refusal::OutOfRange)),
    (rect!(-2, 0, 4, 3), -16383, 0, Err(Refusal::OutOfRange)),
    (rect!(-2, 0, 4, 3), 0, 16381, Err(Refusal::OutOfRange)),
    (rect!(-2, 0, 4, 3), 0, i32::MIN, Err(Refusal::OutOfRange)),
    (
        rect!(i32::MAX, 0, 1, 1),
        i32::MAX,
        0,
        Err(Refusal::OutOfRange),
    ),
    (rect!(20000, 0, 20000, 1), -20000, 0, Ok(rect!(0, 0, 0, 1))),
];

/// Two corners of a rectangle, and whether all of it is in range, and whether the first is.
const CORNERS: [(Point, Point, bool, bool); 5] = [
    (point!(-16384, -16384), point!(16383, 16383), true, true),
    (point!(-16384, 16383), point!(0, 0), true, true),
    (point!(-16385, 0), point!(0, 0), false, false),
    (point!(0, -16385), point!(0, 0), false, false),
    (point!(0, 0), point!(0, 16384), false, true),
];

#[test]
fn moves_up_to_the_edge_of_the_range(rt: HostRuntime) {
    for (one, h, v, moved) in MOVES {
        assert!(rt; one.offset(h, v) == moved);
    }
    for (first, last, all, one) in CORNERS {
        assert!(rt; rect!(first.h, first.v, last.h, last.v).is_in_range() == all);
        assert!(rt; first.is_in_range() == one);
    }
}

/// The refusals, their numbers, their names, and their printed form.
const REFUSALS: [(Refusal, u8, &str, &str); 20] = [
    (Refusal::NoMemory, 1, "NoMemory", "1 NoMemory"),
    (Refusal::NoSuchWindow, 2, "NoSuchWindow", "2 NoSuchWindow"),
    (
        Refusal::NoSuchControl,
        3,
        "NoSuchControl",
        "3 NoSuchControl",
    ),
    (Refusal::NoSuchMenu, 4, "NoSuchMenu", "4 NoSuchMenu"),
    (Refusal::NoSuchList, 5, "NoSuchList", "5 NoSuchList"),
    (Refusal::NoSuchItem, 6, "NoSuchItem", "6 NoSuchItem"),
    (Refusal::NoSuchCell, 7, "NoSuchCell", "7 NoSuchCell"),
    (Refusal::OutOfRange, 8, "OutOfRange", "8 OutOfRange"),
    (Refusal::TooMany, 9, "TooMany", "9 TooMany"),
    (Refusal::TooLong, 10, "TooLong", "10 TooLong"),
    (Refusal::Busy, 11, "Busy", "11 Busy"),
    (Refusal::NotBusy, 12, "NotBusy", "12 NotBusy"),
    (Refusal::BadFont, 13, "BadFont", "13 BadFont"),
    (Refusal::BadRegion, 14, "BadRegion", "14 BadRegion"),
    (Refusal::BadSyntax, 15, "BadSyntax", "15 BadSyntax"),
    (Refusal::NoDefinition, 16, "NoDefinition", "16 NoDefinition"),
    (Refusal::StalePixels, 17, "StalePixels", "17 StalePixels"),
    (Refusal::ReadFault, 18, "ReadFault", "18 ReadFault"),
    (Refusal::WriteFault, 19, "WriteFault", "19 WriteFault"),
    (Refusal::NoSuchName, 20, "NoSuchName", "20 NoSuchName"),
];

#[test]
fn refusals_have_their_numbers_and_names(rt: HostRuntime) -> Result<(), AllocError> {
    for (refusal, number, name, text) in REFUSALS {
        assert!(rt; refusal.number() == number && refusal.name() == name);
        assert!(rt; refusal.to_string(rt.alloc())?.as_str() == text);
    }
    Ok(())
}

/// Pushes a number, and then refuses memory.
fn without_memory(alloc: Global) -> Result<u8, Refusal> {
    let mut numbers = Vec::new(alloc);
    numbers.push(7)?;
    Err(AllocError)?
}

#[test]
fn want_of_memory_is_no_memory(rt: HostRuntime) {
    assert!(rt; without_memory(rt.alloc()) == Err(Refusal::NoMemory));
}
