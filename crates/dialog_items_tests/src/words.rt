//! Lines that ask something about items.

use dialog_call::{DialogCall, ItemOf};
use dialog_items::ItemKind;
use dialog_words::dialog_verb_of;
use line_words::Words;
use std::test::Fail;
use tb_geom::{Point, Refusal};

/// What a line of at most 100 bytes asks about items, which is read from the room.
fn asked<'a>(room: &'a mut [u8; 100], line: &[u8]) -> Result<DialogCall<'a>, Refusal> {
    let Some(bytes) = room.get_mut(..line.len()) else {
        return Err(Refusal::TooLong);
    };
    bytes.copy_from_slice(line);
    let (word, words) = Words::new(bytes).word()?;
    match dialog_verb_of(word.as_slice()) {
        Some(verb) => verb.call(words),
        None => Err(Refusal::NoSuchName),
    }
}

/// A letter for what a line asks without bytes, the window and the item, or 0, and its numbers.
fn numbers(line: &[u8]) -> Option<(u8, ItemOf, [i32; 3])> {
    let none = |window| ItemOf { window, item: 0 };
    match asked(&mut [0; 100], line).ok()? {
        DialogCall::Show(it) => Some((b's', it, [0, 0, 0])),
        DialogCall::Hide(it) => Some((b'h', it, [0, 0, 0])),
        DialogCall::Get(it) => Some((b'g', it, [0, 0, 0])),
        DialogCall::Info(window) => Some((b'i', none(window), [0, 0, 0])),
        DialogCall::Enable(it) => Some((b'e', it.item, [i32::from(it.flag), 0, 0])),
        DialogCall::Select(it) => Some((b'S', it.item, [it.start, it.end, 0])),
        DialogCall::Activate(it) => Some((b'a', none(it.window), [i32::from(it.flag), 0, 0])),
        DialogCall::Click(it) => {
            Some((b'm', none(it.window), [it.point.h, it.point.v, it.mode]))
        }
        DialogCall::Key(it) => Some((b'k', none(it.window), [it.code, it.modifiers, 0])),
        DialogCall::Find(it) => Some((b'f', none(it.window), [it.point.h, it.point.v, 0])),
        _ => None,
    }
}

/// Lines, and for each its letter, its window and its item, and its numbers.
const LINES: [(&[u8], u8, ItemOf, [i32; 3]); 12] = [
    (b"dshow 1 2", b's', ItemOf { window: 1, item: 2 }, [0, 0, 0]),
    (
        b"dhide -5 70000",
        b'h',
        ItemOf {
            window: 0,
            item: 70000,
        },
        [0, 0, 0],
    ),
    (b"dget 3 -4", b'g', ItemOf { window: 3, item: 0 }, [0, 0, 0]),
    (b"dinfo 7", b'i', ItemOf { window: 7, item: 0 }, [0, 0, 0]),
    (
        b"denable 1 2 1",
        b'e',
        ItemOf { window: 1, item: 2 },
        [1, 0, 0],
    ),
    (
        b"denable 2 1 0",
        b'e',
        ItemOf { window: 2, item: 1 },
        [0, 0, 0],
    ),
    (
        b"dselect 1 2 -3 40000",
        b'S',
        ItemOf { window: 1, item: 2 },
        [-3, 40000, 0],
    ),
    (
        b"dactive 4 1",
        b'a',
        ItemOf { window: 4, item: 0 },
        [1, 0, 0],
    ),
    (
        b"dactive 4 0",
        b'a',
        ItemOf { window: 4, item: 0 },
        [0, 0, 0],
    ),
    (
        b"dclick 2 -8 90000 7",
        b'm',
        ItemOf { window: 2, item: 0 },
        [-8, 90000, 7],
    ),
    (
        b"dkey 2 256 -1",
        b'k',
        ItemOf { window: 2, item: 0 },
        [256, -1, 0],
    ),
    (
        b"dfind 2 5 -6",
        b'f',
        ItemOf { window: 2, item: 0 },
        [5, -6, 0],
    ),
];

#[test]
fn numbers_of_items_are_judged_by_nobody(rt: HostRuntime) -> Result<(), Fail> {
    for (line, letter, item, wanted) in LINES {
        assert!(rt; numbers(line) == Some((letter, item, wanted)));
    }
    Ok(())
}

#[test]
fn a_new_item_has_a_kind_and_a_size(rt: HostRuntime) -> Result<(), Fail> {
    let mut room = [0; 100];
    let Ok(DialogCall::New(new)) = asked(&mut room, b"ditem 7 edit 4 -5 60 2000 1 \"a b\"") else {
        assert!(rt; false, "no item");
        return Ok(());
    };
    assert!(rt; new.window == 7 && new.kind == ItemKind::Edit && new.enabled);
    assert!(rt; new.place == Point { h: 4, v: -5 });
    assert!(rt; new.size.width == 60 && new.size.height == 2000);
    assert!(rt; new.bytes.as_slice() == b"a b".as_slice());
    Ok(())
}

#[test]
fn four_texts_keep_their_order(rt: HostRuntime) -> Result<(), Fail> {
    let mut room = [0; 100];
    let Ok(DialogCall::SetParams(texts)) = asked(&mut room, b"param \"one\" \"\" 33 \"four\"")
    else {
        assert!(rt; false, "no texts");
        return Ok(());
    };
    assert!(rt;
        texts.first.as_slice() == b"one".as_slice() && texts.second.as_slice() == b"".as_slice()
    );
    assert!(rt;
        texts.third.as_slice() == b"3".as_slice() && texts.fourth.as_slice() == b"four".as_slice()
    );
    Ok(())
}

#[test]
fn an_item_has_a_new_text(rt: HostRuntime) -> Result<(), Fail> {
    let mut room = [0; 100];
    let Ok(DialogCall::SetText(set)) = asked(&mut room, b"dtext 1 2 0dff") else {
        assert!(rt; false, "no text");
        return Ok(());
    };
    assert!(rt; set.item == ItemOf { window: 1, item: 2 });
    assert!(rt; set.bytes.as_slice() == b"\x0d\xff".as_slice());
    Ok(())
}

/// Lines that have not the form of a command for items, and some with an unknown name.
const FAULTS: [(&[u8], Refusal); 12] = [
    (b"ditem 1 button 0 0 9 9 2 \"\"", Refusal::BadSyntax),
    (b"ditem 1 button 0 0 9 9 1", Refusal::BadSyntax),
    (b"ditem 1 button 0 0 9 9 1 \"\" 1", Refusal::BadSyntax),
    (b"ditem 1 text 0 0 9 9 1 \"\"", Refusal::NoSuchName),
    (b"ditem 1 text 0 0 9 9 1 \"\" 1", Refusal::BadSyntax),
    (b"ditem 1 user 0 0 9 9 1 \"x\"", Refusal::BadSyntax),
    (b"ditem 1 icon 0 0 9 1 1 \"x\"", Refusal::BadSyntax),
    (b"param \"\" \"\" \"\"", Refusal::BadSyntax),
    (b"dshow 1 2 3", Refusal::BadSyntax),
    (b"denable 1 2 2", Refusal::BadSyntax),
    (b"dinfo 1 2", Refusal::BadSyntax),
    (b"dialog 1", Refusal::NoSuchName),
];

#[test]
fn lines_of_another_form_are_refused(rt: HostRuntime) -> Result<(), Fail> {
    for (line, refusal) in FAULTS {
        assert!(rt; asked(&mut [0; 100], line).err() == Some(refusal));
    }
    Ok(())
}
