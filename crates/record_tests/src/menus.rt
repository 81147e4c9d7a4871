//! Menus: what texts say that are appended, what changes items, and which item a key finds.

use menu_record::{Menu, MenuItem};
use std::test::Fail;
use tb_geom::Refusal;

/// What is to be read of an item.
#[derive(Drop)]
struct Said {
    text: &'static [u8],
    mark: Option<u8>,
    key: Option<u8>,
    enabled: bool,
}

/// An item, by its text, its mark, its key, and whether it is enabled.
macro_rules! said {
    ($text:expr, $mark:expr, $key:expr, $enabled:expr) => {
        Said {
            text: $text,
            mark: $mark,
            key: $key,
            enabled: $enabled,
        }
    };
}

/// An item of which just its text is said.
macro_rules! plain {
    ($text:expr) => {
        said!($text, None, None, true)
    };
}

/// A text that is appended, and the items that it gives.
struct Read {
    appended: &'static [u8],
    items: &'static [Said],
}

/// Texts that are appended, and what they say (*Inside Macintosh* I, "The Menu Manager"), with this project's own cases: pieces
/// without a character or of signs alone, a sign that ends its piece, a second mark or key, and icons and styles, which are
/// dropped.
static READS: [Read; 11] = [
    Read {
        appended: b"",
        items: &[],
    },
    Read {
        appended: b";\r;",
        items: &[],
    },
    Read {
        appended: b"One\rTwo",
        items: &[plain!(b"One"), plain!(b"Two")],
    },
    Read {
        appended: b"A/;;B;(-;C!",
        items: &[
            plain!(b"A"),
            plain!(b"B"),
            said!(b"-", None, None, false),
            plain!(b"C"),
        ],
    },
    Read {
        appended: b"(Open;Close/W",
        items: &[
            said!(b"Open", None, None, false),
            said!(b"Close", None, Some(b'W'), true),
        ],
    },
    Read {
        appended: b"!*Plain<BText^1/T",
        items: &[said!(b"PlainText", Some(b'*'), Some(b'T'), true)],
    },
    Read {
        appended: b"A!(B",
        items: &[said!(b"AB", Some(b'('), None, true)],
    },
    Read {
        appended: b"A(B",
        items: &[said!(b"AB", None, None, false)],
    },
    Read {
        appended: b"/a/b!c!dE",
        items: &[said!(b"E", Some(b'd'), Some(b'b'), true)],
    },
    Read {
        appended: b"A//;!!",
        items: &[
            said!(b"A", None, Some(b'/'), true),
            said!(b"", Some(b'!'), None, true),
        ],
    },
    Read {
        appended: b"/;^<",
        items: &[plain!(b""), plain!(b"")],
    },
];

/// Whether the item is as it was said.
fn is_said(item: &MenuItem, said: &Said) -> bool {
    item.text.as_slice() == said.text
        && item.mark == said.mark
        && item.key == said.key
        && item.enabled == said.enabled
}

/// Whether the menu has the items that were said, and no others.
fn has(menu: &Menu, said: &[Said]) -> bool {
    let items = menu.items.as_slice();
    items.len() == said.len()
        && items
            .iter()
            .zip(said)
            .all(|(item, said)| is_said(item, said))
}

#[test]
fn texts_are_read(rt: HostRuntime) -> Result<(), Fail> {
    for read in &READS {
        let mut menu = Menu::new(rt.alloc(), 1, b"File")?;
        menu.items.append(read.appended)?;
        assert!(rt; has(&menu, read.items), "of {:?}", read.appended);
    }
    Ok(())
}

#[test]
fn refusals_come_in_their_order(rt: HostRuntime) -> Result<(), Fail> {
    let long = [b'x'; 256];
    assert!(rt; Menu::new(rt.alloc(), 0, long.as_slice()).err() == Some(Refusal::OutOfRange));
    let mut menu = Menu::new(rt.alloc(), 32767, &long[1..])?;
    menu.items.append(
        b"1;2;3;4;5;6;7;8;9;10;11;12;13;14;15;16;17;18;19;20;21;22;23;24;25;26;27;28;29;30",
    )?;
    menu.items.append(&long[1..])?;
    assert!(rt; menu.items.append(b";") == Ok(()));
    assert!(rt; menu.items.append(b"32") == Err(Refusal::TooMany));
    assert!(rt; menu.items.append(long.as_slice()) == Err(Refusal::TooLong));
    assert!(rt; menu.items.set_text(32, long.as_slice()) == Err(Refusal::NoSuchItem));
    assert!(rt; menu.items.set_text(31, long.as_slice()) == Err(Refusal::TooLong));
    assert!(rt; menu.set_enabled(-1, false) == Err(Refusal::NoSuchItem));
    assert!(rt; menu.items.check(0, true) == Err(Refusal::NoSuchItem));
    Ok(())
}

#[test]
fn items_change_one_by_one(rt: HostRuntime) -> Result<(), Fail> {
    let mut menu = Menu::new(rt.alloc(), 1, b"File")?;
    menu.items.append(b"Open;Close/W!c;-")?;
    menu.items.set_text(1, b"(New!/;")?;
    menu.items.check(1, true)?;
    menu.items.check(2, false)?;
    menu.set_enabled(3, false)?;
    let items = [
        said!(b"(New!/;", Some(b'*'), None, true),
        said!(b"Close", None, Some(b'W'), true),
        said!(b"-", None, None, false),
    ];
    assert!(rt; has(&menu, &items) && menu.enabled);
    Ok(())
}

#[test]
fn a_key_finds_the_first_item_that_can_be_chosen(rt: HostRuntime) -> Result<(), Fail> {
    let mut menu = Menu::new(rt.alloc(), 2, b"Edit")?;
    menu.items.append(b"-/q;(Quit/Q;Quote/q;Query/Q;1/1")?;
    for (key, number) in [
        (b'q', Some(3)),
        (b'Q', Some(3)),
        (b'1', Some(5)),
        (b'A', None),
    ] {
        assert!(rt; menu.item_with_key(key) == number);
    }
    menu.set_enabled(2, true)?;
    assert!(rt; menu.item_with_key(b'q') == Some(2));
    menu.set_enabled(0, false)?;
    assert!(rt; menu.item_with_key(b'q') == None);
    Ok(())
}
