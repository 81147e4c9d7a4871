//! What calls about items say of themselves.

use def_iface::Size;
use dialog_call::{DialogCall, DialogFlag, FindItem, ItemOf, NewItem};
use dialog_items::ItemKind;
use std::test::Fail;
use tb_geom::{BytesRef, Point};

/// Whether an item of this kind and size may be made of these bytes.
fn has_form(kind: ItemKind, width: i32, height: i32, bytes: &[u8]) -> bool {
    let new = NewItem {
        window: 1,
        kind,
        place: Point { h: 0, v: 0 },
        size: Size { width, height },
        enabled: true,
        bytes: BytesRef::new(bytes),
    };
    new.has_form()
}

#[test]
fn an_icon_has_whole_bytes_for_each_row(rt: HostRuntime) -> Result<(), Fail> {
    assert!(rt; has_form(ItemKind::Icon, 8, 3, b"abc"));
    assert!(rt; has_form(ItemKind::Icon, 9, 2, b"abcd"));
    assert!(rt; !has_form(ItemKind::Icon, 9, 2, b"abc"));
    assert!(rt; !has_form(ItemKind::Icon, 9, 2, b"abcde"));
    assert!(rt; has_form(ItemKind::Icon, 0, 2147483647, b""));
    assert!(rt; has_form(ItemKind::Icon, 2147483647, -2147483648, b""));
    assert!(rt; !has_form(ItemKind::Icon, 2147483647, 2147483647, b""));
    Ok(())
}

#[test]
fn a_user_item_has_no_bytes(rt: HostRuntime) -> Result<(), Fail> {
    assert!(rt; has_form(ItemKind::User, 9, 2, b""));
    assert!(rt; !has_form(ItemKind::User, 9, 2, b"abcd"));
    assert!(rt; has_form(ItemKind::Edit, 9, 2, b"abc"));
    assert!(rt; has_form(ItemKind::Button, 9, 2, b""));
    Ok(())
}

#[test]
fn three_calls_ask(rt: HostRuntime) -> Result<(), Fail> {
    let item = ItemOf { window: 1, item: 2 };
    let find = FindItem {
        window: 1,
        point: Point { h: 3, v: 4 },
    };
    let flag = DialogFlag {
        window: 1,
        flag: true,
    };
    assert!(rt; DialogCall::Get(item).asks());
    assert!(rt; DialogCall::Info(1).asks());
    assert!(rt; DialogCall::Find(find).asks());
    assert!(rt; !DialogCall::Hide(item).asks());
    assert!(rt; !DialogCall::Activate(flag).asks());
    Ok(())
}
