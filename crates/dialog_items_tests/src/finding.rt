//! Which item the mouse and the keys find.

use dialog_items::{ItemKind, ItemLook, item_at, return_item, tab_item};
use std::test::Fail;
use tb_geom::{Point, Rect};

/// How an item differs from one that is shown, enabled and not inactive.
#[derive(Clone, Copy, PartialEq, Eq)]
enum Lack {
    Nothing,
    Shown,
    Enabled,
    Active,
}

/// An item of this kind in ten columns and ten rows from a column on.
fn look(kind: ItemKind, left: i32, lack: Lack) -> ItemLook {
    let right = left.saturating_add(10);
    ItemLook {
        kind,
        enabled: lack != Lack::Enabled,
        shown: lack != Lack::Shown,
        rect: Rect {
            left,
            top: 0,
            right,
            bottom: 10,
        },
        inactive: lack == Lack::Active,
    }
}

/// A point in the fifth row.
fn point(h: i32) -> Point {
    Point { h, v: 5 }
}

#[test]
fn the_first_shown_item_is_found(rt: HostRuntime) -> Result<(), Fail> {
    let looks = [
        look(ItemKind::Static, 0, Lack::Shown),
        look(ItemKind::Icon, 5, Lack::Enabled),
        look(ItemKind::Button, 0, Lack::Nothing),
        look(ItemKind::User, 30, Lack::Nothing),
    ];
    assert_eq!(rt; item_at(&looks, point(4)), 3);
    assert_eq!(rt; item_at(&looks, point(5)), 2);
    assert_eq!(rt; item_at(&looks, point(14)), 2);
    assert_eq!(rt; item_at(&looks, point(15)), 0);
    assert_eq!(rt; item_at(&looks, point(39)), 4);
    Ok(())
}

#[test]
fn return_goes_to_a_default_button(rt: HostRuntime) -> Result<(), Fail> {
    let button = look(ItemKind::Button, 0, Lack::Nothing);
    let gray = look(ItemKind::Default, 20, Lack::Active);
    let disabled = look(ItemKind::Default, 40, Lack::Enabled);
    let default = look(ItemKind::Default, 60, Lack::Nothing);
    assert_eq!(rt; return_item(&[button, gray, disabled, default]), 4);
    assert_eq!(rt; return_item(&[button, gray, disabled]), 0);
    assert_eq!(rt; return_item(&[button]), 1);
    assert_eq!(rt;
        return_item(&[look(ItemKind::Button, 0, Lack::Shown), button]),
        0
    );
    assert_eq!(rt;
        return_item(&[look(ItemKind::Check, 0, Lack::Nothing), button]),
        0
    );
    assert_eq!(rt; return_item(&[]), 0);
    Ok(())
}

#[test]
fn tab_goes_round_the_shown_edit_items(rt: HostRuntime) -> Result<(), Fail> {
    let looks = [
        look(ItemKind::Edit, 0, Lack::Nothing),
        look(ItemKind::Static, 20, Lack::Nothing),
        look(ItemKind::Edit, 40, Lack::Shown),
        look(ItemKind::Edit, 60, Lack::Enabled),
        look(ItemKind::Edit, 80, Lack::Nothing),
    ];
    let forward = [1, 4, 4, 4, 5, 1];
    let back = [5, 5, 1, 1, 1, 4];
    for edited in 0..6 {
        assert_eq!(rt; tab_item(&looks, edited, false), forward[edited]);
        assert_eq!(rt; tab_item(&looks, edited, true), back[edited]);
    }
    assert_eq!(rt; tab_item(&looks[..1], 1, false), 1);
    assert_eq!(rt; tab_item(&looks[1..3], 0, true), 0);
    Ok(())
}
