//! The items of a window.

use dialog_items::{DialogItems, Item, ItemKind, ItemLook, LayerSort};
use std::test::Fail;
use tb_geom::{Rect, Refusal};

/// A rectangle of a user item.
const PLACE: Rect = Rect {
    left: 1,
    top: 2,
    right: 3,
    bottom: 4,
};

/// An enabled item of this kind with a layer.
fn item(kind: ItemKind, layer: Option<u64>) -> Item {
    Item {
        kind,
        enabled: true,
        layer,
        rect: PLACE,
        shown: true,
    }
}

/// Puts an item behind all others.
fn add(items: &mut DialogItems, item: Item) -> Result<usize, Refusal> {
    items.reserve()?;
    Ok(items.add(item))
}

/// Whether the item of a number has this layer.
fn has_layer(items: &DialogItems, number: usize, layer: Option<u64>) -> bool {
    match items.item(number) {
        Some(item) => item.layer == layer,
        None => false,
    }
}

#[test]
fn the_first_edit_item_is_edited(rt: HostRuntime) -> Result<(), Fail> {
    let mut items = DialogItems::new(rt.alloc());
    assert_eq!(rt; add(&mut items, item(ItemKind::Static, Some(1)))?, 1);
    assert_eq!(rt; items.edited(), 0);
    assert_eq!(rt; add(&mut items, item(ItemKind::Edit, Some(2)))?, 2);
    assert_eq!(rt; items.edited(), 2);
    items.stop_editing();
    assert_eq!(rt; add(&mut items, item(ItemKind::Edit, Some(3)))?, 3);
    assert_eq!(rt; items.edited(), 0);
    Ok(())
}

#[test]
fn another_edit_item_can_be_edited(rt: HostRuntime) -> Result<(), Fail> {
    let mut items = DialogItems::new(rt.alloc());
    add(&mut items, item(ItemKind::Edit, Some(1)))?;
    add(&mut items, item(ItemKind::Edit, Some(2)))?;
    let is_edit = match items.item(2) {
        Some(item) => item.is_edit(),
        None => false,
    };
    assert!(rt; is_edit && !item(ItemKind::Static, Some(3)).is_edit());
    items.edit(2);
    assert_eq!(rt; items.edited(), 2);
    items.stop_editing();
    assert_eq!(rt; items.edited(), 0);
    Ok(())
}

/// Whether each item is enabled, and whether each user item is shown.
fn flags(items: &DialogItems) -> [(bool, bool); 2] {
    match items.items() {
        [first, second] => [(first.enabled, first.shown), (second.enabled, second.shown)],
        _ => [(false, false), (false, false)],
    }
}

/// Enables or disables an item, if it is there.
fn enable(items: &mut DialogItems, number: usize, enabled: bool) {
    if items.is_number(number) {
        items.enable(number, enabled);
    }
}

/// Shows or hides a user item, if it is there.
fn show(items: &mut DialogItems, number: usize, shown: bool) {
    if items.is_number(number) {
        items.show(number, shown);
    }
}

#[test]
fn one_item_is_disabled_or_hidden(rt: HostRuntime) -> Result<(), Fail> {
    let mut items = DialogItems::new(rt.alloc());
    add(&mut items, item(ItemKind::User, None))?;
    add(&mut items, item(ItemKind::User, None))?;
    enable(&mut items, 1, false);
    show(&mut items, 2, false);
    assert!(rt; flags(&items) == [(false, true), (true, false)]);
    enable(&mut items, 1, true);
    show(&mut items, 2, true);
    assert!(rt; flags(&items) == [(true, true), (true, true)]);
    Ok(())
}

#[test]
fn controls_and_text_records_show_items(rt: HostRuntime) -> Result<(), Fail> {
    assert!(rt; ItemKind::Icon.layer_sort() == Some(LayerSort::Control));
    assert!(rt; ItemKind::Static.layer_sort() == Some(LayerSort::Text));
    assert!(rt; ItemKind::User.layer_sort().is_none());
    Ok(())
}

#[test]
fn an_empty_item_lies_nowhere(rt: HostRuntime) -> Result<(), Fail> {
    let user = item(ItemKind::User, None).own_look();
    assert!(rt; user.shown && user.enabled && user.rect == PLACE);
    let button = item(ItemKind::Button, Some(5));
    let empty = button.own_look();
    assert!(rt; !empty.shown && empty.rect.right == 0 && empty.rect.bottom == 0);
    let look = ItemLook::new(&button, true, PLACE, true);
    assert!(rt; look.kind == ItemKind::Button && look.enabled && look.shown && look.inactive);
    assert!(rt; look.rect == PLACE);
    Ok(())
}

#[test]
fn items_have_numbers_from_1(rt: HostRuntime) -> Result<(), Fail> {
    let mut items = DialogItems::new(rt.alloc());
    add(&mut items, item(ItemKind::Button, Some(7)))?;
    add(&mut items, item(ItemKind::Edit, Some(7)))?;
    assert!(rt; has_layer(&items, 1, Some(7)));
    assert!(rt; !items.is_number(0) && items.is_number(2) && !items.is_number(3));
    Ok(())
}

#[test]
fn a_window_has_64_items(rt: HostRuntime) -> Result<(), Fail> {
    let mut items = DialogItems::new(rt.alloc());
    for _ in 0..64 {
        add(&mut items, item(ItemKind::User, None))?;
    }
    match add(&mut items, item(ItemKind::User, None)) {
        Err(Refusal::TooMany) => {}
        _ => assert!(rt; false),
    }
    assert_eq!(rt; items.items().len(), 64);
    Ok(())
}

#[test]
fn a_default_button_has_a_ring(rt: HostRuntime) -> Result<(), Fail> {
    let layer = ItemKind::Default.layer_rect(PLACE);
    assert!(rt; layer.left == -3 && layer.top == -2 && layer.right == 7 && layer.bottom == 8);
    let back = ItemKind::Default.item_rect(PLACE);
    assert!(rt; back.left == 5 && back.right == -1);
    assert_eq!(rt; ItemKind::Icon.layer_rect(PLACE).right, 3);
    Ok(())
}

#[test]
fn types_and_names_are_those_of_the_dialog_manager(rt: HostRuntime) -> Result<(), Fail> {
    let names: [&[u8]; 8] = [
        b"button", b"check", b"radio", b"default", b"icon", b"static", b"edit", b"user",
    ];
    let types = [4, 5, 6, 4, 32, 8, 16, 0];
    for place in 0..8 {
        match ItemKind::of_name(names[place]) {
            Some(kind) => {
                assert_eq!(rt; kind.type_number(), types[place]);
                assert!(rt; kind.name().as_bytes() == names[place]);
                let mut one = item(kind, None);
                one.enabled = false;
                assert_eq!(rt; one.type_number(), types[place] | 128);
                assert_eq!(rt; one.own_look().shown, place == 7);
            }
            None => assert!(rt; false),
        }
    }
    assert!(rt; ItemKind::of_name(b"Button").is_none());
    Ok(())
}
