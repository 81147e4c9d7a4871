//! What windows have of one kind: whose the items are, their order, and what changes one.

use std::test::Fail;
use tb_geom::Refusal;
use window_items::{Item, Items};

/// Puts an item into a window. What is kept of it is ten times its serial.
fn add(list: &mut Items<u64>, window: u64) -> Result<(), Refusal> {
    let Some(serial) = list.next else {
        return Err(Refusal::TooMany);
    };
    let item = Item {
        serial,
        window,
        kept: serial.wrapping_mul(10),
    };
    list.reserve(1)?;
    list.push(item);
    Ok(())
}

/// The windows into which items are put, one after another.
const WINDOWS: [u64; 5] = [7, 9, 7, 7, 9];

/// A window and the serial of an item, with its place among all items and among its window's.
const PLACES: [(u64, u64, usize, usize); 5] = [
    (7, 1, 0, 0),
    (9, 2, 1, 0),
    (7, 3, 2, 1),
    (7, 4, 3, 2),
    (9, 5, 4, 1),
];

/// Whether the window's item of this serial stands at this place, and there among its window's.
fn stands(list: &Items<u64>, window: u64, serial: u64, place: usize, among: usize) -> bool {
    match list.find(window, serial) {
        Some(at) => at == place && list.layer_index(at) == among,
        None => false,
    }
}

#[test]
fn items_stand_as_they_were_made(rt: HostRuntime) -> Result<(), Fail> {
    let mut list = Items::new(rt.alloc());
    for window in WINDOWS {
        add(&mut list, window)?;
    }
    for (window, serial, place, among) in PLACES {
        assert!(rt; stands(&list, window, serial, place, among));
        assert!(rt; list.with_serial(serial) == Some(place));
    }
    assert!(rt; list.with_serial(6) == None);
    assert!(rt; list.find(9, 1) == None && list.find(7, 6) == None && list.next == Some(6));
    assert!(rt; list.count(7) == 3 && list.count(9) == 2 && list.count(8) == 0);
    Ok(())
}

#[test]
fn a_window_loses_its_youngest_item_first(rt: HostRuntime) -> Result<(), Fail> {
    let mut list = Items::new(rt.alloc());
    for window in WINDOWS {
        add(&mut list, window)?;
    }
    let at = list.find(7, 3).expect(&rt, "it is in the list");
    let removed = list.remove(at);
    assert!(rt; removed.kept == 30 && stands(&list, 7, 4, 2, 1));
    for kept in [50, 20] {
        let taken = list.take_of(9).expect(&rt, "the window has one");
        assert!(rt; taken.window == 9 && taken.kept == kept);
    }
    assert!(rt; list.take_of(9).is_none() && stands(&list, 7, 4, 1, 1) && list.next == Some(6));
    Ok(())
}

#[test]
fn one_item_changes(rt: HostRuntime) -> Result<(), Fail> {
    let mut list = Items::new(rt.alloc());
    for window in WINDOWS {
        add(&mut list, window)?;
    }
    let at = list.find(7, 3).expect(&rt, "it is in the list");
    *list.at_mut(at) = 31;
    assert!(rt; stands(&list, 7, 3, 2, 1));
    for kept in [40, 31, 10] {
        let taken = list.take_of(7).expect(&rt, "the window has one");
        assert!(rt; taken.window == 7 && taken.kept == kept);
    }
    Ok(())
}
