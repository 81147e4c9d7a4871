//! The menus of a desk: their order in the menu bar, what is highlighted, what changes one, and what a key chooses.

use desk_call::Choice;
use menu_list::{Listed, MenuList};
use menu_record::Menu;
use std::alloc::Global;
use std::test::Fail;
use tb_geom::Refusal;

/// A menu that is not in the menu bar, with an item for the key Q. What stands for its definition is its number.
fn listed(alloc: Global, id: i32) -> Result<Listed<i32>, Refusal> {
    let mut menu = Menu::new(alloc, id, b"Menu")?;
    menu.items.append(b"Open/O;Quit/Q")?;
    Ok(Listed {
        menu,
        inserted: false,
        definition: id,
    })
}

/// A list of the menus 1, 2 and 3.
fn three_menus(alloc: Global) -> Result<MenuList<i32>, Refusal> {
    let mut list = MenuList::new(alloc)?;
    list.push(listed(alloc, 1)?);
    list.push(listed(alloc, 2)?);
    list.push(listed(alloc, 3)?);
    Ok(list)
}

/// Puts the menu of this number into the menu bar, before that of another, or at the right end.
fn insert(list: &mut MenuList<i32>, id: i32, before: i32) {
    if let Some(at) = list.find(id) {
        list.insert(at, before);
    }
}

/// Takes the menu of this number out of the menu bar.
fn take_out(list: &mut MenuList<i32>, id: i32) {
    if let Some(at) = list.find(id) {
        list.take_out(at);
    }
}

/// Whether the titles in the menu bar are those of the menus of these numbers, from left to right, and the title of `lit` is
/// the only one that is highlighted.
fn shows(list: &MenuList<i32>, numbers: &[u16], lit: u16) -> bool {
    if list.menus.len() > 16 {
        return false;
    }
    let titles = list.titles();
    let titles = titles.as_slice();
    titles.len() == numbers.len()
        && titles.iter().zip(numbers).all(|(title, number)| title.menu == *number
            && title.highlighted == (*number == lit))
}

#[test]
fn menus_stand_as_they_were_inserted(rt: HostRuntime) -> Result<(), Fail> {
    let mut list = three_menus(rt.alloc())?;
    assert!(rt; shows(&list, &[], 0) && !list.is_inserted(1));
    insert(&mut list, 1, 0);
    assert!(rt; list.find(1) == Some(2) && list.is_inserted(1));
    insert(&mut list, 3, 1);
    insert(&mut list, 2, 9);
    assert!(rt; shows(&list, &[3, 1, 2], 0));
    insert(&mut list, 2, 3);
    assert!(rt; shows(&list, &[2, 3, 1], 0) && list.find(3) == Some(1));
    take_out(&mut list, 3);
    assert!(rt; shows(&list, &[2, 1], 0) && !list.is_inserted(3) && list.find(4) == None);
    Ok(())
}

#[test]
fn one_title_is_highlighted(rt: HostRuntime) -> Result<(), Fail> {
    let mut list = three_menus(rt.alloc())?;
    insert(&mut list, 1, 0);
    insert(&mut list, 2, 0);
    list.highlight(Some(2));
    assert!(rt; shows(&list, &[1, 2], 2));
    take_out(&mut list, 1);
    assert!(rt; shows(&list, &[2], 2) && list.highlighted == Some(2));
    take_out(&mut list, 2);
    assert!(rt; list.highlighted == None);
    Ok(())
}

#[test]
fn an_ended_menu_is_highlighted_no_longer(rt: HostRuntime) -> Result<(), Fail> {
    let mut list = three_menus(rt.alloc())?;
    list.highlight(Some(2));
    let at = list.find(2).expect(&rt, "it is in the list");
    let ended = list.remove(at);
    assert!(rt; ended.definition == 2 && list.highlighted == None);
    assert!(rt; list.find(2) == None && list.find(3) == Some(1));
    Ok(())
}

#[test]
fn the_menu_furthest_right_has_the_key(rt: HostRuntime) -> Result<(), Fail> {
    let mut list = three_menus(rt.alloc())?;
    assert!(rt; list.with_key(b'q') == None);
    insert(&mut list, 1, 0);
    insert(&mut list, 2, 0);
    assert!(rt; list.with_key(b'q') == Some(Choice { menu: 2, item: 2 }));
    let at = list.find(2).expect(&rt, "it is in the list");
    list.set_enabled(at, 2, false)?;
    assert!(rt; list.with_key(b'Q') == Some(Choice { menu: 1, item: 2 }));
    Ok(())
}

/// Whether the menu of this number has three items, of which the last has this text and this mark.
fn ends_with(list: &MenuList<i32>, id: i32, text: &[u8], mark: Option<u8>) -> bool {
    match list.find(id) {
        Some(at) => {
            let items = list.menus[at].menu.items.as_slice();
            items.len() == 3 && items[2].text.as_slice() == text && items[2].mark == mark
        }
        None => false,
    }
}

#[test]
fn one_menu_changes(rt: HostRuntime) -> Result<(), Fail> {
    let mut list = three_menus(rt.alloc())?;
    let at = list.find(2).expect(&rt, "it is in the list");
    list.append(at, b"(Undo")?;
    assert!(rt; ends_with(&list, 2, b"Undo", None));
    let at = list.find(2).expect(&rt, "it is in the list");
    list.set_text(at, 3, b"Redo")?;
    let at = list.find(2).expect(&rt, "it is in the list");
    list.check(at, 3, true)?;
    assert!(rt; ends_with(&list, 2, b"Redo", Some(b'*')));
    let at = list.find(1).expect(&rt, "it is in the list");
    assert!(rt; list.check(at, 3, true) == Err(Refusal::NoSuchItem));
    Ok(())
}
