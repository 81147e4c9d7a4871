//! The calls that change menus as data: their items, which of them are in the menu bar, and which title is highlighted.
ghost use Rattle.std.specs.Prelude.{◌≡◌, ◌<◌, length, None, Some, MatchResult};
ghost use Rattle.desk_call.specs.declared.menu.MenuCall.TheVariants as asks;
ghost use Rattle.menu_list.specs.Lists.{menu_index, menu_with};
ghost use Rattle.std.specs.Option.{option_and_then};
ghost use Rattle.menu_list.specs.EditSteps.{IsEdit};
ghost use Rattle.menu_list.specs.MenuEdits.{title_number};
ghost use Rattle.menu_list.specs.EditRefusals.{is_no_place};

use crate::MenuList;
use desk_call::{AppendItems, CheckItem, InsertMenu, ItemOfMenu, ItemText, MenuCall, MenuReply};
use tb_geom::Refusal;

/// The index of the menu of this number. NoSuchMenu where there is none.
pub fn index_of<D>(list: &MenuList<D>, menu: i32) -> Result<usize, Refusal>
    ensures { MatchResult result
        (λ at. (menu_index menu list.now.menus.items ≡ Some at) × (at < length list.now.menus.items))
        (λ e. (e ≡ Refusal.NoSuchMenu) × (menu_index menu list.now.menus.items ≡ None)) }
{
    match list.find(menu) {
        Some(at) => Ok(at),
        None => Err(Refusal::NoSuchMenu),
    }
}

/// Appends the items that a text gives.
fn append<D>(list: &mut MenuList<D>, append: &AppendItems<'_>) -> Result<MenuReply, Refusal>
    ensures { IsEdit (asks.Append append.now) result list.old list.new }
{
    let at = index_of(list, append.menu)?;
    match list.append(at, append.items.as_slice()) {
        Ok(()) => Ok(MenuReply::Done),
        Err(refusal) => Err(refusal),
    }
}

/// Gives an item another text.
fn set_text<D>(list: &mut MenuList<D>, text: &ItemText<'_>) -> Result<MenuReply, Refusal>
    ensures { IsEdit (asks.SetItem text.now) result list.old list.new }
{
    let at = index_of(list, text.menu)?;
    match list.set_text(at, text.item, text.text.as_slice()) {
        Ok(()) => Ok(MenuReply::Done),
        Err(refusal) => Err(refusal),
    }
}

/// Whether a menu may not go before the one that is asked for: that is neither none, nor itself, nor in the menu bar.
fn is_no_place<D>(list: &MenuList<D>, insert: InsertMenu) -> bool
    ensures { result ≡ is_no_place insert list.now.menus.items }
{
    insert.before != 0 && insert.before != insert.menu && !list.is_inserted(insert.before)
}

/// Puts a menu into the menu bar, or elsewhere in it.
fn insert<D>(list: &mut MenuList<D>, insert: InsertMenu) -> Result<MenuReply, Refusal>
    ensures { IsEdit (asks.Insert insert) result list.old list.new }
{
    let at = index_of(list, insert.menu)?;
    if is_no_place(list, insert) {
        return Err(Refusal::NoSuchMenu);
    }
    if insert.before == insert.menu {
        return Err(Refusal::OutOfRange);
    }
    list.insert(at, insert.before);
    Ok(MenuReply::Done)
}

/// Takes a menu out of the menu bar.
fn delete<D>(list: &mut MenuList<D>, menu: i32) -> Result<MenuReply, Refusal>
    ensures { IsEdit (asks.Delete menu) result list.old list.new }
{
    let at = index_of(list, menu)?;
    list.take_out(at);
    Ok(MenuReply::Done)
}

/// Enables an item, or its menu.
fn enable<D>(list: &mut MenuList<D>, item: ItemOfMenu) -> Result<MenuReply, Refusal>
    ensures { IsEdit (asks.Enable item) result list.old list.new }
{
    let at = index_of(list, item.menu)?;
    match list.set_enabled(at, item.item, true) {
        Ok(()) => Ok(MenuReply::Done),
        Err(refusal) => Err(refusal),
    }
}

/// Disables it.
fn disable<D>(list: &mut MenuList<D>, item: ItemOfMenu) -> Result<MenuReply, Refusal>
    ensures { IsEdit (asks.Disable item) result list.old list.new }
{
    let at = index_of(list, item.menu)?;
    match list.set_enabled(at, item.item, false) {
        Ok(()) => Ok(MenuReply::Done),
        Err(refusal) => Err(refusal),
    }
}

/// Checks an item, or not.
fn check<D>(list: &mut MenuList<D>, check: CheckItem) -> Result<MenuReply, Refusal>
    ensures { IsEdit (asks.Check check) result list.old list.new }
{
    let at = index_of(list, check.menu)?;
    match list.check(at, check.item, check.checked) {
        Ok(()) => Ok(MenuReply::Done),
        Err(refusal) => Err(refusal),
    }
}

/// Chooses the item that a key stands for, and highlights the title of its menu.
fn press<D>(list: &mut MenuList<D>, key: u8) -> Result<MenuReply, Refusal>
    ensures { IsEdit (asks.Key key) result list.old list.new }
{
    let choice = list.with_key(key);
    if let Some(choice) = choice {
        list.highlight(Some(choice.menu));
    }
    Ok(MenuReply::Chosen(choice))
}

/// The number of the menu of a number that was asked for, if it is in the menu bar.
fn title_number<D>(list: &MenuList<D>, menu: i32) -> Option<u16>
    ensures { result ≡ option_and_then title_number (menu_with menu list.now.menus.items) }
{
    match list.find(menu) {
        Some(at) => {
            let listed = &list.menus[at];
            listed.inserted.then_some(listed.menu.id)
        }
        None => None,
    }
}

/// Highlights the title of a menu alone, if that is in the menu bar.
fn hilite<D>(list: &mut MenuList<D>, menu: i32) -> Result<MenuReply, Refusal>
    ensures { IsEdit (asks.Hilite menu) result list.old list.new }
{
    if menu != 0 && list.find(menu).is_none() {
        return Err(Refusal::NoSuchMenu);
    }
    let title = title_number(list, menu);
    list.highlight(title);
    Ok(MenuReply::Done)
}

/// Performs a call that changes menus as data; one of another kind changes nothing.
pub fn edit<D>(list: &mut MenuList<D>, call: &MenuCall<'_>) -> Result<MenuReply, Refusal>
    ensures { IsEdit call.now result list.old list.new }
{
    match call {
        MenuCall::Append(items) => append(list, items),
        MenuCall::SetItem(text) => set_text(list, text),
        MenuCall::Insert(place) => insert(list, *place),
        MenuCall::Delete(menu) => delete(list, *menu),
        MenuCall::Enable(item) => enable(list, *item),
        MenuCall::Disable(item) => disable(list, *item),
        MenuCall::Check(item) => check(list, *item),
        MenuCall::Key(key) => press(list, *key),
        MenuCall::Hilite(menu) => hilite(list, *menu),
        _ => Ok(MenuReply::Done),
    }
}
