//! The words of the commands for menus.
ghost use Rattle.std.specs.Prelude.{◌≡◌};
ghost use Rattle.line_words.specs.Shapes.{reading};
ghost use Rattle.command_words.specs.MenuWords.{new_shape, append_shape, set_item_shape, insert_shape, item_shape, check_shape, key_shape, menu_shape};

use desk_call::{AppendItems, CheckItem, InsertMenu, ItemOfMenu, ItemText, MenuCall, NewMenu};
use line_words::Words;
use tb_geom::Refusal;

/// The first word of a command for menus. It says which words follow.
#[derive(Clone, Copy)]
pub enum MenuVerb {
    New,
    Append,
    SetItem,
    Insert,
    Delete,
    Dispose,
    Enable,
    Disable,
    Check,
    Down,
    Move,
    Up,
    Key,
    Hilite,
}

impl MenuVerb {
    /// What is asked by the words that follow.
    #[tactic(auto, using(line_words::proofs::Mapped::reading_mapped), unfolding(crate::specs::MenuWords::menu_shape))]
    pub fn call<'a>(self, words: Words<'a>) -> Result<MenuCall<'a>, Refusal>
        ensures { result ≡ reading (menu_shape self) words.entry }
    {
        match self {
            MenuVerb::New => new_menu(words),
            MenuVerb::Append => append(words),
            MenuVerb::SetItem => set_item(words),
            MenuVerb::Insert => insert(words),
            MenuVerb::Delete => Ok(MenuCall::Delete(words.last_number()?)),
            MenuVerb::Dispose => Ok(MenuCall::Dispose(words.last_number()?)),
            MenuVerb::Enable => Ok(MenuCall::Enable(item(words)?)),
            MenuVerb::Disable => Ok(MenuCall::Disable(item(words)?)),
            MenuVerb::Check => check(words),
            MenuVerb::Down => Ok(MenuCall::Down(words.last_point()?)),
            MenuVerb::Move => Ok(MenuCall::Move(words.last_point()?)),
            MenuVerb::Up => Ok(MenuCall::Up(words.last_point()?)),
            MenuVerb::Key => key(words),
            MenuVerb::Hilite => Ok(MenuCall::Hilite(words.last_number()?)),
        }
    }
}

/// The words after `menu`: the number of the menu that is to be made, and its title.
fn new_menu<'a>(words: Words<'a>) -> Result<MenuCall<'a>, Refusal>
    ensures { result ≡ reading new_shape words.entry }
{
    let (menu, words) = words.number()?;
    let title = words.last_text()?;
    Ok(MenuCall::New(NewMenu { menu, title }))
}

/// The words after `mappend`: a menu, and the texts of the items that it gets, with their signs.
fn append<'a>(words: Words<'a>) -> Result<MenuCall<'a>, Refusal>
    ensures { result ≡ reading append_shape words.entry }
{
    let (menu, words) = words.number()?;
    let items = words.last_text()?;
    Ok(MenuCall::Append(AppendItems { menu, items }))
}

/// The words after `mitem`: a menu, an item of it, and the item's new text.
fn set_item<'a>(words: Words<'a>) -> Result<MenuCall<'a>, Refusal>
    ensures { result ≡ reading set_item_shape words.entry }
{
    let (menu, words) = words.number()?;
    let (item, words) = words.number()?;
    let text = words.last_text()?;
    Ok(MenuCall::SetItem(ItemText { menu, item, text }))
}

/// The words after `minsert`: a menu, and the menu that is to be to the right of it.
fn insert<'a>(words: Words<'a>) -> Result<MenuCall<'a>, Refusal>
    ensures { result ≡ reading insert_shape words.entry }
{
    let (menu, words) = words.number()?;
    let before = words.last_number()?;
    Ok(MenuCall::Insert(InsertMenu { menu, before }))
}

/// A menu and an item of it, or the menu itself.
fn item(words: Words<'_>) -> Result<ItemOfMenu, Refusal>
    ensures { result ≡ reading item_shape words.entry }
{
    let (menu, words) = words.number()?;
    let item = words.last_number()?;
    Ok(ItemOfMenu { menu, item })
}

/// The words after `mcheck`: a menu, an item of it, and whether it is to be checked.
fn check<'a>(words: Words<'a>) -> Result<MenuCall<'a>, Refusal>
    ensures { result ≡ reading check_shape words.entry }
{
    let (menu, words) = words.number()?;
    let (item, words) = words.number()?;
    let checked = words.last_flag()?;
    Ok(MenuCall::Check(CheckItem {
        menu,
        item,
        checked,
    }))
}

/// The words after `mkey`: the character of the key, as a text of one byte.
fn key<'a>(words: Words<'a>) -> Result<MenuCall<'a>, Refusal>
    ensures { result ≡ reading key_shape words.entry }
{
    let (text, words) = words.text()?;
    match text.as_slice() {
        [character] => {
            words.end()?;
            Ok(MenuCall::Key(*character))
        }
        _ => Err(Refusal::BadSyntax),
    }
}
