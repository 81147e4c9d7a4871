//! Whether the menu bar has the titles of the menus already.
ghost use Rattle.std.specs.Prelude.{◌≡◌, ◌≢◌, true, false};
ghost use Rattle.menu_list.specs.Lists.{title_of, titles_of};

use def_iface::TakenMenu;
use desk_ground::BarTitle;
use menu_list::{Listed, MenuList};

/// Whether these are the titles of the menus, in their order.
pub(crate) fn are_shown(titles: &[BarTitle], list: &MenuList<TakenMenu>) -> bool
    ensures shown { result ≡ true → titles.now ≡ titles_of list.now.highlighted list.now.menus.items }
    ensures others { result ≡ false → titles.now ≢ titles_of list.now.highlighted list.now.menus.items }
{
    let mut at = 0;
    for listed in &list.menus {
        if listed.inserted {
            if at >= titles.len() || !is_title_of(&titles[at], listed, list.highlighted) {
                return false;
            }
            at += 1;
        }
    }
    at == titles.len()
}

/// Whether this is the title of a menu, where the title of this number is highlighted.
fn is_title_of(title: &BarTitle, listed: &Listed<TakenMenu>, highlighted: Option<u16>) -> bool
    ensures same { result ≡ true → title.now ≡ title_of highlighted listed.now }
    ensures other { result ≡ false → title.now ≢ title_of highlighted listed.now }
{
    let number = listed.menu.id;
    title.menu == number
        && title.enabled == listed.menu.enabled
        && title.highlighted == (highlighted == Some(number))
        && title.text.as_slice() == listed.menu.title.as_slice()
}
