//! How large a menu is.
ghost use Rattle.std.specs.Prelude.{◌≡◌, ◌≤◌, ◌<◌, true, pos};
ghost use Rattle.def_iface.specs.MenuMeaning.{is_menu_size};
ghost use Rattle.std_mldef.specs.Measures.{item_width, key_width, menu_size, widest};

use def_iface::Size;
use menu_record::{Menu, MenuItem};
use strike_font::Font;

/// The columns for a key.
fn key_width(key: Option<u8>) -> u32
    ensures value { result ≡ key_width key }
    ensures small { result ≤ 24 }
{
    match key {
        Some(_) => 24,
        None => 0,
    }
}

/// The columns that an item takes.
fn item_width(font: &Font, item: &MenuItem) -> u32
    ensures value { result ≡ item_width font.now item.now }
    ensures small { result ≤ 65071 }
{
    22 + font.width(item.text.as_slice()) + key_width(item.key)
}

/// The columns that the widest of items takes.
fn widest(font: &Font, items: &[MenuItem]) -> u32
    ensures value { result ≡ widest font.now items.now }
    ensures small { result ≤ 65071 }
{
    let mut width = 0;
    for item in items {
        width = item_width(font, item).max(width);
    }
    width
}

/// How large a menu is.
#[tactic(auto, unfolding(crate::specs::Measures::menu_size))]
pub(crate) fn menu_size(font: &Font, menu: &Menu) -> Size
    ensures value { result ≡ menu_size font.now menu.now }
    ensures fits { is_menu_size result ≡ true }
{
    let items = menu.items.as_slice();
    Size {
        width: 2 + widest(font, items) as i32,
        height: 16 * items.len() as i32 + 2,
    }
}
