//! Which item a point chooses.
ghost use Rattle.std.specs.Prelude.{◌≡◌, true};
ghost use Rattle.def_iface.specs.MenuMeaning.{is_choice, is_menu_size};
ghost use Rattle.std_mldef.specs.Rows.{chosen, chosen_from};

use crate::measures::menu_size;
use crate::rows::{inner_box, row_of};
use def_iface::Size;
use menu_record::Menu;
use strike_font::Font;
use tb_geom::Point;

/// The item that a point chooses, by its place from 1 on: that in whose row it lies, if it can be chosen.
pub(crate) fn chosen(menu: &Menu, font: &Font, point: Point) -> Option<u8>
    ensures value { result ≡ chosen font.now menu.now point }
    ensures choice { is_choice menu.now result ≡ true }
{
    chosen_in(menu, menu_size(font, menu), point)
}

/// The same, where the menu has this size.
fn chosen_in(menu: &Menu, size: Size, point: Point) -> Option<u8>
    requires { is_menu_size size ≡ true }
    ensures value { result ≡ chosen_from menu.now size 0 menu.now.items point }
    ensures choice { is_choice menu.now result ≡ true }
{
    let items = menu.items.as_slice();
    for (at, item) in items.iter().enumerate() {
        let place = at as u8;
        if inner_box(row_of(size, place)).contains(point) {
            return if menu.can_choose(item) {
                Some(place + 1)
            } else {
                None
            };
        }
    }
    None
}
