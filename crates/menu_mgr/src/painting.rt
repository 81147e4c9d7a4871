//! The menu that is pulled down, painted over a base image.
ghost use Rattle.std.specs.Prelude.{◌≡◌, true};
ghost use Rattle.desk_call.specs.declared.activity.Activity.TheVariants.{Pulling};
ghost use Rattle.def_iface.specs.MenuMeaning.{is_menu_size};
ghost use Rattle.menu_mgr.specs.WholeMenus.{AreLive};
ghost use Rattle.menu_mgr.specs.Pulling.{pulled_of};
ghost use Rattle.overlay.specs.Overlays.{IsShown, is_menu_place};

use crate::{Menus, MenusOnStock};
use bit_map::BitMap;
use desk_call::PulledMenu;
use overlay::draw_pulled;
use strike_font::Font;

impl Menus {
    /// Draws the menu that is pulled down over a base image. It takes no memory, and does not read the map in front on which
    /// that is shown.
    pub fn paint_pulled(&self, map: &mut BitMap, font: &Font, pulled: PulledMenu)
        requires live { AreLive (⟦<Self as MenusOnStock>⟧.menus self.now) }
        requires place { is_menu_place pulled.place ≡ true }
        requires size { is_menu_size pulled.size ≡ true }
        ensures { IsShown font.now (pulled_of (Pulling pulled) (⟦<Self as MenusOnStock>⟧.menus self.now))
            map.old map.new }
    {
        if let Some(at) = self.list.find(i32::from(pulled.menu)) {
            let listed = &self.list.menus[at];
            draw_pulled(
                map,
                &listed.definition,
                &listed.menu,
                pulled.place,
                pulled.size,
                font,
            );
        }
    }
}
