//! The standard definition of menus.
ghost use Rattle.std.specs.Prelude.{◌≡◌};
ghost use Rattle.std_mldef.specs.Menus.{std_menu_meaning, fresh_menu};

use crate::chosen::chosen;
use crate::damage::rows_damage;
use crate::measures::menu_size;
use crate::rows::draw_menu;
use def_iface::{MenuChange, MenuDef, Size, Stage};
use draw_port::Canvas;
use menu_record::Menu;
use strike_font::Font;
use tb_geom::{Point, Rect};

/// The standard definition of menus (*Inside Macintosh* I, "The Menu Manager"). A point chooses the item in whose row it lies,
/// inside the menu's frame, where that item can be chosen; dividing lines, disabled items and the items of a disabled menu
/// cannot. What cannot be used is gray, and the highlighted item is inverted, both inside the frame.
#[derive(Drop)]
pub struct StdMenu {
    stage: Stage,
    /// The highlighted item, by its number from 1 on, if there is one.
    highlighted: Option<u8>,
}

impl StdMenu {
    /// A Fresh definition.
    pub fn new() -> StdMenu
        ensures fresh { (⟦<StdMenu as MenuDef>⟧.menu_meaning result).stage ≡ Stage.Fresh }
        ensures value { result ≡ fresh_menu }
    {
        StdMenu {
            stage: Stage::Fresh,
            highlighted: None,
        }
    }
}

impl MenuDef for StdMenu {
    ghost menu_meaning = { std_menu_meaning };

    fn stage(&self) -> Stage {
        self.stage
    }

    fn begin(&mut self) {
        self.stage = Stage::Live;
    }

    fn told(&mut self, change: MenuChange) -> Rect {
        let MenuChange::Highlighted(item) = change;
        let damage = rows_damage(self.highlighted, item);
        self.highlighted = item;
        damage
    }

    fn size(&self, menu: &Menu, font: &Font) -> Size {
        menu_size(font, menu)
    }

    fn choose(&self, menu: &Menu, font: &Font, point: Point) -> Option<u8> {
        chosen(menu, font, point)
    }

    fn draw(&self, menu: &Menu, canvas: &mut Canvas<'_>) {
        draw_menu(canvas, menu, self.highlighted);
    }

    fn dispose(&mut self) {
        self.stage = Stage::Closed;
    }
}
