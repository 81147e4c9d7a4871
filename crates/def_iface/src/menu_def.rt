//! The interface of a menu's definition.
ghost use Rattle.std.specs.Prelude.{◌≡◌, true};
ghost use Rattle.tb_geom.specs.Rects.{rect_holds};
ghost use Rattle.bit_blit.specs.Draws.{Draws};
ghost use Rattle.draw_port.specs.Canvases.{canvas_holds, canvas_point, SameFrame};
ghost use Rattle.def_iface.specs.MenuMeaning.{MenuDefinition, SameMeasures, SameMenuLook, MenuHears, IsMenuDamage};
ghost use Rattle.def_iface.specs.MenuMeaning.{no_menu_news, told_menu, is_menu_size, is_choice};
ghost use Rattle.def_iface.specs.WindowMeaning.{IsWithin};

use crate::{Size, Stage};
use draw_port::Canvas;
use menu_record::Menu;
use strike_font::Font;
use tb_geom::{Point, Rect};

/// What a definition is told of its menu.
#[derive(Clone, Copy, Debug, PartialEq, Eq)]
pub enum MenuChange {
    /// Which item is highlighted, by its number from 1 on, if one is.
    Highlighted(Option<u8>),
}

/// A menu's definition (an MDEF: *Inside Macintosh* I, "The Menu Manager", "Defining Your Own Menus"): how large a menu
/// is that is pulled down, what it looks like, and which of its items a point chooses. All three are asked with the
/// menu's record and a font, which the definition does not keep. All points are local to the menu, whose top left pixel
/// is 0 0.
pub trait MenuDef: Drop {
    ghost menu_meaning: { Self → MenuDefinition };

    /// Where the definition stands in its life.
    fn stage(&self) -> Stage
        ensures { result ≡ (menu_meaning self.now).stage };

    /// Makes a Fresh definition Live.
    fn begin(&mut self)
        requires { (menu_meaning self.old).stage ≡ Stage.Fresh }
        ensures live { (menu_meaning self.new).stage ≡ Stage.Live }
        ensures measures { SameMeasures (menu_meaning self.old) (menu_meaning self.new) }
        ensures look { MenuHears (λ n. n) (menu_meaning self.old) (menu_meaning self.new) };

    /// Tells a Live definition of a change. The answer is the damage: in every font and for every menu the pictures before
    /// and after are equal outside it, within the range of coordinates. What is drawn anew lies within it, so it is to have
    /// no more pixels than the definition says that it may have.
    fn told(&mut self, change: MenuChange) -> Rect
        requires { (menu_meaning self.old).stage ≡ Stage.Live }
        ensures stays { (menu_meaning self.new).stage ≡ Stage.Live }
        ensures measures { SameMeasures (menu_meaning self.old) (menu_meaning self.new) }
        ensures heard { MenuHears (told_menu change) (menu_meaning self.old) (menu_meaning self.new) }
        ensures damage { IsMenuDamage result (menu_meaning self.old) (menu_meaning self.new) }
        ensures answered { IsWithin (rect_holds result) ((menu_meaning self.old).damage (told_menu change no_menu_news)) };

    /// How large the menu is where it is pulled down: each side is 0..=100000.
    fn size(&self, menu: &Menu, font: &Font) -> Size
        ensures value { result ≡ (menu_meaning self.now).size font.now menu.now }
        ensures fits { is_menu_size result ≡ true };

    /// The item that a click at the point chooses, by its number from 1 on, if it chooses one. It is asked of points of the
    /// menu.
    fn choose(&self, menu: &Menu, font: &Font, point: Point) -> Option<u8>
        ensures value { result ≡ (menu_meaning self.now).choose font.now menu.now point }
        ensures choice { is_choice menu.now result ≡ true };

    /// Gives each pixel of the canvas the value that the menu's picture has there in the canvas's font.
    fn draw(&self, menu: &Menu, canvas: &mut Canvas<'_>)
        requires { (menu_meaning self.now).stage ≡ Stage.Live }
        ensures same_map { canvas.new.map.ghost_name ≡ canvas.old.map.ghost_name }
        ensures same_frame { SameFrame canvas.old canvas.new }
        ensures drawn { Draws (canvas_holds canvas.old)
            (λ p _. (menu_meaning self.now).picture no_menu_news canvas.old.font.now menu.now
            (canvas_point canvas.old p))
            canvas.old.map.now canvas.new.map.now };

    /// Ends a Live definition's use. It answers as it did: the definition that goes back into its slot is told by that.
    fn dispose(&mut self)
        requires { (menu_meaning self.old).stage ≡ Stage.Live }
        ensures closed { (menu_meaning self.new).stage ≡ Stage.Closed }
        ensures same { SameMenuLook (menu_meaning self.old) (menu_meaning self.new) };
}
