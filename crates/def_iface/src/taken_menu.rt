//! A menu's definition in its box: what it means, and its way out of its slot, in a menu's record, and back.
ghost use Rattle.std.specs.Prelude.{◌≡◌, true};
ghost use Rattle.tb_geom.specs.Rects.{rect_holds};
ghost use Rattle.bit_blit.specs.Draws.{Draws};
ghost use Rattle.draw_port.specs.Canvases.{canvas_holds, canvas_point, SameFrame};
ghost use Rattle.def_iface.specs.MenuMeaning.{MenuDefinition, SameMeasures, SameMenuLook, MenuHears, IsMenuBegun, IsMenuDamage};
ghost use Rattle.def_iface.specs.MenuMeaning.{no_menu_news, told_menu, is_menu_size, is_choice};
ghost use Rattle.def_iface.specs.WindowMeaning.{IsWithin};
ghost use Rattle.def_iface.specs.Slots.{loan_by, slots_by};

use crate::{Defined, Held, MenuChange, MenuDef, Size, Slots, Stage, Stocked, Taken};
use draw_port::Canvas;
use menu_record::Menu;
use strike_font::Font;
use tb_geom::{Point, Rect};

/// A menu's definition that was taken out of a stock, with its slot there.
pub type TakenMenu = Taken<Box<dyn MenuDef>>;

/// Slots of menu definitions.
pub type MenuStock = Slots<Box<dyn MenuDef>>;

impl Held for Box<dyn MenuDef> {
    ghost Meaning = { MenuDefinition };

    ghost meaning = { λ b. (MenuDef-box b).menu_meaning b.value };

    ghost stage_of = { λ d. d.stage };

    ghost IsAlike = { SameMenuLook };

    fn stage(&self) -> Stage {
        (**self).stage()
    }

    fn dispose(&mut self) {
        (**self).dispose();
    }
}

impl Defined for TakenMenu {
    ghost Meaning = { MenuDefinition };

    ghost loan = { loan_by (λ b. (MenuDef-box b).menu_meaning b.value) };
}

impl Stocked for MenuStock {
    ghost Meaning = { MenuDefinition };

    ghost slots = { slots_by (λ b. (MenuDef-box b).menu_meaning b.value) };
}

impl TakenMenu {
    /// Makes a Fresh definition Live, and tells it that no item is highlighted.
    pub fn begin(&mut self)
        requires { (⟦<TakenMenu as Defined>⟧.loan self.old).definition.stage ≡ Stage.Fresh }
        ensures begun { IsMenuBegun (⟦<TakenMenu as Defined>⟧.loan self.old).definition
            (⟦<TakenMenu as Defined>⟧.loan self.new).definition }
        ensures slot { (⟦<TakenMenu as Defined>⟧.loan self.new).slot ≡ (⟦<TakenMenu as Defined>⟧.loan self.old).slot }
    {
        self.wake();
        let _damage = self.told(MenuChange::Highlighted(None));
    }

    /// Makes a Fresh definition Live.
    fn wake(&mut self)
        requires { (⟦<TakenMenu as Defined>⟧.loan self.old).definition.stage ≡ Stage.Fresh }
        ensures live { (⟦<TakenMenu as Defined>⟧.loan self.new).definition.stage ≡ Stage.Live }
        ensures measures { SameMeasures (⟦<TakenMenu as Defined>⟧.loan self.old).definition
            (⟦<TakenMenu as Defined>⟧.loan self.new).definition }
        ensures look { MenuHears (λ n. n) (⟦<TakenMenu as Defined>⟧.loan self.old).definition
            (⟦<TakenMenu as Defined>⟧.loan self.new).definition }
        ensures slot { (⟦<TakenMenu as Defined>⟧.loan self.new).slot ≡ (⟦<TakenMenu as Defined>⟧.loan self.old).slot }
    {
        self.definition.begin();
    }

    /// Tells a Live definition of a change. The answer is the damage: in every font and for every menu the pictures before
    /// and after are equal outside it, within the range of coordinates.
    pub fn told(&mut self, change: MenuChange) -> Rect
        requires { (⟦<TakenMenu as Defined>⟧.loan self.old).definition.stage ≡ Stage.Live }
        ensures stays { (⟦<TakenMenu as Defined>⟧.loan self.new).definition.stage ≡ Stage.Live }
        ensures measures { SameMeasures (⟦<TakenMenu as Defined>⟧.loan self.old).definition
            (⟦<TakenMenu as Defined>⟧.loan self.new).definition }
        ensures heard { MenuHears (told_menu change) (⟦<TakenMenu as Defined>⟧.loan self.old).definition
            (⟦<TakenMenu as Defined>⟧.loan self.new).definition }
        ensures damage { IsMenuDamage result (⟦<TakenMenu as Defined>⟧.loan self.old).definition
            (⟦<TakenMenu as Defined>⟧.loan self.new).definition }
        ensures answered { IsWithin (rect_holds result)
            ((⟦<TakenMenu as Defined>⟧.loan self.old).definition.damage (told_menu change no_menu_news)) }
        ensures slot { (⟦<TakenMenu as Defined>⟧.loan self.new).slot ≡ (⟦<TakenMenu as Defined>⟧.loan self.old).slot }
    {
        self.definition.told(change)
    }

    /// How large the menu is where it is pulled down: each side is 0..=100000.
    pub fn size(&self, menu: &Menu, font: &Font) -> Size
        ensures value { result ≡ (⟦<TakenMenu as Defined>⟧.loan self.now).definition.size font.now menu.now }
        ensures fits { is_menu_size result ≡ true }
    {
        self.definition.size(menu, font)
    }

    /// The item that a click at the point, local to the menu, chooses, by its number from 1 on, if it chooses one.
    pub fn choose(&self, menu: &Menu, font: &Font, point: Point) -> Option<u8>
        ensures value { result ≡ (⟦<TakenMenu as Defined>⟧.loan self.now).definition.choose font.now menu.now point }
        ensures choice { is_choice menu.now result ≡ true }
    {
        self.definition.choose(menu, font, point)
    }

    /// Gives each pixel of the canvas the value that the menu's picture has there in the canvas's font.
    pub fn draw(&self, menu: &Menu, canvas: &mut Canvas<'_>)
        requires { (⟦<TakenMenu as Defined>⟧.loan self.now).definition.stage ≡ Stage.Live }
        ensures same_map { canvas.new.map.ghost_name ≡ canvas.old.map.ghost_name }
        ensures same_frame { SameFrame canvas.old canvas.new }
        ensures drawn { Draws (canvas_holds canvas.old)
            (λ p _. (⟦<TakenMenu as Defined>⟧.loan self.now).definition.picture no_menu_news
            canvas.old.font.now menu.now (canvas_point canvas.old p))
            canvas.old.map.now canvas.new.map.now }
    {
        self.definition.draw(menu, canvas);
    }
}
