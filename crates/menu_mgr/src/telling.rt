//! What the pulled menu is told, and what it shows on the map in front.
ghost use Rattle.std.specs.Prelude.{◌≡◌, ◌<◌, ◌≤◌, length, vec_capacity, Some, None, IfSome, true, pos};
ghost use Rattle.std.specs.Prelude.{slice_get};
ghost use Rattle.std.specs.Option.{option_map};
ghost use Rattle.bit_map.specs.Bits.{Bits};
ghost use Rattle.bit_blit.specs.Draws.{IsWritten};
ghost use Rattle.def_iface.specs.MenuMeaning.{is_menu_size};
ghost use Rattle.desk_call.specs.declared.activity.Activity.TheVariants.{Pulling};
ghost use Rattle.menu_list.specs.Lists.{menu_with};
ghost use Rattle.menu_list.specs.Seen.{seen};
ghost use Rattle.overlay.specs.Overlays.{IsShown, is_menu_place};
ghost use Rattle.menu_mgr.specs.MenuSteps.{IsTold, IsToldAt};
ghost use Rattle.menu_mgr.specs.Pulling.{as_pulled, item_damage, pulled_of};
ghost use Rattle.menu_mgr.specs.WholeMenus.{AreLive};

use crate::{Menus, MenusOnStock};
use def_iface::{Defined, MenuChange, TakenMenu};
use desk_call::PulledMenu;
use overlay::Overlay;
use strike_font::Font;
use window_mgr::WindowManager;

impl Menus {
    /// Shows the menu at an index over the base image, where it lies.
    pub(crate) fn show_pulled(
        &self,
        windows: &WindowManager,
        front: &mut Overlay,
        at: usize,
        pulled: PulledMenu,
    )
        requires at { at < length self.now.list.menus.items }
        requires live { AreLive (⟦<Self as MenusOnStock>⟧.menus self.now) }
        requires place { is_menu_place pulled.place ≡ true }
        requires size { is_menu_size pulled.size ≡ true }
        requires width { front.old.front.width ≡ windows.now.screen.width }
        requires height { front.old.front.height ≡ windows.now.screen.height }
        ensures { IfSome (slice_get self.now.list.menus.items at) (λ l. IsShown windows.now.font
            (Some (as_pulled pulled (seen ⟦<TakenMenu as Defined>⟧.loan l))) windows.now.screen front.new.front) }
    {
        front.show(windows.screen());
        let listed = &self.list.menus[at];
        front.pull(
            &listed.definition,
            &listed.menu,
            pulled.place,
            pulled.size,
            windows.parts().font,
        );
    }

    /// Tells the definition of the pulled menu, which is about to be put away, that no item is highlighted. Takes no memory.
    pub(crate) fn dim_pulled(&mut self, pulled: PulledMenu)
        requires live { AreLive (⟦<Self as MenusOnStock>⟧.menus self.old) }
        ensures told { IsTold pulled None (⟦<Self as MenusOnStock>⟧.menus self.old)
            (⟦<Self as MenusOnStock>⟧.menus self.new) }
        ensures highlighted { self.new.list.highlighted ≡ self.old.list.highlighted }
        ensures room { vec_capacity self.old.list.menus ≤ vec_capacity self.new.list.menus }
        ensures alloc { self.new.alloc ≡ self.old.alloc }
    {
        if let Some(at) = self.index_of(pulled.menu) {
            let listed = &mut self.list.menus[at];
            listed.definition.told(MenuChange::Highlighted(None));
        }
    }

    /// Tells the definition of the pulled menu which item is highlighted, and shows the menu so, within the damage that it
    /// answers: no other pixel of the map in front is written. Takes no memory.
    pub(crate) fn tell(
        &mut self,
        front: &mut Overlay,
        font: &Font,
        pulled: PulledMenu,
        item: Option<u8>,
    )
        requires live { AreLive (⟦<Self as MenusOnStock>⟧.menus self.old) }
        requires place { is_menu_place pulled.place ≡ true }
        requires size { is_menu_size pulled.size ≡ true }
        requires screen { (front.old.front.width ≤ 1024) × (front.old.front.height ≤ 1024) }
        ensures told { IsTold pulled item (⟦<Self as MenusOnStock>⟧.menus self.old)
            (⟦<Self as MenusOnStock>⟧.menus self.new) }
        ensures highlighted { self.new.list.highlighted ≡ self.old.list.highlighted }
        ensures room { vec_capacity self.old.list.menus ≤ vec_capacity self.new.list.menus }
        ensures alloc { self.new.alloc ≡ self.old.alloc }
        ensures front { (base : Bits)
            → IsShown font.now (pulled_of (Pulling pulled)
            (⟦<Self as MenusOnStock>⟧.menus self.old)) base front.old.front
            → IsShown font.now (pulled_of (Pulling pulled)
            (⟦<Self as MenusOnStock>⟧.menus self.new)) base front.new.front }
        ensures within { IsWritten (item_damage pulled item
            (menu_with (pos pulled.menu) (⟦<Self as MenusOnStock>⟧.menus self.old))) front.old.front front.new.front }
    {
        if let Some(at) = self.index_of(pulled.menu) {
            self.tell_at(front, font, at, pulled, item);
        }
    }

    /// Tells it where its menu stands at this index.
    fn tell_at(
        &mut self,
        front: &mut Overlay,
        font: &Font,
        at: usize,
        pulled: PulledMenu,
        item: Option<u8>,
    )
        requires at { at < length self.old.list.menus.items }
        requires live { AreLive (⟦<Self as MenusOnStock>⟧.menus self.old) }
        requires place { is_menu_place pulled.place ≡ true }
        requires size { is_menu_size pulled.size ≡ true }
        requires screen { (front.old.front.width ≤ 1024) × (front.old.front.height ≤ 1024) }
        ensures told { IsToldAt (Some at) item (⟦<Self as MenusOnStock>⟧.menus self.old)
            (⟦<Self as MenusOnStock>⟧.menus self.new) }
        ensures highlighted { self.new.list.highlighted ≡ self.old.list.highlighted }
        ensures room { vec_capacity self.old.list.menus ≤ vec_capacity self.new.list.menus }
        ensures alloc { self.new.alloc ≡ self.old.alloc }
        ensures front { (base : Bits)
            → IsShown font.now (option_map (as_pulled pulled)
            (slice_get (⟦<Self as MenusOnStock>⟧.menus self.old) at)) base front.old.front
            → IsShown font.now (option_map (as_pulled pulled)
            (slice_get (⟦<Self as MenusOnStock>⟧.menus self.new) at)) base front.new.front }
        ensures within { IsWritten (item_damage pulled item (slice_get (⟦<Self as MenusOnStock>⟧.menus self.old) at))
            front.old.front front.new.front }
    {
        let listed = &mut self.list.menus[at];
        let damage = listed.definition.told(MenuChange::Highlighted(item));
        front.redraw(
            &listed.definition,
            &listed.menu,
            pulled.place,
            pulled.size,
            damage,
            font,
        );
    }
}
