//! What a Menu Manager keeps, how it begins, and what the menu bar shows of it.
ghost use Rattle.std.specs.Prelude.{◌≡◌, ◌≤◌, [], length, vec_capacity, None};
ghost use Rattle.menu_list.specs.Lists.{titles_of};
ghost use Rattle.window_mgr.specs.BarShown.{IsBarShown};
ghost use Rattle.menu_mgr.specs.WholeMenus.{AreNoMenus};

use crate::titles::are_shown;
use def_iface::TakenMenu;
use menu_list::MenuList;
use std::alloc::Global;
use window_mgr::{DeskWindows, WindowManager};

/// The menus of a desk.
#[derive(Drop)]
pub struct Menus {
    pub(crate) alloc: Global,
    pub(crate) list: MenuList<TakenMenu>,
}

impl Menus {
    /// No menu, in a list with room for 16. With the list all the memory that menus need is taken, but for their items.
    pub fn new(alloc: Global, none: MenuList<TakenMenu>) -> Menus
        requires empty { none.menus.items ≡ [] }
        requires highlighted { none.highlighted ≡ None }
        requires room { 16 ≤ vec_capacity none.menus }
        ensures { AreNoMenus result }
    {
        Menus { alloc, list: none }
    }

    /// Shows the titles of these menus in the menu bar, which is drawn where it has others. Takes no memory.
    pub(crate) fn show_titles(&self, windows: &mut WindowManager)
        requires few { length self.now.list.menus.items ≤ 16 }
        requires kept { ⟦<WindowManager as DeskWindows>⟧.IsKept windows.old }
        ensures shown { ⟦<WindowManager as DeskWindows>⟧.LeavesState
            (IsBarShown (titles_of self.now.list.highlighted self.now.list.menus.items)) windows.old windows.new }
        ensures spared { windows.old.bar.titles ≡ titles_of self.now.list.highlighted self.now.list.menus.items
            → windows.new ≡ windows.old }
    {
        if !are_shown(windows.parts().titles.as_slice(), &self.list) {
            windows.set_titles(self.list.titles());
        }
    }
}
