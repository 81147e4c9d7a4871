//! Calls, one by one.
ghost use Rattle.std.specs.Prelude.{◌≡◌, ◌≤◌, List, None, length, true};
ghost use Rattle.tb_geom.specs.Points.{PixelSet};
ghost use Rattle.menu_list.specs.Lists.{titles_of};
ghost use Rattle.desk_call.specs.Gates.{gate, menu_standing};
ghost use Rattle.desk_call.specs.declared.activity.Activity.TheVariants.{Idle};
ghost use Rattle.menu_mgr.specs.Leaving.{opened};
ghost use Rattle.desk_call.specs.declared.menu.MenuCall.TheVariants as asks;
ghost use Rattle.menu_mgr.specs.MenuDesks.{MenuSlot};
ghost use Rattle.menu_mgr.specs.MenuSteps.{IsMenuStep, is_edit};

use crate::{DeskMenus, MenuCall, MenuReply, Menus, MenusOnStock, NewMenu};
use def_iface::MenuStock;
use desk_call::Activity;
use menu_list::edit;
use overlay::Overlay;
use tb_geom::Refusal;
use window_mgr::{DeskWindows, WindowManager};

impl Menus {
    /// Performs one call on these menus beside these windows, which may come while this is open, and gives its answer. The
    /// map in front of the windows' screen then shows the menu that is pulled down. A refused call changes nothing; which
    /// refusal comes first where several would do stands with the call. Where the menu bar has the titles already that it is to
    /// have, nothing is drawn on the screen.
    pub fn perform(
        &mut self,
        windows: &mut WindowManager,
        front: &mut Overlay,
        activity: &mut Activity,
        call: &MenuCall<'_>,
        stock: &mut MenuStock,
    ) -> Result<MenuReply, Refusal>
        requires kept { ⟦<WindowManager as DeskWindows>⟧.IsKept windows.old }
        requires menus { ⟦<Self as MenusOnStock>⟧.IsWhole activity.old self.old stock.old }
        requires front { ⟦<Self as DeskMenus>⟧.IsFront activity.old windows.old self.old front.old }
        requires admitted { gate activity.old (menu_standing call.now) ≡ None }
        ensures step { (begun : PixelSet) → ⟦<Self as DeskMenus>⟧.LeavesStock stock.old stock.new
            (IsMenuStep call.now result)
            windows.old (opened activity.old begun) self.old windows.new (opened activity.new begun) self.new }
        ensures front { ⟦<Self as DeskMenus>⟧.IsFront activity.new windows.new self.new front.new }
        ensures spared { windows.old.bar.titles ≡ titles_of self.new.list.highlighted self.new.list.menus.items
            → windows.new ≡ windows.old }
    {
        match call {
            MenuCall::New(new) => self.make_and_show(windows, new, stock),
            MenuCall::Dispose(menu) => self.end_and_show(windows, *menu, stock),
            MenuCall::Down(point) => self.press_at(windows, front, activity, *point),
            MenuCall::Move(point) => match *activity {
                Activity::Pulling(pulled) => {
                    self.move_to(windows, front, activity, pulled, *point)
                }
                _ => unreachable!(),
            },
            MenuCall::Up(point) => match *activity {
                Activity::Pulling(pulled) => self.release_at(windows, activity, pulled, *point),
                _ => unreachable!(),
            },
            _ => self.edit_and_show(windows, call),
        }
    }

    /// Makes a menu.
    fn make_and_show(
        &mut self,
        windows: &mut WindowManager,
        new: &NewMenu<'_>,
        stock: &mut MenuStock,
    ) -> Result<MenuReply, Refusal>
        requires kept { ⟦<WindowManager as DeskWindows>⟧.IsKept windows.old }
        requires menus { ⟦<Self as MenusOnStock>⟧.IsWhole Idle self.old stock.old }
        ensures step { (begun : PixelSet) → ⟦<Self as DeskMenus>⟧.LeavesStock stock.old stock.new
            (IsMenuStep (asks.New new.now) result)
            windows.old (opened Idle begun) self.old windows.new (opened Idle begun) self.new }
        ensures spared { windows.old.bar.titles ≡ titles_of self.new.list.highlighted self.new.list.menus.items
            → windows.new ≡ windows.old }
    {
        match self.make(new, stock) {
            Ok(reply) => {
                self.show_titles(windows);
                Ok(reply)
            }
            Err(refusal) => Err(refusal),
        }
    }

    /// Ends a menu.
    fn end_and_show(
        &mut self,
        windows: &mut WindowManager,
        menu: i32,
        stock: &mut MenuStock,
    ) -> Result<MenuReply, Refusal>
        requires kept { ⟦<WindowManager as DeskWindows>⟧.IsKept windows.old }
        requires menus { ⟦<Self as MenusOnStock>⟧.IsWhole Idle self.old stock.old }
        ensures step { (begun : PixelSet) → ⟦<Self as DeskMenus>⟧.LeavesStock stock.old stock.new
            (IsMenuStep (asks.Dispose menu) result)
            windows.old (opened Idle begun) self.old windows.new (opened Idle begun) self.new }
        ensures spared { windows.old.bar.titles ≡ titles_of self.new.list.highlighted self.new.list.menus.items
            → windows.new ≡ windows.old }
    {
        match self.end(menu, stock) {
            Ok(reply) => {
                self.show_titles(windows);
                Ok(reply)
            }
            Err(refusal) => Err(refusal),
        }
    }

    /// Changes menus as data.
    fn edit_and_show(
        &mut self,
        windows: &mut WindowManager,
        call: &MenuCall<'_>,
    ) -> Result<MenuReply, Refusal>
        requires kept { ⟦<WindowManager as DeskWindows>⟧.IsKept windows.old }
        requires edits { is_edit call.now ≡ true }
        requires few { length self.old.list.menus.items ≤ 16 }
        ensures step { (begun : PixelSet) (kept : List MenuSlot)
            → ⟦<Self as MenusOnStock>⟧.IsWholeOver Idle self.old kept
            → ⟦<Self as DeskMenus>⟧.LeavesOver kept kept
            (IsMenuStep call.now result)
            windows.old (opened Idle begun) self.old windows.new (opened Idle begun) self.new }
        ensures spared { windows.old.bar.titles ≡ titles_of self.new.list.highlighted self.new.list.menus.items
            → windows.new ≡ windows.old }
    {
        match edit(&mut self.list, call) {
            Ok(reply) => {
                self.show_titles(windows);
                Ok(reply)
            }
            Err(refusal) => Err(refusal),
        }
    }
}
