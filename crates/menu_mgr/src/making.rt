//! Menus that are made and ended, and the end of a desk.
ghost use Rattle.std.specs.Prelude.{◌≡◌, ◌<◌, ◌≤◌, ◌++◌, ◌∷◌, length, vec_capacity, None, Some, MatchResult};
ghost use Rattle.menu_list.specs.Lists.{menu_index};
ghost use Rattle.menu_record.specs.Edits.{new_menu};
ghost use Rattle.menu_mgr.specs.MakingSteps.{IsEndedIfThere, IsListed, IsMadeOrRefused};
ghost use Rattle.menu_mgr.specs.MenuClosing.{AreMenusClosed};
ghost use Rattle.menu_list.specs.EditRefusals.{judged_refusals};
ghost use Rattle.menu_mgr.specs.MenuRefusals.{menu_form_refusals};
ghost use Rattle.menu_mgr.specs.WholeMenus.{AreLive, AreMenusStocked, menus_of};
ghost use Rattle.tb_geom.specs.Refusals.{first_refusal};

use crate::{MenuCall, MenuReply, Menus, MenusOnStock, NewMenu};
use def_iface::{Defined, MenuStock, Stage, Stocked, TakenMenu, put_away};
use menu_list::{Listed, MenuList, index_of};
use menu_record::Menu;
use tb_geom::Refusal;

/// The kind by whose name the stock finds menus' definitions.
const KIND: &[u8] = b"menu";

/// As many menus as there may be.
const MOST_MENUS: usize = 16;

/// Why a call is refused whatever is open: the stock has no kind of menus.
pub fn form_refusal(call: &MenuCall<'_>, stock: &MenuStock) -> Option<Refusal>
    ensures { result ≡ first_refusal (menu_form_refusals call.now (⟦<MenuStock as Stocked>⟧.slots stock.now)) }
{
    match call {
        MenuCall::New(_) if !stock.has(KIND) => Some(Refusal::NoSuchName),
        _ => None,
    }
}

impl Menus {
    /// Makes a menu, which is not in the menu bar yet.
    pub(crate) fn make(
        &mut self,
        new: &NewMenu<'_>,
        stock: &mut MenuStock,
    ) -> Result<MenuReply, Refusal>
        requires { 16 ≤ vec_capacity self.old.list.menus }
        ensures { IsMadeOrRefused ⟦<TakenMenu as Defined>⟧.loan new.now result self.old self.new
            (⟦<MenuStock as Stocked>⟧.slots stock.old) (⟦<MenuStock as Stocked>⟧.slots stock.new) }
    {
        if !stock.has(KIND) {
            return Err(Refusal::NoSuchName);
        }
        let menu = self.judge(new)?;
        let taken = stock.take(KIND)?;
        self.list(menu, taken);
        Ok(MenuReply::Done)
    }

    /// The menu that is to be made, where nothing but the stock can refuse it.
    fn judge(&self, new: &NewMenu<'_>) -> Result<Menu, Refusal>
        ensures { let refusals = judged_refusals new.now self.now.list.menus.items in
            MatchResult result
            (λ menu. (first_refusal refusals ≡ None) × (menu ≡ new_menu new.now.menu new.now.title)
            × (length self.now.list.menus.items < 16))
            (λ e. first_refusal refusals ≡ Some e) }
    {
        if self.list.find(new.menu).is_some() {
            return Err(Refusal::OutOfRange);
        }
        let menu = Menu::new(self.alloc, new.menu, new.title.as_slice())?;
        if MOST_MENUS <= self.list.menus.len() {
            return Err(Refusal::TooMany);
        }
        Ok(menu)
    }

    /// Begins a menu's definition, and puts both behind the other menus.
    fn list(&mut self, menu: Menu, taken: TakenMenu)
        requires fresh { (⟦<TakenMenu as Defined>⟧.loan taken).definition.stage ≡ Stage.Fresh }
        requires room { length self.old.list.menus.items < vec_capacity self.old.list.menus }
        ensures { IsListed ⟦<TakenMenu as Defined>⟧.loan menu (⟦<TakenMenu as Defined>⟧.loan taken) self.old self.new }
    {
        let mut taken = taken;
        taken.begin();
        self.list.push(Listed {
            menu,
            inserted: false,
            definition: taken,
        });
    }

    /// Ends a menu: its definition is disposed of, and put back Closed into its slot.
    pub(crate) fn end(&mut self, menu: i32, stock: &mut MenuStock) -> Result<MenuReply, Refusal>
        requires live { AreLive (⟦<Self as MenusOnStock>⟧.menus self.old) }
        requires stocked { AreMenusStocked (⟦<Self as MenusOnStock>⟧.menus self.old)
            (⟦<MenuStock as Stocked>⟧.slots stock.old) }
        ensures { IsEndedIfThere ⟦<TakenMenu as Defined>⟧.loan (menu_index menu self.old.list.menus.items) result
            self.old self.new
            (⟦<MenuStock as Stocked>⟧.slots stock.old) (⟦<MenuStock as Stocked>⟧.slots stock.new) }
    {
        let at = index_of(&self.list, menu)?;
        let Listed { definition, .. } = self.list.remove(at);
        put_away(definition, stock);
        Ok(MenuReply::Done)
    }

    /// Ends the desk's menus: the definition of every one is disposed of, and put back Closed into its slot, while every other
    /// slot stays as it was. Takes no memory, and refuses nothing.
    pub fn close(self, stock: &mut MenuStock)
        requires live { AreLive (⟦<Self as MenusOnStock>⟧.menus self) }
        requires stocked { AreMenusStocked (⟦<Self as MenusOnStock>⟧.menus self)
            (⟦<MenuStock as Stocked>⟧.slots stock.old) }
        ensures { AreMenusClosed (⟦<Self as MenusOnStock>⟧.menus self)
            (⟦<MenuStock as Stocked>⟧.slots stock.old) (⟦<MenuStock as Stocked>⟧.slots stock.new) }
    {
        let Menus { list, .. } = self;
        put_all_away(list, stock);
    }
}

/// Ends the use of every menu's definition.
fn put_all_away(list: MenuList<TakenMenu>, stock: &mut MenuStock)
    requires live { AreLive (menus_of ⟦<TakenMenu as Defined>⟧.loan list.menus.items) }
    requires stocked { AreMenusStocked (menus_of ⟦<TakenMenu as Defined>⟧.loan list.menus.items)
        (⟦<MenuStock as Stocked>⟧.slots stock.old) }
    ensures { AreMenusClosed (menus_of ⟦<TakenMenu as Defined>⟧.loan list.menus.items)
        (⟦<MenuStock as Stocked>⟧.slots stock.old) (⟦<MenuStock as Stocked>⟧.slots stock.new) }
{
    let MenuList { menus, .. } = list;
    let mut menus = menus;
    while let Some(listed) = menus.pop() {
        put_away(listed.definition, stock);
    }
}
