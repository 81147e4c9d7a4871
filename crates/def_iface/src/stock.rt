//! The stock: what the program made, to be taken for use and put back.
ghost use Rattle.std.specs.Prelude.{◌≡◌, All, []};
ghost use Rattle.def_iface.specs.WindowMeaning.{WindowDefinition};
ghost use Rattle.def_iface.specs.Slots.{slots_by};
ghost use Rattle.def_iface.specs.WindowSlots.{IsFull};
ghost use Rattle.def_iface.specs.Stocks.{AllSlots, AreAllFull};

use crate::{ControlStock, ListStock, MenuStock, Stocked, WindowStock};
use std::alloc::Global;

/// Definitions of windows, controls, lists and menus, each of the four in slots of its own. So a kind goes by its name and
/// by what it is a kind of: the same name may stand for a window and for a control.
#[derive(Drop)]
pub struct Stock {
    pub windows: WindowStock,
    pub controls: ControlStock,
    pub lists: ListStock,
    pub menus: MenuStock,
}

/// Of a stock, its slots of window definitions.
impl Stocked for Stock {
    ghost Meaning = { WindowDefinition };

    ghost slots = { λ s. slots_by (λ b. (WindowDef-box b).meaning b.value) s.windows };
}

/// The slots of all four as contracts see them together.
pub trait StockedAll {
    /// The slots, of each of the four in the order in which they were added.
    ghost all_slots: { Self → AllSlots };
}

impl StockedAll for Stock {
    ghost all_slots = { λ s. record {
      windows = slots_by (λ b. (WindowDef-box b).meaning b.value) s.windows;
      menus = slots_by (λ b. (MenuDef-box b).menu_meaning b.value) s.menus;
      controls = slots_by (λ b. (ControlDef-box b).control_meaning b.value) s.controls;
      lists = slots_by (λ b. (ListDef-box b).list_meaning b.value) s.lists;
    } };
}

impl Stock {
    /// A stock without a slot, of windows, of controls, of lists and of menus.
    pub fn new(alloc: Global) -> Stock
        ensures empty { ⟦<Stock as Stocked>⟧.slots result ≡ [] }
        ensures full { All IsFull (⟦<Stock as Stocked>⟧.slots result) }
        ensures none { ⟦<Stock as StockedAll>⟧.all_slots result
            ≡ record { windows = []; menus = []; controls = []; lists = [] } }
        ensures all_full { AreAllFull (⟦<Stock as StockedAll>⟧.all_slots result) }
    {
        Stock {
            windows: WindowStock::new(alloc),
            controls: ControlStock::new(alloc),
            lists: ListStock::new(alloc),
            menus: MenuStock::new(alloc),
        }
    }
}
