//! Menus over their stock, and beside windows, as contracts see them.
ghost use Rattle.std.specs.Prelude.{List};
ghost use Rattle.desk_call.specs.declared.activity.Activity.{Activity};
ghost use Rattle.overlay.specs.declared.overlay.Overlay.{Overlay};
ghost use Rattle.window_mgr.specs.DeskStates.{Opened};
ghost use Rattle.menu_mgr.specs.Boxed as boxed;
ghost use Rattle.menu_mgr.specs.MenuDesks.{MenuDesk, MenuRecord, MenuSlot};

use crate::Menus;
use def_iface::{MenuDef, MenuStock, WindowDef};
use window_mgr::WindowManager;

/// The menus of a desk over the stock that their definitions come from, as contracts see them. Where a clause speaks of any
/// stock, it names the same over slots.
pub trait MenusOnStock {
    /// What the menus' definitions come from.
    type Stock;
    /// The boxes that these lie in: what they mean, the members say.
    type Boxes;

    /// The menus as plain data.
    ghost menus: { Self → List MenuRecord };

    /// They and the stock are whole where this is open, as they are between calls.
    ghost IsWhole: { Activity → Self → Self.Stock → Type 0 };

    /// They are so over slots.
    ghost IsWholeOver: { Activity → Self → List MenuSlot → Type 0 };

    /// They are so over some slots.
    ghost AreKept: { Activity → Self → Type 0 };
}

impl MenusOnStock for Menus {
    type Stock = MenuStock;

    type Boxes = Box<dyn MenuDef>;

    ghost menus = { boxed.menus MenuDef-box };

    ghost IsWhole = { boxed.IsWhole MenuDef-box };

    ghost IsWholeOver = { boxed.IsWholeOver MenuDef-box };

    ghost AreKept = { boxed.AreKept MenuDef-box };
}

/// The menus of a desk beside its windows, as contracts see them. Where a clause speaks of any stock, it names the same over
/// slots.
pub trait DeskMenus {
    /// The windows.
    type Windows;
    /// What the menus' definitions come from.
    type Stock;
    /// The boxes that definitions lie in: what these mean, the members say.
    type Boxes;

    /// The map in front is as large as the windows' screen, and shows the menu that is pulled down over it, if one is.
    ghost IsFront: { Activity → Self.Windows → Self → Overlay → Type 0 };

    /// Over any slots over which windows and menus are whole both are so afterwards, and this holds of the desk that they
    /// are together. The menus' slots are the same before and after.
    ghost Leaves: { (MenuDesk → MenuDesk → Type 0)
        → Self.Windows → Opened → Self → Self.Windows → Opened → Self → Type 0 };

    /// The same over this stock before and this one after, over which they are whole before.
    ghost LeavesStock: { Self.Stock → Self.Stock → (MenuDesk → MenuDesk → Type 0)
        → Self.Windows → Opened → Self → Self.Windows → Opened → Self → Type 0 };

    /// The same over slots before and after.
    ghost LeavesOver: { List MenuSlot → List MenuSlot → (MenuDesk → MenuDesk → Type 0)
        → Self.Windows → Opened → Self → Self.Windows → Opened → Self → Type 0 };
}

impl DeskMenus for Menus {
    type Windows = WindowManager;

    type Stock = MenuStock;

    type Boxes = (Box<dyn MenuDef>, Box<dyn WindowDef>);

    ghost IsFront = { boxed.IsFront MenuDef-box };

    ghost Leaves = { boxed.Leaves MenuDef-box WindowDef-box };

    ghost LeavesStock = { boxed.LeavesStock MenuDef-box WindowDef-box };

    ghost LeavesOver = { boxed.LeavesOver MenuDef-box WindowDef-box };
}
