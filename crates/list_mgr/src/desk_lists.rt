//! Lists over their stock, beside windows, and with their scroll bars among controls, as contracts see them.
ghost use Rattle.std.specs.Prelude.{List};
ghost use Rattle.control_mgr.specs.ControlDesks.{ControlSlot};
ghost use Rattle.list_mgr.specs.Boxed as boxed;
ghost use Rattle.list_mgr.specs.ListDesks.{KeptList, ListDesk, ListSlot, ListsState};

use crate::Lists;
use control_mgr::Controls;
use def_iface::{ControlDef, ControlStock, ListDef, ListStock, TakenControl, TakenList, WindowDef};
use window_mgr::WindowManager;

/// The lists of a desk over the stock that their definitions come from, as contracts see them.
pub trait ListsOnStock {
    /// What the lists' definitions come from.
    type Stock;
    /// The boxes that these lie in: what they mean, the members say.
    type Boxes;

    /// The lists as plain data.
    ghost records: { Self → List KeptList };

    /// Their state: the lists, the serial of the next one, and the stock.
    ghost state: { Self → Self.Stock → ListsState };
}

impl ListsOnStock for Lists<TakenList> {
    type Stock = ListStock;

    type Boxes = Box<dyn ListDef>;

    ghost records = { boxed.records ListDef-box };

    ghost state = { boxed.state ListDef-box };
}

/// The lists of a desk beside its windows, as contracts see them.
pub trait DeskLists {
    /// The windows.
    type Windows;
    /// What the lists' definitions come from.
    type Stock;
    /// The boxes that definitions lie in: what these mean, the members say.
    type Boxes;

    /// They and the stock are whole beside these windows, as they are between calls: each is settled, in a window that is
    /// there, and shown by a layer of that behind its controls.
    ghost IsWhole: { Self.Windows → Self → Self.Stock → Type 0 };

    /// They are whole beside these windows over some slots.
    ghost AreBeside: { Self.Windows → Self → Type 0 };

    /// A call changes nothing: over any slots over which windows and lists are whole, and whatever the controls, this holds
    /// of the desk that they are together.
    ghost Tells: { (ListDesk → ListDesk → Type 0) → Self.Windows → Self → Type 0 };

    /// A call leaves the windows' records, the controls and all stocks: over any slots over which windows and lists are
    /// whole both are so afterwards, and this holds of the desk that they are together, whatever the controls.
    ghost Changes: { (ListDesk → ListDesk → Type 0) → Self.Windows → Self → Self.Windows → Self → Type 0 };
}

impl DeskLists for Lists<TakenList> {
    type Windows = WindowManager;

    type Stock = ListStock;

    type Boxes = (Box<dyn ListDef>, Box<dyn WindowDef>);

    ghost IsWhole = { boxed.IsWhole ListDef-box WindowDef-box };

    ghost AreBeside = { boxed.AreBeside ListDef-box WindowDef-box };

    ghost Tells = { boxed.Tells ListDef-box WindowDef-box };

    ghost Changes = { boxed.Changes ListDef-box WindowDef-box };
}

/// The lists of a desk beside its windows and controls, among which their scroll bars are, as contracts see them. Where a clause
/// speaks of any stocks, it names the same over slots.
pub trait DeskListsWithBars {
    /// The windows.
    type Windows;
    /// The controls.
    type Controls;
    /// What the controls' definitions come from.
    type ControlStock;
    /// What the lists' definitions come from.
    type Stock;
    /// The boxes that definitions lie in: what these mean, the members say.
    type Boxes;

    /// Over any slots over which windows, controls and lists are whole, all are so afterwards, and this holds of the desk that
    /// they are together. The slots are the same before and after.
    ghost Leaves: { (ListDesk → ListDesk → Type 0)
        → Self.Windows → Self.Controls → Self → Self.Windows → Self.Controls → Self → Type 0 };

    /// The same over these stocks of controls and of lists, each before and after.
    ghost LeavesStocks: { Self.ControlStock → Self.ControlStock → Self.Stock → Self.Stock
        → (ListDesk → ListDesk → Type 0)
        → Self.Windows → Self.Controls → Self → Self.Windows → Self.Controls → Self → Type 0 };

    /// The same over slots of the two, before and after.
    ghost LeavesOver: { List ControlSlot → List ControlSlot → List ListSlot → List ListSlot
        → (ListDesk → ListDesk → Type 0)
        → Self.Windows → Self.Controls → Self → Self.Windows → Self.Controls → Self → Type 0 };
}

impl DeskListsWithBars for Lists<TakenList> {
    type Windows = WindowManager;

    type Controls = Controls<TakenControl>;

    type ControlStock = ControlStock;

    type Stock = ListStock;

    type Boxes = (Box<dyn ListDef>, Box<dyn WindowDef>, Box<dyn ControlDef>);

    ghost Leaves = { boxed.Leaves ListDef-box WindowDef-box ControlDef-box };

    ghost LeavesStocks = { boxed.LeavesStocks ListDef-box WindowDef-box ControlDef-box };

    ghost LeavesOver = { boxed.LeavesOver ListDef-box WindowDef-box ControlDef-box };
}
