//! Controls over their stock, and beside windows, as contracts see them.
ghost use Rattle.std.specs.Prelude.{List};
ghost use Rattle.window_mgr.specs.DeskStates.{Opened};
ghost use Rattle.control_mgr.specs.Boxed as boxed;
ghost use Rattle.control_mgr.specs.ControlDesks.{ControlDesk, ControlRecord, ControlSlot, ControlsState};

use crate::Controls;
use def_iface::{ControlDef, ControlStock, TakenControl, WindowDef};
use window_mgr::WindowManager;

/// The controls of a desk over the stock that their definitions come from, as contracts see them.
pub trait ControlsOnStock {
    /// What the controls' definitions come from.
    type Stock;
    /// The boxes that these lie in: what they mean, the members say.
    type Boxes;

    /// The controls as plain data.
    ghost records: { Self → List ControlRecord };

    /// Their state: the controls, the serial of the next one, and the stock.
    ghost state: { Self → Self.Stock → ControlsState };
}

impl ControlsOnStock for Controls<TakenControl> {
    type Stock = ControlStock;

    type Boxes = Box<dyn ControlDef>;

    ghost records = { boxed.records ControlDef-box };

    ghost state = { boxed.state ControlDef-box };
}

/// The controls of a desk beside its windows, as contracts see them. Where a clause speaks of any stock, it names the same over
/// slots.
pub trait DeskControls {
    /// The windows.
    type Windows;
    /// What the controls' definitions come from.
    type Stock;
    /// The boxes that definitions lie in: what these mean, the members say.
    type Boxes;

    /// They and the stock are whole beside these windows, as they are between calls: each is settled, in a window that is
    /// there, and shown by a layer of that.
    ghost IsWhole: { Self.Windows → Self → Self.Stock → Type 0 };

    /// They are whole beside these windows over some slots.
    ghost AreBeside: { Self.Windows → Self → Type 0 };

    /// Whatever other layers show, over any slots over which windows and controls are whole both are so afterwards, and this
    /// holds of the desk that they are together. The controls' slots are the same before and after.
    ghost Leaves: { (ControlDesk → ControlDesk → Type 0)
        → Self.Windows → Opened → Self → Self.Windows → Opened → Self → Type 0 };

    /// The same over this stock before and this one after.
    ghost LeavesStock: { Self.Stock → Self.Stock → (ControlDesk → ControlDesk → Type 0)
        → Self.Windows → Opened → Self → Self.Windows → Opened → Self → Type 0 };

    /// The same over slots before and after.
    ghost LeavesOver: { List ControlSlot → List ControlSlot → (ControlDesk → ControlDesk → Type 0)
        → Self.Windows → Opened → Self → Self.Windows → Opened → Self → Type 0 };
}

impl DeskControls for Controls<TakenControl> {
    type Windows = WindowManager;

    type Stock = ControlStock;

    type Boxes = (Box<dyn ControlDef>, Box<dyn WindowDef>);

    ghost IsWhole = { boxed.IsWhole ControlDef-box WindowDef-box };

    ghost AreBeside = { boxed.AreBeside ControlDef-box WindowDef-box };

    ghost Leaves = { boxed.Leaves ControlDef-box WindowDef-box };

    ghost LeavesStock = { boxed.LeavesStock ControlDef-box WindowDef-box };

    ghost LeavesOver = { boxed.LeavesOver ControlDef-box WindowDef-box };
}
