//! A Toolbox over its stock, as contracts see the two.
ghost use Rattle.std.specs.Prelude.{List, Result};
ghost use Rattle.tb_geom.specs.declared.refusal.Refusal.{Refusal};
ghost use Rattle.def_iface.specs.Stocks.{AllSlots};
ghost use Rattle.desk_call.specs.declared.call.Call.{Call as Named};
ghost use Rattle.desk_call.specs.declared.call.Reply.{Reply};
ghost use Rattle.desk_toolbox.specs.Boxed as boxed;
ghost use Rattle.desk_toolbox.specs.ToolboxStates.{ToolboxState};

use crate::Toolbox;
use def_iface::{ControlDef, ListDef, MenuDef, Stock, WindowDef};

/// A desk over the stock that its definitions come from, as contracts see the two. Where a clause speaks of any
/// stock, it names the same over slots.
pub trait Desk {
    /// What its definitions come from.
    type Stock;
    /// The boxes that its definitions lie in: what these mean, the members say.
    type Boxes;

    /// Its state, as plain data: what the calls of its managers act on.
    ghost state: { Self → Self.Stock → ToolboxState };

    /// Its state over slots.
    ghost state_over: { Self → AllSlots → ToolboxState };

    /// It and the stock are whole, as they are between calls: each manager is whole, and the screen is right where
    /// nothing is to be redrawn.
    ghost IsWhole: { Self → Self.Stock → Type 0 };

    /// It is whole over slots.
    ghost IsWholeOver: { Self → AllSlots → Type 0 };

    /// It is whole over some slots.
    ghost IsKept: { Self → Type 0 };

    /// Each of its managers is whole, as in the midst of a call.
    ghost HasWholeManagers: { Self → Self.Stock → Type 0 };

    /// Each of its managers is whole over slots.
    ghost HasWholeManagersOver: { Self → AllSlots → Type 0 };

    /// It can be painted from nothing, whatever its screen shows: so that can be compared with what it should show.
    ghost IsDrawable: { Self → Type 0 };

    /// A call that moves, sizes, shows, hides, selects, brings to the front, sends behind or disposes of a window, or ends a
    /// drag, was economical, between these two: it wrote pixels only where their owner changed, the window moved, or a frame was
    /// to be drawn. Of other calls it says nothing.
    ghost IsEconomical: { Named → Self → Self → Type 0 };

    /// These calls, answered so, led from the first desk to the last one, and each was economical where the desk that it
    /// began on was consistent. A call on windows that was refused wrote nothing.
    ghost IsEconomicalRun: { List Named → List (Result Reply Refusal) → Self → Self.Stock → Self → Self.Stock → Type 0 };
}

impl Desk for Toolbox {
    type Stock = Stock;

    type Boxes = (
        Box<dyn WindowDef>,
        Box<dyn MenuDef>,
        Box<dyn ControlDef>,
        Box<dyn ListDef>,
    );

    ghost state = { boxed.state WindowDef-box MenuDef-box ControlDef-box ListDef-box };

    ghost state_over = { boxed.state_over WindowDef-box MenuDef-box ControlDef-box ListDef-box };

    ghost IsWhole = { boxed.IsWhole WindowDef-box MenuDef-box ControlDef-box ListDef-box };

    ghost IsWholeOver = { boxed.IsWholeOver WindowDef-box MenuDef-box ControlDef-box ListDef-box };

    ghost IsKept = { boxed.IsKept WindowDef-box MenuDef-box ControlDef-box ListDef-box };

    ghost HasWholeManagers = { boxed.HasWholeManagers WindowDef-box MenuDef-box ControlDef-box ListDef-box };

    ghost HasWholeManagersOver = { boxed.HasWholeManagersOver WindowDef-box MenuDef-box ControlDef-box ListDef-box };

    ghost IsDrawable = { boxed.IsDrawable WindowDef-box MenuDef-box ControlDef-box ListDef-box };

    ghost IsEconomical = { boxed.IsEconomical WindowDef-box MenuDef-box ControlDef-box ListDef-box };

    ghost IsEconomicalRun = { boxed.IsEconomicalRun WindowDef-box MenuDef-box ControlDef-box ListDef-box };
}
