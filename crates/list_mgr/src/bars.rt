//! The scroll bars of a list, set as its view is.
ghost use Rattle.desk_call.specs.declared.list.ListOf.{ListOf as Named};
ghost use Rattle.list_mgr.specs.Lines.{IsBarSetOver};
ghost use Rattle.list_mgr.specs.ListSteps.{AreBarsSet};
ghost use Rattle.list_mgr.specs.Spots.{IsSpot, IsSpotOf};
ghost use Rattle.list_mgr.specs.Within.{IsWhereRight};

use crate::spots::ListAt;
use crate::{DeskLists, DeskListsWithBars, Lists};
use control_mgr::{Controls, DeskControls};
use control_values::ControlValues;
use def_iface::{Defined, TakenControl, TakenList, TakenWindow};
use desk_call::ControlOf;
use window_mgr::{DeskWindows, WindowManager};

/// Sets a scroll bar of a list in this window, if the list was made with one and the window has it still.
fn set_bar(
    windows: &mut WindowManager,
    controls: &mut Controls<TakenControl>,
    window: u64,
    bar: Option<u64>,
    values: ControlValues,
)
    requires kept { ⟦<WindowManager as DeskWindows>⟧.IsKept windows.old }
    requires beside { ⟦<Controls<TakenControl> as DeskControls>⟧.AreBeside windows.old controls.old }
    ensures { IsBarSetOver ⟦<TakenControl as Defined>⟧.loan ⟦<TakenWindow as Defined>⟧.loan window bar values
        windows.old controls.old windows.new controls.new }
{
    if let Some(control) = bar {
        controls.set_setting(windows, ControlOf { window, control }, values);
    }
}

impl Lists<TakenList> {
    /// Sets the scroll bars of the list that stands here as its view is. It takes no memory.
    pub(crate) fn set_bars(
        &self,
        windows: &mut WindowManager,
        controls: &mut Controls<TakenControl>,
        spot: ListAt,
    )
        requires kept { ⟦<WindowManager as DeskWindows>⟧.IsKept windows.old }
        requires beside { ⟦<Controls<TakenControl> as DeskControls>⟧.AreBeside windows.old controls.old }
        requires lists { ⟦<Self as DeskLists>⟧.AreBeside windows.old self.now }
        requires spot { IsSpot ⟦<TakenWindow as Defined>⟧.loan ⟦<TakenList as Defined>⟧.loan windows.old self.now spot }
        ensures { (l : Named) → IsSpotOf ⟦<TakenWindow as Defined>⟧.loan ⟦<TakenList as Defined>⟧.loan l windows.old
            self.now spot
            → ⟦<Self as DeskListsWithBars>⟧.Leaves
            (IsWhereRight (AreBarsSet l)) windows.old controls.old self.now windows.new controls.new self.now }
    {
        let list = &self.list.items[spot.list];
        let down = list.kept.view.vertical_values(list.kept.cells.rows());
        set_bar(windows, controls, list.window, list.kept.vertical, down);
        let across = list.kept.view.horizontal_values(list.kept.cells.columns());
        set_bar(windows, controls, list.window, list.kept.horizontal, across);
    }
}
