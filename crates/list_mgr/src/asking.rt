//! What is asked about lists.
ghost use Rattle.desk_call.specs.declared.list.ListCall.TheVariants as asks;
ghost use Rattle.list_mgr.specs.ListSteps.{IsListStep};

use crate::{DeskLists, Lists};
use def_iface::TakenList;
use desk_call::{CellOf, CellText, ListReply, NextOfCell};
use tb_geom::Refusal;
use window_mgr::{DeskWindows, WindowManager};

impl Lists<TakenList> {
    /// The data of a cell.
    pub(crate) fn data(&self, windows: &WindowManager, asked: CellOf) -> Result<ListReply, Refusal>
        requires { ⟦<WindowManager as DeskWindows>⟧.IsKept windows.now }
        ensures { ⟦<Self as DeskLists>⟧.Tells (IsListStep (asks.GetCell asked) result) windows.now self.now }
    {
        let spot = self.spot(windows, asked.list)?;
        let bytes = self.list.items[spot.list].kept.cells.cell(asked.cell)?;
        let mut data = Vec::new(self.alloc);
        data.extend_from_slice(bytes)?;
        Ok(ListReply::Data(data))
    }

    /// Whether a cell is selected.
    pub(crate) fn is_selected(
        &self,
        windows: &WindowManager,
        asked: CellOf,
    ) -> Result<ListReply, Refusal>
        requires { ⟦<WindowManager as DeskWindows>⟧.IsKept windows.now }
        ensures { ⟦<Self as DeskLists>⟧.Tells (IsListStep (asks.IsSelected asked) result) windows.now self.now }
    {
        let spot = self.spot(windows, asked.list)?;
        let selected = self.list.items[spot.list]
            .kept
            .cells
            .is_selected(asked.cell)?;
        Ok(ListReply::Selected(selected))
    }

    /// The first selected cell, from one on.
    pub(crate) fn first_selected(
        &self,
        windows: &WindowManager,
        asked: CellOf,
    ) -> Result<ListReply, Refusal>
        requires { ⟦<WindowManager as DeskWindows>⟧.IsKept windows.now }
        ensures { ⟦<Self as DeskLists>⟧.Tells (IsListStep (asks.FirstSelected asked) result) windows.now self.now }
    {
        let spot = self.spot(windows, asked.list)?;
        let found = self.list.items[spot.list]
            .kept
            .cells
            .first_selected(asked.cell)?;
        Ok(ListReply::Cell(found))
    }

    /// The cell that follows one.
    pub(crate) fn next_cell(
        &self,
        windows: &WindowManager,
        asked: NextOfCell,
    ) -> Result<ListReply, Refusal>
        requires { ⟦<WindowManager as DeskWindows>⟧.IsKept windows.now }
        ensures { ⟦<Self as DeskLists>⟧.Tells (IsListStep (asks.NextCell asked) result) windows.now self.now }
    {
        let spot = self.spot(windows, asked.cell.list)?;
        let cells = &self.list.items[spot.list].kept.cells;
        let found = cells.next_cell(asked.cell.cell, asked.across, asked.down)?;
        Ok(ListReply::Cell(found))
    }

    /// The first cell that holds just these bytes, from one on.
    pub(crate) fn search(
        &self,
        windows: &WindowManager,
        asked: &CellText<'_>,
    ) -> Result<ListReply, Refusal>
        requires { ⟦<WindowManager as DeskWindows>⟧.IsKept windows.now }
        ensures { ⟦<Self as DeskLists>⟧.Tells (IsListStep (asks.Search asked.now) result) windows.now self.now }
    {
        let spot = self.spot(windows, asked.cell.list)?;
        let cells = &self.list.items[spot.list].kept.cells;
        let found = cells.search(asked.cell.cell, asked.text.as_slice())?;
        Ok(ListReply::Cell(found))
    }
}
