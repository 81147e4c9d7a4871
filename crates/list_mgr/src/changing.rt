//! What changes of a list but its selection: its cells, how far it is scrolled, and whether it is drawn.
ghost use Rattle.std.specs.Prelude.{◌≡◌, false, not, MatchResult};
ghost use Rattle.std.specs.Str.{bytes_eq};
ghost use Rattle.desk_call.specs.declared.list.ListCall.TheVariants as asks;
ghost use Rattle.window_mgr.specs.Edits.{IsWindowAt};
ghost use Rattle.list_mgr.specs.Changing.{IsDrawing, IsItsLayer, IsMark, IsShownOrMarked, WritesList};
ghost use Rattle.list_mgr.specs.ListSteps.{IsListStep};
ghost use Rattle.list_mgr.specs.Spots.{IsSpot};
ghost use Rattle.list_mgr.specs.Within.{IsWhereRight};

use crate::spots::ListAt;
use crate::{DeskLists, Lists};
use def_iface::{Defined, TakenList, TakenWindow};
use desk_call::{CellOf, CellText, ListDrawing, ListReply};
use desk_layers::Part;
use scan_region::Region;
use std::alloc::AllocError;
use tb_geom::{Rect, Refusal};
use window_list::Layers;
use window_mgr::{DeskWindows, WindowManager};

/// Whether two texts differ.
fn differ(old: &[u8], new: &[u8]) -> bool
    ensures { result ≡ not (bytes_eq old.now new.now) }
{
    old != new
}

impl Lists<TakenList> {
    /// The index of a list's layer among the layers of its window.
    pub(crate) fn layer(&self, windows: &WindowManager, spot: ListAt) -> usize
        requires beside { ⟦<Self as DeskLists>⟧.AreBeside windows.now self.now }
        requires spot { IsSpot ⟦<TakenWindow as Defined>⟧.loan ⟦<TakenList as Defined>⟧.loan windows.now self.now spot }
        ensures { (w : _) → IsWindowAt windows.now.windows.records.items spot.window w
            → IsItsLayer ⟦<TakenList as Defined>⟧.loan self.now spot w.layers.layers result }
    {
        let serial = self.list.items[spot.list].serial;
        let layers = &windows.list().at(spot.window).layers;
        layers.find(Part::List(serial)).unwrap()
    }

    /// The update region of a list's window with all that the list owns, where its drawing is off; while it is on, this takes no
    /// memory.
    pub(crate) fn mark(
        &self,
        windows: &WindowManager,
        spot: ListAt,
    ) -> Result<Option<Region>, AllocError>
        requires kept { ⟦<WindowManager as DeskWindows>⟧.IsKept windows.now }
        requires beside { ⟦<Self as DeskLists>⟧.AreBeside windows.now self.now }
        requires spot { IsSpot ⟦<TakenWindow as Defined>⟧.loan ⟦<TakenList as Defined>⟧.loan windows.now self.now spot }
        ensures { MatchResult result (IsMark ⟦<TakenList as Defined>⟧.loan ⟦<TakenWindow as Defined>⟧.loan windows.now
            self.now spot)
            (λ _. IsDrawing ⟦<TakenList as Defined>⟧.loan false self.now spot) }
    {
        if self.list.items[spot.list].kept.drawing {
            return Ok(None);
        }
        let layer = self.layer(windows, spot);
        let own = windows.list().at(spot.window).layers.owned(layer);
        let area = windows.area(spot.window);
        let shown = area.visible.sect(self.alloc, own)?;
        let update = area.update.union(self.alloc, &shown)?;
        Ok(Some(update))
    }

    /// Draws a list within a rectangle of its window where it is not to be redrawn, or, where its drawing is off and something of it
    /// changes, makes this the update region of its window. No other pixel of the screen is written. It takes no memory.
    pub(crate) fn show(
        &self,
        windows: &mut WindowManager,
        spot: ListAt,
        within: Rect,
        mark: Option<Region>,
        changes: bool,
    )
        requires kept { ⟦<WindowManager as DeskWindows>⟧.IsKept windows.old }
        requires beside { ⟦<Self as DeskLists>⟧.AreBeside windows.old self.now }
        requires spot { IsSpot ⟦<TakenWindow as Defined>⟧.loan ⟦<TakenList as Defined>⟧.loan windows.old self.now spot }
        requires mark { IsMark ⟦<TakenList as Defined>⟧.loan ⟦<TakenWindow as Defined>⟧.loan windows.old self.now spot
            mark }
        ensures shown { IsShownOrMarked ⟦<TakenList as Defined>⟧.loan ⟦<TakenWindow as Defined>⟧.loan within mark changes
            spot self.now windows.old windows.new }
        ensures within { WritesList ⟦<TakenList as Defined>⟧.loan ⟦<TakenWindow as Defined>⟧.loan within spot self.now
            windows.old windows.new }
    {
        match mark {
            None => {
                let layer = self.layer(windows, spot);
                windows.show_layer(spot.window, layer, within, self);
            }
            Some(update) => {
                if changes {
                    windows.set_update(spot.window, update);
                }
            }
        }
    }

    /// Gives a cell other data.
    pub(crate) fn set_cell(
        &mut self,
        windows: &mut WindowManager,
        set: &CellText<'_>,
    ) -> Result<ListReply, Refusal>
        requires kept { ⟦<WindowManager as DeskWindows>⟧.IsKept windows.old }
        requires beside { ⟦<Self as DeskLists>⟧.AreBeside windows.old self.old }
        ensures { ⟦<Self as DeskLists>⟧.Changes
            (IsWhereRight (IsListStep (asks.SetCell set.now) result)) windows.old self.old windows.new self.new }
    {
        let spot = self.spot(windows, set.cell.list)?;
        let (cell, text) = (set.cell.cell, set.text.as_slice());
        if let Some(refusal) = self.list.items[spot.list]
            .kept
            .cells
            .set_refusal(cell, text)
        {
            return Err(refusal);
        }
        let changes = differ(self.list.items[spot.list].kept.cells.cell(cell)?, text);
        let within = self.list.items[spot.list].kept.view.cell_rect(cell);
        let mark = self.mark(windows, spot)?;
        self.list.items[spot.list].kept.cells.set_cell(cell, text)?;
        self.show(windows, spot, within, mark, changes);
        Ok(ListReply::Done)
    }

    /// Adds bytes behind the data of a cell.
    pub(crate) fn add_to_cell(
        &mut self,
        windows: &mut WindowManager,
        added: &CellText<'_>,
    ) -> Result<ListReply, Refusal>
        requires kept { ⟦<WindowManager as DeskWindows>⟧.IsKept windows.old }
        requires beside { ⟦<Self as DeskLists>⟧.AreBeside windows.old self.old }
        ensures { ⟦<Self as DeskLists>⟧.Changes
            (IsWhereRight (IsListStep (asks.AddToCell added.now) result)) windows.old self.old windows.new self.new }
    {
        let spot = self.spot(windows, added.cell.list)?;
        let (cell, text) = (added.cell.cell, added.text.as_slice());
        if let Some(refusal) = self.list.items[spot.list]
            .kept
            .cells
            .append_refusal(cell, text)
        {
            return Err(refusal);
        }
        let changes = !text.is_empty();
        let within = self.list.items[spot.list].kept.view.cell_rect(cell);
        let mark = self.mark(windows, spot)?;
        self.list.items[spot.list]
            .kept
            .cells
            .add_to_cell(cell, text)?;
        self.show(windows, spot, within, mark, changes);
        Ok(ListReply::Done)
    }

    /// Takes the data of a cell away.
    pub(crate) fn clear_cell(
        &mut self,
        windows: &mut WindowManager,
        cleared: CellOf,
    ) -> Result<ListReply, Refusal>
        requires kept { ⟦<WindowManager as DeskWindows>⟧.IsKept windows.old }
        requires beside { ⟦<Self as DeskLists>⟧.AreBeside windows.old self.old }
        ensures { ⟦<Self as DeskLists>⟧.Changes
            (IsWhereRight (IsListStep (asks.ClearCell cleared) result)) windows.old self.old windows.new self.new }
    {
        let spot = self.spot(windows, cleared.list)?;
        let changes = !self.list.items[spot.list]
            .kept
            .cells
            .cell(cleared.cell)?
            .is_empty();
        let within = self.list.items[spot.list].kept.view.cell_rect(cleared.cell);
        let mark = self.mark(windows, spot)?;
        self.list.items[spot.list]
            .kept
            .cells
            .clear_cell(cleared.cell)?;
        self.show(windows, spot, within, mark, changes);
        Ok(ListReply::Done)
    }

    /// Turns drawing on or off.
    pub(crate) fn set_drawing(
        &mut self,
        windows: &WindowManager,
        set: ListDrawing,
    ) -> Result<ListReply, Refusal>
        requires kept { ⟦<WindowManager as DeskWindows>⟧.IsKept windows.now }
        requires beside { ⟦<Self as DeskLists>⟧.AreBeside windows.now self.old }
        ensures { ⟦<Self as DeskLists>⟧.Changes
            (IsListStep (asks.SetDrawing set) result) windows.now self.old windows.now self.new }
    {
        let spot = self.spot(windows, set.list)?;
        self.list.at_mut(spot.list).drawing = set.drawing;
        Ok(ListReply::Done)
    }
}
