//! What changes the selection of a list's cells.
ghost use Rattle.std.specs.Prelude.{◌≡◌, Some};
ghost use Rattle.desk_call.specs.declared.list.ListCall.TheVariants as asks;
ghost use Rattle.list_mgr.specs.ListSteps.{IsListStep};
ghost use Rattle.list_cells.specs.Selections.{selected_by};
ghost use Rattle.list_view.specs.Shown.{is_turned};
ghost use Rattle.list_mgr.specs.Seen.{seen};
ghost use Rattle.list_mgr.specs.Changing.{IsMark, IsToggledOrMarked};
ghost use Rattle.list_mgr.specs.Spots.{IsSpot};
ghost use Rattle.list_mgr.specs.WholeLists.{IsSettledList};

use crate::spots::ListAt;
use crate::{DeskLists, ListRecord, Lists};
use def_iface::{Defined, TakenList, TakenWindow};
use desk_call::{ListClick, ListReply, SelectCell};
use draw_port::Canvas;
use list_cells::{Cell, ClickKeys, Selecting};
use list_view::{DrawnList, toggle_cells};
use scan_region::Region;
use tb_geom::Refusal;
use window_items::Item;
use window_mgr::{DeskWindows, WindowManager};
use window_paint::Toggling;

/// A list, and what a call is about to make of its selection.
#[derive(Drop)]
struct Toggled<'a, D> {
    list: &'a Item<ListRecord<D>>,
    selecting: Selecting,
}

impl<'a, D: DrawnList> Toggling for Toggled<'a, D> {
    ghost is_ready = { λ t. IsSettledList (seen D.list_loan t.list.now) };

    ghost toggles = { λ t font. is_turned font (D.list_loan t.list.now.kept.definition).definition t.list.now.kept.view
        t.list.now.kept.cells
        (selected_by t.selecting t.list.now.kept.cells) };

    fn invert(&self, canvas: &mut Canvas<'_>) {
        let list = self.list;
        toggle_cells(
            &list.kept.definition,
            list.kept.view,
            &list.kept.cells,
            self.selecting,
            canvas,
        );
    }
}

impl Lists<TakenList> {
    /// Inverts what a call is about to toggle of a list's selection, or, where its drawing is off and it toggles something, makes
    /// this the update region of its window. It takes no memory.
    fn toggle(
        &self,
        windows: &mut WindowManager,
        spot: ListAt,
        mark: Option<Region>,
        selecting: Selecting,
    )
        requires kept { ⟦<WindowManager as DeskWindows>⟧.IsKept windows.old }
        requires beside { ⟦<Self as DeskLists>⟧.AreBeside windows.old self.now }
        requires spot { IsSpot ⟦<TakenWindow as Defined>⟧.loan ⟦<TakenList as Defined>⟧.loan windows.old self.now spot }
        requires mark { IsMark ⟦<TakenList as Defined>⟧.loan ⟦<TakenWindow as Defined>⟧.loan windows.old self.now spot
            mark }
        ensures { IsToggledOrMarked ⟦<TakenList as Defined>⟧.loan ⟦<TakenWindow as Defined>⟧.loan mark selecting spot
            self.now windows.old windows.new }
    {
        let list = &self.list.items[spot.list];
        match mark {
            None => {
                let layer = self.layer(windows, spot);
                windows.toggle_layer(spot.window, layer, &Toggled { list, selecting });
            }
            Some(update) => {
                if list.kept.cells.changes_by(selecting) {
                    windows.set_update(spot.window, update);
                }
            }
        }
    }

    /// Selects a cell, or deselects it.
    pub(crate) fn select(
        &mut self,
        windows: &mut WindowManager,
        chosen: SelectCell,
    ) -> Result<ListReply, Refusal>
        requires kept { ⟦<WindowManager as DeskWindows>⟧.IsKept windows.old }
        requires beside { ⟦<Self as DeskLists>⟧.AreBeside windows.old self.old }
        ensures { ⟦<Self as DeskLists>⟧.Changes
            (IsListStep (asks.Select chosen) result) windows.old self.old windows.new self.new }
    {
        let spot = self.spot(windows, chosen.cell.list)?;
        let list = &self.list.items[spot.list];
        let alone = list.kept.flags.only_one;
        let Some(selecting) = list
            .kept
            .cells
            .choosing(chosen.cell.cell, chosen.selected, alone)
        else {
            return Err(Refusal::NoSuchCell);
        };
        let mark = self.mark(windows, spot)?;
        self.toggle(windows, spot, mark, selecting);
        self.list.items[spot.list]
            .kept
            .cells
            .select(chosen.cell.cell, chosen.selected, alone)?;
        Ok(ListReply::Done)
    }

    /// The mouse was clicked at a point of a list's window.
    pub(crate) fn click(
        &mut self,
        windows: &mut WindowManager,
        clicked: ListClick,
    ) -> Result<ListReply, Refusal>
        requires kept { ⟦<WindowManager as DeskWindows>⟧.IsKept windows.old }
        requires beside { ⟦<Self as DeskLists>⟧.AreBeside windows.old self.old }
        ensures { ⟦<Self as DeskLists>⟧.Changes
            (IsListStep (asks.Click clicked) result) windows.old self.old windows.new self.new }
    {
        let spot = self.spot(windows, clicked.list)?;
        if !clicked.point.is_in_range() {
            return Err(Refusal::OutOfRange);
        }
        let Ok(modifiers) = u16::try_from(clicked.modifiers) else {
            return Err(Refusal::OutOfRange);
        };
        let keys = ClickKeys::of_modifiers(modifiers);
        let list = &self.list.items[spot.list];
        let Some(cell) = list.kept.view.cell_at(
            clicked.point,
            list.kept.cells.columns(),
            list.kept.cells.rows(),
        )
        else {
            return Ok(ListReply::Clicked(false));
        };
        let flags = list.kept.flags;
        let selecting = list.kept.cells.clicking(cell, flags, keys).unwrap();
        let mark = self.mark(windows, spot)?;
        self.toggle(windows, spot, mark, selecting);
        let _clicked = self.list.items[spot.list]
            .kept
            .cells
            .click(cell, flags, keys);
        Ok(ListReply::Clicked(true))
    }
}
