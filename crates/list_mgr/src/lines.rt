//! Rows and columns of a list, and how far it is scrolled; its scroll bars with them.
ghost use Rattle.std.specs.Prelude.{◌≡◌, ◌<◌, length, slice_get, IfSome};
ghost use Rattle.desk_call.specs.declared.list.ListCall.TheVariants as asks;
ghost use Rattle.window_items.specs.Items.{edit_at};
ghost use Rattle.list_mgr.specs.Changing.{IsMark, IsSameOrNot};
ghost use Rattle.list_mgr.specs.LineEdits.{call_of, scrolled_after};
ghost use Rattle.list_mgr.specs.Lines.{IsShownWithBars};
ghost use Rattle.list_mgr.specs.ListSteps.{IsListStep, with_scroll};
ghost use Rattle.list_mgr.specs.Spots.{IsSpot};
ghost use Rattle.list_mgr.specs.Within.{IsWhereRight};

use crate::line_edit::{LineChange, LineEdit};
use crate::lines_from::{line_number, lines_from};
use crate::spots::ListAt;
use crate::{DeskLists, DeskListsWithBars, Lists, ListsOnStock};
use control_mgr::{Controls, DeskControls};
use def_iface::{Defined, TakenControl, TakenList, TakenWindow};
use desk_call::{ListReply, ScrollList};
use list_view::ListView;
use scan_region::Region;
use tb_geom::{Rect, Refusal};
use window_mgr::{DeskWindows, WindowManager};

/// Whether two views differ.
fn differ(old: ListView, new: ListView) -> bool
    ensures { IsSameOrNot result new old }
{
    old != new
}

impl Lists<TakenList> {
    /// Scrolls the list that stands here, as far as there are cells to be seen, and says whether it is scrolled otherwise then.
    fn scroll_by(&mut self, spot: ListAt, columns: i32, rows: i32) -> bool
        requires { spot.list < length self.old.list.items.items }
        ensures lists { ⟦<Self as ListsOnStock>⟧.records self.new
            ≡ edit_at (with_scroll columns rows) spot.list (⟦<Self as ListsOnStock>⟧.records self.old) }
        ensures next { self.new.list.next ≡ self.old.list.next }
        ensures changes { IfSome (slice_get (⟦<Self as ListsOnStock>⟧.records self.old) spot.list)
            (λ x. IsSameOrNot result (with_scroll columns rows x) x) }
    {
        let list = &self.list.items[spot.list];
        let old = list.kept.view;
        let new = old.scrolled(
            list.kept.cells.columns(),
            list.kept.cells.rows(),
            columns,
            rows,
        );
        self.list.at_mut(spot.list).view = new;
        differ(old, new)
    }

    /// Scrolls the list that stands here back to where there are cells, once lines of it were deleted, and says whether it is
    /// scrolled otherwise then.
    fn scroll_back(&mut self, spot: ListAt, change: LineChange) -> bool
        requires { spot.list < length self.old.list.items.items }
        ensures lists { ⟦<Self as ListsOnStock>⟧.records self.new
            ≡ edit_at (scrolled_after change) spot.list (⟦<Self as ListsOnStock>⟧.records self.old) }
        ensures next { self.new.list.next ≡ self.old.list.next }
        ensures changes { IfSome (slice_get (⟦<Self as ListsOnStock>⟧.records self.old) spot.list)
            (λ x. IsSameOrNot result (scrolled_after change x) x) }
    {
        match change {
            LineChange::Add => false,
            LineChange::Delete => self.scroll_by(spot, 0, 0),
        }
    }

    /// Draws a list as it is now within a rectangle of its window, or marks it where its drawing is off and something of it
    /// changes, and sets its scroll bars. It takes no memory.
    fn show_with_bars(
        &self,
        windows: &mut WindowManager,
        controls: &mut Controls<TakenControl>,
        spot: ListAt,
        within: Rect,
        mark: Option<Region>,
        changes: bool,
    )
        requires kept { ⟦<WindowManager as DeskWindows>⟧.IsKept windows.old }
        requires beside { ⟦<Controls<TakenControl> as DeskControls>⟧.AreBeside windows.old controls.old }
        requires lists { ⟦<Self as DeskLists>⟧.AreBeside windows.old self.now }
        requires spot { IsSpot ⟦<TakenWindow as Defined>⟧.loan ⟦<TakenList as Defined>⟧.loan windows.old self.now spot }
        requires mark { IsMark ⟦<TakenList as Defined>⟧.loan ⟦<TakenWindow as Defined>⟧.loan windows.old self.now spot
            mark }
        ensures { IsShownWithBars ⟦<TakenControl as Defined>⟧.loan ⟦<TakenWindow as Defined>⟧.loan
            ⟦<TakenList as Defined>⟧.loan within mark changes spot self.now
            windows.old controls.old windows.new controls.new }
    {
        self.show(windows, spot, within, mark, changes);
        self.set_bars(windows, controls, spot);
    }

    /// Adds empty rows or columns before one, or behind all, or deletes some from one on.
    pub(crate) fn change_lines(
        &mut self,
        windows: &mut WindowManager,
        controls: &mut Controls<TakenControl>,
        edit: LineEdit,
    ) -> Result<ListReply, Refusal>
        requires kept { ⟦<WindowManager as DeskWindows>⟧.IsKept windows.old }
        requires beside { ⟦<Controls<TakenControl> as DeskControls>⟧.AreBeside windows.old controls.old }
        requires lists { ⟦<Self as DeskLists>⟧.AreBeside windows.old self.old }
        ensures { ⟦<Self as DeskListsWithBars>⟧.Leaves
            (IsWhereRight (IsListStep (call_of edit) result)) windows.old controls.old self.old windows.new
            controls.new self.new }
    {
        let spot = self.spot(windows, edit.lines.list)?;
        if let Some(refusal) = edit.refusal(&self.list.items[spot.list].kept.cells) {
            return Err(refusal);
        }
        let view = self.list.items[spot.list].kept.view;
        let mark = self.mark(windows, spot)?;
        let first = edit.perform(&mut self.list.items[spot.list].kept.cells)?;
        let scrolled = self.scroll_back(spot, edit.change);
        let within = lines_from(edit.axis, view, line_number(first), scrolled);
        self.show_with_bars(windows, controls, spot, within, mark, true);
        Ok(edit.change.reply(first))
    }

    /// Scrolls a list.
    pub(crate) fn scroll(
        &mut self,
        windows: &mut WindowManager,
        controls: &mut Controls<TakenControl>,
        scrolled: ScrollList,
    ) -> Result<ListReply, Refusal>
        requires kept { ⟦<WindowManager as DeskWindows>⟧.IsKept windows.old }
        requires beside { ⟦<Controls<TakenControl> as DeskControls>⟧.AreBeside windows.old controls.old }
        requires lists { ⟦<Self as DeskLists>⟧.AreBeside windows.old self.old }
        ensures { ⟦<Self as DeskListsWithBars>⟧.Leaves
            (IsWhereRight (IsListStep (asks.Scroll scrolled) result)) windows.old controls.old self.old windows.new
            controls.new self.new }
    {
        let spot = self.spot(windows, scrolled.list)?;
        let within = self.list.items[spot.list].kept.view.rect();
        let mark = self.mark(windows, spot)?;
        let changes = self.scroll_by(spot, scrolled.columns, scrolled.rows);
        self.show_with_bars(windows, controls, spot, within, mark, changes);
        Ok(ListReply::Done)
    }
}
