//! Calls, one by one.
ghost use Rattle.list_mgr.specs.ListSteps.{IsListStep};
ghost use Rattle.list_mgr.specs.Within.{IsWhereRight};

use crate::line_edit::{LineAxis, LineEdit};
use crate::{DeskLists, DeskListsWithBars, Lists};
use control_mgr::{Controls, DeskControls};
use def_iface::{ControlStock, ListStock, TakenControl, TakenList};
use desk_call::{ListCall, ListReply};
use tb_geom::Refusal;
use window_mgr::{DeskWindows, WindowManager};

impl Lists<TakenList> {
    /// Performs one call on these lists of these windows, which have these controls, and gives its answer. A refused call changes
    /// nothing; which refusal comes first where several would do stands with the call. What is drawn of a list of which a cell or
    /// lines change lies in the rectangle of these, so the step is the call's where the screen was right.
    pub fn perform(
        &mut self,
        windows: &mut WindowManager,
        controls: &mut Controls<TakenControl>,
        call: &ListCall<'_>,
        stock: &mut ListStock,
        bars: &mut ControlStock,
    ) -> Result<ListReply, Refusal>
        requires kept { ⟦<WindowManager as DeskWindows>⟧.IsKept windows.old }
        requires controls_whole { ⟦<Controls<TakenControl> as DeskControls>⟧.IsWhole windows.old controls.old bars.old }
        requires lists_whole { ⟦<Self as DeskLists>⟧.IsWhole windows.old self.old stock.old }
        ensures { ⟦<Self as DeskListsWithBars>⟧.LeavesStocks bars.old bars.new stock.old stock.new
            (IsWhereRight (IsListStep call.now result)) windows.old controls.old self.old windows.new controls.new
            self.new }
    {
        match call {
            ListCall::New(new) => self.make(windows, controls, new, stock, bars),
            ListCall::Dispose(list) => self.dispose(windows, controls, *list, stock, bars),
            ListCall::AddRows(lines) => {
                self.change_lines(windows, controls, LineEdit::add(LineAxis::Rows, *lines))
            }
            ListCall::AddColumns(lines) => {
                self.change_lines(windows, controls, LineEdit::add(LineAxis::Columns, *lines))
            }
            ListCall::DeleteRows(lines) => {
                self.change_lines(windows, controls, LineEdit::delete(LineAxis::Rows, *lines))
            }
            ListCall::DeleteColumns(lines) => {
                self.change_lines(
                    windows,
                    controls,
                    LineEdit::delete(LineAxis::Columns, *lines),
                )
            }
            ListCall::SetCell(set) => self.set_cell(windows, set),
            ListCall::AddToCell(added) => self.add_to_cell(windows, added),
            ListCall::ClearCell(cleared) => self.clear_cell(windows, *cleared),
            ListCall::GetCell(asked) => self.data(windows, *asked),
            ListCall::Select(chosen) => self.select(windows, *chosen),
            ListCall::IsSelected(asked) => self.is_selected(windows, *asked),
            ListCall::FirstSelected(asked) => self.first_selected(windows, *asked),
            ListCall::NextCell(asked) => self.next_cell(windows, *asked),
            ListCall::Search(asked) => self.search(windows, asked),
            ListCall::Click(clicked) => self.click(windows, *clicked),
            ListCall::Scroll(scrolled) => self.scroll(windows, controls, *scrolled),
            ListCall::SetDrawing(set) => self.set_drawing(windows, *set),
        }
    }
}
