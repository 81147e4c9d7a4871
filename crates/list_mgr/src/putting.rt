//! A list that was judged, put behind the others of its window with its scroll bars: all growth comes first, and then it is made,
//! which takes no memory.
ghost use Rattle.std.specs.Prelude.{◌≡◌, false, if◌then◌else◌, None, Some, IfOk, IfErr};
ghost use Rattle.def_iface.specs.Slots.{IsTaken};
ghost use Rattle.control_mgr.specs.Making.{IsRoomier};
ghost use Rattle.list_mgr.specs.ListRefusals.{scroll_kind};
ghost use Rattle.list_mgr.specs.ListSteps.{IsListMade, IsListPut};
ghost use Rattle.list_mgr.specs.Making.{IsListTicket};
ghost use Rattle.list_mgr.specs.Putting.{AreBarsTaken, AreRoomier, IsBarTaken, IsOneBarTicket, IsReadyToPut, IsTwoBarTicket, LeavesBeside};

use crate::judging::ListTicket;
use crate::planning::Planned;
use crate::{DeskLists, DeskListsWithBars, ListRecord, Lists};
use control_mgr::Controls;
use def_iface::{Defined, Stage, TakenControl, TakenList, TakenWindow};
use desk_call::NewList;
use window_items::Item;
use window_mgr::{DeskWindows, WindowManager};

/// The serials of a list's scroll bars, of those that it has.
#[derive(Clone, Copy)]
pub(crate) struct Bars {
    pub vertical: Option<u64>,
    pub horizontal: Option<u64>,
}

impl Bars {
    /// Of a list that has none.
    fn none() -> Bars
        ensures vertical { result.vertical ≡ None }
        ensures horizontal { result.horizontal ≡ None }
    {
        Bars {
            vertical: None,
            horizontal: None,
        }
    }

    /// That of the one scroll bar that is wanted.
    fn only(new: &NewList<'_>, serial: u64) -> Bars
        ensures vertical { result.vertical ≡ (if new.now.vertical_bar then Some serial else None) }
        ensures horizontal { result.horizontal ≡ (if new.now.vertical_bar then None else Some serial) }
    {
        if new.vertical_bar {
            Bars {
                vertical: Some(serial),
                horizontal: None,
            }
        } else {
            Bars {
                vertical: None,
                horizontal: Some(serial),
            }
        }
    }
}

impl Lists<TakenList> {
    /// Begins the definition of a new list, puts it behind the others with these scroll bars, and draws all that it owns, as
    /// planned. It takes no memory.
    fn place(
        &mut self,
        windows: &mut WindowManager,
        new: &NewList<'_>,
        ticket: &ListTicket,
        bars: Bars,
        planned: Planned,
        taken: TakenList,
    )
        requires kept { ⟦<WindowManager as DeskWindows>⟧.IsKept windows.old }
        requires beside { ⟦<Self as DeskLists>⟧.AreBeside windows.old self.old }
        requires ready { IsReadyToPut ⟦<TakenWindow as Defined>⟧.loan new.now ticket.now windows.old self.old planned }
        requires fresh { (⟦<TakenList as Defined>⟧.loan taken).definition.stage ≡ Stage.Fresh }
        ensures { (before left : _) → IsTaken (λ d. d.stage) new.now.kind (⟦<TakenList as Defined>⟧.loan taken) before
            left
            → LeavesBeside ⟦<TakenList as Defined>⟧.loan ⟦<TakenWindow as Defined>⟧.loan before left
            (IsListPut new.now ticket.now.serial bars.vertical bars.horizontal) windows.old self.old windows.new
            self.new }
    {
        let mut taken = taken;
        let Planned { cells, laid } = planned;
        taken.begin(new.cell_size, !ticket.flags.no_nil_hilite);
        self.list.push(Item {
            serial: ticket.serial,
            window: new.window,
            kept: ListRecord {
                view: ticket.view,
                cells,
                flags: ticket.flags,
                drawing: true,
                vertical: bars.vertical,
                horizontal: bars.horizontal,
                definition: taken,
            },
        });
        windows.commit_layers(
            ticket.window,
            laid.layers,
            laid.relaying,
            Some(laid.at),
            &*self,
        );
    }

    /// Puts a list without scroll bars. Where memory is refused nothing changes, and the definition comes back as it was.
    pub(crate) fn put(
        &mut self,
        windows: &mut WindowManager,
        controls: &Controls<TakenControl>,
        new: &NewList<'_>,
        ticket: ListTicket,
        taken: TakenList,
    ) -> Result<(), TakenList>
        requires kept { ⟦<WindowManager as DeskWindows>⟧.IsKept windows.old }
        requires lists { ⟦<Self as DeskLists>⟧.AreBeside windows.old self.old }
        requires ticket { IsListTicket ⟦<TakenWindow as Defined>⟧.loan ⟦<TakenControl as Defined>⟧.loan
            ⟦<TakenList as Defined>⟧.loan
            new.now None None windows.old controls.now self.old ticket }
        requires fresh { (⟦<TakenList as Defined>⟧.loan taken).definition.stage ≡ Stage.Fresh }
        requires unbarred { (new.now.vertical_bar ≡ false) × (new.now.horizontal_bar ≡ false) }
        ensures put { IfOk result (λ _. (held before left : _)
            → IsTaken (λ d. d.stage) new.now.kind (⟦<TakenList as Defined>⟧.loan taken) before left
            → ⟦<Self as DeskListsWithBars>⟧.LeavesOver
            held held before left (IsListMade new.now ticket.serial) windows.old controls.now self.old windows.new
            controls.now self.new) }
        ensures same { IfErr result (λ back. (back ≡ taken) × (windows.new ≡ windows.old)
            × AreRoomier self.old self.new) }
    {
        match self.plan(windows, new, &ticket) {
            Ok(planned) => {
                self.place(windows, new, &ticket, Bars::none(), planned, taken);
                Ok(())
            }
            Err(_) => Err(taken),
        }
    }

    /// Puts a list with the one scroll bar that is wanted, which is made first. Where memory is refused nothing changes, and the
    /// definitions come back as they were.
    pub(crate) fn put_with_bar(
        &mut self,
        windows: &mut WindowManager,
        controls: &mut Controls<TakenControl>,
        new: &NewList<'_>,
        ticket: ListTicket,
        taken: TakenList,
        bar: TakenControl,
    ) -> Result<(), (TakenList, TakenControl)>
        requires kept { ⟦<WindowManager as DeskWindows>⟧.IsKept windows.old }
        requires took { IsBarTaken ⟦<TakenWindow as Defined>⟧.loan ⟦<TakenControl as Defined>⟧.loan
            (⟦<TakenControl as Defined>⟧.loan bar) windows.old controls.old }
        requires lists { ⟦<Self as DeskLists>⟧.AreBeside windows.old self.old }
        requires ticket { IsOneBarTicket ⟦<TakenWindow as Defined>⟧.loan ⟦<TakenControl as Defined>⟧.loan
            ⟦<TakenList as Defined>⟧.loan
            new.now (⟦<TakenControl as Defined>⟧.loan bar).definition windows.old controls.old self.old ticket }
        requires fresh { (⟦<TakenList as Defined>⟧.loan taken).definition.stage ≡ Stage.Fresh }
        ensures put { IfOk result (λ _. (held rest before left : _)
            → IsTaken (λ d. d.stage) scroll_kind (⟦<TakenControl as Defined>⟧.loan bar) held rest
            → IsTaken (λ d. d.stage) new.now.kind (⟦<TakenList as Defined>⟧.loan taken) before left
            → ⟦<Self as DeskListsWithBars>⟧.LeavesOver
            held rest before left (IsListMade new.now ticket.serial) windows.old controls.old self.old windows.new
            controls.new self.new) }
        ensures same { IfErr result (λ back. (back ≡ (taken, bar)) × (windows.new ≡ windows.old)
            × IsRoomier controls.old controls.new × AreRoomier self.old self.new) }
    {
        match self.plan_with_bar(windows, controls, new, &ticket, &bar) {
            Ok(planned) => {
                let serial = planned.addition.ticket.serial;
                let control = planned.bar.control(new.window);
                controls.add(windows, &control, planned.addition, bar);
                let bars = Bars::only(new, serial);
                self.place(windows, new, &ticket, bars, planned.list, taken);
                Ok(())
            }
            Err(_) => Err((taken, bar)),
        }
    }

    /// Puts a list with both scroll bars, which are made first, the vertical one before the other. Where memory is refused nothing
    /// changes, and the definitions come back as they were.
    pub(crate) fn put_with_bars(
        &mut self,
        windows: &mut WindowManager,
        controls: &mut Controls<TakenControl>,
        new: &NewList<'_>,
        ticket: ListTicket,
        taken: TakenList,
        vertical: TakenControl,
        horizontal: TakenControl,
    ) -> Result<(), (TakenList, TakenControl, TakenControl)>
        requires kept { ⟦<WindowManager as DeskWindows>⟧.IsKept windows.old }
        requires took { AreBarsTaken ⟦<TakenWindow as Defined>⟧.loan ⟦<TakenControl as Defined>⟧.loan
            (⟦<TakenControl as Defined>⟧.loan vertical) (⟦<TakenControl as Defined>⟧.loan horizontal) windows.old
            controls.old }
        requires lists { ⟦<Self as DeskLists>⟧.AreBeside windows.old self.old }
        requires ticket { IsTwoBarTicket ⟦<TakenWindow as Defined>⟧.loan ⟦<TakenControl as Defined>⟧.loan
            ⟦<TakenList as Defined>⟧.loan
            new.now (⟦<TakenControl as Defined>⟧.loan vertical).definition
            (⟦<TakenControl as Defined>⟧.loan horizontal).definition
            windows.old controls.old self.old ticket }
        requires fresh { (⟦<TakenList as Defined>⟧.loan taken).definition.stage ≡ Stage.Fresh }
        ensures put { IfOk result (λ _. (held mid rest before left : _)
            → IsTaken (λ d. d.stage) scroll_kind (⟦<TakenControl as Defined>⟧.loan vertical) held mid
            → IsTaken (λ d. d.stage) scroll_kind (⟦<TakenControl as Defined>⟧.loan horizontal) mid rest
            → IsTaken (λ d. d.stage) new.now.kind (⟦<TakenList as Defined>⟧.loan taken) before left
            → ⟦<Self as DeskListsWithBars>⟧.LeavesOver
            held rest before left (IsListMade new.now ticket.serial) windows.old controls.old self.old windows.new
            controls.new self.new) }
        ensures same { IfErr result (λ back. (back ≡ (taken, vertical, horizontal)) × (windows.new ≡ windows.old)
            × IsRoomier controls.old controls.new × AreRoomier self.old self.new) }
    {
        match self.plan_with_bars(windows, controls, new, &ticket, &vertical, &horizontal) {
            Ok(planned) => {
                let bars = Bars {
                    vertical: Some(planned.vertical.ticket.serial),
                    horizontal: Some(planned.horizontal.ticket.serial),
                };
                let control = planned.first.control(new.window);
                controls.add(windows, &control, planned.vertical, vertical);
                let control = planned.second.control(new.window);
                controls.add(windows, &control, planned.horizontal, horizontal);
                self.place(windows, new, &ticket, bars, planned.list, taken);
                Ok(())
            }
            Err(_) => Err((taken, vertical, horizontal)),
        }
    }
}
