//! A new list planned, with all growth: its cells, its layer behind the others, and its scroll bars.
ghost use Rattle.std.specs.Prelude.{◌≡◌, ◌<◌, length, IfOk};
ghost use Rattle.control_mgr.specs.Making.{IsRoomier};
ghost use Rattle.control_mgr.specs.Planned.{IsLaidSo};
ghost use Rattle.list_mgr.specs.Putting.{AreBarsTaken, AreRoomier, IsBarTaken, IsOneBarTicket, IsPlace};
ghost use Rattle.list_mgr.specs.Putting.{IsPlannedWithBar, IsPlannedWithBars, IsPlanOfList, IsReadyToPut};
ghost use Rattle.list_mgr.specs.Putting.{IsTwoBarTicket, MayLay};

use crate::judging::ListTicket;
use crate::new_bars::{Bar, horizontal_bar, vertical_bar, wanted_bar};
use crate::{DeskLists, Lists};
use control_mgr::{Addition, Controls};
use def_iface::{Defined, TakenControl, TakenList, TakenWindow};
use desk_call::NewList;
use desk_layers::Part;
use list_cells::ListCells;
use scan_region::Region;
use std::alloc::{AllocError, Global};
use tb_geom::Refusal;
use vis_update::Relaying;
use window_list::{Layer, Layers};
use window_mgr::{DeskWindows, WindowManager};

/// The layers of a window with that of a new list behind them, and what changes by that on the screen.
#[derive(Drop)]
pub(crate) struct Laid {
    /// The index of the list's layer.
    pub at: usize,
    pub layers: Layers,
    pub relaying: Relaying,
}

/// All that a new list needs beside its definition, its scroll bars and room among the lists.
#[derive(Drop)]
pub(crate) struct Planned {
    pub cells: ListCells,
    pub laid: Laid,
}

/// A list planned with one scroll bar.
#[derive(Drop)]
pub(crate) struct PlannedWithBar {
    pub bar: Bar,
    pub addition: Addition,
    pub list: Planned,
}

/// A list planned with both scroll bars.
#[derive(Drop)]
pub(crate) struct PlannedWithBars {
    pub first: Bar,
    pub vertical: Addition,
    pub second: Bar,
    pub horizontal: Addition,
    pub list: Planned,
}

/// The layers of its window with that of a new list behind them, and what changes by that on the screen. `layers` are the window's
/// layers when the list will be put, and `update` is its update region then: those that it has, or those that earlier plans leave
/// it.
fn lay(
    alloc: Global,
    windows: &WindowManager,
    ticket: &ListTicket,
    layers: &Layers,
    update: &Region,
) -> Result<Laid, AllocError>
    requires kept { ⟦<WindowManager as DeskWindows>⟧.IsKept windows.now }
    requires at { ticket.now.window < length windows.now.windows.records.items }
    requires may { MayLay ticket.now layers.now }
    ensures { IfOk result (λ laid. (u : _) → IsLaidSo ⟦<TakenWindow as Defined>⟧.loan ticket.now.window layers.now
        update.now windows.now u
        → IsPlanOfList ⟦<TakenWindow as Defined>⟧.loan ticket.now layers.now u laid) }
{
    let rect = ticket.view.rect();
    let region = Region::from_rect_in_range(alloc, rect)?;
    let at = layers.len();
    let own = Layer {
        part: Part::List(ticket.serial),
        shown: true,
        region,
        bounds: rect,
    };
    let relaid = layers.with(alloc, at, own)?;
    let relaying = windows.plan_layers(ticket.window, update, &relaid, Some(at))?;
    Ok(Laid {
        at,
        layers: relaid.layers,
        relaying,
    })
}

impl Lists<TakenList> {
    /// All growth for a list without scroll bars.
    pub(crate) fn plan(
        &mut self,
        windows: &WindowManager,
        new: &NewList<'_>,
        ticket: &ListTicket,
    ) -> Result<Planned, Refusal>
        requires kept { ⟦<WindowManager as DeskWindows>⟧.IsKept windows.now }
        requires beside { ⟦<Self as DeskLists>⟧.AreBeside windows.now self.old }
        requires place { IsPlace new.now windows.now self.old ticket.now }
        ensures same { AreRoomier self.old self.new }
        ensures planned { IfOk result (IsReadyToPut ⟦<TakenWindow as Defined>⟧.loan new.now ticket.now windows.now
            self.new) }
    {
        self.list.reserve(1)?;
        let cells = ListCells::new(self.alloc, new.columns, new.rows)?;
        let layers = &windows.list().at(ticket.window).layers;
        let update = &windows.area(ticket.window).update;
        let laid = lay(self.alloc, windows, ticket, layers, update)?;
        Ok(Planned { cells, laid })
    }

    /// All growth for a list with the one scroll bar that is wanted.
    pub(crate) fn plan_with_bar(
        &mut self,
        windows: &WindowManager,
        controls: &mut Controls<TakenControl>,
        new: &NewList<'_>,
        ticket: &ListTicket,
        taken: &TakenControl,
    ) -> Result<PlannedWithBar, Refusal>
        requires kept { ⟦<WindowManager as DeskWindows>⟧.IsKept windows.now }
        requires took { IsBarTaken ⟦<TakenWindow as Defined>⟧.loan ⟦<TakenControl as Defined>⟧.loan
            (⟦<TakenControl as Defined>⟧.loan taken.now) windows.now controls.old }
        requires lists { ⟦<Self as DeskLists>⟧.AreBeside windows.now self.old }
        requires ticket { IsOneBarTicket ⟦<TakenWindow as Defined>⟧.loan ⟦<TakenControl as Defined>⟧.loan
            ⟦<TakenList as Defined>⟧.loan
            new.now (⟦<TakenControl as Defined>⟧.loan taken.now).definition windows.now controls.old self.old
            ticket.now }
        ensures same { AreRoomier self.old self.new }
        ensures same_controls { IsRoomier controls.old controls.new }
        ensures planned { IfOk result (IsPlannedWithBar ⟦<TakenWindow as Defined>⟧.loan ⟦<TakenControl as Defined>⟧.loan
            new.now ticket.now (⟦<TakenControl as Defined>⟧.loan taken.now).definition windows.now controls.new
            self.new) }
    {
        controls.reserve(1)?;
        self.list.reserve(1)?;
        let cells = ListCells::new(self.alloc, new.columns, new.rows)?;
        let bar = wanted_bar(new, ticket.view, &cells);
        let given = bar.ticket(ticket.window, ticket.bar.unwrap(), ticket.controls);
        let layers = &windows.list().at(ticket.window).layers;
        let update = &windows.area(ticket.window).update;
        let control = bar.control(new.window);
        let addition = controls.grow(windows, given, &control, taken, layers, update)?;
        let laid = lay(
            self.alloc,
            windows,
            ticket,
            &addition.layers,
            &addition.relaying.update,
        )?;
        let list = Planned { cells, laid };
        Ok(PlannedWithBar {
            bar,
            addition,
            list,
        })
    }

    /// All growth for a list with both scroll bars.
    pub(crate) fn plan_with_bars(
        &mut self,
        windows: &WindowManager,
        controls: &mut Controls<TakenControl>,
        new: &NewList<'_>,
        ticket: &ListTicket,
        vertical: &TakenControl,
        horizontal: &TakenControl,
    ) -> Result<PlannedWithBars, Refusal>
        requires kept { ⟦<WindowManager as DeskWindows>⟧.IsKept windows.now }
        requires took { AreBarsTaken ⟦<TakenWindow as Defined>⟧.loan ⟦<TakenControl as Defined>⟧.loan
            (⟦<TakenControl as Defined>⟧.loan vertical.now) (⟦<TakenControl as Defined>⟧.loan horizontal.now)
            windows.now controls.old }
        requires lists { ⟦<Self as DeskLists>⟧.AreBeside windows.now self.old }
        requires ticket { IsTwoBarTicket ⟦<TakenWindow as Defined>⟧.loan ⟦<TakenControl as Defined>⟧.loan
            ⟦<TakenList as Defined>⟧.loan
            new.now (⟦<TakenControl as Defined>⟧.loan vertical.now).definition
            (⟦<TakenControl as Defined>⟧.loan horizontal.now).definition
            windows.now controls.old self.old ticket.now }
        ensures same { AreRoomier self.old self.new }
        ensures same_controls { IsRoomier controls.old controls.new }
        ensures planned { IfOk result (IsPlannedWithBars ⟦<TakenWindow as Defined>⟧.loan
            ⟦<TakenControl as Defined>⟧.loan
            new.now ticket.now (⟦<TakenControl as Defined>⟧.loan vertical.now).definition
            (⟦<TakenControl as Defined>⟧.loan horizontal.now).definition
            windows.now controls.new self.new) }
    {
        controls.reserve(2)?;
        self.list.reserve(1)?;
        let cells = ListCells::new(self.alloc, new.columns, new.rows)?;
        let serial = ticket.bar.unwrap();
        let layers = &windows.list().at(ticket.window).layers;
        let update = &windows.area(ticket.window).update;
        let first = vertical_bar(ticket.view, &cells);
        let given = first.ticket(ticket.window, serial, ticket.controls);
        let control = first.control(new.window);
        let one = controls.grow(windows, given, &control, vertical, layers, update)?;
        let (layers, update) = (&one.layers, &one.relaying.update);
        let second = horizontal_bar(ticket.view, &cells);
        let given = second.ticket(ticket.window, serial + 1, ticket.controls + 1);
        let control = second.control(new.window);
        let two = controls.grow(windows, given, &control, horizontal, layers, update)?;
        let laid = lay(
            self.alloc,
            windows,
            ticket,
            &two.layers,
            &two.relaying.update,
        )?;
        let list = Planned { cells, laid };
        Ok(PlannedWithBars {
            first,
            vertical: one,
            second,
            horizontal: two,
            list,
        })
    }
}
