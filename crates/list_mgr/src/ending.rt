//! Lists that are ended, with their scroll bars; those of a window that is disposed of, and all.
ghost use Rattle.std.specs.Prelude.{◌≡◌, ◌<◌, length, IfOk, IfSome};
ghost use Rattle.window_list.specs.Holders.{ArePartsApart};
ghost use Rattle.desk_call.specs.declared.list.ListCall.TheVariants as asks;
ghost use Rattle.control_mgr.specs.Ending.{IsPutIfPlanned, IsTakenOut};
ghost use Rattle.control_mgr.specs.InUse.{AreStocked};
ghost use Rattle.list_mgr.specs.BarEnds.{IsBarGoneOver, IsBarPlanned, IsBarToEnd, bar_serial};
ghost use Rattle.list_mgr.specs.ListClosing.{AreAllListsClosed, AreListsOfLeft};
ghost use Rattle.list_mgr.specs.ListSteps.{IsListStep};
ghost use Rattle.list_mgr.specs.WholeLists.{AreLiveLists, slots_of};

use crate::{DeskLists, DeskListsWithBars, Lists, ListsOnStock};
use control_mgr::{Controls, DeskControls, Ending, layers_left, update_left};
use def_iface::{
    ControlStock, Defined, ListStock, Stocked, TakenControl, TakenList, TakenWindow, put_away,
};
use desk_call::{ControlOf, ListOf, ListReply};
use scan_region::Region;
use std::alloc::AllocError;
use tb_geom::Refusal;
use window_items::Items;
use window_list::Layers;
use window_mgr::{DeskWindows, WindowManager};

/// Plans the end of a scroll bar of a list in the window of this serial, which stands at this index, if the list was made with one
/// and the window will have it still. `layers` are the window's layers when the bar will be ended, and `update` is its update
/// region then.
fn plan_bar(
    controls: &Controls<TakenControl>,
    windows: &WindowManager,
    at: usize,
    window: u64,
    bar: Option<u64>,
    layers: &Layers,
    update: &Region,
) -> Result<Option<Ending>, AllocError>
    requires kept { ⟦<WindowManager as DeskWindows>⟧.IsKept windows.now }
    requires low { at < length windows.now.windows.records.items }
    requires apart { ArePartsApart layers.now.layers }
    ensures out { IfOk result (λ planned. IfSome planned (IsTakenOut at (bar_serial bar) layers.now)) }
    ensures planned { IfOk result (IsBarPlanned ⟦<TakenControl as Defined>⟧.loan ⟦<TakenWindow as Defined>⟧.loan window
        bar at layers.now update.now windows.now) }
{
    match bar {
        Some(control) => {
            controls.plan_ending(windows, at, ControlOf { window, control }, layers, update)
        }
        None => Ok(None),
    }
}

/// Ends a scroll bar of a list in this window as planned. It takes no memory.
fn end_bar(
    controls: &mut Controls<TakenControl>,
    windows: &mut WindowManager,
    window: u64,
    bar: Option<u64>,
    planned: Option<Ending>,
    stock: &mut ControlStock,
)
    requires kept { ⟦<WindowManager as DeskWindows>⟧.IsKept windows.old }
    requires whole { ⟦<Controls<TakenControl> as DeskControls>⟧.IsWhole windows.old controls.old stock.old }
    requires planned { IsBarToEnd ⟦<TakenControl as Defined>⟧.loan ⟦<TakenWindow as Defined>⟧.loan window bar
        windows.old controls.old planned }
    ensures gone { IsBarGoneOver ⟦<TakenControl as Defined>⟧.loan ⟦<TakenWindow as Defined>⟧.loan
        (⟦<ControlStock as Stocked>⟧.slots stock.old) (⟦<ControlStock as Stocked>⟧.slots stock.new)
        window bar windows.old controls.old windows.new controls.new }
    ensures put { IsPutIfPlanned planned windows.old windows.new }
{
    if let Some(control) = bar {
        controls.end_planned(windows, ControlOf { window, control }, planned, stock);
    }
}

impl Lists<TakenList> {
    /// Ends a list, and the scroll bars that its window still has of those that it was made with: the definition of each is
    /// disposed of, and put back Closed into its slot.
    pub(crate) fn dispose(
        &mut self,
        windows: &mut WindowManager,
        controls: &mut Controls<TakenControl>,
        list: ListOf,
        stock: &mut ListStock,
        bars: &mut ControlStock,
    ) -> Result<ListReply, Refusal>
        requires kept { ⟦<WindowManager as DeskWindows>⟧.IsKept windows.old }
        requires controls { ⟦<Controls<TakenControl> as DeskControls>⟧.IsWhole windows.old controls.old bars.old }
        requires lists { ⟦<Self as DeskLists>⟧.IsWhole windows.old self.old stock.old }
        ensures { ⟦<Self as DeskListsWithBars>⟧.LeavesStocks bars.old bars.new stock.old stock.new
            (IsListStep (asks.Dispose list) result) windows.old controls.old self.old windows.new controls.new
            self.new }
    {
        let spot = self.spot(windows, list)?;
        let layer = self.layer(windows, spot);
        let (at, window) = (spot.window, list.window);
        let list = &self.list.items[spot.list];
        let (vertical, horizontal) = (list.kept.vertical, list.kept.horizontal);
        let relaid = windows.list().at(at).layers.without(self.alloc, layer)?;
        let update = &windows.area(at).update;
        let relaying = windows.plan_layers(at, update, &relaid, None)?;
        let update = &relaying.update;
        let one = plan_bar(
            controls,
            windows,
            at,
            window,
            vertical,
            &relaid.layers,
            update,
        )?;
        let layers = layers_left(&one, &relaid.layers);
        let update = update_left(&one, update);
        let two = plan_bar(controls, windows, at, window, horizontal, layers, update)?;
        let ended = self.list.remove(spot.list);
        windows.commit_layers(at, relaid.layers, relaying, None, &*self);
        put_away(ended.kept.definition, stock);
        end_bar(controls, windows, window, vertical, one, bars);
        end_bar(controls, windows, window, horizontal, two, bars);
        Ok(ListReply::Done)
    }

    /// Ends the lists of a window: the definition of each is disposed of, and put back Closed into its slot. Those of other windows
    /// stay. Takes no memory, and draws nothing: this is for a window that is no more, whose controls end with it.
    pub fn end_of(&mut self, window: u64, stock: &mut ListStock)
        requires live { AreLiveLists (⟦<Self as ListsOnStock>⟧.records self.old) }
        requires stocked { AreStocked (λ d. d.stage) (slots_of (⟦<Self as ListsOnStock>⟧.records self.old))
            (⟦<ListStock as Stocked>⟧.slots stock.old) }
        ensures { AreListsOfLeft window (⟦<Self as ListsOnStock>⟧.state self.old stock.old)
            (⟦<Self as ListsOnStock>⟧.state self.new stock.new) }
    {
        while let Some(list) = self.list.take_of(window) {
            put_away(list.kept.definition, stock);
        }
    }

    /// Ends the desk's lists: the definition of every one is disposed of, and put back Closed into its slot, while every other slot
    /// stays as it was. Takes no memory, and refuses nothing.
    pub fn close(self, stock: &mut ListStock)
        requires live { AreLiveLists (⟦<Self as ListsOnStock>⟧.records self) }
        requires stocked { AreStocked (λ d. d.stage) (slots_of (⟦<Self as ListsOnStock>⟧.records self))
            (⟦<ListStock as Stocked>⟧.slots stock.old) }
        ensures { AreAllListsClosed (⟦<Self as ListsOnStock>⟧.records self)
            (⟦<ListStock as Stocked>⟧.slots stock.old) (⟦<ListStock as Stocked>⟧.slots stock.new) }
    {
        let Lists { list, .. } = self;
        let Items { items, .. } = list;
        let mut lists = items;
        while let Some(list) = lists.pop() {
            put_away(list.kept.definition, stock);
        }
    }
}
