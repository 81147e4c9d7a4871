//! Controls that are ended: planned with all growth, and then ended, which takes no memory.
ghost use Rattle.std.specs.Prelude.{◌≡◌, ◌<◌, IfOk, IfSome, length};
ghost use Rattle.window_list.specs.Holders.{ArePartsApart};
ghost use Rattle.desk_call.specs.declared.control.ControlCall.TheVariants as asks;
ghost use Rattle.window_mgr.specs.DeskStates.{Opened};
ghost use Rattle.window_mgr.specs.Relayered.{AreLayersPut};
ghost use Rattle.control_mgr.specs.ControlSteps.{IsControlDisposed, IsControlStep, IsEndedIfThere};
ghost use Rattle.control_mgr.specs.Ending.{IsEnding, IsPlannedEnd, IsPutIfPlanned, IsReadyToEnd, IsTakenOut, layers_left, update_left};

use crate::{Controls, DeskControls};
use def_iface::{ControlStock, Defined, TakenControl, TakenWindow, put_away};
use desk_call::{ControlOf, ControlReply};
use desk_layers::Part;
use scan_region::Region;
use std::alloc::AllocError;
use tb_geom::Refusal;
use vis_update::Relaying;
use window_list::Layers;
use window_mgr::{DeskWindows, WindowManager};

/// The layers of a window without those of a control that is to end, and what changes by that on the screen.
#[derive(Drop)]
pub struct Ending {
    /// The index of the window, counted from the front.
    pub window: usize,
    pub layers: Layers,
    /// With the update region that the window then has.
    pub relaying: Relaying,
}

/// The layers that a window has once a control that is to end, if one is, was ended, where it has these before.
pub fn layers_left<'a>(planned: &'a Option<Ending>, layers: &'a Layers) -> &'a Layers
    ensures { result.now ≡ layers_left planned.now layers.now }
{
    match planned {
        Some(ending) => &ending.layers,
        None => layers,
    }
}

/// The update region that a window has once a control that is to end, if one is, was ended, where it has this one before.
pub fn update_left<'a>(planned: &'a Option<Ending>, update: &'a Region) -> &'a Region
    ensures { result.now ≡ update_left planned.now update.now }
{
    match planned {
        Some(ending) => &ending.relaying.update,
        None => update,
    }
}

impl Controls<TakenControl> {
    /// The layers of the window at this index without those of a control of it, and what changes by that on the screen, or
    /// nothing where the window will not have the control. `layers` are the window's layers when the control will be ended, and
    /// `update` is its update region then: those that it has, or those that earlier plans leave it, so that several changes can
    /// be planned before the first of them is made. It changes nothing.
    pub fn plan_ending(
        &self,
        windows: &WindowManager,
        window: usize,
        control: ControlOf,
        layers: &Layers,
        update: &Region,
    ) -> Result<Option<Ending>, AllocError>
        requires kept { ⟦<WindowManager as DeskWindows>⟧.IsKept windows.now }
        requires at { window < length windows.now.windows.records.items }
        requires apart { ArePartsApart layers.now.layers }
        ensures out { IfOk result (λ planned. IfSome planned (IsTakenOut window control.control layers.now)) }
        ensures planned { IfOk result (λ planned. (u : _) (m : _)
            → IsReadyToEnd ⟦<TakenWindow as Defined>⟧.loan ⟦<TakenControl as Defined>⟧.loan control window layers.now
            update.now windows.now u m
            → IsPlannedEnd ⟦<TakenWindow as Defined>⟧.loan ⟦<TakenControl as Defined>⟧.loan control u m planned) }
    {
        let Some(layer) = layers.find(Part::Control(control.control)) else {
            return Ok(None);
        };
        let relaid = layers.without(self.alloc, layer)?;
        let relaying = windows.plan_layers(window, update, &relaid, None)?;
        Ok(Some(Ending {
            window,
            layers: relaid.layers,
            relaying,
        }))
    }

    /// Ends a control, as planned: its definition is disposed of, and put back Closed into its slot. Where nothing was planned the
    /// control is not there, and nothing happens. Takes no memory.
    pub fn end_planned(
        &mut self,
        windows: &mut WindowManager,
        control: ControlOf,
        planned: Option<Ending>,
        stock: &mut ControlStock,
    )
        requires kept { ⟦<WindowManager as DeskWindows>⟧.IsKept windows.old }
        requires whole { ⟦<Self as DeskControls>⟧.IsWhole windows.old self.old stock.old }
        requires planned { IsPlannedEnd ⟦<TakenWindow as Defined>⟧.loan ⟦<TakenControl as Defined>⟧.loan control
            windows.old self.old planned }
        ensures step { (o : Opened) → ⟦<Self as DeskControls>⟧.LeavesStock stock.old stock.new
            (IsEndedIfThere control) windows.old o self.old windows.new o self.new }
        ensures put { IsPutIfPlanned planned windows.old windows.new }
    {
        if let Some(ending) = planned {
            self.end_control(windows, control, ending, stock);
        }
    }

    /// Ends a control that is there, as planned.
    fn end_control(
        &mut self,
        windows: &mut WindowManager,
        control: ControlOf,
        ending: Ending,
        stock: &mut ControlStock,
    )
        requires kept { ⟦<WindowManager as DeskWindows>⟧.IsKept windows.old }
        requires whole { ⟦<Self as DeskControls>⟧.IsWhole windows.old self.old stock.old }
        requires ending { IsEnding ⟦<TakenWindow as Defined>⟧.loan ⟦<TakenControl as Defined>⟧.loan control windows.old
            self.old ending }
        ensures step { (o : Opened) → ⟦<Self as DeskControls>⟧.LeavesStock stock.old stock.new
            (IsControlDisposed control) windows.old o self.old windows.new o self.new }
        ensures put { AreLayersPut ending.window ending.layers ending.relaying.update windows.old windows.new }
    {
        let at = self.list.find(control.window, control.control).unwrap();
        let Ending {
            window,
            layers,
            relaying,
        } = ending;
        let ended = self.list.remove(at);
        windows.commit_layers(window, layers, relaying, None, &*self);
        put_away(ended.kept.definition, stock);
    }

    /// Ends a control: its definition is disposed of, and put back Closed into its slot.
    pub(crate) fn dispose(
        &mut self,
        windows: &mut WindowManager,
        control: ControlOf,
        stock: &mut ControlStock,
    ) -> Result<ControlReply, Refusal>
        requires kept { ⟦<WindowManager as DeskWindows>⟧.IsKept windows.old }
        requires whole { ⟦<Self as DeskControls>⟧.IsWhole windows.old self.old stock.old }
        ensures { (o : Opened) → ⟦<Self as DeskControls>⟧.LeavesStock stock.old stock.new
            (IsControlStep (asks.Dispose control) result) windows.old o self.old windows.new o self.new }
    {
        let spot = self.spot(windows, control)?;
        let layers = &windows.list().at(spot.window).layers;
        let update = &windows.area(spot.window).update;
        let planned = self.plan_ending(windows, spot.window, control, layers, update)?;
        self.end_planned(windows, control, planned, stock);
        Ok(ControlReply::Done)
    }
}
