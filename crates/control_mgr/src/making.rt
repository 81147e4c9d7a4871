//! Controls that are made: judged, planned with all growth, and added, which takes no memory.
ghost use Rattle.std.specs.Prelude.{◌≡◌, ◌<◌, ◌≤◌, ◌++◌, ◌∷◌, [], true, None, Some, MatchResult, IfOk, IfErr, length, vec_capacity};
ghost use Rattle.tb_geom.specs.Refusals.{first_refusal};
ghost use Rattle.def_iface.specs.Slots.{IsTaken};
ghost use Rattle.desk_call.specs.declared.control.ControlCall.TheVariants as asks;
ghost use Rattle.window_mgr.specs.DeskStates.{Opened};
ghost use Rattle.window_mgr.specs.Relayered.{AreLayersPut};
ghost use Rattle.control_mgr.specs.ControlRefusals.{control_form_refusals, judged_refusals};
ghost use Rattle.control_mgr.specs.ControlSteps.{IsControlMade, IsControlStep};
ghost use Rattle.control_mgr.specs.Laying.{definition_if};
ghost use Rattle.control_mgr.specs.Making.{IsAddition, IsGrown, IsNotAdded, IsReadyToAdd, IsRoomier, IsTicket, MayGrow, judged_by};

use crate::laying::{Lie, may_be_placed, shape_of};
use crate::setting::say_bounds;
use crate::{Control, Controls, ControlsOnStock, DeskControls};
use control_values::{ControlValues, Highlight};
use def_iface::{ControlStock, Defined, Stage, Stocked, TakenControl, TakenWindow};
use desk_call::{ControlCall, ControlReply, NewControl};
use desk_layers::Part;
use draw_port::ShortText;
use scan_region::Region;
use std::alloc::AllocError;
use tb_geom::Refusal;
use vis_update::Relaying;
use window_items::Item;
use window_list::{Layer, Layers};
use window_mgr::{DeskWindows, WindowManager};

/// As many controls as a window may have.
pub const MOST_CONTROLS: usize = 64;

/// What a new control is given, where nothing but memory can refuse it. Of several controls that are planned before the first
/// of them is added, each has the serial after that of the one before, and of those in one window each has the layer behind.
#[derive(Drop)]
pub struct Ticket {
    /// The index of its window, counted from the front.
    pub window: usize,
    /// The next serial when it is added.
    pub serial: u64,
    pub values: ControlValues,
    pub title: ShortText,
    /// The index of its layer among those of its window: how many controls the window has when it is added.
    pub layer: usize,
}

/// All that a new control needs beside its definition and room in the list.
#[derive(Drop)]
pub struct Addition {
    pub ticket: Ticket,
    /// The layers of its window with it.
    pub layers: Layers,
    /// What changes by them on the screen, with the update region that the window then has.
    pub relaying: Relaying,
}

/// Why a call is refused whatever is open: the stock has no such kind of controls.
pub fn form_refusal(call: &ControlCall<'_>, stock: &ControlStock) -> Option<Refusal>
    ensures { result ≡ first_refusal (control_form_refusals call.now (⟦<ControlStock as Stocked>⟧.slots stock.now)) }
{
    match call {
        ControlCall::New(new) if !stock.has(new.kind.as_slice()) => Some(Refusal::NoSuchName),
        _ => None,
    }
}

impl Controls<TakenControl> {
    /// Makes a control of a window, and draws all that it owns.
    pub(crate) fn make(
        &mut self,
        windows: &mut WindowManager,
        new: &NewControl<'_>,
        stock: &mut ControlStock,
    ) -> Result<ControlReply, Refusal>
        requires kept { ⟦<WindowManager as DeskWindows>⟧.IsKept windows.old }
        requires whole { ⟦<Self as DeskControls>⟧.IsWhole windows.old self.old stock.old }
        ensures { (o : Opened) → ⟦<Self as DeskControls>⟧.LeavesStock stock.old stock.new
            (IsControlStep (asks.New new.now) result) windows.old o self.old windows.new o self.new }
    {
        match stock.take(new.kind.as_slice()) {
            Ok(taken) => match self.plan(windows, new, &taken) {
                Ok(addition) => {
                    let serial = addition.ticket.serial;
                    self.add(windows, new, addition, taken);
                    Ok(ControlReply::Made(serial))
                }
                Err(refusal) => {
                    stock.put_back(taken);
                    Err(refusal)
                }
            },
            Err(Refusal::NoDefinition) => Err(self.refusal_without(windows, new)),
            Err(refusal) => Err(refusal),
        }
    }

    /// Why a control is refused that no definition is left for.
    fn refusal_without(&self, windows: &WindowManager, new: &NewControl<'_>) -> Refusal
        requires { ⟦<WindowManager as DeskWindows>⟧.IsKept windows.now }
        ensures { first_refusal (judged_refusals new.now None (⟦<WindowManager as DeskWindows>⟧.desk windows.now [])
            (⟦<Self as ControlsOnStock>⟧.records self.now) self.now.list.next ++ (true, Refusal.NoDefinition)
            ∷ []) ≡ Some result }
    {
        match self.judge(windows, new, None) {
            Ok(_ticket) => Refusal::NoDefinition,
            Err(refusal) => refusal,
        }
    }

    /// What a new control is given, where nothing but its kind and memory can refuse it.
    fn judge(
        &self,
        windows: &WindowManager,
        new: &NewControl<'_>,
        taken: Option<&TakenControl>,
    ) -> Result<Ticket, Refusal>
        requires { ⟦<WindowManager as DeskWindows>⟧.IsKept windows.now }
        ensures { let d = definition_if ⟦<TakenControl as Defined>⟧.loan taken.entry in MatchResult result
            (λ ticket. (judged_by ⟦<TakenWindow as Defined>⟧.loan ⟦<TakenControl as Defined>⟧.loan new.now d windows.now
            self.now ≡ None)
            × IsTicket ⟦<TakenControl as Defined>⟧.loan new.now d windows.now self.now ticket)
            (λ e. judged_by ⟦<TakenWindow as Defined>⟧.loan ⟦<TakenControl as Defined>⟧.loan new.now d windows.now
            self.now ≡ Some e) }
    {
        let Some(window) = windows.find(new.window) else {
            return Err(Refusal::NoSuchWindow);
        };
        let there = windows.list().at(window).place;
        if !may_be_placed(taken, new.place, new.size, there) {
            return Err(Refusal::OutOfRange);
        }
        let values = ControlValues::new(new.minimum, new.maximum, new.value)?;
        let title = ShortText::new(new.title.as_slice())?;
        let layer = self.list.count(new.window);
        match self.list.next {
            Some(serial) if layer < MOST_CONTROLS => Ok(Ticket {
                window,
                serial,
                values,
                title,
                layer,
            }),
            _ => Err(Refusal::TooMany),
        }
    }

    /// All that can be refused of a control with this definition, and all growth.
    fn plan(
        &mut self,
        windows: &WindowManager,
        new: &NewControl<'_>,
        taken: &TakenControl,
    ) -> Result<Addition, Refusal>
        requires kept { ⟦<WindowManager as DeskWindows>⟧.IsKept windows.now }
        requires beside { ⟦<Self as DeskControls>⟧.AreBeside windows.now self.old }
        ensures same { IsRoomier self.old self.new }
        ensures judged { IfOk result (λ _. judged_by ⟦<TakenWindow as Defined>⟧.loan ⟦<TakenControl as Defined>⟧.loan
            new.now (Some (⟦<TakenControl as Defined>⟧.loan taken.now).definition) windows.now self.old ≡ None) }
        ensures ok { IfOk result (IsAddition ⟦<TakenWindow as Defined>⟧.loan ⟦<TakenControl as Defined>⟧.loan new.now
            (⟦<TakenControl as Defined>⟧.loan taken.now).definition windows.now self.new) }
        ensures err { IfErr result (IsNotAdded ⟦<TakenWindow as Defined>⟧.loan ⟦<TakenControl as Defined>⟧.loan new.now
            (⟦<TakenControl as Defined>⟧.loan taken.now).definition windows.now self.old) }
    {
        let ticket = self.judge(windows, new, Some(taken))?;
        let layers = &windows.list().at(ticket.window).layers;
        let update = &windows.area(ticket.window).update;
        let addition = self.grow(windows, ticket, new, taken, layers, update)?;
        self.reserve(1)?;
        Ok(addition)
    }

    /// The layers of its window with a new control's in its place, and what changes by them on the screen. `layers` are the
    /// window's layers when the control will be added, and `update` is its update region then: those that it has, or those that
    /// earlier plans leave it, so that several changes can be planned before the first of them is made. It changes nothing, and
    /// makes no room in the list, which `reserve` does.
    pub fn grow(
        &self,
        windows: &WindowManager,
        ticket: Ticket,
        new: &NewControl<'_>,
        taken: &TakenControl,
        layers: &Layers,
        update: &Region,
    ) -> Result<Addition, AllocError>
        requires kept { ⟦<WindowManager as DeskWindows>⟧.IsKept windows.now }
        requires at { ticket.window < length windows.now.windows.records.items }
        requires may { MayGrow new.now (⟦<TakenControl as Defined>⟧.loan taken.now).definition ticket layers.now }
        ensures grown { IfOk result (IsGrown new.now (⟦<TakenControl as Defined>⟧.loan taken.now).definition ticket
            layers.now) }
        ensures planned { IfOk result (λ addition. (u : _) (m : _)
            → IsReadyToAdd ⟦<TakenWindow as Defined>⟧.loan ⟦<TakenControl as Defined>⟧.loan new.now
            (⟦<TakenControl as Defined>⟧.loan taken.now).definition ticket layers.now update.now windows.now u m
            → IsAddition ⟦<TakenWindow as Defined>⟧.loan ⟦<TakenControl as Defined>⟧.loan new.now
            (⟦<TakenControl as Defined>⟧.loan taken.now).definition u m addition) }
    {
        let lie = Lie {
            place: new.place,
            size: new.size,
            shown: new.shown,
        };
        let shape = shape_of(self.alloc, taken, lie)?;
        let own = Layer {
            part: Part::Control(ticket.serial),
            shown: shape.shown,
            region: shape.region,
            bounds: shape.bounds,
        };
        let relaid = layers.with(self.alloc, ticket.layer, own)?;
        let relaying = windows.plan_layers(ticket.window, update, &relaid, Some(ticket.layer))?;
        Ok(Addition {
            ticket,
            layers: relaid.layers,
            relaying,
        })
    }

    /// Begins the definition of a new control, puts it behind the others, and draws all that it owns, as planned. Takes no
    /// memory.
    pub fn add(
        &mut self,
        windows: &mut WindowManager,
        new: &NewControl<'_>,
        addition: Addition,
        taken: TakenControl,
    )
        requires kept { ⟦<WindowManager as DeskWindows>⟧.IsKept windows.old }
        requires beside { ⟦<Self as DeskControls>⟧.AreBeside windows.old self.old }
        requires addition { IsAddition ⟦<TakenWindow as Defined>⟧.loan ⟦<TakenControl as Defined>⟧.loan new.now
            (⟦<TakenControl as Defined>⟧.loan taken).definition windows.old self.old addition }
        requires fresh { (⟦<TakenControl as Defined>⟧.loan taken).definition.stage ≡ Stage.Fresh }
        ensures step { (before left : _) → IsTaken (λ d. d.stage) new.now.kind (⟦<TakenControl as Defined>⟧.loan taken)
            before left
            → (o : Opened) → ⟦<Self as DeskControls>⟧.LeavesOver before left
            (IsControlMade new.now addition.ticket.serial) windows.old o self.old windows.new o self.new }
        ensures put { AreLayersPut addition.ticket.window addition.layers addition.relaying.update windows.old
            windows.new }
        ensures room { vec_capacity self.old.list.items ≤ vec_capacity self.new.list.items }
    {
        let mut taken = taken;
        let Addition {
            ticket,
            layers,
            relaying,
        } = addition;
        let highlight = Highlight::none();
        say_bounds(ticket.values, highlight);
        taken.begin(new.size, new.title.as_slice(), ticket.values);
        self.list.push(Item {
            serial: ticket.serial,
            window: new.window,
            kept: Control {
                place: new.place,
                size: new.size,
                shown: new.shown,
                values: ticket.values,
                highlight,
                title: ticket.title,
                definition: taken,
            },
        });
        windows.commit_layers(ticket.window, layers, relaying, Some(ticket.layer), &*self);
    }
}
