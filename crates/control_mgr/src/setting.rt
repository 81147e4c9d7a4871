//! What changes of a control but where it lies: its setting, its highlighting and its title.
ghost use Rattle.std.specs.Prelude.{◌≡◌, ◌<◌, true, pos, length, slice_get, IfSome, IfErr, is_ok, if◌then◌else◌};
ghost use Rattle.control_values.specs.Highlights.{is_highlight};
ghost use Rattle.desk_call.specs.declared.control.ControlOf.{ControlOf as Named};
ghost use Rattle.desk_call.specs.declared.control.ControlCall.TheVariants as asks;
ghost use Rattle.window_mgr.specs.DeskStates.{Opened};
ghost use Rattle.control_mgr.specs.ControlSteps.{IsControlStep};
ghost use Rattle.control_mgr.specs.Damages.{IsPut, IsSettingGiven, IsWhereRight};
ghost use Rattle.control_mgr.specs.DamageWritten.{WritesDamages};
ghost use Rattle.control_mgr.specs.Numbers.{call_of, may_have_number, with_number};
ghost use Rattle.control_mgr.specs.Settled.{MayHaveSetting};
ghost use Rattle.control_mgr.specs.Spots.{IsSpot, IsSpotOf, with_state};

use crate::spots::ControlAt;
use crate::{Controls, ControlsOnStock, DeskControls};
use control_values::{ControlValues, Highlight};
use def_iface::{Defined, TakenControl, TakenWindow};
use desk_call::{ControlNumber, ControlOf, ControlReply, ControlTitle};
use draw_port::ShortText;
use tb_geom::Refusal;
use window_mgr::{DeskWindows, WindowManager};

/// What a control shows beside where it lies.
#[derive(Drop)]
pub(crate) struct State {
    pub values: ControlValues,
    pub highlight: Highlight,
    pub title: ShortText,
}

/// Which number of a control's setting a call sets.
#[derive(Clone, Copy)]
pub(crate) enum WhichNumber {
    Value,
    Minimum,
    Maximum,
}

impl WhichNumber {
    /// Sets this number of a setting, by which its value is moved between the other two. OutOfRange as that setter says.
    fn set_in(self, values: &mut ControlValues, number: i32) -> Result<(), Refusal>
        ensures setting { values.new ≡ (if may_have_number self number values.old
            then with_number self number values.old else values.old) }
        ensures in_range { is_ok result ≡ may_have_number self number values.old }
        ensures refused { IfErr result (λ e. e ≡ Refusal.OutOfRange) }
    {
        match self {
            WhichNumber::Value => values.set_value(number),
            WhichNumber::Minimum => values.set_minimum(number),
            WhichNumber::Maximum => values.set_maximum(number),
        }
    }
}

/// Reads a setting and a highlighting: each is one that a control may have.
pub(crate) fn say_bounds(values: ControlValues, highlight: Highlight)
    ensures setting { MayHaveSetting values }
    ensures highlight { is_highlight (pos highlight) ≡ true }
{
    let _value = values.value();
    let _minimum = values.minimum();
    let _maximum = values.maximum();
    let _number = highlight.number();
}

impl Controls<TakenControl> {
    /// The state of the control at this index.
    pub(crate) fn state(&self, at: usize) -> State
        requires { at < length self.now.list.items.items }
        ensures { IfSome (slice_get (⟦<Self as ControlsOnStock>⟧.records self.now) at) (λ c.
            result ≡ record { values = c.kept.values; highlight = c.kept.highlight; title = c.kept.title }) }
    {
        let control = &self.list.items[at];
        State {
            values: control.kept.values,
            highlight: control.kept.highlight,
            title: control.kept.title.copy(),
        }
    }

    /// Gives a control this state, and draws it within the damage where it is not to be redrawn: no other pixel is written. Takes
    /// no memory.
    pub(crate) fn put(&mut self, windows: &mut WindowManager, spot: ControlAt, state: State)
        requires kept { ⟦<WindowManager as DeskWindows>⟧.IsKept windows.old }
        requires beside { ⟦<Self as DeskControls>⟧.AreBeside windows.old self.old }
        requires spot { IsSpot ⟦<TakenWindow as Defined>⟧.loan ⟦<TakenControl as Defined>⟧.loan windows.old self.old
            spot }
        ensures put { (c : Named) → IsSpotOf ⟦<TakenWindow as Defined>⟧.loan ⟦<TakenControl as Defined>⟧.loan c windows.old
            self.old spot
            → (o u : Opened) → ⟦<Self as DeskControls>⟧.Leaves
            (IsPut c (with_state state)) windows.old o self.old windows.new u self.new }
        ensures within { WritesDamages ⟦<TakenWindow as Defined>⟧.loan ⟦<TakenControl as Defined>⟧.loan (with_state state)
            spot self.old windows.old windows.new }
    {
        say_bounds(state.values, state.highlight);
        let layer = self.list.layer_index(spot.control);
        let control = self.list.at_mut(spot.control);
        control.values = state.values;
        control.highlight = state.highlight;
        control.title = state.title;
        let damage = self.tell(spot.control);
        windows.show_layer(spot.window, layer, damage, &*self);
    }

    /// Gives a control this setting, and draws it within the damage where it is not to be redrawn. Where the control is not there,
    /// nothing happens. Takes no memory.
    pub fn set_setting(
        &mut self,
        windows: &mut WindowManager,
        control: ControlOf,
        values: ControlValues,
    )
        requires kept { ⟦<WindowManager as DeskWindows>⟧.IsKept windows.old }
        requires beside { ⟦<Self as DeskControls>⟧.AreBeside windows.old self.old }
        ensures { (o u : Opened) → ⟦<Self as DeskControls>⟧.Leaves
            (IsSettingGiven control values) windows.old o self.old windows.new u self.new }
    {
        if let Ok(spot) = self.spot(windows, control) {
            let mut state = self.state(spot.control);
            state.values = values;
            self.put(windows, spot, state);
        }
    }

    /// Sets the value of a control, its minimum or its maximum.
    pub(crate) fn set_number(
        &mut self,
        windows: &mut WindowManager,
        which: WhichNumber,
        set: ControlNumber,
    ) -> Result<ControlReply, Refusal>
        requires kept { ⟦<WindowManager as DeskWindows>⟧.IsKept windows.old }
        requires beside { ⟦<Self as DeskControls>⟧.AreBeside windows.old self.old }
        ensures { (o : Opened) → ⟦<Self as DeskControls>⟧.Leaves
            (IsWhereRight (IsControlStep (call_of which set) result)) windows.old o self.old windows.new o self.new }
    {
        let spot = self.spot(windows, set.control)?;
        let mut state = self.state(spot.control);
        which.set_in(&mut state.values, set.number)?;
        self.put(windows, spot, state);
        Ok(ControlReply::Done)
    }

    /// Highlights a control.
    pub(crate) fn hilite(
        &mut self,
        windows: &mut WindowManager,
        set: ControlNumber,
    ) -> Result<ControlReply, Refusal>
        requires kept { ⟦<WindowManager as DeskWindows>⟧.IsKept windows.old }
        requires beside { ⟦<Self as DeskControls>⟧.AreBeside windows.old self.old }
        ensures { (o : Opened) → ⟦<Self as DeskControls>⟧.Leaves
            (IsWhereRight (IsControlStep (asks.Hilite set) result)) windows.old o self.old windows.new o self.new }
    {
        let spot = self.spot(windows, set.control)?;
        let mut state = self.state(spot.control);
        state.highlight = Highlight::of_number(set.number)?;
        self.put(windows, spot, state);
        Ok(ControlReply::Done)
    }

    /// Gives a control another title.
    pub(crate) fn set_title(
        &mut self,
        windows: &mut WindowManager,
        set: &ControlTitle<'_>,
    ) -> Result<ControlReply, Refusal>
        requires kept { ⟦<WindowManager as DeskWindows>⟧.IsKept windows.old }
        requires beside { ⟦<Self as DeskControls>⟧.AreBeside windows.old self.old }
        ensures { (o : Opened) → ⟦<Self as DeskControls>⟧.Leaves
            (IsWhereRight (IsControlStep (asks.SetTitle set.now) result)) windows.old o self.old windows.new o
            self.new }
    {
        let spot = self.spot(windows, set.control)?;
        let mut state = self.state(spot.control);
        state.title = ShortText::new(set.title.as_slice())?;
        self.put(windows, spot, state);
        Ok(ControlReply::Done)
    }
}
