//! The end of controls: of those of a window that is disposed of, and of all.
ghost use Rattle.std.specs.Prelude.{◌≡◌};
ghost use Rattle.control_mgr.specs.ControlClosing.{AreAllControlsClosed, IsWindowLeft};
ghost use Rattle.control_mgr.specs.InUse.{AreStocked};
ghost use Rattle.control_mgr.specs.WholeControls.{AreLiveControls, slots_of};

use crate::{Controls, ControlsOnStock};
use def_iface::{ControlStock, Stocked, TakenControl, put_away};
use window_items::Items;

impl Controls<TakenControl> {
    /// Ends the controls of a window: the definition of each is disposed of, and put back Closed into its slot. Those of other
    /// windows stay. Takes no memory, and draws nothing: this is for a window that is no more.
    pub fn end_of(&mut self, window: u64, stock: &mut ControlStock)
        requires live { AreLiveControls (⟦<Self as ControlsOnStock>⟧.records self.old) }
        requires stocked { AreStocked (λ d. d.stage) (slots_of (⟦<Self as ControlsOnStock>⟧.records self.old))
            (⟦<ControlStock as Stocked>⟧.slots stock.old) }
        ensures { IsWindowLeft window (⟦<Self as ControlsOnStock>⟧.state self.old stock.old)
            (⟦<Self as ControlsOnStock>⟧.state self.new stock.new) }
    {
        while let Some(control) = self.list.take_of(window) {
            put_away(control.kept.definition, stock);
        }
    }

    /// Ends the desk's controls: the definition of every one is disposed of, and put back Closed into its slot, while every other
    /// slot stays as it was. Takes no memory, and refuses nothing.
    pub fn close(self, stock: &mut ControlStock)
        requires live { AreLiveControls (⟦<Self as ControlsOnStock>⟧.records self) }
        requires stocked { AreStocked (λ d. d.stage) (slots_of (⟦<Self as ControlsOnStock>⟧.records self))
            (⟦<ControlStock as Stocked>⟧.slots stock.old) }
        ensures { AreAllControlsClosed (⟦<Self as ControlsOnStock>⟧.records self)
            (⟦<ControlStock as Stocked>⟧.slots stock.old) (⟦<ControlStock as Stocked>⟧.slots stock.new) }
    {
        let Controls { list, .. } = self;
        let Items { items, .. } = list;
        let mut controls = items;
        while let Some(control) = controls.pop() {
            put_away(control.kept.definition, stock);
        }
    }
}
