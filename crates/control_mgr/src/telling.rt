//! A control's definition, told of its control.
ghost use Rattle.std.specs.Prelude.{◌≡◌, ◌<◌, length, slice_get, IfSome};
ghost use Rattle.control_mgr.specs.ControlSteps.{IsChangedAt};
ghost use Rattle.control_mgr.specs.Damages.{IsAnswerOf, IsDamageAt};
ghost use Rattle.control_mgr.specs.Spots.{IsTellable};

use crate::{Controls, ControlsOnStock};
use def_iface::{ControlChange, TakenControl};
use draw_port::placed_within;
use tb_geom::Rect;

impl Controls<TakenControl> {
    /// Tells the definition of the control at this index all of its control. The answer is the damage, in the coordinates of the
    /// control's window: of the pixels outside of it the control shows what it showed.
    pub(crate) fn tell(&mut self, at: usize) -> Rect
        requires at { at < length self.old.list.items.items }
        requires tellable { IfSome (slice_get (⟦<Self as ControlsOnStock>⟧.records self.old) at) IsTellable }
        ensures told { IsChangedAt (λ c. c) at (⟦<Self as ControlsOnStock>⟧.records self.old)
            (⟦<Self as ControlsOnStock>⟧.records self.new) }
        ensures damage { IsDamageAt result at (⟦<Self as ControlsOnStock>⟧.records self.old)
            (⟦<Self as ControlsOnStock>⟧.records self.new) }
        ensures answered { IfSome (slice_get (⟦<Self as ControlsOnStock>⟧.records self.old) at) (IsAnswerOf result) }
        ensures next { self.new.list.next ≡ self.old.list.next }
        ensures alloc { self.new.alloc ≡ self.old.alloc }
    {
        let item = &mut self.list.items[at];
        let control = &mut item.kept;
        let definition = &mut control.definition;
        let resized = definition.told(&ControlChange::Resized(control.size));
        let titled = definition.told(&ControlChange::Titled(control.title.as_slice()));
        let set = definition.told(&ControlChange::Set(control.values));
        let highlighted = definition.told(&ControlChange::Highlighted(control.highlight));
        let former = resized.union(titled);
        let latter = set.union(highlighted);
        let damage = former.union(latter);
        let bounds = definition.bounds(control.size);
        let shared = damage.sect(bounds);
        placed_within(Rect::plane(), shared, control.place)
    }
}
