//! Where a control stands, or another item of a window.
ghost use Rattle.std.specs.Prelude.{◌≡◌, [], Some, MatchResult};
ghost use Rattle.tb_geom.specs.Refusals.{first_refusal};
ghost use Rattle.control_mgr.specs.ControlRefusals.{missing_refusals};
ghost use Rattle.control_mgr.specs.ItemSpots.{IsItemAt, item_refusals};
ghost use Rattle.control_mgr.specs.Spots.{IsSpotOf};

use crate::{Controls, ControlsOnStock};
use def_iface::{Defined, TakenControl, TakenWindow};
use desk_call::ControlOf;
use tb_geom::Refusal;
use window_items::Items;
use window_mgr::{DeskWindows, WindowManager};

/// Where an item of a window, as a control or a list of it, stands among the items of all windows, and its window, counted from
/// the front.
#[derive(Clone, Copy)]
pub struct ItemAt {
    pub window: usize,
    pub item: usize,
}

/// Where the window's item of this serial stands. NoSuchWindow where the window is not there, and this refusal where the window
/// has no such item.
pub fn spot_of<T>(
    windows: &WindowManager,
    items: &Items<T>,
    window: u64,
    serial: u64,
    missing: Refusal,
) -> Result<ItemAt, Refusal>
    ensures { MatchResult result
        (λ spot. IsItemAt ⟦<TakenWindow as Defined>⟧.loan window serial windows.now items.now.items.items spot)
        (λ e. first_refusal (item_refusals window serial missing
        (⟦<WindowManager as DeskWindows>⟧.desk windows.now []) items.now.items.items) ≡ Some e) }
{
    let Some(at) = windows.find(window) else {
        return Err(Refusal::NoSuchWindow);
    };
    match items.find(window, serial) {
        Some(item) => Ok(ItemAt { window: at, item }),
        None => Err(missing),
    }
}

/// Where a control stands in the list, and its window, counted from the front.
#[derive(Clone, Copy)]
pub(crate) struct ControlAt {
    pub window: usize,
    pub control: usize,
}

impl Controls<TakenControl> {
    /// Where this control stands.
    pub(crate) fn spot(
        &self,
        windows: &WindowManager,
        control: ControlOf,
    ) -> Result<ControlAt, Refusal>
        ensures { let refusals = missing_refusals control (⟦<WindowManager as DeskWindows>⟧.desk windows.now [])
            (⟦<Self as ControlsOnStock>⟧.records self.now) in
            MatchResult result
            (λ spot. IsSpotOf ⟦<TakenWindow as Defined>⟧.loan ⟦<TakenControl as Defined>⟧.loan control windows.now
            self.now spot)
            (λ e. first_refusal refusals ≡ Some e) }
    {
        let missing = Refusal::NoSuchControl;
        match spot_of(
            windows,
            &self.list,
            control.window,
            control.control,
            missing,
        ) {
            Ok(at) => Ok(ControlAt {
                window: at.window,
                control: at.item,
            }),
            Err(refusal) => Err(refusal),
        }
    }
}
