//! Where a list stands, and its window.
ghost use Rattle.std.specs.Prelude.{◌≡◌, [], Some, MatchResult};
ghost use Rattle.tb_geom.specs.Refusals.{first_refusal};
ghost use Rattle.list_mgr.specs.ListRefusals.{missing_refusals};
ghost use Rattle.list_mgr.specs.Spots.{IsSpotOf};

use crate::{Lists, ListsOnStock};
use control_mgr::spot_of;
use def_iface::{Defined, TakenList, TakenWindow};
use desk_call::ListOf;
use tb_geom::Refusal;
use window_mgr::{DeskWindows, WindowManager};

/// The index of a list in the list of lists, and that of its window from the front.
#[derive(Clone, Copy)]
pub(crate) struct ListAt {
    pub window: usize,
    pub list: usize,
}

impl Lists<TakenList> {
    /// Where this list stands.
    pub(crate) fn spot(&self, windows: &WindowManager, list: ListOf) -> Result<ListAt, Refusal>
        ensures { let refusals = missing_refusals list (⟦<WindowManager as DeskWindows>⟧.desk windows.now [])
            (⟦<Self as ListsOnStock>⟧.records self.now) in
            MatchResult result
            (λ spot. IsSpotOf ⟦<TakenWindow as Defined>⟧.loan ⟦<TakenList as Defined>⟧.loan list windows.now self.now
            spot)
            (λ e. first_refusal refusals ≡ Some e) }
    {
        let missing = Refusal::NoSuchList;
        match spot_of(windows, &self.list, list.window, list.list, missing) {
            Ok(at) => Ok(ListAt {
                window: at.window,
                list: at.item,
            }),
            Err(refusal) => Err(refusal),
        }
    }
}
