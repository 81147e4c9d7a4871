//! Where a text record stands.
ghost use Rattle.std.specs.Prelude.{◌≡◌, [], Some, MatchResult};
ghost use Rattle.tb_geom.specs.Refusals.{first_refusal};
ghost use Rattle.text_mgr.specs.Spots.{IsSpotOf};
ghost use Rattle.text_mgr.specs.TextRefusals.{missing_refusals};

use crate::Texts;
use control_mgr::spot_of;
use def_iface::{Defined, TakenWindow};
use desk_call::TextOf;
use tb_geom::Refusal;
use window_mgr::{DeskWindows, WindowManager};

/// Where a text record stands in the list, and its window, counted from the front.
#[derive(Clone, Copy)]
pub(crate) struct TextAt {
    pub window: usize,
    pub text: usize,
}

impl Texts {
    /// Where this text record stands.
    pub(crate) fn spot(&self, windows: &WindowManager, text: TextOf) -> Result<TextAt, Refusal>
        ensures { let refusals = missing_refusals text (⟦<WindowManager as DeskWindows>⟧.desk windows.now [])
            self.now.list.items.items in
            MatchResult result
            (λ spot. IsSpotOf ⟦<TakenWindow as Defined>⟧.loan text windows.now self.now spot)
            (λ e. first_refusal refusals ≡ Some e) }
    {
        let missing = Refusal::NoSuchText;
        match spot_of(windows, &self.list, text.window, text.text, missing) {
            Ok(at) => Ok(TextAt {
                window: at.window,
                text: at.item,
            }),
            Err(refusal) => Err(refusal),
        }
    }
}
