//! What a control's definition keeps of what it is told, for definitions that keep all of it.
//!
//! Such a definition has a `KeptControl`, and after each change the one that `after` gives. That it then forgot nothing, as
//! `ControlDef::told` owes, `proofs/KeptControlLemmas` says once for all of them (`kept_control_hears`).
ghost use Rattle.std.specs.Prelude.{◌≡◌};
ghost use Rattle.def_iface.specs.ControlKeeping.{nothing_kept, kept_after, keeps_control_title};

use crate::{ControlChange, Size};
use control_values::{ControlValues, Highlight};
use draw_port::ShortText;

/// All that a control's definition is told.
#[derive(Drop)]
pub struct KeptControl {
    pub size: Size,
    /// Of a longer title the first 255 characters.
    pub title: ShortText,
    pub values: ControlValues,
    pub highlight: Highlight,
}

impl KeptControl {
    /// What is kept of a control of which nothing was told yet: no size, no title, and 0 for each number.
    pub fn new() -> KeptControl
        ensures { result ≡ nothing_kept }
    {
        KeptControl {
            size: Size {
                width: 0,
                height: 0,
            },
            title: ShortText::new(b"").unwrap(),
            values: ControlValues::new(0, 0, 0).unwrap(),
            highlight: Highlight::none(),
        }
    }

    /// What is kept after a change.
    pub fn after(&self, change: &ControlChange<'_>) -> KeptControl
        ensures { result ≡ kept_after change.now self.now }
    {
        let mut kept = KeptControl {
            size: self.size,
            title: self.title.copy(),
            values: self.values,
            highlight: self.highlight,
        };
        match change {
            ControlChange::Resized(size) => kept.size = *size,
            ControlChange::Titled(title) => kept.title = ShortText::shortened(title),
            ControlChange::Set(values) => kept.values = *values,
            ControlChange::Highlighted(highlight) => kept.highlight = *highlight,
        }
        kept
    }
}

impl ControlChange<'_> {
    /// Whether the change brings no title.
    pub fn keeps_title(&self) -> bool
        ensures { result ≡ keeps_control_title self.now }
    {
        match self {
            ControlChange::Titled(_) => false,
            _ => true,
        }
    }
}
