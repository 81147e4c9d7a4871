//! What a definition keeps of what it is told, for definitions that keep all of it.
//!
//! Such a definition has flags, a title and a size of its own, and after each change those that the functions here
//! give. That it then forgot nothing, as `WindowDef::told` owes, `proofs/KeptLemmas` says once for all of them
//! (`kept_hears`).
ghost use Rattle.std.specs.Prelude.{◌≡◌};
ghost use Rattle.def_iface.specs.WindowMeaning.{size_after};
ghost use Rattle.def_iface.specs.WindowKeeping.{no_flags, flags_after, title_after, keeps_title};

use crate::{Size, WindowChange};
use draw_port::ShortText;

/// What a window was told beside its size and its title.
#[derive(Clone, Copy, Debug, PartialEq, Eq)]
pub struct Flags {
    pub highlighted: bool,
    /// It has a go-away box.
    pub go_away: bool,
    pub zoomed: bool,
    /// Its go-away box is tracked, with the point inside.
    pub tracked: bool,
}

impl Flags {
    /// The flags of a window that was told nothing yet.
    pub fn new() -> Flags
        ensures { result ≡ no_flags }
    {
        Flags {
            highlighted: false,
            go_away: false,
            zoomed: false,
            tracked: false,
        }
    }
}

impl WindowChange<'_> {
    /// The flags after the change.
    pub fn flags_after(&self, flags: Flags) -> Flags
        ensures { result ≡ flags_after self.now flags }
    {
        match self {
            WindowChange::Highlighted(on) => Flags {
                highlighted: *on,
                ..flags
            },
            WindowChange::Closable(on) => Flags {
                go_away: *on,
                ..flags
            },
            WindowChange::Zoomed(on) => Flags {
                zoomed: *on,
                ..flags
            },
            WindowChange::Tracked(on) => Flags {
                tracked: *on,
                ..flags
            },
            WindowChange::Resized(_) | WindowChange::Titled(_) => flags,
        }
    }

    /// The size after the change.
    pub fn size_after(&self, size: Size) -> Size
        ensures { result ≡ size_after self.now size }
    {
        match self {
            WindowChange::Resized(new) => *new,
            _ => size,
        }
    }

    /// The title after the change: of a new one the first 255 characters.
    pub fn title_after(&self, title: &ShortText) -> ShortText
        ensures { result ≡ title_after self.now title.now }
    {
        match self {
            WindowChange::Titled(characters) => ShortText::shortened(characters),
            _ => title.copy(),
        }
    }

    /// Whether the change brings no title.
    pub fn keeps_title(&self) -> bool
        ensures { result ≡ keeps_title self.now }
    {
        match self {
            WindowChange::Titled(_) => false,
            _ => true,
        }
    }
}
