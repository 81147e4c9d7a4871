//! The kinds of standard windows, and what a window of a kind has.
ghost use Rattle.std.specs.Prelude.{◌≡◌};
ghost use Rattle.std_wdef.specs.Kinds.{is_document, has_size_box, has_zoom_box, is_shadow};
ghost use Rattle.std_wdef.specs.Kinds.{closes, tracks, zooms, grows, is_titled};

use def_iface::{Flags, Size};
use draw_port::ShortText;

/// The variations of the standard window definition, with the numbers of their procedures (*Inside
/// Macintosh* I, "The Window Manager", "Window Types"; zoomDocProc: volume IV).
#[derive(Clone, Copy, Debug, PartialEq, Eq)]
pub enum Variation {
    /// documentProc
    Document = 0,
    /// dBoxProc
    Dialog = 1,
    /// plainDBox
    Plain = 2,
    /// altDBoxProc
    Shadow = 3,
    /// noGrowDocProc
    NoGrow = 4,
    /// zoomDocProc
    Zoom = 8,
}

/// What a window of a kind shows, beside the characters of its title.
#[derive(Clone, Copy)]
pub(crate) struct Shown {
    pub flags: Flags,
    /// The title is not empty.
    pub titled: bool,
    pub size: Size,
}

impl Variation {
    pub(crate) fn is_document(self) -> bool
        ensures { result ≡ is_document self }
    {
        match self {
            Variation::Document | Variation::NoGrow | Variation::Zoom => true,
            Variation::Dialog | Variation::Plain | Variation::Shadow => false,
        }
    }

    pub(crate) fn has_size_box(self) -> bool
        ensures { result ≡ has_size_box self }
    {
        match self {
            Variation::Document | Variation::Zoom => true,
            Variation::Dialog | Variation::Plain | Variation::Shadow | Variation::NoGrow => false,
        }
    }

    pub(crate) fn has_zoom_box(self) -> bool
        ensures { result ≡ has_zoom_box self }
    {
        match self {
            Variation::Zoom => true,
            _ => false,
        }
    }

    pub(crate) fn is_shadow(self) -> bool
        ensures { result ≡ is_shadow self }
    {
        match self {
            Variation::Shadow => true,
            _ => false,
        }
    }
}

impl Variation {
    /// Whether it shows a go-away box.
    pub(crate) fn closes(self, flags: Flags) -> bool
        ensures { result ≡ closes self flags }
    {
        self.is_document() && (flags.highlighted && flags.go_away)
    }

    /// Whether it shows one that is tracked, with the point inside.
    pub(crate) fn tracks(self, flags: Flags) -> bool
        ensures { result ≡ tracks self flags }
    {
        self.closes(flags) && flags.tracked
    }

    /// Whether it shows a zoom box.
    pub(crate) fn zooms(self, flags: Flags) -> bool
        ensures { result ≡ zooms self flags }
    {
        self.has_zoom_box() && flags.highlighted
    }

    /// Whether its size box can be used.
    pub(crate) fn grows(self, flags: Flags) -> bool
        ensures { result ≡ grows self flags }
    {
        self.has_size_box() && flags.highlighted
    }
}

/// Whether a title is not empty.
pub(crate) fn is_titled(title: &ShortText) -> bool
    ensures { result ≡ is_titled title.now }
{
    0 < title.as_slice().len()
}
