//! Text records beside windows, as contracts see them.
ghost use Rattle.window_mgr.specs.DeskStates.{Opened};
ghost use Rattle.text_mgr.specs.Boxed as boxed;
ghost use Rattle.text_mgr.specs.TextDesks.{TextDesk};

use crate::Texts;
use def_iface::WindowDef;
use window_mgr::WindowManager;

/// The text records of a desk beside its windows, as contracts see them.
pub trait DeskTexts {
    /// The windows.
    type Windows;
    /// The boxes that windows' definitions lie in: what these mean, the members say.
    type Boxes;

    /// They are whole beside these windows, as they are between calls: each is in a window that is there, and shown by a layer of
    /// that.
    ghost AreBeside: { Self.Windows → Self → Type 0 };

    /// Whatever other layers show, over any slots over which the windows are whole windows and text records are so afterwards, and
    /// this holds of the desk that they are together.
    ghost Leaves: { (TextDesk → TextDesk → Type 0)
        → Self.Windows → Opened → Self → Self.Windows → Opened → Self → Type 0 };
}

impl DeskTexts for Texts {
    type Windows = WindowManager;

    type Boxes = Box<dyn WindowDef>;

    ghost AreBeside = { boxed.AreBeside WindowDef-box };

    ghost Leaves = { boxed.Leaves WindowDef-box };
}
