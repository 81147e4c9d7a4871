//! What is kept for updates, as contracts see it beside the windows.
ghost use Rattle.desk_call.specs.declared.activity.Activity.{Activity};
ghost use Rattle.window_update.specs.Boxed as boxed;

use crate::Updates;
use def_iface::WindowDef;
use window_mgr::WindowManager;

/// What is kept for the updates of a desk's windows, as contracts see it.
pub trait DeskUpdates {
    /// The windows.
    type Windows;
    /// The boxes that their definitions lie in: what these mean, the members say.
    type Boxes;

    /// It is whole beside these windows, where this is open.
    ghost IsWhole: { Activity → Self.Windows → Self → Type 0 };
}

impl DeskUpdates for Updates {
    type Windows = WindowManager;

    type Boxes = Box<dyn WindowDef>;

    ghost IsWhole = { boxed.IsWhole WindowDef-box };
}
