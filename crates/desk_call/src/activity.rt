//! Which calls may come while something is open.
ghost use Rattle.std.specs.Prelude.{◌≡◌, None, MatchResult, Some};
ghost use Rattle.desk_call.specs.Gates.{gate};

use crate::{ControlOf, SizeLimits, TextOf};
use control_values::ControlPart;
use def_iface::Size;
use tb_geom::{Point, Rect, Refusal};
use text_edits::{Anchor, ClickMode};

/// What is open between its begin and its end. At most one thing is.
#[derive(Clone, Copy, PartialEq, Eq)]
pub enum Activity {
    /// Nothing is.
    Idle,
    /// The update of this window.
    Updating(u64),
    /// The tracking of this window's go-away box.
    Tracking(u64),
    /// This menu is pulled down.
    Pulling(PulledMenu),
    /// The tracking of a part of this control.
    TrackingControl(TrackedControl),
    /// This window is dragged.
    Dragging(DraggedWindow),
    /// The size of this window is being changed.
    Growing(GrownWindow),
    /// Text of this record is being selected with the mouse.
    Selecting(SelectedText),
}

/// A menu that is pulled down.
#[derive(Clone, Copy, Debug, PartialEq, Eq)]
pub struct PulledMenu {
    /// Its number.
    pub menu: u16,
    /// Where its top left corner lies on the screen.
    pub place: Point,
    /// How large it is, before it is cut to the screen.
    pub size: Size,
    /// The number of the item that is highlighted, from 1 on, if one is.
    pub item: Option<u8>,
}

/// A part of a control that is tracked.
#[derive(Clone, Copy, Debug, PartialEq, Eq)]
pub struct TrackedControl {
    pub control: ControlOf,
    pub part: ControlPart,
    /// Where the mouse button was pressed, in the coordinates of the control's window.
    pub from: Point,
}

/// A text record in which the mouse selects.
#[derive(Clone, Copy, Debug, PartialEq, Eq)]
pub struct SelectedText {
    pub text: TextOf,
    pub mode: ClickMode,
    /// What stays selected.
    pub anchor: Anchor,
}

/// A window that is dragged.
#[derive(Clone, Copy, PartialEq, Eq)]
pub struct DraggedWindow {
    pub window: u64,
    /// Where the mouse button was pressed, on the screen.
    pub from: Point,
    /// The lines of its outline on the screen, before they are cut to it; no two share a pixel, and those that are not needed
    /// are empty.
    pub outline: [Rect; 8],
}

/// A window whose size is being changed.
#[derive(Clone, Copy, PartialEq, Eq)]
pub struct GrownWindow {
    pub window: u64,
    /// Where the mouse button was pressed, on the screen.
    pub from: Point,
    pub limits: SizeLimits,
    /// The lines of its outline, as those of a window that is dragged.
    pub outline: [Rect; 8],
}

/// When a call may come.
#[derive(Clone, Copy, PartialEq, Eq)]
pub enum Standing {
    /// It asks something, or is about events: at any time.
    Asks,
    /// It goes on with the update of this window or ends it, while that is open.
    Updates(u64),
    /// It goes on with the tracking of a go-away box or ends it, while that is open.
    Tracks,
    /// It goes on with a menu that is pulled down or puts it away, while one is.
    Pulls,
    /// It goes on with the tracking of a control or ends it, while that is open.
    TracksControl,
    /// It goes on with the drag of a window or ends it, while one is dragged.
    Drags,
    /// It goes on with the growing of a window or ends it, while one is grown.
    Grows,
    /// It goes on with a selection or ends it, while one is open.
    Selects,
    /// It is any other, while nothing is open.
    Changes,
}

impl Activity {
    /// Whether a call of this standing may come. Busy where it has to wait until nothing is open, NotBusy
    /// where what it goes on with is not open.
    pub fn admit(self, standing: Standing) -> Result<(), Refusal>
        ensures { MatchResult result (λ _. gate self standing ≡ None) (λ e. gate self standing ≡ Some e) }
    {
        match (self, standing) {
            (_, Standing::Asks) => Ok(()),
            (Activity::Idle, Standing::Changes) => Ok(()),
            (_, Standing::Changes) => Err(Refusal::Busy),
            (Activity::Updating(open), Standing::Updates(window)) if open == window => Ok(()),
            (Activity::Tracking(_), Standing::Tracks) => Ok(()),
            (Activity::Pulling(_), Standing::Pulls) => Ok(()),
            (Activity::TrackingControl(_), Standing::TracksControl) => Ok(()),
            (Activity::Dragging(_), Standing::Drags) => Ok(()),
            (Activity::Growing(_), Standing::Grows) => Ok(()),
            (Activity::Selecting(_), Standing::Selects) => Ok(()),
            _ => Err(Refusal::NotBusy),
        }
    }
}
