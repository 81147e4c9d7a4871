//! Which activate events are to be told (*Inside Macintosh* I, "The Window Manager", "Making a Window Active: Activate
//! Events"). A window is named by its serial. `told` is the window last told active, and `active` the active one.
ghost use Rattle.std.specs.Prelude.{◌≡◌, Option};
ghost use Rattle.std.specs.List.{find};
ghost use Rattle.event_queue.specs.Events.{is_selected};
ghost use Rattle.event_queue.specs.Telling.{activate_events, first_event, told_by, forgotten};

use crate::event::{Event, EventKind};
use crate::event_mask::selects;

/// The first activate event that is to be told, if there is one: the deactivation of the window last told active comes
/// before the activation of another.
fn activate_event(told: Option<u64>, active: Option<u64>) -> Option<Event>
    ensures { result ≡ first_event (activate_events told active) }
{
    match (told, active) {
        (None, None) => None,
        (None, Some(window)) => Some(Event::activation(window)),
        (Some(window), None) => Some(Event::deactivation(window)),
        (Some(former), Some(window)) => {
            if former == window {
                None
            } else {
                Some(Event::deactivation(former))
            }
        }
    }
}

/// The first activate event that is to be told, if there is one and the mask selects it.
pub(crate) fn selected_activate_event(
    mask: u16,
    told: Option<u64>,
    active: Option<u64>,
) -> Option<Event>
    ensures { result ≡ find (is_selected mask) (activate_events told active) }
{
    let event = activate_event(told, active);
    if selects(mask, EventKind::Activate) {
        event
    } else {
        None
    }
}

/// The window last told active, once this activate event was told.
pub(crate) fn told_by(event: Event) -> Option<u64>
    ensures { result ≡ told_by event }
{
    if event.is_activation() {
        Some(event.message)
    } else {
        None
    }
}

/// The window last told active, by its serial, once the window of serial `window` was disposed of: where that is the one
/// last told active there is none, so its deactivation is never told.
pub fn forget(told: Option<u64>, window: u64) -> Option<u64>
    ensures { result ≡ forgotten window told }
{
    match told {
        None => None,
        Some(last) => { if last == window { None } else { told } }
    }
}
