//! Event masks.
ghost use Rattle.std.specs.Prelude.{◌≡◌};
ghost use Rattle.event_queue.specs.Events.{selects};

use crate::event::EventKind;

/// Whether an event mask selects a kind of events: whether the bit of the kind's event code is set in it, where bit 0 is
/// the lowest (*Inside Macintosh* I, "The Toolbox Event Manager", "Event Masks").
pub fn selects(mask: u16, kind: EventKind) -> bool
    ensures { result ≡ selects mask kind }
{
    (mask >> kind.number()) % 2 == 1
}
