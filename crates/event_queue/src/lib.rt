//! The events that a program asks for (*Inside Macintosh* I, "The Toolbox Event Manager", and II, "The Operating System Event
//! Manager").
//!
//! An `EventQueue` has the last 20 events that were posted, and that nobody has taken or flushed. `EventQueue::next` is
//! GetNextEvent: it answers the first event that a mask selects, of the activate events, the queued events and the update
//! event, in this order, and `EventQueue::avail`, which is EventAvail, answers the same and removes nothing. No window is
//! known here: the caller says which window was last told active, which one is active, and which one is to be updated first.
//! `forget` is for a window that is disposed of.
//!
//! `laws` has what the definitions imply over any row of steps.
#![tactic(auto)]

mod activity;
mod event;
mod event_mask;
pub mod laws;
mod queue;

pub use activity::forget;
pub use event::{Event, EventKind};
pub use event_mask::selects;
pub use queue::{EventError, EventQueue};
