//! The queue of events.
ghost use Rattle.std.specs.Prelude.{◌≡◌, ◌<◌, ◌||◌, not, [], length, if◌then◌else◌, IfOk, Result, Option};
ghost use Rattle.std.specs.Option.{is_some};
ghost use Rattle.std.specs.List.{find};
ghost use Rattle.event_queue.specs.Events.{is_posted, selects, is_selected};
ghost use Rattle.event_queue.specs.Queues.{added, posted, without_first, flushed, next_event, told_after, events_after, event_or_null, update_events};
ghost use Rattle.event_queue.specs.declared.queue.EventError.TheVariants.{OutOfRange};

use crate::activity::{selected_activate_event, told_by};
use crate::event::{Event, EventKind};
use crate::event_mask::selects;
use circular_buffer::HeapCircularBuffer;
use std::alloc::{AllocError, Global};
use std::marker::Model;
use thiserror::Error;

/// Why `EventQueue::post` refuses. A refused call has changed nothing.
#[derive(Clone, Copy, Debug, PartialEq, Eq, Error)]
pub enum EventError {
    /// Events of this kind are not posted.
    #[error("events of this kind are not posted")]
    OutOfRange,
}

/// How many events there is room for.
const ROOM: usize = 20;

/// The system event mask of a new queue: it selects all kinds but key-up.
const FIRST_SYSTEM_MASK: u16 = 0xFFEF;

/// The last 20 events that were posted, and that nobody has taken or flushed, in the order of posting; and the system event
/// mask, which says what is queued (*Inside Macintosh* II, "The Operating System Event Manager").
#[derive(Drop)]
pub struct EventQueue {
    events: HeapCircularBuffer<Event>,
    system_mask: u16,
}

impl Model for EventQueue {
    ghost use Rattle.event_queue.specs.Queues.{Queue, IsBounded};

    ghost Value = { Queue };

    ghost view = { λ q. record { events = q.events.items; system_mask = q.system_mask } };

    ghost invariant = { λ q. IsBounded q.events.items q.events.capacity };
}

/// Whether a search for the first event that the mask selects leaves this one in the queue, where `found` is what it found
/// before.
fn stays(found: Option<Event>, mask: u16, event: Event) -> bool
    ensures { result ≡ (is_some found || not (is_selected mask event)) }
{
    found.is_some() || !selects(mask, event.what)
}

/// Whether a flush leaves this event in the queue, where `stopped` says whether it has stopped.
fn survives(stopped: bool, mask: u16, event: Event) -> bool
    ensures { result ≡ (stopped || not (is_selected mask event)) }
{
    stopped || !selects(mask, event.what)
}

/// Whether a flush has stopped at this event or, as `stopped` says, before it.
fn stops(stopped: bool, stop: u16, event: Event) -> bool
    ensures { result ≡ (stopped || is_selected stop event) }
{
    stopped || selects(stop, event.what)
}

impl EventQueue {
    /// An empty queue, with room for 20 events; its system event mask selects all kinds but key-up. AllocError where there is
    /// no memory for it; no other call takes any.
    pub fn new(alloc: Global) -> Result<EventQueue, AllocError>
        ensures { IfOk result (λ queue. queue ≡ record { events = []; system_mask = 65519 }) }
    {
        Ok(EventQueue {
            events: HeapCircularBuffer::with_capacity(alloc, ROOM)?,
            system_mask: FIRST_SYSTEM_MASK,
        })
    }

    /// Sets the system event mask (SetEventMask). Events that are queued stay so.
    pub fn set_mask(&mut self, mask: u16)
        ensures { self.new ≡ record self.old { system_mask = mask } }
    {
        self.system_mask = mask;
    }

    /// Posts an event (PostEvent), and answers whether it was queued: whether the system event mask selects it (false is
    /// evtNotEnb). Where 20 are queued already, the oldest is dropped. OutOfRange exactly where events of its kind are not
    /// posted.
    pub fn post(&mut self, event: Event) -> Result<bool, EventError>
        ensures answer { result ≡ (if is_posted event.what
            then Result.Ok (is_selected self.old.system_mask event) else Result.Err OutOfRange) }
        ensures queue { self.new ≡ (if is_posted event.what
            then record self.old { events = posted self.old.system_mask self.old.events event } else self.old) }
    {
        if !event.what.is_posted() {
            return Err(EventError::OutOfRange);
        }
        if !selects(self.system_mask, event.what) {
            return Ok(false);
        }
        self.append(event);
        Ok(true)
    }

    /// Adds an event behind those that are queued; where 20 are, the oldest is dropped.
    fn append(&mut self, event: Event)
        ensures { self.new ≡ record self.old { events = added self.old.events event } }
    {
        self.events.push_back(event);
    }

    /// The event that `next` would answer (EventAvail). It stays where it is.
    pub fn avail(
        &self,
        mask: u16,
        told: Option<u64>,
        active: Option<u64>,
        update: Option<u64>,
    ) -> Event
        ensures { result ≡ next_event mask told active self.now.events update }
    {
        if let Some(event) = selected_activate_event(mask, told, active) {
            return event;
        }
        if let Some(event) = self.first(mask) {
            return event;
        }
        update_or_null(mask, update)
    }

    /// The next event (GetNextEvent): the first that the mask selects, of the activate events, then the queued events in the
    /// order of posting, then the update event (*Inside Macintosh* I, "The Toolbox Event Manager", "Priority of Events"); the
    /// null event where there is none. A queued event is taken out.
    ///
    /// Windows are named by their serials. `told` is the window last told active, and `active` the active one. Where they
    /// differ, a deactivation of the first is to be told, and then an activation of the second; `told` follows what is told.
    /// `update` is the frontmost window whose update region has a pixel; its update event comes again until it has none.
    pub fn next(
        &mut self,
        mask: u16,
        told: &mut Option<u64>,
        active: Option<u64>,
        update: Option<u64>,
    ) -> Event
        ensures answer { result ≡ next_event mask told.old active self.old.events update }
        ensures told { told.new ≡ told_after mask told.old active }
        ensures queue { self.new ≡ record self.old { events = events_after mask told.old active self.old.events } }
    {
        if let Some(event) = selected_activate_event(mask, *told, active) {
            *told = told_by(event);
            return event;
        }
        if let Some(event) = self.take_first(mask) {
            return event;
        }
        update_or_null(mask, update)
    }

    /// The first queued event that the mask selects.
    fn first(&self, mask: u16) -> Option<Event>
        ensures { result ≡ find (is_selected mask) self.now.events }
    {
        self.events
            .iter()
            .copied()
            .find(|event| selects(mask, event.what))
    }

    /// Takes out the first queued event that the mask selects.
    fn take_first(&mut self, mask: u16) -> Option<Event>
        ensures value { result ≡ find (is_selected mask) self.old.events }
        ensures queue { self.new ≡ record self.old { events = without_first (is_selected mask) self.old.events } }
    {
        let mut found = None;
        for _ in 0..self.events.len() {
            if let Some(event) = self.events.pop_front() {
                if stays(found, mask, event) {
                    self.append(event);
                } else {
                    found = Some(event);
                }
            }
        }
        found
    }

    /// Takes out the queued events that `mask` selects, up to the first one that `stop` selects, which stays (FlushEvents);
    /// `stop` 0 selects none.
    pub fn flush(&mut self, mask: u16, stop: u16)
        ensures { self.new ≡ record self.old {
          events = flushed (is_selected mask) (is_selected stop) self.old.events;
        } }
    {
        let mut stopped = false;
        for _ in 0..self.events.len() {
            if let Some(event) = self.events.pop_front() {
                stopped = stops(stopped, stop, event);
                if survives(stopped, mask, event) {
                    self.append(event);
                }
            }
        }
    }
}

/// The update event of the window to be updated first, if there is one and the mask selects it; else the null event.
fn update_or_null(mask: u16, update: Option<u64>) -> Event
    ensures { result ≡ event_or_null (find (is_selected mask) (update_events update)) }
{
    match update {
        None => Event::null(),
        Some(window) => {
            if selects(mask, EventKind::Update) {
                Event::update(window)
            } else {
                Event::null()
            }
        }
    }
}
