//! The calls about events: the queue of what was posted, and what is told of the active window.
ghost use Rattle.std.specs.Prelude.{◌≡◌, nat_abs, true, IfOk};
ghost use Rattle.desk_toolbox.specs.EventSteps.{asked_event, event_of, event_step, first_events, is_in_ranges, is_time};
ghost use Rattle.desk_toolbox.specs.EventSteps.{is_word, posting, without_window, word_of};

use desk_call::{EventCall, EventReply, FlushEvents, PostEvent};
use event_queue::{Event, EventError, EventKind, EventQueue, forget};
use std::alloc::{AllocError, Global};
use tb_geom::Refusal;

/// What a desk keeps of events: the queue, and the serial of the window last told active, if it was not disposed of since.
#[derive(Drop)]
pub struct Events {
    pub(crate) queue: EventQueue,
    pub(crate) told: Option<u64>,
}

/// Whether a number is one of 16 bits, as event codes, event masks, messages and modifiers are.
fn is_word(number: i32) -> bool
    ensures { result ≡ is_word number }
{
    0 <= number && number <= 65535
}

/// A number of 16 bits.
fn bits_of(number: i32) -> u16
    requires { is_word number ≡ true }
    ensures { result ≡ nat_abs number }
{
    number as u16
}

/// Whether a number is a time in ticks.
fn is_time(number: i32) -> bool
    ensures { result ≡ is_time number }
{
    0 <= number && number <= 999_999_999
}

/// Whether each number of an event lies in its range.
fn is_in_ranges(post: PostEvent) -> bool
    ensures { result ≡ is_in_ranges post }
{
    is_word(post.kind)
        && (is_word(post.message)
            && (is_word(post.modifiers) && (is_time(post.when) && post.place.is_in_range())))
}

/// The event of a kind with these numbers.
fn event_of(post: PostEvent, kind: EventKind) -> Event
    requires { is_in_ranges post ≡ true }
    ensures { result ≡ event_of post kind }
{
    Event {
        what: kind,
        message: post.message as u64,
        when: post.when as u32,
        h: post.place.h,
        v: post.place.v,
        modifiers: bits_of(post.modifiers),
    }
}

/// The event that is to be posted; None where a number lies outside its range, or no kind has the code.
fn asked_event(post: PostEvent) -> Option<Event>
    ensures { result ≡ asked_event post }
{
    if !is_in_ranges(post) {
        return None;
    }
    match EventKind::of_code(bits_of(post.kind)) {
        None => None,
        Some(kind) => Some(event_of(post, kind)),
    }
}

/// A number that has to be an event mask; else OutOfRange.
fn word(number: i32) -> Result<u16, Refusal>
    ensures { result ≡ word_of number }
{
    if is_word(number) {
        Ok(bits_of(number))
    } else {
        Err(Refusal::OutOfRange)
    }
}

impl Events {
    /// No event is queued, and no window was told active.
    pub(crate) fn new(alloc: Global) -> Result<Events, AllocError>
        ensures { IfOk result (λ events. events ≡ first_events) }
    {
        Ok(Events {
            queue: EventQueue::new(alloc)?,
            told: None,
        })
    }

    /// Performs a call, where `active` is the serial of the active window, and `update` that of the window that is to be
    /// updated first. OutOfRange is the only refusal. Takes no memory.
    pub(crate) fn perform(
        &mut self,
        call: EventCall,
        active: Option<u64>,
        update: Option<u64>,
    ) -> Result<EventReply, Refusal>
        ensures { (result, self.new) ≡ event_step call active update self.old }
    {
        match call {
            EventCall::Post(post) => self.post(asked_event(post)),
            EventCall::Next(mask) => {
                let mask = word(mask)?;
                let event = self.queue.next(mask, &mut self.told, active, update);
                Ok(EventReply::Told(event))
            }
            EventCall::Avail(mask) => {
                let mask = word(mask)?;
                let event = self.queue.avail(mask, self.told, active, update);
                Ok(EventReply::Told(event))
            }
            EventCall::Flush(FlushEvents { mask, stop }) => {
                let mask = word(mask)?;
                let stop = word(stop)?;
                self.queue.flush(mask, stop);
                Ok(EventReply::Done)
            }
            EventCall::SetMask(mask) => {
                let mask = word(mask)?;
                self.queue.set_mask(mask);
                Ok(EventReply::Done)
            }
        }
    }

    /// Posts the event that was asked for, if its numbers are such that one was.
    fn post(&mut self, event: Option<Event>) -> Result<EventReply, Refusal>
        ensures { (result, self.new) ≡ posting event self.old }
    {
        match event {
            None => Err(Refusal::OutOfRange),
            Some(event) => match self.queue.post(event) {
                Ok(queued) => Ok(EventReply::Posted(queued)),
                Err(EventError::OutOfRange) => Err(Refusal::OutOfRange),
            },
        }
    }

    /// Forgets a window that was disposed of: it is told no more that it is active.
    pub(crate) fn forget(&mut self, window: u64)
        ensures { self.new ≡ without_window window self.old }
    {
        self.told = forget(self.told, window);
    }
}
