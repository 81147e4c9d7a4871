//! What a Toolbox can be asked about events, and what it answers.

use event_queue::Event;
use tb_geom::Point;

/// A call about events (*Inside Macintosh* I, "The Toolbox Event Manager", and II, "The Operating System Event Manager"). Its
/// numbers are as they were asked for, judged by nobody: one that lies outside its range is OutOfRange. An event mask lies in
/// 0..=65535, and selects the kinds of events whose bits are set in it.
#[derive(Clone, Copy, Debug, PartialEq, Eq)]
pub enum EventCall {
    /// Queues an event, if the system event mask selects it (PostEvent). Where 20 are queued already, the
    /// oldest is dropped.
    Post(PostEvent),
    /// The next event of those that the mask selects (GetNextEvent): an activate event, else the first
    /// that is queued, which is taken out, else an update event, else the null event.
    Next(i32),
    /// The event that `Next` would answer (EventAvail). It stays where it is.
    Avail(i32),
    /// Takes queued events out (FlushEvents).
    Flush(FlushEvents),
    /// Sets the system event mask (SetEventMask). Events that are queued stay so.
    SetMask(i32),
}

/// An event that is to be posted.
#[derive(Clone, Copy, Debug, PartialEq, Eq)]
pub struct PostEvent {
    /// The event code of its kind: 1..=4, the mouse button and the keys.
    pub kind: i32,
    /// What the poster says, as a key's code, in 0..=65535.
    pub message: i32,
    /// In ticks, which are sixtieths of a second, in 0..=999999999.
    pub when: i32,
    /// Where the mouse was, on the screen, in the range of coordinates.
    pub place: Point,
    /// The flags of the modifier keys and of the mouse button, in 0..=65535.
    pub modifiers: i32,
}

/// Which queued events are to be taken out.
#[derive(Clone, Copy, Debug, PartialEq, Eq)]
pub struct FlushEvents {
    /// The mask of those that are.
    pub mask: i32,
    /// The mask of the event before which that ends.
    pub stop: i32,
}

/// The value of a call about events that was done.
#[derive(Clone, Copy, Debug, PartialEq, Eq)]
pub enum EventReply {
    /// Nothing more than that it was done.
    Done,
    /// Whether the event was queued: whether the system event mask selected it (else it is evtNotEnb).
    Posted(bool),
    /// The event that was asked for.
    Told(Event),
}
