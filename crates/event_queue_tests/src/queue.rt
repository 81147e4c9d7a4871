//! The queue of events: posted, asked for by masks, told of windows, flushed and overfull.

use event_queue::{Event, EventError, EventKind, EventQueue, forget, selects};
use std::test::Fail;

/// An event, by its kind, its message, its time, its column, its row and its modifiers.
macro_rules! event {
    ($kind:ident, $message:expr, $when:expr, $h:expr, $v:expr, $modifiers:expr) => {
        Event {
            what: EventKind::$kind,
            message: $message,
            when: $when,
            h: $h,
            v: $v,
            modifiers: $modifiers,
        }
    };
}

/// The kinds, each with its event code, and whether it is posted.
const KINDS: [(EventKind, u8, bool); 7] = [
    (EventKind::Null, 0, false),
    (EventKind::MouseDown, 1, true),
    (EventKind::MouseUp, 2, true),
    (EventKind::KeyDown, 3, true),
    (EventKind::KeyUp, 4, true),
    (EventKind::Update, 6, false),
    (EventKind::Activate, 8, false),
];

#[test]
fn kinds_have_their_codes_and_their_bits(rt: HostRuntime) {
    for (kind, code, posted) in KINDS {
        assert!(rt; kind.number() == code && kind.is_posted() == posted);
    }
    assert!(rt; selects(0x0108, EventKind::KeyDown) && selects(0x0108, EventKind::Activate));
    assert!(rt; selects(1, EventKind::Null) && !selects(0xFFEF, EventKind::KeyUp));
}

#[test]
fn events_without_a_place_are_zero_elsewhere(rt: HostRuntime) {
    assert!(rt; Event::null() == event!(Null, 0, 0, 0, 0, 0));
    assert!(rt; Event::update(5) == event!(Update, 5, 0, 0, 0, 0));
    assert!(rt; Event::activation(5) == event!(Activate, 5, 0, 0, 0, 1));
    assert!(rt; Event::deactivation(5) == event!(Activate, 5, 0, 0, 0, 0));
}

#[test]
fn a_refusal_says_why(rt: HostRuntime) -> Result<(), Fail> {
    let text = EventError::OutOfRange.to_string(rt.alloc())?;
    assert!(rt; text.as_str() == "events of this kind are not posted");
    Ok(())
}

/// What is asked of a program's events, or what happens to its windows.
#[derive(Clone, Copy)]
enum Ask {
    SetMask(u16),
    Post(Event),
    Flush(u16, u16),
    Avail(u16),
    Next(u16),
    /// The window becomes active, and the first that is to be updated.
    Selects(u64),
    /// The window, the active one, is disposed of. Another becomes active, and the first that is to be updated.
    Disposes(u64, u64),
}

/// What that is answered.
#[derive(Clone, Copy, PartialEq, Eq)]
enum Answer {
    Nothing,
    Posted(bool),
    Refused,
    Told(Event),
}

/// A queue, and what is known of the windows.
#[derive(Drop)]
struct Program {
    queue: EventQueue,
    told: Option<u64>,
    front: Option<u64>,
}

impl Program {
    fn answer(&mut self, ask: Ask) -> Answer {
        match ask {
            Ask::SetMask(mask) => self.queue.set_mask(mask),
            Ask::Post(event) => return posted(self.queue.post(event)),
            Ask::Flush(mask, stop) => self.queue.flush(mask, stop),
            Ask::Avail(mask) => {
                return Answer::Told(self.queue.avail(mask, self.told, self.front, self.front));
            }
            Ask::Next(mask) => {
                return Answer::Told(
                    self.queue
                        .next(mask, &mut self.told, self.front, self.front),
                );
            }
            Ask::Selects(window) => self.front = Some(window),
            Ask::Disposes(window, next) => {
                self.told = forget(self.told, window);
                self.front = Some(next);
            }
        }
        Answer::Nothing
    }
}

/// The answer to a post.
fn posted(queued: Result<bool, EventError>) -> Answer {
    match queued {
        Ok(queued) => Answer::Posted(queued),
        Err(EventError::OutOfRange) => Answer::Refused,
    }
}

/// What is asked where such an event is posted.
macro_rules! post {
    ($($part:tt)*) => {
        Ask::Post(event!($($part)*))
    };
}

/// The answer that such an event is told.
macro_rules! told {
    ($($part:tt)*) => {
        Answer::Told(event!($($part)*))
    };
}

/// A key is pressed or released, and the mouse is clicked, while windows become active. 65535 selects every event, 8 key-down,
/// 16 key-up, 64 update and 256 activate events.
const ASKED: [(Ask, Answer); 37] = [
    // key-up is not queued before the system event mask selects it
    (post!(KeyUp, 1, 0, 0, 0, 0), Answer::Posted(false)),
    (Ask::Next(65535), told!(Null, 0, 0, 0, 0, 0)),
    (Ask::SetMask(65535), Answer::Nothing),
    (post!(KeyUp, 7, 1, 2, 3, 0), Answer::Posted(true)),
    (post!(KeyDown, 8, 4, 5, 6, 512), Answer::Posted(true)),
    // what is available stays; a flush stops before the key-down
    (Ask::Avail(16), told!(KeyUp, 7, 1, 2, 3, 0)),
    (Ask::Avail(16), told!(KeyUp, 7, 1, 2, 3, 0)),
    (post!(KeyUp, 9, 0, 0, 0, 0), Answer::Posted(true)),
    (Ask::Flush(16, 8), Answer::Nothing),
    (Ask::Next(65535), told!(KeyDown, 8, 4, 5, 6, 512)),
    (Ask::Next(65535), told!(KeyUp, 9, 0, 0, 0, 0)),
    (Ask::Next(65535), told!(Null, 0, 0, 0, 0, 0)),
    (post!(Update, 0, 0, 0, 0, 0), Answer::Refused),
    // a mask takes an event from behind others, and a flush without a stop takes all that it selects
    (post!(MouseDown, 0, 1, 20, -1, 128), Answer::Posted(true)),
    (post!(KeyDown, 1, 2, 0, 0, 0), Answer::Posted(true)),
    (post!(MouseUp, 0, 3, 20, -1, 0), Answer::Posted(true)),
    (Ask::Next(8), told!(KeyDown, 1, 2, 0, 0, 0)),
    (Ask::Next(8), told!(Null, 0, 0, 0, 0, 0)),
    (Ask::Next(65535), told!(MouseDown, 0, 1, 20, -1, 128)),
    (Ask::Flush(65535, 0), Answer::Nothing),
    (Ask::Next(65535), told!(Null, 0, 0, 0, 0, 0)),
    // activate events come first and update events last; an activation that the mask leaves out waits
    (Ask::Selects(2), Answer::Nothing),
    (post!(KeyDown, 3, 0, 0, 0, 0), Answer::Posted(true)),
    (Ask::Avail(8), told!(KeyDown, 3, 0, 0, 0, 0)),
    (Ask::Next(65535), told!(Activate, 2, 0, 0, 0, 1)),
    (Ask::Next(65535), told!(KeyDown, 3, 0, 0, 0, 0)),
    (Ask::Next(65535), told!(Update, 2, 0, 0, 0, 0)),
    // of a window that is active again nothing is told, and of two that change places the deactivation first
    (Ask::Selects(1), Answer::Nothing),
    (Ask::Selects(2), Answer::Nothing),
    (Ask::Next(256), told!(Null, 0, 0, 0, 0, 0)),
    (Ask::Selects(1), Answer::Nothing),
    (Ask::Next(256), told!(Activate, 2, 0, 0, 0, 0)),
    (Ask::Next(256), told!(Activate, 1, 0, 0, 0, 1)),
    (Ask::Next(64), told!(Update, 1, 0, 0, 0, 0)),
    // no deactivation of a window that was disposed of
    (Ask::Disposes(1, 2), Answer::Nothing),
    (Ask::Next(256), told!(Activate, 2, 0, 0, 0, 1)),
    (Ask::Next(256), told!(Null, 0, 0, 0, 0, 0)),
];

#[test]
fn events_are_told_in_their_order(rt: HostRuntime) -> Result<(), Fail> {
    let mut program = Program {
        queue: EventQueue::new(rt.alloc())?,
        told: None,
        front: None,
    };
    for (ask, answer) in ASKED {
        assert!(rt; program.answer(ask) == answer);
    }
    Ok(())
}

#[test]
fn the_oldest_of_21_events_is_dropped(rt: HostRuntime) -> Result<(), Fail> {
    let mut queue = EventQueue::new(rt.alloc())?;
    let mut told = None;
    for message in 1..22 {
        assert!(rt; queue.post(event!(KeyDown, message, 0, 0, 0, 0)) == Ok(true));
    }
    for message in 2..22 {
        let event = queue.next(65535, &mut told, None, None);
        assert!(rt; event == event!(KeyDown, message, 0, 0, 0, 0));
    }
    assert!(rt; queue.next(65535, &mut told, None, None) == event!(Null, 0, 0, 0, 0, 0));
    Ok(())
}
