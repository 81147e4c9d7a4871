//! Events.
ghost use Rattle.std.specs.Prelude.{◌≡◌, ◌<◌};
ghost use Rattle.event_queue.specs.Events.{number_of, kind_of, is_posted, null_event, update_event, activation, deactivation, is_activation};

/// What happened: the kinds of events that there are here (*Inside Macintosh* I, "The Toolbox Event Manager", "Event
/// Types"), each with its event code. A code is also the number of the kind's bit in an event mask.
#[derive(Clone, Copy, Debug, PartialEq, Eq)]
pub enum EventKind {
    /// No event that the mask selects waits.
    Null = 0,
    /// The mouse button was pressed.
    MouseDown = 1,
    /// The mouse button was released.
    MouseUp = 2,
    /// A key was pressed.
    KeyDown = 3,
    /// A key was released.
    KeyUp = 4,
    /// A window has pixels that are to be drawn.
    Update = 6,
    /// A window became active, or is so no more.
    Activate = 8,
}

/// Each kind of events.
static KINDS: [EventKind; 7] = [
    EventKind::Null,
    EventKind::MouseDown,
    EventKind::MouseUp,
    EventKind::KeyDown,
    EventKind::KeyUp,
    EventKind::Update,
    EventKind::Activate,
];

impl EventKind {
    /// The kind with this event code, if there is one.
    pub fn of_code(code: u16) -> Option<EventKind>
        ensures { result ≡ kind_of code }
    {
        KINDS
            .iter()
            .copied()
            .find(|kind| u16::from(kind.number()) == code)
    }

    /// The event code of the kind, below 16.
    pub fn number(self) -> u8
        ensures value { result ≡ number_of self }
        ensures below { result < 16 }
    {
        self as u8
    }

    /// Whether events of this kind are posted: those of the mouse button and of the keys. The others are never queued.
    pub fn is_posted(self) -> bool
        ensures { result ≡ is_posted self }
    {
        match self {
            EventKind::MouseDown | EventKind::MouseUp | EventKind::KeyDown | EventKind::KeyUp =>
                true,
            EventKind::Null | EventKind::Update | EventKind::Activate => false,
        }
    }
}

/// The modifier flag of an activate event that says that the window became active (activeFlag).
const ACTIVE_FLAG: u16 = 1;

/// An event, as the record of the same name (*Inside Macintosh* I, "The Toolbox Event Manager", "Event Records"), whose
/// point `where` is `h` and `v` here.
#[derive(Clone, Copy, Debug, PartialEq, Eq)]
pub struct Event {
    pub what: EventKind,
    /// The serial of the window in an update or activate event; else what the poster said, as a key's code.
    pub message: u64,
    /// When the event was posted, in ticks, which are sixtieths of a second; 0 in a null, update or activate event.
    pub when: u32,
    /// The column at which the mouse was, in pixels of the screen (global coordinates); 0 in a null, update or activate event.
    pub h: i32,
    /// The row at which the mouse was, in the same way.
    pub v: i32,
    /// The flags of the modifier keys and of the mouse button; in an activate event 1 (activeFlag) where the window became
    /// active and 0 where it is so no more.
    pub modifiers: u16,
}

impl Event {
    /// The null event: 0 throughout.
    pub fn null() -> Event
        ensures { result ≡ null_event }
    {
        Event {
            what: EventKind::Null,
            message: 0,
            when: 0,
            h: 0,
            v: 0,
            modifiers: 0,
        }
    }

    /// The update event of the window of this serial.
    pub fn update(window: u64) -> Event
        ensures { result ≡ update_event window }
    {
        Event {
            what: EventKind::Update,
            message: window,
            ..Event::null()
        }
    }

    /// The activate event that says that the window of this serial became active.
    pub fn activation(window: u64) -> Event
        ensures { result ≡ activation window }
    {
        Event {
            modifiers: ACTIVE_FLAG,
            ..Event::deactivation(window)
        }
    }

    /// The activate event that says that the window of this serial is active no more.
    pub fn deactivation(window: u64) -> Event
        ensures { result ≡ deactivation window }
    {
        Event {
            what: EventKind::Activate,
            message: window,
            ..Event::null()
        }
    }

    /// Of an activate event: whether it says that the window became active.
    pub(crate) fn is_activation(self) -> bool
        ensures { result ≡ is_activation self }
    {
        self.modifiers == ACTIVE_FLAG
    }
}
