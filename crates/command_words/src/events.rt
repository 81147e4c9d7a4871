//! The words of the commands for events.
ghost use Rattle.std.specs.Prelude.{◌≡◌};
ghost use Rattle.line_words.specs.Shapes.{reading};
ghost use Rattle.command_words.specs.EventWords.{post_shape, flush_shape, event_shape};

use desk_call::{EventCall, FlushEvents, PostEvent};
use line_words::Words;
use tb_geom::Refusal;

/// The first word of a command for events. It says which words follow.
#[derive(Clone, Copy)]
pub enum EventVerb {
    Post,
    Next,
    Avail,
    Flush,
    SetMask,
}

impl EventVerb {
    /// What is asked by the words that follow.
    #[tactic(auto, unfolding(crate::specs::EventWords::event_shape))]
    pub fn call(self, words: Words<'_>) -> Result<EventCall, Refusal>
        ensures { result ≡ reading (event_shape self) words.entry }
    {
        match self {
            EventVerb::Post => post(words),
            EventVerb::Next => Ok(EventCall::Next(words.last_number()?)),
            EventVerb::Avail => Ok(EventCall::Avail(words.last_number()?)),
            EventVerb::Flush => flush(words),
            EventVerb::SetMask => Ok(EventCall::SetMask(words.last_number()?)),
        }
    }
}

/// The words after `post`: the event's code, its message, when it happened, where the mouse was, and the modifier flags.
fn post(words: Words<'_>) -> Result<EventCall, Refusal>
    ensures { result ≡ reading post_shape words.entry }
{
    let (kind, words) = words.number()?;
    let (message, words) = words.number()?;
    let (when, words) = words.number()?;
    let (place, words) = words.point()?;
    let modifiers = words.last_number()?;
    Ok(EventCall::Post(PostEvent {
        kind,
        message,
        when,
        place,
        modifiers,
    }))
}

/// The words after `flush`: the mask of the events that are taken out, and that of the event before which that ends.
fn flush(words: Words<'_>) -> Result<EventCall, Refusal>
    ensures { result ≡ reading flush_shape words.entry }
{
    let (mask, words) = words.number()?;
    let stop = words.last_number()?;
    Ok(EventCall::Flush(FlushEvents { mask, stop }))
}
