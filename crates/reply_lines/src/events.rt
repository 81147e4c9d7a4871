//! The lines of what is answered about events.
ghost use Rattle.std.specs.Prelude.{◌≡◌, false};
ghost use Rattle.reply_lines.specs.EventLines.{event_reply_text, event_text};
ghost use Rattle.watched_io.specs.Writes.{Sends};

use desk_call::EventReply;
use event_queue::Event;
use itoa::Buffer;
use line_words::{flag_number, write_done, write_number};
use tb_geom::Refusal;
use watched_io::{Sink, send_all};

/// Writes the line of what was answered about events. PostEvent answers so that an event was not queued (*Inside Macintosh* II,
/// "The Operating System Event Manager"): 0 (noErr) where it was, and 1 (evtNotEnb) where the system event mask did not
/// select it.
pub fn write_event_reply<S: Sink>(sink: &mut S, reply: &EventReply) -> Result<(), Refusal>
    requires { (S.output sink.old).has_failed ≡ false }
    ensures { Sends (S.output sink.old) (S.output sink.new) result (event_reply_text reply.now) }
{
    match reply {
        EventReply::Done => write_done(sink),
        EventReply::Posted(queued) => write_number(sink, flag_number(!*queued)),
        EventReply::Told(event) => write_event(sink, *event),
    }
}

/// Writes the line of an event.
fn write_event<S: Sink>(sink: &mut S, event: Event) -> Result<(), Refusal>
    requires { (S.output sink.old).has_failed ≡ false }
    ensures { Sends (S.output sink.old) (S.output sink.new) result (event_text event) }
{
    let mut what = Buffer::new();
    let mut message = Buffer::new();
    let mut when = Buffer::new();
    let mut h = Buffer::new();
    let mut v = Buffer::new();
    let mut modifiers = Buffer::new();
    let pieces: [&[u8]; 13] = [
        b"ok ",
        what.format(event.what.number()).as_bytes(),
        b" ",
        message.format(event.message).as_bytes(),
        b" ",
        when.format(event.when).as_bytes(),
        b" ",
        h.format(event.h).as_bytes(),
        b" ",
        v.format(event.v).as_bytes(),
        b" ",
        modifiers.format(event.modifiers).as_bytes(),
        b"\n",
    ];
    send_all(sink, &pieces)
}
