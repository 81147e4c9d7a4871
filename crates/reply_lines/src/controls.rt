//! The lines of what is answered about controls.
ghost use Rattle.std.specs.Prelude.{◌≡◌, false};
ghost use Rattle.watched_io.specs.Writes.{Sends};
ghost use Rattle.reply_lines.specs.ControlLines.{info_text, part_text, found_text, part_or_none, control_reply_text};

use control_values::ControlPart;
use desk_call::{ControlInfo, ControlReply, FoundControl};
use itoa::Buffer;
use line_words::{flag_text, write_done, write_number};
use tb_geom::Refusal;
use watched_io::{Sink, send, send_all};

/// Writes the line of what was answered about controls. Where nothing was found, or a point lies in no part, it has 0 in the
/// place of each number.
pub fn write_control_reply<S: Sink>(sink: &mut S, reply: &ControlReply) -> Result<(), Refusal>
    requires { (S.output sink.old).has_failed ≡ false }
    ensures { Sends (S.output sink.old) (S.output sink.new) result (control_reply_text reply.now) }
{
    match reply {
        ControlReply::Done => write_done(sink),
        ControlReply::Made(control) => write_number(sink, *control),
        ControlReply::Info(info) => write_info(sink, info),
        ControlReply::Found(found) => write_found(sink, *found),
        ControlReply::Part(part) => write_number(sink, part_or_none(*part)),
    }
}

/// Writes the line of what is told of a control.
fn write_info<S: Sink>(sink: &mut S, info: &ControlInfo) -> Result<(), Refusal>
    requires { (S.output sink.old).has_failed ≡ false }
    ensures { Sends (S.output sink.old) (S.output sink.new) result (info_text info.now) }
{
    let mut value = Buffer::new();
    let mut minimum = Buffer::new();
    let mut maximum = Buffer::new();
    let mut highlight = Buffer::new();
    let pieces: [&[u8]; 11] = [
        b"ok ",
        value.format(info.values.value()).as_bytes(),
        b" ",
        minimum.format(info.values.minimum()).as_bytes(),
        b" ",
        maximum.format(info.values.maximum()).as_bytes(),
        b" ",
        highlight.format(info.highlight.number()).as_bytes(),
        b" ",
        flag_text(info.shown),
        b"\n",
    ];
    send_all(sink, &pieces)
}

/// Writes the line of what was found at a point.
fn write_found<S: Sink>(sink: &mut S, found: Option<FoundControl>) -> Result<(), Refusal>
    requires { (S.output sink.old).has_failed ≡ false }
    ensures { Sends (S.output sink.old) (S.output sink.new) result (found_text found) }
{
    match found {
        None => send(sink, b"ok 0 0\n"),
        Some(found) => write_part(sink, found),
    }
}

/// Writes the line of a part of a control.
fn write_part<S: Sink>(sink: &mut S, found: FoundControl) -> Result<(), Refusal>
    requires { (S.output sink.old).has_failed ≡ false }
    ensures { Sends (S.output sink.old) (S.output sink.new) result (part_text found) }
{
    let mut part = Buffer::new();
    let mut control = Buffer::new();
    let pieces: [&[u8]; 5] = [
        b"ok ",
        part.format(found.part.number()).as_bytes(),
        b" ",
        control.format(found.control).as_bytes(),
        b"\n",
    ];
    send_all(sink, &pieces)
}

/// A part by its part code, and none by 0.
fn part_or_none(part: Option<ControlPart>) -> u64
    ensures { result ≡ part_or_none part }
{
    match part {
        None => 0,
        Some(part) => u64::from(part.number()),
    }
}
