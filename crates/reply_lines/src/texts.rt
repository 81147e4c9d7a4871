//! The lines of what is answered about text records.
ghost use Rattle.std.specs.Prelude.{◌≡◌, false};
ghost use Rattle.watched_io.specs.Writes.{Sends};
ghost use Rattle.reply_lines.specs.TextLines.{font_text, info_text, offsets_text, place_text, text_reply_text};

use desk_call::{TextInfo, TextReply};
use itoa::Buffer;
use line_words::{flag_number, flag_text, write_bytes, write_done, write_number};
use tb_geom::{Point, Refusal};
use watched_io::{Sink, send_all};

/// Writes the line of what was answered about text records. Bytes stand as a text in quotes where they can, and else as hex
/// digits.
pub fn write_text_reply<S: Sink>(sink: &mut S, reply: &TextReply) -> Result<(), Refusal>
    requires { (S.output sink.old).has_failed ≡ false }
    ensures { Sends (S.output sink.old) (S.output sink.new) result (text_reply_text reply.now) }
{
    match reply {
        TextReply::Done => write_done(sink),
        TextReply::Text(text) => write_number(sink, *text),
        TextReply::Opened(opened) => write_number(sink, flag_number(*opened)),
        TextReply::Offsets(start, end) => write_offsets(sink, *start, *end),
        TextReply::Bytes(bytes) => write_bytes(sink, bytes),
        TextReply::Info(info) => write_info(sink, info),
        TextReply::Place(place) => write_place(sink, *place),
        TextReply::Offset(offset) => write_number(sink, u64::from(*offset)),
        TextReply::Width(width) => write_number(sink, u64::from(*width)),
        TextReply::Font(ascent, descent, leading) => write_font(sink, *ascent, *descent, *leading),
    }
}

/// Writes the line of two offsets.
fn write_offsets<S: Sink>(sink: &mut S, start: u16, end: u16) -> Result<(), Refusal>
    requires { (S.output sink.old).has_failed ≡ false }
    ensures { Sends (S.output sink.old) (S.output sink.new) result (offsets_text start end) }
{
    let mut first = Buffer::new();
    let mut last = Buffer::new();
    let pieces: [&[u8]; 5] = [
        b"ok ",
        first.format(start).as_bytes(),
        b" ",
        last.format(end).as_bytes(),
        b"\n",
    ];
    send_all(sink, &pieces)
}

/// Writes the line of what is told of a text record.
fn write_info<S: Sink>(sink: &mut S, info: &TextInfo) -> Result<(), Refusal>
    requires { (S.output sink.old).has_failed ≡ false }
    ensures { Sends (S.output sink.old) (S.output sink.new) result (info_text info.now) }
{
    let mut start = Buffer::new();
    let mut end = Buffer::new();
    let mut length = Buffer::new();
    let mut lines = Buffer::new();
    let mut left = Buffer::new();
    let mut top = Buffer::new();
    let pieces: [&[u8]; 17] = [
        b"ok ",
        start.format(info.start).as_bytes(),
        b" ",
        end.format(info.end).as_bytes(),
        b" ",
        flag_text(info.active),
        b" ",
        flag_text(info.shown),
        b" ",
        length.format(info.length).as_bytes(),
        b" ",
        lines.format(info.lines).as_bytes(),
        b" ",
        left.format(info.left).as_bytes(),
        b" ",
        top.format(info.top).as_bytes(),
        b"\n",
    ];
    send_all(sink, &pieces)
}

/// Writes the line of the place of an offset.
fn write_place<S: Sink>(sink: &mut S, place: Point) -> Result<(), Refusal>
    requires { (S.output sink.old).has_failed ≡ false }
    ensures { Sends (S.output sink.old) (S.output sink.new) result (place_text place) }
{
    let mut column = Buffer::new();
    let mut row = Buffer::new();
    let pieces: [&[u8]; 5] = [
        b"ok ",
        column.format(place.h).as_bytes(),
        b" ",
        row.format(place.v).as_bytes(),
        b"\n",
    ];
    send_all(sink, &pieces)
}

/// Writes the line of the height of a font.
fn write_font<S: Sink>(sink: &mut S, ascent: u16, descent: u16, leading: u16) -> Result<(), Refusal>
    requires { (S.output sink.old).has_failed ≡ false }
    ensures { Sends (S.output sink.old) (S.output sink.new) result (font_text ascent descent leading) }
{
    let mut up = Buffer::new();
    let mut down = Buffer::new();
    let mut between = Buffer::new();
    let pieces: [&[u8]; 7] = [
        b"ok ",
        up.format(ascent).as_bytes(),
        b" ",
        down.format(descent).as_bytes(),
        b" ",
        between.format(leading).as_bytes(),
        b"\n",
    ];
    send_all(sink, &pieces)
}
