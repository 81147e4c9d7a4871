//! The lines of what is answered about windows, their frames and their outlines.
ghost use Rattle.std.specs.Prelude.{◌≡◌, false};
ghost use Rattle.line_words.specs.Replies.{number_or_none};
ghost use Rattle.watched_io.specs.Writes.{Sends};
ghost use Rattle.reply_lines.specs.WindowLines.{found_text, info_text, window_reply_text, frame_reply_text, size_text, outline_reply_text};

use def_iface::Size;
use desk_call::{Found, FrameReply, OutlineReply, WindowInfo, WindowReply};
use itoa::Buffer;
use line_words::{flag_number, flag_text, write_done, write_number, write_region};
use tb_geom::Refusal;
use watched_io::{Sink, send_all};

/// Writes the line of what was answered about windows.
pub fn write_window_reply<S: Sink>(sink: &mut S, reply: &WindowReply) -> Result<(), Refusal>
    requires { (S.output sink.old).has_failed ≡ false }
    ensures { Sends (S.output sink.old) (S.output sink.new) result (window_reply_text reply.now) }
{
    match reply {
        WindowReply::Done => write_done(sink),
        WindowReply::Made(window) => write_number(sink, *window),
        WindowReply::Found(found) => write_found(sink, *found),
        WindowReply::Front(window) => write_number(sink, window_number(*window)),
        WindowReply::Info(info) => write_info(sink, *info),
        WindowReply::Region(bytes) => write_region(sink, bytes),
    }
}

/// Writes the line of whose a point is.
fn write_found<S: Sink>(sink: &mut S, found: Found) -> Result<(), Refusal>
    requires { (S.output sink.old).has_failed ≡ false }
    ensures { Sends (S.output sink.old) (S.output sink.new) result (found_text found) }
{
    let mut part = Buffer::new();
    let mut window = Buffer::new();
    let pieces: [&[u8]; 5] = [
        b"ok ",
        part.format(found.part.number()).as_bytes(),
        b" ",
        window.format(window_number(found.window)).as_bytes(),
        b"\n",
    ];
    send_all(sink, &pieces)
}

/// A window by its number, and none by 0.
fn window_number(window: Option<u64>) -> u64
    ensures { result ≡ number_or_none window }
{
    window.unwrap_or(0)
}

/// Writes the line of what a window's record says.
fn write_info<S: Sink>(sink: &mut S, info: WindowInfo) -> Result<(), Refusal>
    requires { (S.output sink.old).has_failed ≡ false }
    ensures { Sends (S.output sink.old) (S.output sink.new) result (info_text info) }
{
    let mut left = Buffer::new();
    let mut top = Buffer::new();
    let mut width = Buffer::new();
    let mut height = Buffer::new();
    let pieces: [&[u8]; 13] = [
        b"ok ",
        left.format(info.place.h).as_bytes(),
        b" ",
        top.format(info.place.v).as_bytes(),
        b" ",
        width.format(info.size.width).as_bytes(),
        b" ",
        height.format(info.size.height).as_bytes(),
        b" ",
        flag_text(info.shown),
        b" ",
        flag_text(info.highlighted),
        b"\n",
    ];
    send_all(sink, &pieces)
}

/// Writes the line of what was answered about a window's frame.
pub fn write_frame_reply<S: Sink>(sink: &mut S, reply: FrameReply) -> Result<(), Refusal>
    requires { (S.output sink.old).has_failed ≡ false }
    ensures { Sends (S.output sink.old) (S.output sink.new) result (frame_reply_text reply) }
{
    match reply {
        FrameReply::Done => write_done(sink),
        FrameReply::Tracked(inside) => write_number(sink, flag_number(inside)),
    }
}

/// Writes the line of what was answered about an outline.
pub fn write_outline_reply<S: Sink>(sink: &mut S, reply: OutlineReply) -> Result<(), Refusal>
    requires { (S.output sink.old).has_failed ≡ false }
    ensures { Sends (S.output sink.old) (S.output sink.new) result (outline_reply_text reply) }
{
    match reply {
        OutlineReply::Shown(shown) => write_number(sink, flag_number(shown)),
        OutlineReply::Sized(size) => write_size(sink, size),
    }
}

/// Writes the line of a width and a height.
fn write_size<S: Sink>(sink: &mut S, size: Size) -> Result<(), Refusal>
    requires { (S.output sink.old).has_failed ≡ false }
    ensures { Sends (S.output sink.old) (S.output sink.new) result (size_text size) }
{
    let mut width = Buffer::new();
    let mut height = Buffer::new();
    let pieces: [&[u8]; 5] = [
        b"ok ",
        width.format(size.width).as_bytes(),
        b" ",
        height.format(size.height).as_bytes(),
        b"\n",
    ];
    send_all(sink, &pieces)
}
