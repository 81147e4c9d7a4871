//! Where a run's answers go: replies, images and the line of a check.
ghost use Rattle.std.specs.Prelude.{◌≡◌, ◌≤◌, false, Some};
ghost use Rattle.bit_map.specs.Bits.{bit};
ghost use Rattle.line_words.specs.Replies.{done_text};
ghost use Rattle.script_text.specs.Replies.{reply_text};
ghost use Rattle.script_runner.specs.Checks.{check_text};
ghost use Rattle.script_runner.specs.Session.{reply_shown, image_shown};
ghost use Rattle.script_runner.specs.Writers.{IsSameWriter};
ghost use Rattle.watched_io.specs.Writes.{Sends};

use bit_map::BitMap;
use desk_toolbox::Reply;
use itoa::Buffer;
use screen_pbm::{write_p1, write_p4};
use script_text::{write_done, write_reply};
use tb_geom::Refusal;
use watched_io::{Sink, send, send_all};

/// Where a run's answers go.
#[derive(Drop)]
pub struct AnswerWriter<'a, S> {
    /// What their bytes are written to.
    pub sink: &'a mut S,
    /// Whether the run is raw: then no reply is written, and images are in the format P4. Else they are in the format P1.
    pub raw: bool,
}

impl<S: Sink> AnswerWriter<'_, S> {
    /// Writes the line of what a call answered, and in a raw run nothing.
    pub fn reply(&mut self, reply: &Result<Reply, Refusal>) -> Result<(), Refusal>
        requires { (S.output self.old.sink.now).has_failed ≡ false }
        ensures same { IsSameWriter self.old self.new }
        ensures sent { Sends (S.output self.old.sink.now) (S.output self.new.sink.now) result
            (reply_shown self.old.raw (reply_text reply.now)) }
    {
        if self.raw {
            return Ok(());
        }
        write_reply(self.sink, reply)
    }

    /// Writes the line of a command that was done and has no value, and in a raw run nothing.
    pub fn done(&mut self) -> Result<(), Refusal>
        requires { (S.output self.old.sink.now).has_failed ≡ false }
        ensures same { IsSameWriter self.old self.new }
        ensures sent { Sends (S.output self.old.sink.now) (S.output self.new.sink.now) result
            (reply_shown self.old.raw done_text) }
    {
        if self.raw {
            return Ok(());
        }
        write_done(self.sink)
    }

    /// Writes a map as an image.
    pub fn image(&mut self, map: &BitMap) -> Result<(), Refusal>
        requires unfailed { (S.output self.old.sink.now).has_failed ≡ false }
        requires width { map.now.width ≤ 1024 }
        ensures same { IsSameWriter self.old self.new }
        ensures sent { Sends (S.output self.old.sink.now) (S.output self.new.sink.now) result
            (image_shown self.old.raw map.now.width map.now.height (bit map.now)) }
    {
        if self.raw {
            write_p4(self.sink, map)
        } else {
            write_p1(self.sink, map)
        }
    }

    /// Writes the line of a check, in a raw run too: how many pixels differ, or that there was no memory to tell.
    pub fn check(&mut self, count: Option<usize>) -> Result<(), Refusal>
        requires { (S.output self.old.sink.now).has_failed ≡ false }
        ensures same { IsSameWriter self.old self.new }
        ensures sent { Sends (S.output self.old.sink.now) (S.output self.new.sink.now) result (check_text count) }
    {
        match count {
            Some(count) => write_count(self.sink, count),
            None => send(self.sink, b"check NoMemory\n"),
        }
    }
}

/// Writes the line of a check that counted so many pixels.
fn write_count<S: Sink>(sink: &mut S, count: usize) -> Result<(), Refusal>
    requires { (S.output sink.old).has_failed ≡ false }
    ensures { Sends (S.output sink.old) (S.output sink.new) result (check_text (Some count)) }
{
    let mut number = Buffer::new();
    let pieces: [&[u8]; 3] = [b"check ", number.format(count).as_bytes(), b"\n"];
    send_all(sink, &pieces)
}
