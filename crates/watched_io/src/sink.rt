//! Where a run writes.
ghost use Rattle.std.specs.Prelude.{◌≡◌, ◌<◌, length, IfOk, true, false, OnOk, OnErr, Err, MatchOption};
ghost use Rattle.std.specs.Io.KnownBytes.{WriteAppends};
ghost use Rattle.std.specs.Io.{WritesAtMost};
ghost use Rattle.std.specs.List.{flat_map};
ghost use Rattle.tb_geom.specs.declared.refusal.Refusal.TheVariants.{WriteFault};
ghost use Rattle.watched_io.specs.Writes.{Output, Sends};

use arrayvec::ArrayVec;
use std::io::Write;
use tb_geom::Refusal;

/// A writer that tells whether one of its writes failed.
pub trait Sink {
    // The bytes that it was given, where they are known, and whether a write failed.
    ghost output: { Self → Output };

    /// Writes some of the bytes, at least one, and gives their count. A write that fails, or takes
    /// none of the bytes, is a WriteFault, and no write may follow it.
    fn write_some(&mut self, bytes: &[u8]) -> Result<usize, Refusal>
        requires some { 0 < length bytes.now }
        requires unfailed { (output self.old).has_failed ≡ false }
        ensures bound { WritesAtMost result bytes.now }
        ensures takes { IfOk result (λ n. 0 < n) }
        ensures bytes { WriteAppends (output self.old).contents (output self.new).contents result bytes.now }
        ensures ok { OnOk result ((output self.new).has_failed ≡ (output self.old).has_failed) }
        ensures err { OnErr result ((result ≡ Err WriteFault) × ((output self.new).has_failed ≡ true)) };
}

/// A writer, and whether one of its writes failed.
#[derive(Drop)]
pub struct WatchedWriter<W> {
    writer: W,
    has_failed: bool,
}

impl<W: Write> WatchedWriter<W> {
    /// A writer of which no write has failed yet.
    pub fn new(writer: W) -> WatchedWriter<W>
        ensures writer { result.writer ≡ writer }
        ensures unfailed { result.has_failed ≡ false }
    {
        WatchedWriter {
            writer,
            has_failed: false,
        }
    }
}

impl<W: Write> Sink for WatchedWriter<W> {
    ghost output = { λ s. record { contents = W.contents s.writer; has_failed = s.has_failed } };

    fn write_some(&mut self, bytes: &[u8]) -> Result<usize, Refusal> {
        match self.writer.write(bytes) {
            Ok(count) if count > 0 => Ok(count),
            _ => {
                self.has_failed = true;
                Err(Refusal::WriteFault)
            }
        }
    }
}

/// Writes the bytes, with a further write for what one left. WriteFault exactly where a write fails;
/// then a front of the bytes was written.
pub fn send<S: Sink>(sink: &mut S, bytes: &[u8]) -> Result<(), Refusal>
    requires { (S.output sink.old).has_failed ≡ false }
    ensures { Sends (S.output sink.old) (S.output sink.new) result bytes.now }
{
    let mut rest = bytes;
    while !rest.is_empty() {
        let count = sink.write_some(rest)?;
        rest = &rest[count..];
    }
    Ok(())
}

/// The pieces one after the other, or none where they have more than 64 bytes.
fn joined(pieces: &[&[u8]]) -> Option<ArrayVec<u8, 64>>
    ensures { let whole = flat_map (λ piece. piece.now) pieces.now in
        MatchOption result (64 < length whole) (λ text. text.items ≡ whole) }
{
    let mut text = ArrayVec::new();
    for piece in pieces {
        if text.try_extend_from_slice(piece).is_err() {
            return None;
        }
    }
    Some(text)
}

/// Writes the pieces one after the other, each as `send` does.
fn send_each<S: Sink>(sink: &mut S, pieces: &[&[u8]]) -> Result<(), Refusal>
    requires { (S.output sink.old).has_failed ≡ false }
    ensures { Sends (S.output sink.old) (S.output sink.new) result (flat_map (λ piece. piece.now) pieces.now) }
{
    for piece in pieces {
        send(sink, piece)?;
    }
    Ok(())
}

/// Writes the pieces one after the other as `send` does. Up to 64 bytes go out together.
pub fn send_all<S: Sink>(sink: &mut S, pieces: &[&[u8]]) -> Result<(), Refusal>
    requires { (S.output sink.old).has_failed ≡ false }
    ensures { Sends (S.output sink.old) (S.output sink.new) result (flat_map (λ piece. piece.now) pieces.now) }
{
    match joined(pieces) {
        Some(text) => send(sink, text.as_slice()),
        None => send_each(sink, pieces),
    }
}
