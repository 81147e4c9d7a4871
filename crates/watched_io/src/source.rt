//! Where a run reads its script from.
ghost use Rattle.std.specs.Prelude.{◌≡◌, ◌<◌, length, false};
ghost use Rattle.std.specs.Io.{ReadsAtMost};
ghost use Rattle.watched_io.specs.Reads.{Input, IsOpen, Reads, most_reads, read_room};

use std::io::Read;
use tb_geom::Refusal;

/// How many reads there may be.
pub const MOST_READS: u32 = 1_000_000;

/// A reader that tells whether one of its reads failed, whether one came to the end of the input, and
/// how many there were.
pub trait Source {
    // The bytes that reads will give, where they are known, whether a read failed, whether one came
    // to the end, and how many there were.
    ghost input: { Self → Input };

    /// Reads some bytes into the front of the buffer, and gives their count: 0 at the end of the
    /// input alone. A read that fails is a ReadFault. No read may follow the end or a fault, there may be
    /// 1,000,000 reads, and each is offered 4,096 bytes.
    fn read_some(&mut self, buffer: &mut [u8]) -> Result<usize, Refusal>
        requires going { IsOpen (input self.old) }
        requires allowed { (input self.old).reads < most_reads }
        requires room { length buffer.old ≡ read_room }
        ensures bound { ReadsAtMost result buffer.new }
        ensures bytes { Reads (input self.old) (input self.new) result buffer.new };
}

/// A reader, whether one of its reads failed, whether one came to the end, and how many there were.
#[derive(Drop)]
pub struct WatchedReader<R> {
    reader: R,
    has_failed: bool,
    has_ended: bool,
    reads: u32,
}

impl<R: Read> WatchedReader<R> {
    /// A reader of which nothing was read yet.
    pub fn new(reader: R) -> WatchedReader<R>
        ensures reader { result.reader ≡ reader }
        ensures unfailed { result.has_failed ≡ false }
        ensures unended { result.has_ended ≡ false }
        ensures unread { result.reads ≡ 0 }
    {
        WatchedReader {
            reader,
            has_failed: false,
            has_ended: false,
            reads: 0,
        }
    }
}

impl<R: Read> Source for WatchedReader<R> {
    ghost input = { λ s. record {
      remaining = R.remaining s.reader;
      has_failed = s.has_failed;
      has_ended = s.has_ended;
      reads = s.reads;
    } };

    fn read_some(&mut self, buffer: &mut [u8]) -> Result<usize, Refusal> {
        self.reads += 1;
        match self.reader.read(buffer) {
            Ok(count) => {
                if count == 0 {
                    self.has_ended = true;
                }
                Ok(count)
            }
            Err(_) => {
                self.has_failed = true;
                Err(Refusal::ReadFault)
            }
        }
    }
}
