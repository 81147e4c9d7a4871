//! Where a run for a program in C reads and writes.
ghost use Rattle.std.specs.Prelude.{◌≡◌, IfOk, None, Some, [], false};
ghost use Rattle.desk_c.specs.Answered.{file_input, opens_none};

use io::{read_full, write_all};
use script_runner::Opener;
use std::alloc::{AllocError, Global};
use std::io::{Error, ErrorKind, Read, Result as IoResult, Write};
use tb_geom::Refusal;
use watched_io::{Sink, Source};

/// Room for so many bytes of answers, and what was written of them.
#[derive(Drop)]
pub struct Room {
    bytes: Vec<u8>,
    most: usize,
    has_failed: bool,
}

impl Room {
    /// Room in which nothing was written yet. Its memory is taken now, so that no write is refused for want of it.
    pub fn new(alloc: Global, most: usize) -> Result<Room, AllocError>
        ensures empty { IfOk result (λ room. room.bytes.items ≡ []) }
        ensures unfailed { IfOk result (λ room. room.has_failed ≡ false) }
    {
        Ok(Room {
            bytes: Vec::with_capacity(alloc, most)?,
            most,
            has_failed: false,
        })
    }

    /// What was written.
    pub fn bytes(&self) -> &[u8]
        ensures { result.now ≡ self.now.bytes.items }
    {
        self.bytes.as_slice()
    }
}

/// A write takes what there is room for, and one for which there is none fails.
impl Sink for Room {
    ghost output = { λ room. record { contents = Some room.bytes.items; has_failed = room.has_failed } };

    fn write_some(&mut self, bytes: &[u8]) -> Result<usize, Refusal> {
        let left = self.most.saturating_sub(self.bytes.len());
        let count = left.min(bytes.len());
        if count == 0 || self.bytes.extend_from_slice(&bytes[..count]).is_err() {
            self.has_failed = true;
            return Err(Refusal::WriteFault);
        }
        Ok(count)
    }
}

/// A descriptor of the caller's.
#[derive(Drop)]
pub struct Descriptor {
    number: i32,
}

impl Descriptor {
    pub fn new(number: i32) -> Descriptor
        ensures { result.number ≡ number }
    {
        Descriptor { number }
    }
}

/// A read gives the bytes up to the end of a line, and takes them one by one: a call that asks for more waits until all of it
/// is there. A fault looks as the end.
impl Read for Descriptor {
    fn read(&mut self, buffer: &mut [u8]) -> IoResult<usize> {
        for count in 0..buffer.len() {
            if read_full(self.number, &mut buffer[count..count + 1]) == 0 {
                return Ok(count);
            }
            if buffer[count] == b'\n' {
                return Ok(count + 1);
            }
        }
        Ok(buffer.len())
    }
}

impl Write for Descriptor {
    fn write(&mut self, bytes: &[u8]) -> IoResult<usize> {
        if write_all(self.number, bytes) {
            Ok(bytes.len())
        } else {
            Err(Error::from(ErrorKind::Other))
        }
    }

    fn flush(&mut self) -> IoResult<()> {
        Ok(())
    }
}

/// No files at all.
#[derive(Drop)]
pub struct NoFiles;

/// A file that is never opened. A read of it would fail.
#[derive(Drop)]
pub struct NoFile {
    has_failed: bool,
    reads: u32,
}

impl Opener for NoFiles {
    type Opened = NoFile;

    ghost opens = { λ _. opens_none };

    fn open(&self, path: &str) -> Result<NoFile, Refusal> {
        Err(Refusal::ReadFault)
    }
}

impl Source for NoFile {
    ghost input = { file_input };

    fn read_some(&mut self, buffer: &mut [u8]) -> Result<usize, Refusal> {
        self.reads += 1;
        self.has_failed = true;
        Err(Refusal::ReadFault)
    }
}
