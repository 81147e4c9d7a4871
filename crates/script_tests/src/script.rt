//! A reader of a script, which can be slow or break.
ghost use Rattle.std.specs.Prelude.{Some};

use std::io;
use std::io::{ErrorKind, Read};

/// Gives its bytes, at most `piece` of them at each read, or one where that is 0, and fails once `reads_left` is 0.
#[derive(Drop)]
pub struct Script<'a> {
    pub rest: &'a [u8],
    pub piece: usize,
    pub reads_left: u32,
}

impl<'a> Read for Script<'a> {
    ghost remaining = { λ s. Some s.rest.now };

    fn read(&mut self, buf: &mut [u8]) -> io::Result<usize> {
        if self.reads_left == 0 {
            return Err(io::Error::from(ErrorKind::Other));
        }
        self.reads_left -= 1;
        let count = buf.len().min(self.piece.max(1));
        self.rest.read(&mut buf[..count])
    }
}
