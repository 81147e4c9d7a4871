//! A writer which keeps what it is given and can be slow or break.
ghost use Rattle.std.specs.Prelude.{Some};

use std::io;
use std::io::{ErrorKind, Write};

/// Keeps what is written: at most `piece` bytes at each write, which fails once `writes_left` is 0.
#[derive(Drop)]
pub struct Paper {
    pub text: Vec<u8>,
    pub piece: usize,
    pub writes_left: usize,
}

impl Write for Paper {
    ghost contents = { λ p. Some p.text.items };

    fn write(&mut self, buf: &[u8]) -> io::Result<usize> {
        if self.writes_left == 0 {
            return Err(io::Error::from(ErrorKind::Other));
        }
        self.writes_left -= 1;
        let count = buf.len().min(self.piece);
        self.text.extend_from_slice(&buf[..count])?;
        Ok(count)
    }

    fn flush(&mut self) -> io::Result<()> {
        Ok(())
    }
}
