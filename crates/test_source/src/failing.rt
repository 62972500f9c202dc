//! A writer that fails.

use std::io;
use std::io::{ErrorKind, Write};

/// A writer that takes one byte with each write, and fails once `writes_left` is 0, or at its
/// flush.
#[derive(Drop)]
pub struct Failing {
    pub writes_left: usize,
    pub flushes: bool,
    pub finished: bool,
}

impl Write for Failing {
    fn write(&mut self, buf: &[u8]) -> io::Result<usize> {
        if self.writes_left == 0 {
            return Err(io::Error::from(ErrorKind::BrokenPipe));
        }
        self.writes_left -= 1;
        Ok(buf.len().min(1))
    }

    fn flush(&mut self) -> io::Result<()> {
        if !self.flushes {
            return Err(io::Error::from(ErrorKind::BrokenPipe));
        }
        self.finished = true;
        Ok(())
    }
}
