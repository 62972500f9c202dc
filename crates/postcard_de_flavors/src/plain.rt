//! Any reader as a `Reader`.

ghost use Rattle.std.specs.Prelude.{◌≡◌};
ghost use Rattle.postcard_de_flavors.specs.{inner_of};

use crate::reader::Reader;
use std::io;
use std::io::Read;

/// Adapts any reader to [`Reader`](crate::reader::Reader). Its bytes left are those of `R`. It is
/// never steady: no read is promised to succeed.
#[derive(Drop)]
pub struct Plain<R> {
    inner: R,
}

impl<R: Read> Plain<R> {
    /// Wraps a reader. Reads nothing from it.
    pub fn new(inner: R) -> Plain<R>
        ensures { inner_of result ≡ inner }
    {
        Plain { inner }
    }

    /// Returns the wrapped reader, as the reads so far have left it.
    pub fn into_inner(self) -> R
        ensures { result ≡ inner_of self }
    {
        let Plain { inner } = self;
        inner
    }
}

impl<R: Read> Read for Plain<R> {
    ghost remaining = { λ s. R.remaining (inner_of s) };

    fn read(&mut self, buf: &mut [u8]) -> io::Result<usize> {
        self.inner.read(buf)
    }
}

impl<R: Read + Drop> Reader for Plain<R> {
    ghost steady = { λ _. ⊥ };

    fn read_some(&mut self, buf: &mut [u8]) -> io::Result<usize> {
        self.read(buf)
    }

    fn read_full(&mut self, buf: &mut [u8]) -> io::Result<()> {
        self.inner.read_exact(buf)
    }
}
