//! The interface of the readers that a source can read from.

ghost use Rattle.std.specs.Prelude.{length, OnOk, IsOk, ⊤};
ghost use Rattle.std.specs.Io.{ReadsAtMost};
ghost use Rattle.std.specs.Io.KnownBytes.{Consumes, ReadConsumes};
ghost use Rattle.postcard_de_flavors.specs.Reader.{AtLeast};

use std::io;
use std::io::Read;

/// A reader whose contract says when it is *steady*: no read fails while bytes are left. The bytes
/// left are the ghost `remaining` of `Read`. [`Plain`](crate::plain::Plain) wraps a reader that has
/// no such contract.
pub trait Reader: Read + Drop {
    ghost steady: { Self → Type 0 };

    /// Reads into the front of `buf` and returns the number of bytes read, as `Read::read` does. If
    /// the reader knows the bytes left, those read are their front, and it returns 0 for a buffer
    /// that isn't empty only at its end.
    ///
    /// # Errors
    ///
    /// Fails if the reader does; the bytes left, if known, are unchanged then.
    fn read_some(&mut self, buf: &mut [u8]) -> io::Result<usize>
        ensures bound { ReadsAtMost result buf.new }
        ensures bytes { ReadConsumes (Self.remaining self.old)
            (Self.remaining self.new) result buf.new }
        ensures succeeds { steady self.old → IsOk result }
        ensures stays_steady { steady self.old → steady self.new };

    /// Fills all of `buf` with the next `buf.len()` bytes, as `Read::read_exact` does. Fails if the
    /// reader fails or ends first.
    fn read_full(&mut self, buf: &mut [u8]) -> io::Result<()>
        ensures bytes { OnOk result (Consumes (Self.remaining self.old)
            (Self.remaining self.new) buf.new) }
        ensures succeeds { steady self.old → AtLeast (Self.remaining self.old) (length buf.old)
            → IsOk result }
        ensures stays_steady { steady self.old → steady self.new };
}

/// A slice is always steady. If it has fewer bytes than `buf`, `read_full` fails with
/// `UnexpectedEof` and takes nothing.
impl Reader for &[u8] {
    ghost steady = { λ _. ⊤ };

    fn read_some(&mut self, buf: &mut [u8]) -> io::Result<usize> {
        self.read(buf)
    }

    fn read_full(&mut self, buf: &mut [u8]) -> io::Result<()> {
        if buf.len() > self.len() {
            return Err(io::Error::from(io::ErrorKind::UnexpectedEof));
        }
        let (front, rest) = self.split_at(buf.len());
        buf.copy_from_slice(front);
        *self = rest;
        Ok(())
    }
}
