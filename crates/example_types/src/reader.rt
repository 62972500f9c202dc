//! A user's own reader for a source: it counts the bytes that are read from another reader.

use postcard::de_flavors::Reader;
use std::io;
use std::io::Read;

/// A reader that counts the bytes that are read from it.
#[derive(Drop)]
pub struct Counted<R> {
    /// The reader from which the bytes come.
    pub inner: R,
    /// The number of bytes read so far, or `u64::MAX` if there were more than that. The bytes of a
    /// read that failed aren't counted.
    pub count: u64,
}

/// The bytes that are left are those of the inner reader.
impl<R: Read> Read for Counted<R> {
    ghost remaining = { λ s. R.remaining s.inner };

    fn read(&mut self, buf: &mut [u8]) -> io::Result<usize> {
        let count = self.inner.read(buf)?;
        self.count = self.count.saturating_add(count as u64);
        Ok(count)
    }
}

/// It is steady if the inner reader is, which means that no read fails while bytes are left.
impl<R: Reader> Reader for Counted<R> {
    ghost steady = { λ s. R.steady s.inner };

    fn read_some(&mut self, buf: &mut [u8]) -> io::Result<usize> {
        let count = self.inner.read_some(buf)?;
        self.count = self.count.saturating_add(count as u64);
        Ok(count)
    }

    fn read_full(&mut self, buf: &mut [u8]) -> io::Result<()> {
        self.inner.read_full(buf)?;
        self.count = self.count.saturating_add(buf.len() as u64);
        Ok(())
    }
}
