//! Readers for tests: one with pieces of given lengths, one that fails at a given call, and one of
//! which every other call is interrupted.

ghost use Rattle.std.specs.Prelude.{◌≡◌, ◌+◌, ◌-◌, ◌^◌, ◌≤◌, ◌<◌, ◌++◌, [], length, min, take, Ok};
ghost use Rattle.std.specs.Prelude.{Some, IsErr, ⊤};
ghost use Rattle.test_support.specs.Lengths.{turn, piece_length};
ghost use Rattle.std.specs.Io.{ReadsAtMost};
ghost use Rattle.std.specs.Io.KnownBytes.{ReadConsumes};

use postcard::de_flavors::Reader;
use std::io;
use std::io::{ErrorKind, Read};

/// A steady reader that reads from a slice in pieces: each read is at most as long as the next of
/// the given lengths. They are used in turn, and from the first on again after the last. If there
/// are none, each read is of one byte. A length of 0 counts as 1.
#[derive(Drop)]
pub struct Pieces<'a> {
    bytes: &'a [u8],
    lengths: &'a [usize],
    place: usize,
}

impl<'a> Pieces<'a> {
    /// Returns a reader of `bytes` in pieces of at most `lengths` bytes.
    pub fn new(bytes: &'a [u8], lengths: &'a [usize]) -> Pieces<'a>
        ensures bytes { result.bytes.now ≡ bytes.now }
        ensures lengths { result.lengths.now ≡ lengths.now }
        ensures begins { result.place ≡ 0 }
    {
        Pieces {
            bytes,
            lengths,
            place: 0,
        }
    }

    /// Returns the bytes that weren't read yet.
    pub fn unread(&self) -> &'a [u8]
        ensures { result.now ≡ self.now.bytes.now }
    {
        self.bytes
    }

    /// Returns the greatest number of bytes of the next read, and goes on to the length after it.
    fn next_length(&mut self) -> usize
        ensures stated { result ≡ piece_length self.old.lengths.now self.old.place }
        ensures turns { self.new.place ≡ turn self.old.lengths.now self.old.place + 1 }
        ensures keeps { (self.new.bytes ≡ self.old.bytes) × (self.new.lengths ≡ self.old.lengths) }
    {
        if self.place >= self.lengths.len() {
            self.place = 0;
        }
        let length = self.lengths.get(self.place).copied().unwrap_or(1);
        self.place += 1;
        length.max(1)
    }

    /// Moves the next piece into the first bytes of `buf`, and returns the number of bytes moved.
    /// The piece is shorter if fewer bytes are left, or if `buf` is.
    fn give(&mut self, buf: &mut [u8]) -> usize
        ensures counts { result
            ≡ min (min (piece_length self.old.lengths.now self.old.place) (length buf.old))
            (length self.old.bytes.now) }
        ensures moves { self.old.bytes.now ≡ take result buf.new ++ self.new.bytes.now }
        ensures fits { result ≤ length buf.new }
        ensures ends { result ≡ 0 → 0 < length buf.old → self.new.bytes.now ≡ [] }
        ensures turns { self.new.place ≡ turn self.old.lengths.now self.old.place + 1 }
        ensures keeps { self.new.lengths ≡ self.old.lengths }
    {
        let count = self.next_length().min(buf.len()).min(self.bytes.len());
        let (piece, rest) = self.bytes.split_at(count);
        buf[..count].copy_from_slice(piece);
        self.bytes = rest;
        count
    }
}

impl Read for Pieces<'_> {
    ghost remaining = { λ s. Some s.bytes.now };

    fn read(&mut self, buf: &mut [u8]) -> io::Result<usize>
        ensures bound { ReadsAtMost result buf.new }
        ensures bytes { ReadConsumes (Some self.old.bytes.now) (Some self.new.bytes.now)
            result buf.new }
        ensures gives { result
            ≡ Ok (min (min (piece_length self.old.lengths.now self.old.place) (length buf.old))
            (length self.old.bytes.now)) }
        ensures turns { self.new.place ≡ turn self.old.lengths.now self.old.place + 1 }
    {
        Ok(self.give(buf))
    }
}

impl Reader for Pieces<'_> {
    ghost steady = { λ _. ⊤ };

    fn read_some(&mut self, buf: &mut [u8]) -> io::Result<usize> {
        self.read(buf)
    }

    fn read_full(&mut self, buf: &mut [u8]) -> io::Result<()> {
        let mut at = 0;
        while at < buf.len() {
            let count = self.give(&mut buf[at..]);
            if count == 0 {
                return Err(ErrorKind::UnexpectedEof.into());
            }
            at += count;
        }
        Ok(())
    }
}

/// Reads from another reader. One of the reads fails with [`ErrorKind::BrokenPipe`], and reads
/// nothing.
#[derive(Drop)]
pub struct FailingReader<R> {
    /// The reader from which the bytes come.
    pub inner: R,
    /// The number of reads so far.
    pub reads: usize,
    /// The number of the read that fails, counted from 0.
    pub fails_at: usize,
}

impl<R: Read> Read for FailingReader<R> {
    ghost remaining = { λ s. R.remaining s.inner };

    fn read(&mut self, buf: &mut [u8]) -> io::Result<usize>
        ensures bound { ReadsAtMost result buf.new }
        ensures bytes { ReadConsumes (R.remaining self.old.inner) (R.remaining self.new.inner)
            result buf.new }
        ensures fails { self.old.reads ≡ self.old.fails_at → IsErr result }
        ensures counts { self.new.reads ≡ min (self.old.reads + 1) (2 ^ 64 - 1) }
        ensures keeps { self.new.fails_at ≡ self.old.fails_at }
    {
        let fails = self.reads == self.fails_at;
        self.reads = self.reads.saturating_add(1);
        if fails {
            return Err(ErrorKind::BrokenPipe.into());
        }
        self.inner.read(buf)
    }
}

/// Reads from another reader at every other call. The other calls fail with
/// [`ErrorKind::Interrupted`] and read nothing, as a system call that is cut short by a signal.
#[derive(Drop)]
pub struct InterruptedReader<R> {
    /// The reader from which the bytes come.
    pub inner: R,
    /// Whether the next call is interrupted.
    pub interrupts: bool,
}

impl<R: Read> Read for InterruptedReader<R> {
    ghost use Rattle.std.specs.Prelude.{true, false};

    ghost remaining = { λ s. R.remaining s.inner };

    fn read(&mut self, buf: &mut [u8]) -> io::Result<usize>
        ensures bound { ReadsAtMost result buf.new }
        ensures bytes { ReadConsumes (R.remaining self.old.inner) (R.remaining self.new.inner)
            result buf.new }
        ensures interrupts { self.old.interrupts ≡ true
            → IsErr result × (self.new.inner ≡ self.old.inner) × (self.new.interrupts ≡ false) }
        ensures next_is_interrupted { self.old.interrupts ≡ false → self.new.interrupts ≡ true }
    {
        self.interrupts = !self.interrupts;
        if self.interrupts {
            self.inner.read(buf)
        } else {
            Err(ErrorKind::Interrupted.into())
        }
    }
}
