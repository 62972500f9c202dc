//! Writers for tests: one with little room, one that fails at a given call, and one of which every
//! other call is interrupted.

ghost use Rattle.std.specs.Prelude.{◌≡◌, ◌+◌, ◌-◌, ◌^◌, [], length, min, true, Ok, Some, IsErr};
ghost use Rattle.std.specs.Prelude.{IsOk, OnOk, OnErr};
ghost use Rattle.std.specs.Io.{WritesAtMost};
ghost use Rattle.std.specs.Io.KnownBytes.{Keeps, WriteAppends};

use arrayvec::ArrayVec;
use std::io;
use std::io::{ErrorKind, Write};

/// A writer with room for `N` bytes. Each write takes the bytes that there is room for. Once the
/// writer is full, a write takes none, so that `write_all` fails.
#[derive(Drop)]
pub struct Bounded<const N: usize> {
    /// The bytes that were written.
    pub held: ArrayVec<u8, N>,
}

impl<const N: usize> Bounded<N> {
    /// Returns an empty writer.
    pub fn new() -> Bounded<N>
        ensures { result.held.items ≡ [] }
    {
        Bounded {
            held: ArrayVec::new(),
        }
    }
}

impl<const N: usize> Write for Bounded<N> {
    ghost contents = { λ s. Some s.held.items };

    /// Takes the prefix of `buf` that there is room for, and returns the number of its bytes.
    fn write(&mut self, buf: &[u8]) -> io::Result<usize>
        ensures bound { WritesAtMost result buf.now }
        ensures bytes { WriteAppends (Some self.old.held.items) (Some self.new.held.items)
            result buf.now }
        ensures count { result ≡ Ok (min (length buf.now) (N - length self.old.held.items)) }
    {
        let count = buf.len().min(self.held.remaining_capacity());
        match self.held.try_extend_from_slice(&buf[..count]) {
            Ok(()) => Ok(count),
            Err(_) => unreachable!(),
        }
    }

    /// Does nothing.
    fn flush(&mut self) -> io::Result<()>
        ensures bytes { Keeps (Some self.old.held.items) (Some self.new.held.items) }
        ensures ok { IsOk result }
    {
        Ok(())
    }
}

/// Writes to another writer. One of the writes, or the flush, fails with [`ErrorKind::BrokenPipe`],
/// and writes nothing.
#[derive(Drop)]
pub struct FailingWriter<W> {
    /// The writer to which the bytes go.
    pub inner: W,
    /// The number of writes so far.
    pub writes: usize,
    /// The number of the write that fails, counted from 0.
    pub fails_at: usize,
    /// Whether flushing fails.
    pub flush_fails: bool,
    /// Whether it was flushed with success.
    pub flushed: bool,
}

impl<W: Write> Write for FailingWriter<W> {
    ghost contents = { λ s. W.contents s.inner };

    fn write(&mut self, buf: &[u8]) -> io::Result<usize>
        ensures bound { WritesAtMost result buf.now }
        ensures bytes { WriteAppends (W.contents self.old.inner) (W.contents self.new.inner)
            result buf.now }
        ensures fails { self.old.writes ≡ self.old.fails_at → IsErr result }
        ensures counts { self.new.writes ≡ min (self.old.writes + 1) (2 ^ 64 - 1) }
        ensures keeps { self.new.fails_at ≡ self.old.fails_at }
    {
        let fails = self.writes == self.fails_at;
        self.writes = self.writes.saturating_add(1);
        if fails {
            return Err(ErrorKind::BrokenPipe.into());
        }
        self.inner.write(buf)
    }

    fn flush(&mut self) -> io::Result<()>
        ensures bytes { Keeps (W.contents self.old.inner) (W.contents self.new.inner) }
        ensures fails { self.old.flush_fails ≡ true → IsErr result }
        ensures records { OnOk result (self.new.flushed ≡ true) }
        ensures not_flushed { OnErr result (self.new.flushed ≡ self.old.flushed) }
    {
        if self.flush_fails {
            return Err(ErrorKind::BrokenPipe.into());
        }
        self.inner.flush()?;
        self.flushed = true;
        Ok(())
    }
}

/// Writes to another writer at every other call. The other calls fail with
/// [`ErrorKind::Interrupted`] and write nothing, as a system call that is cut short by a signal.
#[derive(Drop)]
pub struct InterruptedWriter<W> {
    /// The writer to which the bytes go.
    pub inner: W,
    /// Whether the next call is interrupted.
    pub interrupts: bool,
}

impl<W: Write> Write for InterruptedWriter<W> {
    ghost use Rattle.std.specs.Prelude.{false};

    ghost contents = { λ s. W.contents s.inner };

    fn write(&mut self, buf: &[u8]) -> io::Result<usize>
        ensures bound { WritesAtMost result buf.now }
        ensures bytes { WriteAppends (W.contents self.old.inner) (W.contents self.new.inner)
            result buf.now }
        ensures interrupts { self.old.interrupts ≡ true
            → IsErr result × (self.new.inner ≡ self.old.inner) × (self.new.interrupts ≡ false) }
        ensures next_is_interrupted { self.old.interrupts ≡ false → self.new.interrupts ≡ true }
    {
        self.interrupts = !self.interrupts;
        if self.interrupts {
            self.inner.write(buf)
        } else {
            Err(ErrorKind::Interrupted.into())
        }
    }

    /// Flushes the other writer. This is never interrupted.
    fn flush(&mut self) -> io::Result<()>
        ensures bytes { Keeps (W.contents self.old.inner) (W.contents self.new.inner) }
        ensures turns_not { self.new.interrupts ≡ self.old.interrupts }
    {
        self.inner.flush()
    }
}
