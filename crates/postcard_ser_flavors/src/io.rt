//! The flavor that writes to a writer of `std`.

ghost use Rattle.std.specs.Prelude.{◌≡◌, ◌+◌, ◌≤◌, [], ◌∷◌, ◌++◌, length, IsOkUnless, OnOk};
ghost use Rattle.postcard_ser_flavors.specs.{AnyReached, Appends, AppendsKnown, FinalizedBy, Keeps};
ghost use Rattle.postcard_ser_flavors.specs.{NoRoom, PushedOrFull, all_known, digits};
ghost use Rattle.postcard_ser_flavors.specs.{writer_lawful};

use crate::flavor::Flavor;
use crate::short::copy;
use postcard_wire::varint::{VARINT_MAX_64, write_u64};
use postcard_wire::{Error, Result};
use std::io::Write;
use std::marker::Model;

/// The most bytes that are held.
const BLOCK: usize = 64;

/// Puts short pieces together, and writes up to 64 bytes at a time to a writer, which it flushes at
/// the end. Its output is the writer.
///
/// A call fails with `SerializeBufferFull` if the writer fails. The writer may have got some of the
/// bytes held and of those passed then. The others are lost. `finalize` writes what is held. A
/// flavor that is dropped without it loses that.
///
/// A contract sees the writer and the bytes held. Together they are the bytes of the message so
/// far, if the writer knows its own.
#[derive(Drop)]
pub struct WriteFlavor<T: Write> {
    writer: T,
    block: [u8; BLOCK],
    count: usize,
}

impl<T: Write> Model for WriteFlavor<T> {
    ghost use Rattle.std.specs.Prelude.{◌≤◌, take};
    ghost use Rattle.postcard_ser_flavors.specs.Sending.{Sending, sending_code};

    ghost Value = { Sending T };

    ghost coded = { sending_code T.code };

    ghost view = { λ s. record { writer = s.writer; held = take s.count s.block } };

    ghost invariant = { λ s. s.count ≤ 64 };
}

fn write_all<T: Write>(writer: &mut T, bytes: &[u8]) -> Result<()>
    ensures written { OnOk result (Appends (T.contents writer.old) (T.contents writer.new)
        bytes.now) }
    ensures refuses_by_buffer_full { IsOkUnless result Error.SerializeBufferFull }
{
    writer
        .write_all(bytes)
        .map_err(|_| Error::SerializeBufferFull)
}

impl<T: Write + Drop> WriteFlavor<T> {
    /// Returns a flavor that writes to `writer`, after what was written to it before.
    pub fn new(writer: T) -> WriteFlavor<T>
        ensures same_writer { result.writer ≡ writer }
        ensures none_held { result.held ≡ [] }
    {
        WriteFlavor {
            writer,
            block: [0; BLOCK],
            count: 0,
        }
    }

    /// Writes the bytes that are held, and holds none then.
    #[inline(never)]
    fn write_held(&mut self) -> Result<()>
        ensures none_held { self.new.held ≡ [] }
        ensures written { OnOk result (Appends (T.contents self.old.writer)
            (T.contents self.new.writer) self.old.held) }
        ensures refuses_by_buffer_full { IsOkUnless result Error.SerializeBufferFull }
    {
        let count = self.count;
        self.count = 0;
        write_all(&mut self.writer, &self.block[..count])
    }

    /// Holds bytes that fit after those held.
    #[inline(always)]
    fn hold(&mut self, bytes: &[u8])
        requires { length self.old.held + length bytes.now ≤ 64 }
        ensures same_writer { self.new.writer ≡ self.old.writer }
        ensures more_held { self.new.held ≡ self.old.held ++ bytes.now }
    {
        let start = self.count;
        let end = start + bytes.len();
        copy(&mut self.block[start..end], bytes);
        self.count = end;
    }

    /// Holds the digits of a number after the bytes held, where 10 bytes are free.
    #[inline(always)]
    fn hold_digits(&mut self, n: u64)
        requires { length self.old.held + 10 ≤ 64 }
        ensures same_writer { self.new.writer ≡ self.old.writer }
        ensures more_held { self.new.held ≡ self.old.held ++ digits n }
    {
        let start = self.count;
        self.count += write_u64(n, &mut self.block[start..]);
    }

    /// Takes bytes that don't fit after those held, which are written first.
    #[inline(never)]
    fn extend_after_held(&mut self, bytes: &[u8]) -> Result<()>
        ensures { PushedOrFull ⟦<Self as Flavor>⟧ self.old bytes.now result self.new }
    {
        self.write_held()?;
        if bytes.len() < BLOCK {
            self.hold(bytes);
            return Ok(());
        }
        write_all(&mut self.writer, bytes)
    }
}

impl<T: Write + Drop> Flavor for WriteFlavor<T> {
    type Output = T;

    ghost appended = { AppendsKnown (all_known T.contents) };

    ghost room = { NoRoom };

    ghost tidy = { ⊥ };

    ghost reaches = { AnyReached };

    ghost finishes = { λ s output. Keeps (all_known T.contents s) (T.contents output) };

    ghost lawful = { writer_lawful (all_known T.contents) };

    #[inline]
    fn try_push(&mut self, byte: u8) -> Result<()>
        ensures { PushedOrFull ⟦<Self as Flavor>⟧ self.old (byte ∷ []) result self.new }
    {
        if self.count == BLOCK {
            self.write_held()?;
        }
        self.block[self.count] = byte;
        self.count += 1;
        Ok(())
    }

    /// Holds bytes that fit. Otherwise what is held is written, and then a piece of 64 bytes or
    /// more, while a shorter one is held.
    #[inline]
    fn try_extend(&mut self, bytes: &[u8]) -> Result<()>
        ensures { PushedOrFull ⟦<Self as Flavor>⟧ self.old bytes.now result self.new }
    {
        if BLOCK - self.count < bytes.len() {
            return self.extend_after_held(bytes);
        }
        self.hold(bytes);
        Ok(())
    }

    /// Holds the digits. If fewer than 10 bytes are free, what is held is written first.
    #[inline]
    fn try_varint(&mut self, n: u64) -> Result<()>
        ensures { PushedOrFull ⟦<Self as Flavor>⟧ self.old (digits n) result self.new }
    {
        if BLOCK - self.count < VARINT_MAX_64 {
            self.write_held()?;
        }
        self.hold_digits(n);
        Ok(())
    }

    /// Writes what is held, flushes the writer and returns it. If one of the two fails, the writer
    /// is dropped.
    fn finalize(mut self) -> Result<T>
        ensures finalized { FinalizedBy ⟦<Self as Flavor>⟧ self result }
        ensures refuses_by_buffer_full { IsOkUnless result Error.SerializeBufferFull }
    {
        write_all(&mut self.writer, &self.block[..self.count])?;
        let WriteFlavor { mut writer, .. } = self;
        writer.flush().map_err(|_| Error::SerializeBufferFull)?;
        Ok(writer)
    }
}
