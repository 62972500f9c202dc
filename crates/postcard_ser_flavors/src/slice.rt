//! The flavor that fills a caller's slice from its front.

ghost use Rattle.std.specs.Prelude.{◌≡◌, ◌≤◌, [], ◌∷◌, ⊤, length};
ghost use Rattle.postcard_ser_flavors.specs.{AlwaysFinalized, HasRoom, PushedToSlice, Reaches};
ghost use Rattle.postcard_ser_flavors.specs.{digits, held, slice_lawful};
ghost use Rattle.postcard_ser_flavors.specs.Slice.{Appended};

use crate::flavor::Flavor;
use postcard_memory::{Life, Memory};
use postcard_wire::varint::{len_u64, write_u64};
use postcard_wire::{Error, Result};
use std::marker::Model;

mod index;
mod storage;

/// Fills a slice from its front. A piece is written whole or not at all.
///
/// A push fails with `SerializeBufferFull` if and only if it has more bytes than are free, and
/// changes nothing then.
///
/// A contract sees the loan of the slice, the bytes of the whole slice (`buffer`), and the number
/// of those at the front that are held (`count`).
#[derive(Drop)]
pub struct Slice<'a> {
    memory: Memory,
    life: &'a Life,
    len: usize,
    position: usize,
}

impl<'a> Model for Slice<'a> {
    ghost use Rattle.std.specs.Prelude.{◌≡◌, ◌≤◌, ◌<◌, ◌^◌, length};
    ghost use Rattle.postcard_ser_flavors.specs.Slice.{Written};

    ghost Value = { Written };

    ghost view = { λ s. record {
      loan = s.memory.loan;
      buffer = s.memory.items;
      count = s.position;
    } };

    ghost invariant = { λ s. (s.position ≤ s.len) × (s.len ≡ length s.memory.items)
        × (s.len < 2 ^ 63) × (s.memory.time ≡ s.life.now) };
}

impl<'a> Slice<'a> {
    /// Returns a flavor that writes to `buf` from its front, and has written nothing.
    pub fn new(buf: &'a mut [u8]) -> Slice<'a>
        ensures same_loan { result.loan ≡ buf.entry.ghost_name }
        ensures starts_empty { (result.buffer ≡ buf.old) × (result.count ≡ 0) }
    {
        let len = buf.len();
        let (memory, life) = Memory::new(buf);
        Slice {
            memory,
            life,
            len,
            position: 0,
        }
    }

    /// Returns the whole slice that was lent, and the number of bytes written at its front, also
    /// after a failure. The Rust crate has no such call.
    pub fn into_parts(self) -> (&'a mut [u8], usize)
        ensures same_loan { result.0.ghost_name ≡ self.entry.loan }
        ensures parts { (result.0.now ≡ self.entry.buffer) × (result.1 ≡ self.entry.count) }
        ensures within { self.entry.count ≤ length self.entry.buffer }
    {
        let Slice {
            memory,
            life,
            len,
            position,
        } = self;
        (memory.whole(life, len), position)
    }
}

impl<'a> Flavor for Slice<'a> {
    type Output = &'a mut [u8];

    ghost appended = { Appended };

    ghost room = { HasRoom };

    ghost tidy = { ⊤ };

    ghost reaches = { Reaches };

    ghost finishes = { λ s output. output.now ≡ held s };

    ghost lawful = { slice_lawful };

    fn try_push(&mut self, byte: u8) -> Result<()>
        ensures { PushedToSlice ⟦<Self as Flavor>⟧ self.old (byte ∷ []) result self.new }
    {
        if self.position == self.len {
            return Err(Error::SerializeBufferFull);
        }
        let place = self.position;
        *self.memory.at(self.life, place) = byte;
        self.position += 1;
        Ok(())
    }

    fn try_extend(&mut self, bytes: &[u8]) -> Result<()>
        ensures { PushedToSlice ⟦<Self as Flavor>⟧ self.old bytes.now result self.new }
    {
        if self.len - self.position < bytes.len() {
            return Err(Error::SerializeBufferFull);
        }
        let len = self.len;
        let start = self.position;
        let all = self.memory.lend(self.life, len);
        all[start..start + bytes.len()].copy_from_slice(bytes);
        self.position += bytes.len();
        Ok(())
    }

    /// Writes the varint in place.
    #[inline(always)]
    fn try_varint(&mut self, n: u64) -> Result<()>
        ensures { PushedToSlice ⟦<Self as Flavor>⟧ self.old (digits n) result self.new }
    {
        let size = len_u64(n);
        if self.len - self.position < size {
            return Err(Error::SerializeBufferFull);
        }
        let len = self.len;
        let start = self.position;
        let all = self.memory.lend(self.life, len);
        let count = write_u64(n, &mut all[start..]);
        self.position += count;
        Ok(())
    }

    fn finalize(self) -> Result<&'a mut [u8]>
        ensures { AlwaysFinalized ⟦<Self as Flavor>⟧ self.entry result }
    {
        let (all, count) = self.into_parts();
        let (front, _) = all.split_at_mut(count);
        Ok(front)
    }
}
