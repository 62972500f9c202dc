//! The flavor that only counts.

ghost use Rattle.std.specs.Prelude.{◌≡◌, ◌+◌, ◌^◌, ◌<◌, ◌↔◌, [], ◌∷◌, ⊤, IsOk, OnOk, OnErr};
ghost use Rattle.std.specs.Prelude.{length};
ghost use Rattle.std.specs.Prelude.{IsOkUnless};
ghost use Rattle.postcard_ser_flavors.specs.{AlwaysFinalized, CanCount, Counts, PushedIfRoom};
ghost use Rattle.postcard_ser_flavors.specs.{Rises, count_lawful, digits};

use crate::flavor::Flavor;
use postcard_wire::{Error, Result};
use std::marker::Model;

/// The number of bytes of a varint, by the place of the number's highest bit. The lowest bit is at
/// place 0.
const LENGTHS: [u8; 64] = [
    1, 1, 1, 1, 1, 1, 1, 2, 2, 2, 2, 2, 2, 2, 3, 3, 3, 3, 3, 3, 3, 4, 4, 4, 4, 4, 4, 4, 5, 5, 5, 5,
    5, 5, 5, 6, 6, 6, 6, 6, 6, 6, 7, 7, 7, 7, 7, 7, 7, 8, 8, 8, 8, 8, 8, 8, 9, 9, 9, 9, 9, 9, 9,
    10,
];

/// Returns the number of bytes of the varint of `n`, as `varint::len_u64` does. The table takes
/// fewer instructions.
#[inline(always)]
#[tactic(auto, using(postcard_wire::proofs::Lengths::one_set, crate::proofs::VarintLengths::length_at))]
fn varint_len(n: u64) -> usize
    ensures { result ≡ length (digits n) }
{
    usize::from(LENGTHS[63 - (n | 1).leading_zeros() as usize])
}

/// Counts the bytes of a message and keeps none of them. Its output is their number. A push fails
/// with `SerializeBufferFull` if and only if the count would pass `usize::MAX`, and changes nothing
/// then.
///
/// A contract sees the count, in bytes.
#[derive(Drop)]
pub struct Size {
    count: usize,
}

impl Model for Size {
    ghost use Rattle.std.specs.Prelude.{ℕ};

    ghost Value = { ℕ };

    ghost view = { λ s. s.count };
}

impl Default for Size {
    ghost is_default = { λ s. s ≡ 0 };

    fn default() -> Size {
        Size { count: 0 }
    }
}

impl Size {
    #[inline(always)]
    fn add(&mut self, len: usize) -> Result<()>
        ensures counts { OnOk result (self.new ≡ self.old + len) }
        ensures fits_iff { IsOk result ↔ (self.old + len < 2 ^ 64) }
        ensures refuses_by_buffer_full { IsOkUnless result Error.SerializeBufferFull }
        ensures unchanged { OnErr result (self.new ≡ self.old) }
    {
        match len.checked_add(self.count) {
            Some(count) => {
                self.count = count;
                Ok(())
            }
            None => Err(Error::SerializeBufferFull),
        }
    }
}

impl Flavor for Size {
    type Output = usize;

    ghost appended = { Counts };

    ghost room = { CanCount };

    ghost tidy = { ⊤ };

    ghost reaches = { Rises };

    ghost finishes = { λ s output. output ≡ s };

    ghost lawful = { count_lawful };

    fn try_push(&mut self, byte: u8) -> Result<()>
        ensures { PushedIfRoom ⟦<Self as Flavor>⟧ self.old (byte ∷ []) result self.new }
    {
        let _ = byte;
        self.add(1)
    }

    fn try_extend(&mut self, bytes: &[u8]) -> Result<()>
        ensures { PushedIfRoom ⟦<Self as Flavor>⟧ self.old bytes.now result self.new }
    {
        self.add(bytes.len())
    }

    fn try_varint(&mut self, n: u64) -> Result<()>
        ensures { PushedIfRoom ⟦<Self as Flavor>⟧ self.old (digits n) result self.new }
    {
        self.add(varint_len(n))
    }

    fn finalize(self) -> Result<usize>
        ensures { AlwaysFinalized ⟦<Self as Flavor>⟧ self result }
    {
        Ok(self.count)
    }
}
