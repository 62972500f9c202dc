//! The flavor that appends to a growing vector.

ghost use Rattle.std.specs.Prelude.{◌≡◌, ◌<◌, [], ◌∷◌, length, slice_index, slice_set, ⊤};
ghost use Rattle.postcard_ser_flavors.specs.{AlwaysFinalized, AnyReached, Appended, NoRoom};
ghost use Rattle.postcard_ser_flavors.specs.{NoneFree, PushedWhole, digits, grows_lawful};
ghost use Rattle.postcard_ser_flavors.specs.{grows_storage, list_indexed, none_free};

use crate::flavor::Flavor;
use crate::storage::Storage;
use postcard_wire::varint::{VARINT_MAX_64, varint_u64};
use postcard_wire::{Error, Result};
use std::alloc::Global;
use std::marker::Model;
use std::ops::{Index, IndexMut};

/// Appends to a vector that grows by the allocator, to a multiple of its capacity at a time. A
/// piece is written whole or not at all. A push fails only if an allocation fails, with
/// `SerializeBufferFull`, and changes nothing then.
///
/// A contract sees the bytes that it holds.
#[derive(Drop)]
pub struct AllocVec {
    vec: Vec<u8>,
}

/// [`AllocVec`] under the name that users of `std` know.
pub type StdVec = AllocVec;

impl Model for AllocVec {
    ghost use Rattle.std.specs.Prelude.{ℕ, List};

    ghost Value = { List ℕ };

    ghost view = { λ s. s.vec.items };
}

impl AllocVec {
    /// Returns a flavor that holds nothing. The first byte allocates.
    pub fn new(alloc: Global) -> AllocVec
        ensures { result ≡ [] }
    {
        AllocVec {
            vec: Vec::new(alloc),
        }
    }

    /// Returns a flavor that holds the bytes of `vec`, and appends to them. Nothing is allocated or
    /// copied.
    pub fn from_vec(vec: Vec<u8>) -> AllocVec
        ensures { result ≡ vec.items }
    {
        AllocVec { vec }
    }
}

impl Flavor for AllocVec {
    type Output = Vec<u8>;

    ghost appended = { Appended (λ s. s) };

    ghost room = { NoRoom };

    ghost tidy = { ⊤ };

    ghost reaches = { AnyReached };

    ghost finishes = { λ s output. output.items ≡ s };

    ghost lawful = { grows_lawful (λ s. s) };

    fn try_push(&mut self, byte: u8) -> Result<()>
        ensures { PushedWhole ⟦<Self as Flavor>⟧ (λ s. s) self.old (byte ∷ []) result self.new }
    {
        self.vec.push(byte).map_err(|_| Error::SerializeBufferFull)
    }

    fn try_extend(&mut self, bytes: &[u8]) -> Result<()>
        ensures { PushedWhole ⟦<Self as Flavor>⟧ (λ s. s) self.old bytes.now result self.new }
    {
        self.vec
            .extend_from_slice(bytes)
            .map_err(|_| Error::SerializeBufferFull)
    }

    fn try_varint(&mut self, n: u64) -> Result<()>
        ensures { PushedWhole ⟦<Self as Flavor>⟧ (λ s. s) self.old (digits n) result self.new }
    {
        let mut out = [0; VARINT_MAX_64];
        self.try_extend(varint_u64(n, &mut out))
    }

    fn finalize(self) -> Result<Vec<u8>>
        ensures { AlwaysFinalized ⟦<Self as Flavor>⟧ self result }
    {
        Ok(self.vec)
    }
}

impl Index<usize> for AllocVec {
    type Output = u8;

    ghost can_index = { λ s place. place < length s };

    ghost index_gives = { λ s place byte. byte ≡ slice_index s place };

    fn index(&self, place: usize) -> &u8 {
        &self.vec[place]
    }
}

impl IndexMut<usize> for AllocVec {
    ghost use Rattle.std.specs.Borrow.{sem, Lends, u8 as byte_row};
    ghost use Rattle.postcard_ser_flavors.specs.contracts.alloc_vec.AllocVec.{the_row};

    fn index_mut(&mut self, place: usize) -> &mut u8
        requires { place < length self.old }
        ensures* writes_back { sem 𝓛
            (Lends the_row byte_row self.entry result (slice_set self.old place)) }
        ensures value { result.now ≡ slice_index self.old place }
    {
        &mut self.vec[place]
    }
}

impl Storage for AllocVec {
    ghost held = { λ s. s };

    ghost free = { NoneFree };

    ghost free_lawful = { none_free };

    fn set(&mut self, place: usize, byte: u8) {
        self.vec[place] = byte;
    }

    fn held_len(&self) -> usize {
        self.vec.len()
    }

    ghost storage_lawful = { grows_storage (λ s. s) };

    ghost indexed = { list_indexed };
}
