//! The flavor that fills a vector of a fixed capacity.

ghost use Rattle.std.specs.Prelude.{◌≡◌, ◌<◌, [], ◌∷◌, ⊤, length, slice_index, slice_set};
ghost use Rattle.postcard_ser_flavors.specs.{AlwaysFinalized, AnyReached, Appended, HasFreeUpTo};
ghost use Rattle.postcard_ser_flavors.specs.{Lends, PushedIfRoom, byte_row, digits, fixed_free};
ghost use Rattle.postcard_ser_flavors.specs.{fixed_lawful, fixed_storage, lends_item, list_indexed};
ghost use Rattle.postcard_ser_flavors.specs.{sem, unit_row};
ghost use Rattle.postcard_ser_flavors.specs.Held.{HasRoom};

use crate::flavor::Flavor;
use crate::storage::Storage;
use arrayvec::ArrayVec;
use postcard_wire::varint::{VARINT_MAX_64, varint_u64};
use postcard_wire::{Error, Result};
use std::marker::Model;
use std::ops::{Index, IndexMut};

/// Appends to a vector with room for `B` bytes, which are in the value itself. A piece is written
/// whole or not at all, and nothing is allocated.
///
/// A push fails with `SerializeBufferFull` if and only if more than `B` bytes would be held, and
/// changes nothing then.
///
/// A contract sees the bytes that it holds.
#[derive(Drop)]
pub struct HVec<const B: usize> {
    vec: ArrayVec<u8, B>,
}

impl<const B: usize> Model for HVec<B> {
    ghost use Rattle.std.specs.Prelude.{ℕ, List};

    ghost Value = { List ℕ };

    ghost view = { λ s. s.vec.items };
}

impl<const B: usize> HVec<B> {
    /// Returns a flavor that holds nothing.
    pub fn new() -> HVec<B>
        ensures { result ≡ [] }
    {
        HVec {
            vec: ArrayVec::new(),
        }
    }
}

impl<const B: usize> Default for HVec<B> {
    ghost is_default = { λ s. s ≡ [] };

    fn default() -> HVec<B> {
        HVec::new()
    }
}

impl<const B: usize> Flavor for HVec<B> {
    type Output = ArrayVec<u8, B>;

    ghost appended = { Appended (λ s. s) };

    ghost room = { HasRoom (λ s. s) B };

    ghost tidy = { ⊤ };

    ghost reaches = { AnyReached };

    ghost finishes = { λ s output. output.items ≡ s };

    ghost lawful = { fixed_lawful (λ s. s) B };

    fn try_push(&mut self, byte: u8) -> Result<()>
        ensures { PushedIfRoom ⟦<Self as Flavor>⟧ self.old (byte ∷ []) result self.new }
    {
        self.vec
            .try_push(byte)
            .map_err(|_| Error::SerializeBufferFull)
    }

    fn try_extend(&mut self, bytes: &[u8]) -> Result<()>
        ensures { PushedIfRoom ⟦<Self as Flavor>⟧ self.old bytes.now result self.new }
    {
        self.vec
            .try_extend_from_slice(bytes)
            .map_err(|_| Error::SerializeBufferFull)
    }

    fn try_varint(&mut self, n: u64) -> Result<()>
        ensures { PushedIfRoom ⟦<Self as Flavor>⟧ self.old (digits n) result self.new }
    {
        let mut out = [0; VARINT_MAX_64];
        self.try_extend(varint_u64(n, &mut out))
    }

    fn finalize(self) -> Result<ArrayVec<u8, B>>
        ensures { AlwaysFinalized ⟦<Self as Flavor>⟧ self.entry result }
    {
        Ok(self.vec)
    }
}

impl<const B: usize> Index<usize> for HVec<B> {
    type Output = u8;

    ghost can_index = { λ s place. place < length s };

    ghost index_gives = { λ s place byte. byte ≡ slice_index s place };

    fn index(&self, place: usize) -> &u8 {
        &self.vec[place]
    }
}

fn byte_at<const B: usize>(vec: &mut ArrayVec<u8, B>, place: usize) -> &mut u8
    requires { place < length vec.old.items }
    ensures* writes_back { sem 𝓛 (lends_item byte_row B.row unit_row vec.entry place result) }
    ensures value { result.now ≡ slice_index vec.old.items place }
{
    match vec.get_mut(place) {
        Some(byte) => byte,
        None => unreachable!(),
    }
}

impl<const B: usize> IndexMut<usize> for HVec<B> {
    ghost use Rattle.postcard_ser_flavors.specs.contracts.hvec.HVec.{the_row};

    fn index_mut(&mut self, place: usize) -> &mut u8
        requires { place < length self.old }
        ensures* writes_back { sem 𝓛
            (Lends (the_row B.row) byte_row self.entry result (slice_set self.old place)) }
        ensures value { result.now ≡ slice_index self.old place }
    {
        byte_at(&mut self.vec, place)
    }
}

impl<const B: usize> Storage for HVec<B> {
    ghost held = { λ s. s };

    ghost free = { HasFreeUpTo (λ s. s) B };

    ghost free_lawful = { fixed_free (λ s. s) B };

    fn set(&mut self, place: usize, byte: u8) {
        self.vec[place] = byte;
    }

    fn held_len(&self) -> usize {
        self.vec.len()
    }

    ghost storage_lawful = { fixed_storage (λ s. s) B };

    ghost indexed = { list_indexed };
}
