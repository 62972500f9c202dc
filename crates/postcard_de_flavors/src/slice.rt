//! The source over a slice.

ghost use Rattle.std.specs.Prelude.{◌≡◌, ◌↔◌, ◌<◌, ◌≤◌, [], ◌∷◌, length, Some, IfOk, IsOk};
ghost use Rattle.std.specs.Prelude.{IsOkUnless, MatchResult};
ghost use Rattle.postcard_de_flavors.specs.{CanTake, IsEndOf, LeavesRest, Rests, TakesIfEnough};
ghost use Rattle.postcard_de_flavors.specs.{known, sem, slice_laws};

use crate::flavor::Flavor;
use postcard_memory::Bytes;
use postcard_wire::{Error, Result};
use std::marker::Model;

/// A source that reads from a slice. A contract sees the list of the bytes left.
///
/// A call fails with `DeserializeUnexpectedEnd` if and only if fewer bytes are left than it takes,
/// and changes nothing then. `finalize` returns the bytes left, and never fails.
#[derive(Drop)]
pub struct Slice<'de> {
    bytes: Bytes<'de>,
    len: usize,
}

impl<'de> Model for Slice<'de> {
    ghost use Rattle.std.specs.Prelude.{List, ℕ, ◌≡◌, length};

    ghost Value = { List ℕ };

    ghost view = { λ s. s.bytes.items };

    ghost invariant = { λ s. s.len ≡ length s.bytes.items };
}

impl<'de> Slice<'de> {
    /// Returns a source over `bytes`.
    pub fn new(bytes: &'de [u8]) -> Slice<'de>
        ensures { result ≡ bytes.now }
    {
        Slice {
            bytes: Bytes::new(bytes),
            len: bytes.len(),
        }
    }
}

impl<'de> Flavor for Slice<'de> {
    ghost use Rattle.postcard_de_flavors.specs.contracts.slice.Slice.{the_row};
    ghost use mir.Syntax.{named};

    type Remainder = &'de [u8];

    type Source = &'de [u8];

    ghost left = { known };

    ghost able = { λ s n. n ≤ length s };

    ghost may_leave = { λ s t. IsEndOf t s };

    ghost finishes = { λ s r. MatchResult r (λ rest. rest.now ≡ s) (λ e. ⊥) };

    ghost hint = { λ s. Some (length s) };

    ghost lawful = { slice_laws };

    fn pop(&mut self) -> Result<u8>
        ensures { TakesIfEnough ⟦<Self as Flavor>⟧ (λ b. b ∷ []) 1 self.old result self.new }
    {
        if self.len == 0 {
            return Err(Error::DeserializeUnexpectedEnd);
        }
        self.len -= 1;
        Ok(self.bytes.pop())
    }

    fn size_hint(&self) -> Option<usize>
        ensures { result ≡ Some (length self.now) }
    {
        Some(self.len)
    }

    fn at_hand(&self) -> &[u8]
        ensures can_take { 0 < length result.now → CanTake ⟦<Self as Flavor>⟧.left
            ⟦<Self as Flavor>⟧.able self.now result.now }
        ensures returns_all { result.now ≡ self.now }
    {
        self.bytes.view(self.len)
    }

    fn try_take_n<'a>(&mut self, ct: usize) -> Result<&'a [u8]>
    where
        Self: 'a,
        ensures length { IfOk result (λ front. length front.now ≡ ct) }
        ensures takes { TakesIfEnough ⟦<Self as Flavor>⟧ (λ front. front.now) ct
            self.old result self.new }
    {
        if self.len < ct {
            return Err(Error::DeserializeUnexpectedEnd);
        }
        self.len -= ct;
        Ok(self.bytes.take(ct))
    }

    fn try_take_n_temp(&mut self, ct: usize) -> Result<&[u8]>
        ensures length { IfOk result (λ front. length front.now ≡ ct) }
        ensures* gives { sem 𝓛 (Rests (the_row (record { mir = named 1; lft = [] })) self.entry
            (LeavesRest self.old result)) }
        ensures refuses_by_unexpected_end { IsOkUnless result Error.DeserializeUnexpectedEnd }
        ensures succeeds_iff_enough { IsOk result ↔ (ct ≤ length self.old) }
    {
        // The code of `try_take_n`, once more for the prover: through a call of it, the prover
        // wouldn't know the state of `self` after the loan.
        if ct > self.len {
            return Err(Error::DeserializeUnexpectedEnd);
        }
        self.len -= ct;
        let front = self.bytes.take(ct);
        Ok(front)
    }

    fn finalize(self) -> Result<&'de [u8]> {
        let Slice { bytes, len } = self;
        Ok(bytes.whole(len))
    }
}
