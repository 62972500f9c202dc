//! Varints, read byte by byte from any source (wire format 1.0, "varint encoded integers").
//!
//! A padded spelling, such as `80 00` for 0, is accepted if it has no more bytes than the width
//! allows.

ghost use Rattle.std.specs.Prelude.{◌≤◌, ◌*◌, ◌++◌, ◌∷◌, [], ℕ, List, MatchBool};
ghost use Rattle.postcard_wire.specs.{HasRead, IsWidth, PushReturns, Within};

use crate::error::{Error, Result};

/// The digits read so far of a varint that goes on: each of its bytes was 128 or more, and they are
/// fewer than its width allows.
#[derive(Clone, Copy)]
pub struct Digits {
    value: u128,
    count: u32,
}

impl Digits {
    /// Returns no digits yet, for a varint of any width.
    pub fn new() -> Digits
        ensures { (w : ℕ) → IsWidth w → HasRead w [] result }
    {
        Digits { value: 0, count: 0 }
    }

    /// Takes the next byte of a varint of `bits` bits: 16, 32, 64 or 128, the same for each byte.
    /// Returns the number if this was the last byte, or else `None`.
    ///
    /// # Errors
    ///
    /// Fails with [`Error::DeserializeBadVarint`] at the last byte that the width allows, if it
    /// says that another follows or exceeds the width. After the number or the error, start with
    /// new [`Digits`].
    pub fn push(&mut self, bits: u32, byte: u8) -> Result<Option<u128>>
        requires width { IsWidth bits }
        requires begun { (p : List ℕ) × HasRead bits p self.old }
        ensures { (p : List ℕ) → HasRead bits p self.old
            → PushReturns bits (p ++ byte ∷ []) self.new result }
    {
        if !is_within(bits, self.count, byte) {
            return Err(Error::DeserializeBadVarint);
        }
        self.value += u128::from(byte % 128) << (7 * self.count);
        if byte < 128 {
            return Ok(Some(self.value));
        }
        self.count += 1;
        Ok(None)
    }
}

/// Returns whether the digit of `byte` at `place`, counted from 0, fits in `bits` bits. A byte that
/// says that another follows doesn't fit at the last place.
fn is_within(bits: u32, place: u32, byte: u8) -> bool
    requires few { bits ≤ 128 }
    requires within { 7 * place ≤ bits }
    ensures { MatchBool result (Within bits place byte) (Within bits place byte → ⊥) }
{
    7 * place + 7 <= bits || byte >> (bits - 7 * place) == 0
}
