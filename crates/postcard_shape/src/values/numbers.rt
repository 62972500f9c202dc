//! The shapes of integers of 8 to 128 bits.

ghost use Rattle.std.specs.Prelude.{◌≡◌, ◌<◌, ◌≤◌, length, take, refl, IfErr, IfOk, IfSome, IsSome};
ghost use Rattle.postcard_shape.specs.{Appends, AreFirst, IfNone, IsWhole, byte, inl, inr, int};
ghost use Rattle.postcard_shape.specs.{num, signed_byte};

use crate::first::FirstBytes;
use crate::shape::Shaped;
use crate::{pieces, runs};
use postcard_wire::laws::in_range;
use postcard_wire::{Error, Result};

impl Shaped for u8 {
    ghost shape = { byte };

    fn first_bytes(items: &[u8]) -> FirstBytes<'_>
        ensures gives { AreFirst byte items.now result }
        ensures is_whole { IsWhole result }
    {
        FirstBytes::Whole(items)
    }

    fn append_at_hand(items: &mut Vec<u8>, bytes: &[u8], most: usize) -> Result<Option<usize>>
        ensures within { IfOk result (λ front. IfSome front
            (λ n. (0 < n) × (n ≤ length bytes.now))) }
        ensures reads { IfOk result (λ front. IfSome front (λ n. Appends byte.reads byte.value most
            (take n bytes.now) items.old.items items.new.items)) }
        ensures unchanged_if_none { IfOk result
            (λ front. IfNone front (items.new.items ≡ items.old.items)) }
        ensures only_out_of_memory { IfErr result (λ e. e ≡ Error.OutOfMemory) }
        ensures returns_some { (0 < most) → (most ≤ length bytes.now)
            → IfOk result (λ front. IsSome front) }
    {
        if most == 0 || most > bytes.len() {
            return Ok(None);
        }
        let front = in_range(&bytes[..most]);
        if items.reserve_exact(most).is_err() || items.extend_from_slice(front).is_err() {
            return Err(Error::OutOfMemory);
        }
        Ok(Some(most))
    }
}

impl Shaped for u16 {
    ghost shape = { num 16 (inl refl) };

    #[inline(always)]
    fn first_bytes(items: &[u16]) -> FirstBytes<'_> {
        pieces::first_block(items)
    }

    #[inline(always)]
    fn append_at_hand(items: &mut Vec<u16>, bytes: &[u8], most: usize) -> Result<Option<usize>> {
        runs::append(items, bytes, most)
    }
}

impl Shaped for u32 {
    ghost shape = { num 32 (inr (inl refl)) };

    #[inline(always)]
    fn first_bytes(items: &[u32]) -> FirstBytes<'_> {
        pieces::first_block(items)
    }

    #[inline(always)]
    fn append_at_hand(items: &mut Vec<u32>, bytes: &[u8], most: usize) -> Result<Option<usize>> {
        runs::append(items, bytes, most)
    }
}

impl Shaped for u64 {
    ghost shape = { num 64 (inr (inr (inl refl))) };

    #[inline(always)]
    fn first_bytes(items: &[u64]) -> FirstBytes<'_> {
        pieces::first_block(items)
    }

    #[inline(always)]
    fn append_at_hand(items: &mut Vec<u64>, bytes: &[u8], most: usize) -> Result<Option<usize>> {
        runs::append(items, bytes, most)
    }
}

impl Shaped for u128 {
    ghost shape = { num 128 (inr (inr (inr refl))) };
}

impl Shaped for i8 {
    ghost shape = { signed_byte };
}

impl Shaped for i16 {
    ghost shape = { int 16 (inl refl) };

    #[inline(always)]
    fn first_bytes(items: &[i16]) -> FirstBytes<'_> {
        pieces::first_block(items)
    }

    #[inline(always)]
    fn append_at_hand(items: &mut Vec<i16>, bytes: &[u8], most: usize) -> Result<Option<usize>> {
        runs::append(items, bytes, most)
    }
}

impl Shaped for i32 {
    ghost shape = { int 32 (inr (inl refl)) };

    #[inline(always)]
    fn first_bytes(items: &[i32]) -> FirstBytes<'_> {
        pieces::first_block(items)
    }

    #[inline(always)]
    fn append_at_hand(items: &mut Vec<i32>, bytes: &[u8], most: usize) -> Result<Option<usize>> {
        runs::append(items, bytes, most)
    }
}

impl Shaped for i64 {
    ghost shape = { int 64 (inr (inr (inl refl))) };

    #[inline(always)]
    fn first_bytes(items: &[i64]) -> FirstBytes<'_> {
        pieces::first_block(items)
    }

    #[inline(always)]
    fn append_at_hand(items: &mut Vec<i64>, bytes: &[u8], most: usize) -> Result<Option<usize>> {
        runs::append(items, bytes, most)
    }
}

impl Shaped for i128 {
    ghost shape = { int 128 (inr (inr (inr refl))) };
}
