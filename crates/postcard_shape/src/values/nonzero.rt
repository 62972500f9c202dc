//! The shapes of numbers that aren't 0.

ghost use Rattle.postcard_shape.specs.{Byte, Int, Num, byte, inl, inr, int, non_zero_i128_get};
ghost use Rattle.postcard_shape.specs.{non_zero_i16_get, non_zero_i32_get, non_zero_i64_get};
ghost use Rattle.postcard_shape.specs.{non_zero_i8_get, non_zero_isize_get, non_zero_u128_get};
ghost use Rattle.postcard_shape.specs.{non_zero_u16_get, non_zero_u32_get, non_zero_u64_get};
ghost use Rattle.postcard_shape.specs.{non_zero_u8_get, non_zero_usize_get, num, pos, refl};
ghost use Rattle.postcard_shape.specs.{signed_byte, via, without};

use crate::shape::Shaped;
use std::num::{
    NonZeroI8, NonZeroI16, NonZeroI32, NonZeroI64, NonZeroI128, NonZeroIsize, NonZeroU8,
    NonZeroU16, NonZeroU32, NonZeroU64, NonZeroU128, NonZeroUsize,
};

impl Shaped for NonZeroU8 {
    ghost shape = { via (λ v. non_zero_u8_get v) (without (Byte 0) byte) };
}

impl Shaped for NonZeroU16 {
    ghost shape = { via (λ v. non_zero_u16_get v) (without (Num 16 0) (num 16 (inl refl))) };
}

impl Shaped for NonZeroU32 {
    ghost shape = { via (λ v. non_zero_u32_get v) (without (Num 32 0) (num 32 (inr (inl refl)))) };
}

impl Shaped for NonZeroU64 {
    ghost shape = { via (λ v. non_zero_u64_get v)
        (without (Num 64 0) (num 64 (inr (inr (inl refl))))) };
}

impl Shaped for NonZeroU128 {
    ghost shape = { via (λ v. non_zero_u128_get v)
        (without (Num 128 0) (num 128 (inr (inr (inr refl))))) };
}

impl Shaped for NonZeroUsize {
    ghost shape = { via (λ v. non_zero_usize_get v)
        (without (Num 64 0) (num 64 (inr (inr (inl refl))))) };
}

impl Shaped for NonZeroI8 {
    ghost shape = { via (λ v. non_zero_i8_get v) (without (Byte 0) signed_byte) };
}

impl Shaped for NonZeroI16 {
    ghost shape = { via (λ v. non_zero_i16_get v) (without (Int 16 (pos 0)) (int 16 (inl refl))) };
}

impl Shaped for NonZeroI32 {
    ghost shape = { via (λ v. non_zero_i32_get v)
        (without (Int 32 (pos 0)) (int 32 (inr (inl refl)))) };
}

impl Shaped for NonZeroI64 {
    ghost shape = { via (λ v. non_zero_i64_get v)
        (without (Int 64 (pos 0)) (int 64 (inr (inr (inl refl))))) };
}

impl Shaped for NonZeroI128 {
    ghost shape = { via (λ v. non_zero_i128_get v)
        (without (Int 128 (pos 0)) (int 128 (inr (inr (inr refl))))) };
}

impl Shaped for NonZeroIsize {
    ghost shape = { via (λ v. non_zero_isize_get v)
        (without (Int 64 (pos 0)) (int 64 (inr (inr (inl refl))))) };
}
