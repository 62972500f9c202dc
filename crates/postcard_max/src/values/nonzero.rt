//! The greatest sizes of numbers that aren't 0: those of the numbers.

ghost use Rattle.postcard_max.specs.{exactly, inl, inr, nonzero_byte_lawful, nonzero_int_lawful};
ghost use Rattle.postcard_max.specs.{nonzero_num_lawful, refl};

use crate::max_size::MaxSize;
use std::num::{
    NonZeroI8, NonZeroI16, NonZeroI32, NonZeroI64, NonZeroI128, NonZeroIsize, NonZeroU8,
    NonZeroU16, NonZeroU32, NonZeroU64, NonZeroU128, NonZeroUsize,
};

impl MaxSize for NonZeroU8 {
    ghost limit = { exactly 1 };

    fn postcard_max_size() -> Option<usize> {
        u8::postcard_max_size()
    }

    fn in_forms(&self) {
        let _value = self.get();
    }

    ghost lawful = { nonzero_byte_lawful };
}

impl MaxSize for NonZeroU16 {
    ghost limit = { exactly 3 };

    fn postcard_max_size() -> Option<usize> {
        u16::postcard_max_size()
    }

    fn in_forms(&self) {
        let _value = self.get();
    }

    ghost lawful = { nonzero_num_lawful 16 (inl refl) };
}

impl MaxSize for NonZeroU32 {
    ghost limit = { exactly 5 };

    fn postcard_max_size() -> Option<usize> {
        u32::postcard_max_size()
    }

    fn in_forms(&self) {
        let _value = self.get();
    }

    ghost lawful = { nonzero_num_lawful 32 (inr (inl refl)) };
}

impl MaxSize for NonZeroU64 {
    ghost limit = { exactly 10 };

    fn postcard_max_size() -> Option<usize> {
        u64::postcard_max_size()
    }

    fn in_forms(&self) {
        let _value = self.get();
    }

    ghost lawful = { nonzero_num_lawful 64 (inr (inr (inl refl))) };
}

impl MaxSize for NonZeroU128 {
    ghost limit = { exactly 19 };

    fn postcard_max_size() -> Option<usize> {
        u128::postcard_max_size()
    }

    fn in_forms(&self) {
        let _value = self.get();
    }

    ghost lawful = { nonzero_num_lawful 128 (inr (inr (inr refl))) };
}

impl MaxSize for NonZeroUsize {
    ghost limit = { exactly 10 };

    fn postcard_max_size() -> Option<usize> {
        usize::postcard_max_size()
    }

    fn in_forms(&self) {
        let _value = self.get();
    }

    ghost lawful = { nonzero_num_lawful 64 (inr (inr (inl refl))) };
}

impl MaxSize for NonZeroI8 {
    ghost limit = { exactly 1 };

    fn postcard_max_size() -> Option<usize> {
        i8::postcard_max_size()
    }

    fn in_forms(&self) {
        let _value = self.get();
    }

    ghost lawful = { nonzero_byte_lawful };
}

impl MaxSize for NonZeroI16 {
    ghost limit = { exactly 3 };

    fn postcard_max_size() -> Option<usize> {
        i16::postcard_max_size()
    }

    fn in_forms(&self) {
        let _value = self.get();
    }

    ghost lawful = { nonzero_int_lawful 16 (inl refl) };
}

impl MaxSize for NonZeroI32 {
    ghost limit = { exactly 5 };

    fn postcard_max_size() -> Option<usize> {
        i32::postcard_max_size()
    }

    fn in_forms(&self) {
        let _value = self.get();
    }

    ghost lawful = { nonzero_int_lawful 32 (inr (inl refl)) };
}

impl MaxSize for NonZeroI64 {
    ghost limit = { exactly 10 };

    fn postcard_max_size() -> Option<usize> {
        i64::postcard_max_size()
    }

    fn in_forms(&self) {
        let _value = self.get();
    }

    ghost lawful = { nonzero_int_lawful 64 (inr (inr (inl refl))) };
}

impl MaxSize for NonZeroI128 {
    ghost limit = { exactly 19 };

    fn postcard_max_size() -> Option<usize> {
        i128::postcard_max_size()
    }

    fn in_forms(&self) {
        let _value = self.get();
    }

    ghost lawful = { nonzero_int_lawful 128 (inr (inr (inr refl))) };
}

impl MaxSize for NonZeroIsize {
    ghost limit = { exactly 10 };

    fn postcard_max_size() -> Option<usize> {
        isize::postcard_max_size()
    }

    fn in_forms(&self) {
        let _value = self.get();
    }

    ghost lawful = { nonzero_int_lawful 64 (inr (inr (inl refl))) };
}
