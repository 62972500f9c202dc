//! The greatest sizes of integers: 1 byte for 8 bits, and else that of a varint. A varint of 16,
//! 32, 64 or 128 bits has at most 3, 5, 10 or 19 bytes. In each `in_forms` the value is read for
//! the prover, which learns from it that the number has its width.

ghost use Rattle.postcard_max.specs.{byte_lawful, exactly, inl, inr, int_lawful, num_lawful, refl};

use crate::max_size::MaxSize;

impl MaxSize for u8 {
    ghost limit = { exactly 1 };

    fn postcard_max_size() -> Option<usize> {
        Some(1)
    }

    fn in_forms(&self) {
        let _value = *self;
    }

    ghost lawful = { byte_lawful };
}

impl MaxSize for u16 {
    ghost limit = { exactly 3 };

    fn postcard_max_size() -> Option<usize> {
        Some(3)
    }

    fn in_forms(&self) {
        let _value = *self;
    }

    ghost lawful = { num_lawful 16 (inl refl) };
}

impl MaxSize for u32 {
    ghost limit = { exactly 5 };

    fn postcard_max_size() -> Option<usize> {
        Some(5)
    }

    fn in_forms(&self) {
        let _value = *self;
    }

    ghost lawful = { num_lawful 32 (inr (inl refl)) };
}

impl MaxSize for u64 {
    ghost limit = { exactly 10 };

    fn postcard_max_size() -> Option<usize> {
        Some(10)
    }

    fn in_forms(&self) {
        let _value = *self;
    }

    ghost lawful = { num_lawful 64 (inr (inr (inl refl))) };
}

impl MaxSize for u128 {
    ghost limit = { exactly 19 };

    fn postcard_max_size() -> Option<usize> {
        Some(19)
    }

    fn in_forms(&self) {
        let _value = *self;
    }

    ghost lawful = { num_lawful 128 (inr (inr (inr refl))) };
}

impl MaxSize for i8 {
    ghost limit = { exactly 1 };

    fn postcard_max_size() -> Option<usize> {
        u8::postcard_max_size()
    }

    fn in_forms(&self) {
        let _value = *self;
    }

    ghost lawful = { byte_lawful };
}

impl MaxSize for i16 {
    ghost limit = { exactly 3 };

    fn postcard_max_size() -> Option<usize> {
        u16::postcard_max_size()
    }

    fn in_forms(&self) {
        let _value = *self;
    }

    ghost lawful = { int_lawful 16 (inl refl) };
}

impl MaxSize for i32 {
    ghost limit = { exactly 5 };

    fn postcard_max_size() -> Option<usize> {
        u32::postcard_max_size()
    }

    fn in_forms(&self) {
        let _value = *self;
    }

    ghost lawful = { int_lawful 32 (inr (inl refl)) };
}

impl MaxSize for i64 {
    ghost limit = { exactly 10 };

    fn postcard_max_size() -> Option<usize> {
        u64::postcard_max_size()
    }

    fn in_forms(&self) {
        let _value = *self;
    }

    ghost lawful = { int_lawful 64 (inr (inr (inl refl))) };
}

impl MaxSize for i128 {
    ghost limit = { exactly 19 };

    fn postcard_max_size() -> Option<usize> {
        u128::postcard_max_size()
    }

    fn in_forms(&self) {
        let _value = *self;
    }

    ghost lawful = { int_lawful 128 (inr (inr (inr refl))) };
}
