//! The greatest sizes of `bool`, 1 byte, of characters, 5 bytes, and of `usize` and `isize`, 10
//! bytes, as of numbers of 64 bits. A character is a count and at most four bytes of UTF-8. In each
//! `in_forms` of a number or a character the value is read for the prover, which learns its range
//! from that.

ghost use Rattle.postcard_max.specs.{boolean_lawful, char_lawful, exactly, inl, inr, int_lawful};
ghost use Rattle.postcard_max.specs.{num_lawful, refl};

use crate::max_size::MaxSize;

impl MaxSize for bool {
    ghost limit = { exactly 1 };

    fn postcard_max_size() -> Option<usize> {
        Some(1)
    }

    fn in_forms(&self) {}

    ghost lawful = { boolean_lawful };
}

impl MaxSize for char {
    ghost limit = { exactly 5 };

    fn postcard_max_size() -> Option<usize> {
        Some(5)
    }

    fn in_forms(&self) {
        let _value = *self;
    }

    ghost lawful = { char_lawful };
}

impl MaxSize for usize {
    ghost limit = { exactly 10 };

    fn postcard_max_size() -> Option<usize> {
        u64::postcard_max_size()
    }

    fn in_forms(&self) {
        let _value = *self;
    }

    ghost lawful = { num_lawful 64 (inr (inr (inl refl))) };
}

impl MaxSize for isize {
    ghost limit = { exactly 10 };

    fn postcard_max_size() -> Option<usize> {
        i64::postcard_max_size()
    }

    fn in_forms(&self) {
        let _value = *self;
    }

    ghost lawful = { int_lawful 64 (inr (inr (inl refl))) };
}
