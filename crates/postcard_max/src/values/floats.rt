//! The greatest sizes of floating-point numbers: 4 and 8 bytes. In each `in_forms` the value is
//! read for the prover, which learns from it that it is a float of its type.

ghost use Rattle.postcard_max.specs.{binary32, binary64, exactly, float_lawful};

use crate::max_size::MaxSize;
use postcard_shape::formats::{known_f32, known_f64};

impl MaxSize for f32 {
    ghost limit = { exactly 4 };

    fn postcard_max_size() -> Option<usize> {
        Some(4)
    }

    fn in_forms(&self) {
        let _value = known_f32(*self);
    }

    ghost lawful = { float_lawful binary32 };
}

impl MaxSize for f64 {
    ghost limit = { exactly 8 };

    fn postcard_max_size() -> Option<usize> {
        Some(8)
    }

    fn in_forms(&self) {
        let _value = known_f64(*self);
    }

    ghost lawful = { float_lawful binary64 };
}
