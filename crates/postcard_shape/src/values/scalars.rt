//! The shapes of `bool`, of characters, and of `usize` and `isize` as numbers of 64 bits.

ghost use Rattle.postcard_shape.specs.{boolean, character, inl, inr, int, num, refl};

use crate::shape::Shaped;

impl Shaped for bool {
    ghost shape = { boolean };
}

impl Shaped for char {
    ghost shape = { character };
}

impl Shaped for usize {
    ghost shape = { num 64 (inr (inr (inl refl))) };
}

impl Shaped for isize {
    ghost shape = { int 64 (inr (inr (inl refl))) };
}
