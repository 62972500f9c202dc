//! The shapes of arrays, and of vectors and texts of a fixed capacity.

ghost use Rattle.postcard_shape.specs.{array, few, short_text, via};

use crate::shape::Shaped;
use arrayvec::{ArrayString, ArrayVec};

impl<T: Shaped, const N: usize> Shaped for [T; N] {
    ghost shape = { array N T.shape };
}

impl<T: Shaped, const CAP: usize> Shaped for ArrayVec<T, CAP> {
    ghost shape = { via (λ v. v.items) (few CAP T.shape) };
}

impl<const CAP: usize> Shaped for ArrayString<CAP> {
    ghost shape = { via (λ v. v.bytes) (short_text CAP) };
}
