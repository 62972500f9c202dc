//! The shapes of lists.

ghost use Rattle.postcard_shape.specs.{growing, seq, via};

use crate::shape::Shaped;
use std::collections::{LinkedList, VecDeque};

impl<T: Shaped> Shaped for &[T] {
    ghost shape = { via (λ v. v.now) (seq T.shape) };
}

impl<T: Shaped> Shaped for Vec<T> {
    ghost shape = { via (λ v. v.items) (growing (seq T.shape)) };
}

impl<T: Shaped> Shaped for VecDeque<T> {
    ghost shape = { via (λ v. v.items) (growing (seq T.shape)) };
}

impl<T: Shaped> Shaped for LinkedList<T> {
    ghost shape = { growing (seq T.shape) };
}
