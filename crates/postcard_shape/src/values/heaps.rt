//! The shape of heaps: a list of the elements, in any order.

ghost use Rattle.postcard_shape.specs.{growing, heap_items, in_any_order, seq, via};

use crate::shape::Shaped;
use std::collections::BinaryHeap;

impl<T: Shaped + Ord> Shaped for BinaryHeap<T> {
    ghost shape = { via (λ v. heap_items v) (growing (in_any_order (seq T.shape))) };
}
