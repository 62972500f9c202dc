//! The shapes of sets.

ghost use Rattle.postcard_shape.specs.{keys, via};

use crate::shape::Shaped;
use std::collections::BTreeSet;

impl<K: Shaped + Ord> Shaped for BTreeSet<K> {
    ghost shape = { via (λ s. s.keys) (keys K.cmp K.shape) };
}
