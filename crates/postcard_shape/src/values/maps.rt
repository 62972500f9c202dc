//! The shapes of maps.

ghost use Rattle.postcard_shape.specs.{entries, via};

use crate::shape::Shaped;
use std::collections::BTreeMap;

impl<K: Shaped + Ord, V: Shaped> Shaped for BTreeMap<K, V> {
    ghost shape = { via (λ m. m.entries) (entries K.cmp K.shape V.shape) };
}
