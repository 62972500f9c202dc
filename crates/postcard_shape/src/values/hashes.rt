//! The shapes of sets and maps that find a key by its hash.

ghost use Rattle.postcard_shape.specs.{PutsKey, PutsPair, pair, put_in, seq, via};

use crate::shape::Shaped;
use std::collections::{HashMap, HashSet};
use std::hash::{BuildHasher, Hash};

impl<K: Shaped + Eq + Hash, S: BuildHasher> Shaped for HashSet<K, S> {
    ghost shape = { via (λ s. s.keys) (put_in (PutsKey K.eq) (seq K.shape)) };
}

impl<K: Shaped + Eq + Hash, V: Shaped, S: BuildHasher> Shaped for HashMap<K, V, S> {
    ghost shape = { via (λ m. m.entries)
        (put_in (PutsPair K.eq) (seq (pair K.shape V.shape))) };
}
