//! Sets: `BTreeSet<K>`, read as a list of its keys.

use crate::deserialize::Deserialize;
use crate::deserializer::Deserializer;
use crate::owned::DeserializeOwned;
use crate::read_element::{ByDeserialize, ByDeserializeOwned};
use postcard_de_flavors::Flavor;
use postcard_wire::Result;
use std::alloc::Global;
use std::collections::BTreeSet;

/// Reads the keys in any order; of equal keys the first is kept.
impl<'de, K: Deserialize<'de> + Ord> Deserialize<'de> for BTreeSet<K> {
    fn deserialize<F: Flavor>(alloc: Global, d: &mut Deserializer<'de, F>) -> Result<Self> {
        d.set::<K, ByDeserialize>(alloc)
    }
}

impl<K: DeserializeOwned + Ord> DeserializeOwned for BTreeSet<K> {
    fn deserialize_owned<'de, F: Flavor>(
        alloc: Global,
        d: &mut Deserializer<'de, F>,
    ) -> Result<Self> {
        d.set::<K, ByDeserializeOwned>(alloc)
    }
}
