//! Maps: `BTreeMap<K, V>`, read as a list of its pairs.

use crate::deserialize::Deserialize;
use crate::deserializer::Deserializer;
use crate::owned::DeserializeOwned;
use crate::read_element::{ByDeserialize, ByDeserializeOwned};
use postcard_de_flavors::Flavor;
use postcard_wire::Result;
use std::alloc::Global;
use std::collections::BTreeMap;

/// Reads the pairs in any order; of equal keys the last value is kept.
impl<'de, K: Deserialize<'de> + Ord, V: Deserialize<'de>> Deserialize<'de> for BTreeMap<K, V> {
    fn deserialize<F: Flavor>(alloc: Global, d: &mut Deserializer<'de, F>) -> Result<Self> {
        d.map::<K, V, ByDeserialize>(alloc)
    }
}

impl<K: DeserializeOwned + Ord, V: DeserializeOwned> DeserializeOwned for BTreeMap<K, V> {
    fn deserialize_owned<'de, F: Flavor>(
        alloc: Global,
        d: &mut Deserializer<'de, F>,
    ) -> Result<Self> {
        d.map::<K, V, ByDeserializeOwned>(alloc)
    }
}
