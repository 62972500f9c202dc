//! Sets and maps that find a key by its hash, read as lists of their keys or pairs. Each function
//! fails with `OutOfMemory` if an allocation fails.

ghost use Rattle.std.specs.Prelude.{[], IfOk, IsOkUnless};
ghost use Rattle.postcard_de.specs.{Deserializes, Error, Puts, PutsKey, PutsPair};

use crate::deserialize::Deserialize;
use crate::deserializer::Deserializer;
use crate::owned::DeserializeOwned;
use postcard_de_flavors::Flavor;
use postcard_shape::Shaped;
use postcard_wire::Result;
use std::alloc::Global;
use std::collections::{HashMap, HashSet};
use std::hash::{BuildHasher, Hash};

/// Returns a set that hashes by `hasher`, into which the keys were put one by one. Of equal keys
/// the first is kept.
fn set_of<K: Eq + Hash + Drop, S: BuildHasher + Drop>(
    alloc: Global,
    keys: Vec<K>,
    hasher: S,
) -> Result<HashSet<K, S>>
    ensures keys { IfOk result (λ set. Puts (PutsKey K.eq) keys.items [] set.keys) }
    ensures only_out_of_memory { IsOkUnless result Error.OutOfMemory }
{
    let mut set = HashSet::with_hasher(alloc, hasher);
    for key in keys {
        set.insert(key)?;
    }
    Ok(set)
}

/// Returns a map that hashes by `hasher`, into which the pairs were put one by one. Of equal keys
/// the last value is kept.
fn map_of<K: Eq + Hash + Drop, V: Drop, S: BuildHasher + Drop>(
    alloc: Global,
    pairs: Vec<(K, V)>,
    hasher: S,
) -> Result<HashMap<K, V, S>>
    ensures entries { IfOk result (λ map. Puts (PutsPair K.eq) pairs.items [] map.entries) }
    ensures only_out_of_memory { IsOkUnless result Error.OutOfMemory }
{
    let mut map = HashMap::with_hasher(alloc, hasher);
    for (key, value) in pairs {
        map.insert(key, value)?;
    }
    Ok(map)
}

/// Reads a set that hashes by `hasher`: the keys in any order, of which the first of equal ones is
/// kept.
///
/// The `deserialize` of `HashSet` takes the default of its hasher. The hasher of std has a fixed
/// seed, so a sender can choose keys that make the set slow. From input that isn't trusted, read a
/// set by this call with a `RandomState`, or a `BTreeSet`.
///
/// # Errors
///
/// Fails as reading a list of the keys does, and with `OutOfMemory` if an allocation fails.
pub fn read_hash_set<'de, K: Deserialize<'de> + Eq + Hash, S: BuildHasher + Drop, F: Flavor>(
    alloc: Global,
    d: &mut Deserializer<'de, F>,
    hasher: S,
) -> Result<HashSet<K, S>>
    ensures { Deserializes F.Flavor ⟦<HashSet<K, S> as Shaped>⟧.shape d.old result d.new }
{
    let keys = <Vec<K>>::deserialize(alloc, d)?;
    set_of(alloc, keys, hasher)
}

/// Reads a map that hashes by `hasher`: the pairs in any order, of which the last value of equal
/// keys is kept. What [`read_hash_set`] says of hashers holds here too.
///
/// # Errors
///
/// Fails as reading a list of the pairs does, and with `OutOfMemory` if an allocation fails.
pub fn read_hash_map<
    'de,
    K: Deserialize<'de> + Eq + Hash,
    V: Deserialize<'de>,
    S: BuildHasher + Drop,
    F: Flavor,
>(alloc: Global, d: &mut Deserializer<'de, F>, hasher: S) -> Result<HashMap<K, V, S>>
    ensures { Deserializes F.Flavor ⟦<HashMap<K, V, S> as Shaped>⟧.shape d.old result d.new }
{
    let pairs = <Vec<(K, V)>>::deserialize(alloc, d)?;
    map_of(alloc, pairs, hasher)
}

/// Reads the set by [`read_hash_set`], with the default of its hasher.
impl<'de, K: Deserialize<'de> + Eq + Hash, S: BuildHasher + Default + Drop> Deserialize<'de>
    for HashSet<K, S> {
    fn deserialize<F: Flavor>(alloc: Global, d: &mut Deserializer<'de, F>) -> Result<Self> {
        read_hash_set(alloc, d, S::default())
    }
}

impl<K: DeserializeOwned + Eq + Hash, S: BuildHasher + Default + Drop> DeserializeOwned
    for HashSet<K, S> {
    fn deserialize_owned<'de, F: Flavor>(
        alloc: Global,
        d: &mut Deserializer<'de, F>,
    ) -> Result<Self> {
        let owned = <Vec<K>>::deserialize_owned(alloc, d)?;
        set_of(alloc, owned, S::default())
    }
}

/// Reads the map by [`read_hash_map`], with the default of its hasher.
impl<
    'de,
    K: Deserialize<'de> + Eq + Hash,
    V: Deserialize<'de>,
    S: BuildHasher + Default + Drop,
> Deserialize<'de> for HashMap<K, V, S> {
    fn deserialize<F: Flavor>(alloc: Global, d: &mut Deserializer<'de, F>) -> Result<Self> {
        read_hash_map(alloc, d, S::default())
    }
}

impl<
    K: DeserializeOwned + Eq + Hash,
    V: DeserializeOwned,
    S: BuildHasher + Default + Drop,
> DeserializeOwned for HashMap<K, V, S> {
    fn deserialize_owned<'de, F: Flavor>(
        alloc: Global,
        d: &mut Deserializer<'de, F>,
    ) -> Result<Self> {
        let owned = <Vec<(K, V)>>::deserialize_owned(alloc, d)?;
        map_of(alloc, owned, S::default())
    }
}
