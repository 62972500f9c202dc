//! Hash sets and hash maps. First comes the number of the keys or entries, a varint. Then these
//! come in the order in which the set or the map keeps them, a value after its key.

ghost use Rattle.std.specs.Prelude.{Any, map, OnOk};
ghost use Rattle.postcard_ser.specs.{AllFit, Wrote, canonical_all, pair, trees};

use crate::serialize::Serialize;
use crate::serializer::Serializer;
use postcard_ser_flavors::Flavor;
use postcard_wire::Result;
use std::collections::{HashMap, HashSet};
use std::hash::{BuildHasher, Hash};

fn serialize_keys<K: Serialize + Eq + Hash, S: BuildHasher, F: Flavor>(
    keys: &HashSet<K, S>,
    serializer: &mut Serializer<F>,
) -> Result<()>
    ensures wrote { Wrote F.Flavor serializer.old.output
        (canonical_all (trees (map K.shape.tree keys.now.keys)))
        (λ e. Any (λ k. K.shape.refusal k e) keys.now.keys) K.shape.text result
        serializer.new.output }
    ensures fits { OnOk result (AllFit K.shape.fits keys.now.keys) }
{
    for key in keys {
        key.serialize(serializer)?;
    }
    Ok(())
}

impl<K: Serialize + Eq + Hash, S: BuildHasher> Serialize for HashSet<K, S> {
    fn serialize<F: Flavor>(&self, serializer: &mut Serializer<F>) -> Result<()> {
        serializer.serialize_seq(Some(self.len()))?;
        serialize_keys(self, serializer)
    }
}

fn serialize_pairs<K: Serialize + Eq + Hash, V: Serialize, S: BuildHasher, F: Flavor>(
    entries: &HashMap<K, V, S>,
    serializer: &mut Serializer<F>,
) -> Result<()>
    ensures wrote { Wrote F.Flavor serializer.old.output
        (canonical_all (trees (map (pair K.shape V.shape).tree entries.now.entries)))
        (λ e. Any (λ x. (pair K.shape V.shape).refusal x e) entries.now.entries)
        (pair K.shape V.shape).text result serializer.new.output }
    ensures fits { OnOk result (AllFit (pair K.shape V.shape).fits entries.now.entries) }
{
    for entry in entries {
        entry.serialize(serializer)?;
    }
    Ok(())
}

impl<K: Serialize + Eq + Hash, V: Serialize, S: BuildHasher> Serialize for HashMap<K, V, S> {
    fn serialize<F: Flavor>(&self, serializer: &mut Serializer<F>) -> Result<()> {
        serializer.serialize_map(Some(self.len()))?;
        serialize_pairs(self, serializer)
    }
}
