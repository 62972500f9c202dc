//! Maps: the number of the entries, a varint, and then each key and its value, in the order of the
//! keys.

ghost use Rattle.std.specs.Prelude.{◌⊎◌, Any, map, OnOk};
ghost use Rattle.postcard_ser.specs.{AllFit, Wrote, canonical_all, entry_tree, trees};

use crate::serialize::Serialize;
use crate::serializer::Serializer;
use postcard_ser_flavors::Flavor;
use postcard_wire::Result;
use std::collections::BTreeMap;

fn serialize_entries<K: Serialize + Ord, V: Serialize, F: Flavor>(
    entries: &BTreeMap<K, V>,
    serializer: &mut Serializer<F>,
) -> Result<()>
    ensures wrote { Wrote F.Flavor serializer.old.output
        (canonical_all (trees (map (entry_tree K.shape.tree V.shape.tree) entries.now.entries)))
        (λ e. Any (λ x. K.shape.refusal x.0 e ⊎ V.shape.refusal x.1 e) entries.now.entries)
        (K.shape.text ⊎ V.shape.text) result serializer.new.output }
    ensures fits { OnOk result
        (AllFit (λ e. K.shape.fits e.0 × V.shape.fits e.1) entries.now.entries) }
{
    for entry in entries {
        entry.serialize(serializer)?;
    }
    Ok(())
}

impl<K: Serialize + Ord, V: Serialize> Serialize for BTreeMap<K, V> {
    fn serialize<F: Flavor>(&self, serializer: &mut Serializer<F>) -> Result<()> {
        serializer.serialize_map(Some(self.len()))?;
        serialize_entries(self, serializer)
    }
}
