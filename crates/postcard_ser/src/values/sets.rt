//! Sets: the number of the keys, a varint, and then the keys in their order.

ghost use Rattle.std.specs.Prelude.{Any, map, OnOk};
ghost use Rattle.postcard_ser.specs.{AllFit, Wrote, canonical_all, trees};

use crate::serialize::Serialize;
use crate::serializer::Serializer;
use postcard_ser_flavors::Flavor;
use postcard_wire::Result;
use std::collections::BTreeSet;

fn serialize_keys<K: Serialize + Ord, F: Flavor>(
    keys: &BTreeSet<K>,
    serializer: &mut Serializer<F>,
) -> Result<()>
    ensures wrote { Wrote F.Flavor serializer.old.output
        (canonical_all (trees (map K.shape.tree keys.now.keys)))
        (λ e. Any (λ k. K.shape.refusal k e) keys.now.keys) K.shape.text result
        serializer.new.output }
    ensures fits { OnOk result (AllFit K.shape.fits keys.now.keys) }
{
    for key in keys {
        key.serialize(serializer)?;
    }
    Ok(())
}

impl<K: Serialize + Ord> Serialize for BTreeSet<K> {
    fn serialize<F: Flavor>(&self, serializer: &mut Serializer<F>) -> Result<()> {
        serializer.serialize_seq(Some(self.len()))?;
        serialize_keys(self, serializer)
    }
}
