//! The schemas of maps.

ghost use Rattle.postcard_described.specs.{end_same, group_same, no_parts, of_parts, of_seq};
ghost use Rattle.postcard_described.specs.{part_then, seq_same, then_same};

use crate::make::map_schema;
use crate::schema::HasSchema;
use postcard_schema::Schema;
use postcard_wire::Result;
use std::alloc::Global;
use std::collections::{BTreeMap, HashMap};
use std::hash::{BuildHasher, Hash};

impl<K: HasSchema + Ord, V: HasSchema> HasSchema for BTreeMap<K, V> {
    ghost described = { of_seq (of_parts (part_then K.described (part_then V.described no_parts))) };

    fn schema_with(alloc: Global, _names: &[&str]) -> Result<Schema> {
        map_schema(alloc, K::schema(alloc)?, V::schema(alloc)?)
    }

    ghost same = { seq_same (group_same (then_same K.same (then_same V.same end_same))) };
}

impl<K: HasSchema + Eq + Hash, V: HasSchema, S: BuildHasher> HasSchema for HashMap<K, V, S> {
    ghost described = { of_seq (of_parts (part_then K.described (part_then V.described no_parts))) };

    fn schema_with(alloc: Global, _names: &[&str]) -> Result<Schema> {
        let key = K::schema(alloc)?;
        map_schema(alloc, key, V::schema(alloc)?)
    }

    ghost same = { seq_same (group_same (then_same K.same (then_same V.same end_same))) };
}
