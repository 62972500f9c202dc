//! The pairs of a map, one by one.

ghost use Rattle.std.specs.Prelude.{◌≡◌, Some};
ghost use Rattle.postcard_de.specs.{Deserializes, DeserializesNext};

use crate::access::SeqAccess;
use crate::deserialize::Deserialize;
use crate::deserializer::Deserializer;
use postcard_de_flavors::Flavor;
use postcard_wire::Result;
use std::alloc::Global;
use std::marker::Model;

/// Reads the pairs of a map, and counts the keys that are left, as a contract sees it. A call fails
/// as reading the key or the value does.
#[derive(Drop)]
pub struct MapAccess {
    keys: SeqAccess,
}

impl Model for MapAccess {
    ghost use Rattle.std.specs.Prelude.{ℕ};

    ghost Value = { ℕ };

    ghost view = { λ access. access.keys };
}

impl MapAccess {
    pub(crate) fn new(len: usize) -> MapAccess
        ensures { result ≡ len }
    {
        MapAccess {
            keys: SeqAccess::new(len),
        }
    }

    /// Reads the next key, or returns `None` and reads nothing if no pair is left. The pair counts
    /// as read even if that fails.
    pub fn next_key<'de, K: Deserialize<'de>, F: Flavor>(
        &mut self,
        alloc: Global,
        d: &mut Deserializer<'de, F>,
    ) -> Result<Option<K>>
        ensures { DeserializesNext F.Flavor K.shape self.old d.old result self.new d.new }
    {
        self.keys.next_element(alloc, d)
    }

    /// Reads the value of the key that was read last, which must be by
    /// [`next_key`](MapAccess::next_key) just before; this is not checked.
    pub fn next_value<'de, V: Deserialize<'de>, F: Flavor>(
        &mut self,
        alloc: Global,
        d: &mut Deserializer<'de, F>,
    ) -> Result<V>
        ensures count { self.new ≡ self.old }
        ensures value { Deserializes F.Flavor V.shape d.old result d.new }
    {
        V::deserialize(alloc, d)
    }

    /// Returns the number of pairs left, never `None`. The bytes that the source has left are not
    /// considered.
    pub fn size_hint(&self) -> Option<usize>
        ensures { result ≡ Some self.now }
    {
        Some(self.keys.left())
    }
}
