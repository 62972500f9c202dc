//! Booleans, characters, and `usize` and `isize` as numbers of 64 bits.

ghost use Rattle.postcard_de.specs.{DeserializesNode, boolean_node, char_node, int_node, num_node};

use crate::deserialize::Deserialize;
use crate::deserializer::Deserializer;
use crate::owned::DeserializeOwned;
use postcard_de_flavors::Flavor;
use postcard_wire::Result;
use std::alloc::Global;

impl<'de> Deserialize<'de> for bool {
    fn deserialize<F: Flavor>(_alloc: Global, d: &mut Deserializer<'de, F>) -> Result<Self>
        ensures { DeserializesNode F.Flavor boolean_node d.old result d.new }
    {
        d.deserialize_bool()
    }
}

impl DeserializeOwned for bool {
    fn deserialize_owned<'de, F: Flavor>(
        alloc: Global,
        d: &mut Deserializer<'de, F>,
    ) -> Result<Self>
        ensures { DeserializesNode F.Flavor boolean_node d.old result d.new }
    {
        bool::deserialize(alloc, d)
    }
}

impl<'de> Deserialize<'de> for char {
    fn deserialize<F: Flavor>(_alloc: Global, d: &mut Deserializer<'de, F>) -> Result<Self>
        ensures { DeserializesNode F.Flavor char_node d.old result d.new }
    {
        d.deserialize_char()
    }
}

impl DeserializeOwned for char {
    fn deserialize_owned<'de, F: Flavor>(
        alloc: Global,
        d: &mut Deserializer<'de, F>,
    ) -> Result<Self>
        ensures { DeserializesNode F.Flavor char_node d.old result d.new }
    {
        char::deserialize(alloc, d)
    }
}

impl<'de> Deserialize<'de> for usize {
    fn deserialize<F: Flavor>(_alloc: Global, d: &mut Deserializer<'de, F>) -> Result<Self>
        ensures { DeserializesNode F.Flavor (num_node 64) d.old result d.new }
    {
        let n = d.deserialize_u64()?;
        Ok(n as usize)
    }
}

impl DeserializeOwned for usize {
    fn deserialize_owned<'de, F: Flavor>(
        alloc: Global,
        d: &mut Deserializer<'de, F>,
    ) -> Result<Self>
        ensures { DeserializesNode F.Flavor (num_node 64) d.old result d.new }
    {
        usize::deserialize(alloc, d)
    }
}

impl<'de> Deserialize<'de> for isize {
    fn deserialize<F: Flavor>(_alloc: Global, d: &mut Deserializer<'de, F>) -> Result<Self>
        ensures { DeserializesNode F.Flavor (int_node 64) d.old result d.new }
    {
        let n = d.deserialize_i64()?;
        Ok(n as isize)
    }
}

impl DeserializeOwned for isize {
    fn deserialize_owned<'de, F: Flavor>(
        alloc: Global,
        d: &mut Deserializer<'de, F>,
    ) -> Result<Self>
        ensures { DeserializesNode F.Flavor (int_node 64) d.old result d.new }
    {
        isize::deserialize(alloc, d)
    }
}
