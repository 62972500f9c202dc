//! Integers of 8 to 128 bits.

ghost use Rattle.postcard_de.specs.{DeserializesNode, byte_node, int_node, num_node};
ghost use Rattle.postcard_de.specs.{signed_byte_node};

use crate::deserialize::Deserialize;
use crate::deserializer::Deserializer;
use crate::owned::DeserializeOwned;
use postcard_de_flavors::Flavor;
use postcard_wire::Result;
use std::alloc::Global;

impl<'de> Deserialize<'de> for u8 {
    fn deserialize<F: Flavor>(_alloc: Global, d: &mut Deserializer<'de, F>) -> Result<Self>
        ensures { DeserializesNode F.Flavor byte_node d.old result d.new }
    {
        d.deserialize_u8()
    }
}

impl DeserializeOwned for u8 {
    fn deserialize_owned<'de, F: Flavor>(
        alloc: Global,
        d: &mut Deserializer<'de, F>,
    ) -> Result<Self>
        ensures { DeserializesNode F.Flavor byte_node d.old result d.new }
    {
        u8::deserialize(alloc, d)
    }
}

impl<'de> Deserialize<'de> for u16 {
    fn deserialize<F: Flavor>(_alloc: Global, d: &mut Deserializer<'de, F>) -> Result<Self>
        ensures { DeserializesNode F.Flavor (num_node 16) d.old result d.new }
    {
        d.deserialize_u16()
    }
}

impl DeserializeOwned for u16 {
    fn deserialize_owned<'de, F: Flavor>(
        alloc: Global,
        d: &mut Deserializer<'de, F>,
    ) -> Result<Self>
        ensures { DeserializesNode F.Flavor (num_node 16) d.old result d.new }
    {
        u16::deserialize(alloc, d)
    }
}

impl<'de> Deserialize<'de> for u32 {
    fn deserialize<F: Flavor>(_alloc: Global, d: &mut Deserializer<'de, F>) -> Result<Self>
        ensures { DeserializesNode F.Flavor (num_node 32) d.old result d.new }
    {
        d.deserialize_u32()
    }
}

impl DeserializeOwned for u32 {
    fn deserialize_owned<'de, F: Flavor>(
        alloc: Global,
        d: &mut Deserializer<'de, F>,
    ) -> Result<Self>
        ensures { DeserializesNode F.Flavor (num_node 32) d.old result d.new }
    {
        u32::deserialize(alloc, d)
    }
}

impl<'de> Deserialize<'de> for u64 {
    fn deserialize<F: Flavor>(_alloc: Global, d: &mut Deserializer<'de, F>) -> Result<Self>
        ensures { DeserializesNode F.Flavor (num_node 64) d.old result d.new }
    {
        d.deserialize_u64()
    }
}

impl DeserializeOwned for u64 {
    fn deserialize_owned<'de, F: Flavor>(
        alloc: Global,
        d: &mut Deserializer<'de, F>,
    ) -> Result<Self>
        ensures { DeserializesNode F.Flavor (num_node 64) d.old result d.new }
    {
        u64::deserialize(alloc, d)
    }
}

impl<'de> Deserialize<'de> for u128 {
    fn deserialize<F: Flavor>(_alloc: Global, d: &mut Deserializer<'de, F>) -> Result<Self>
        ensures { DeserializesNode F.Flavor (num_node 128) d.old result d.new }
    {
        d.deserialize_u128()
    }
}

impl DeserializeOwned for u128 {
    fn deserialize_owned<'de, F: Flavor>(
        alloc: Global,
        d: &mut Deserializer<'de, F>,
    ) -> Result<Self>
        ensures { DeserializesNode F.Flavor (num_node 128) d.old result d.new }
    {
        u128::deserialize(alloc, d)
    }
}

impl<'de> Deserialize<'de> for i8 {
    fn deserialize<F: Flavor>(_alloc: Global, d: &mut Deserializer<'de, F>) -> Result<Self>
        ensures { DeserializesNode F.Flavor signed_byte_node d.old result d.new }
    {
        d.deserialize_i8()
    }
}

impl DeserializeOwned for i8 {
    fn deserialize_owned<'de, F: Flavor>(
        alloc: Global,
        d: &mut Deserializer<'de, F>,
    ) -> Result<Self>
        ensures { DeserializesNode F.Flavor signed_byte_node d.old result d.new }
    {
        i8::deserialize(alloc, d)
    }
}

impl<'de> Deserialize<'de> for i16 {
    fn deserialize<F: Flavor>(_alloc: Global, d: &mut Deserializer<'de, F>) -> Result<Self>
        ensures { DeserializesNode F.Flavor (int_node 16) d.old result d.new }
    {
        d.deserialize_i16()
    }
}

impl DeserializeOwned for i16 {
    fn deserialize_owned<'de, F: Flavor>(
        alloc: Global,
        d: &mut Deserializer<'de, F>,
    ) -> Result<Self>
        ensures { DeserializesNode F.Flavor (int_node 16) d.old result d.new }
    {
        i16::deserialize(alloc, d)
    }
}

impl<'de> Deserialize<'de> for i32 {
    fn deserialize<F: Flavor>(_alloc: Global, d: &mut Deserializer<'de, F>) -> Result<Self>
        ensures { DeserializesNode F.Flavor (int_node 32) d.old result d.new }
    {
        d.deserialize_i32()
    }
}

impl DeserializeOwned for i32 {
    fn deserialize_owned<'de, F: Flavor>(
        alloc: Global,
        d: &mut Deserializer<'de, F>,
    ) -> Result<Self>
        ensures { DeserializesNode F.Flavor (int_node 32) d.old result d.new }
    {
        i32::deserialize(alloc, d)
    }
}

impl<'de> Deserialize<'de> for i64 {
    fn deserialize<F: Flavor>(_alloc: Global, d: &mut Deserializer<'de, F>) -> Result<Self>
        ensures { DeserializesNode F.Flavor (int_node 64) d.old result d.new }
    {
        d.deserialize_i64()
    }
}

impl DeserializeOwned for i64 {
    fn deserialize_owned<'de, F: Flavor>(
        alloc: Global,
        d: &mut Deserializer<'de, F>,
    ) -> Result<Self>
        ensures { DeserializesNode F.Flavor (int_node 64) d.old result d.new }
    {
        i64::deserialize(alloc, d)
    }
}

impl<'de> Deserialize<'de> for i128 {
    fn deserialize<F: Flavor>(_alloc: Global, d: &mut Deserializer<'de, F>) -> Result<Self>
        ensures { DeserializesNode F.Flavor (int_node 128) d.old result d.new }
    {
        d.deserialize_i128()
    }
}

impl DeserializeOwned for i128 {
    fn deserialize_owned<'de, F: Flavor>(
        alloc: Global,
        d: &mut Deserializer<'de, F>,
    ) -> Result<Self>
        ensures { DeserializesNode F.Flavor (int_node 128) d.old result d.new }
    {
        i128::deserialize(alloc, d)
    }
}
