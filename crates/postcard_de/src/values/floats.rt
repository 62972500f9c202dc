//! Floating-point numbers.

ghost use Rattle.postcard_de.specs.{DeserializesNode, binary32, binary64, float_node};

use crate::deserialize::Deserialize;
use crate::deserializer::Deserializer;
use crate::owned::DeserializeOwned;
use postcard_de_flavors::Flavor;
use postcard_wire::Result;
use std::alloc::Global;

impl<'de> Deserialize<'de> for f32 {
    fn deserialize<F: Flavor>(_alloc: Global, d: &mut Deserializer<'de, F>) -> Result<Self>
        ensures { DeserializesNode F.Flavor (float_node binary32) d.old result d.new }
    {
        d.deserialize_f32()
    }
}

impl DeserializeOwned for f32 {
    fn deserialize_owned<'de, F: Flavor>(
        alloc: Global,
        d: &mut Deserializer<'de, F>,
    ) -> Result<Self>
        ensures { DeserializesNode F.Flavor (float_node binary32) d.old result d.new }
    {
        f32::deserialize(alloc, d)
    }
}

impl<'de> Deserialize<'de> for f64 {
    fn deserialize<F: Flavor>(_alloc: Global, d: &mut Deserializer<'de, F>) -> Result<Self>
        ensures { DeserializesNode F.Flavor (float_node binary64) d.old result d.new }
    {
        d.deserialize_f64()
    }
}

impl DeserializeOwned for f64 {
    fn deserialize_owned<'de, F: Flavor>(
        alloc: Global,
        d: &mut Deserializer<'de, F>,
    ) -> Result<Self>
        ensures { DeserializesNode F.Flavor (float_node binary64) d.old result d.new }
    {
        f64::deserialize(alloc, d)
    }
}
