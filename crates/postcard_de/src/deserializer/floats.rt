//! The calls for floating-point numbers. Every NaN is read as a NaN, whatever its bits.

ghost use Rattle.postcard_de.specs.{DeserializesNode, binary32, binary64, float_node};

use crate::deserializer::Deserializer;
use postcard_de_flavors::Flavor;
use postcard_de_nodes::floats;
use postcard_wire::Result;

impl<'de, F: Flavor> Deserializer<'de, F> {
    /// Reads an `f32`: the 4 bytes of its bits, the lowest first.
    pub fn deserialize_f32(&mut self) -> Result<f32>
        ensures { DeserializesNode F.Flavor (float_node binary32) self.old result self.new }
    {
        floats::float_32(&mut self.flavor)
    }

    /// Reads an `f64`: the 8 bytes of its bits, the lowest first.
    pub fn deserialize_f64(&mut self) -> Result<f64>
        ensures { DeserializesNode F.Flavor (float_node binary64) self.old result self.new }
    {
        floats::float_64(&mut self.flavor)
    }
}
