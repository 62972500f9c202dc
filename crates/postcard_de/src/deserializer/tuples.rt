//! The calls for tuples and structs.

ghost use Rattle.std.specs.Prelude.{length};
ghost use Rattle.postcard_de.specs.{BeginsParts};

use crate::access::SeqAccess;
use crate::deserializer::Deserializer;
use postcard_de_flavors::Flavor;
use postcard_wire::Result;

impl<'de, F: Flavor> Deserializer<'de, F> {
    /// Begins a tuple of `len` parts.
    pub fn deserialize_tuple(&mut self, len: usize) -> Result<SeqAccess>
        ensures { BeginsParts len self.old result self.new }
    {
        Ok(SeqAccess::new(len))
    }

    /// Begins a tuple struct of `len` parts.
    pub fn deserialize_tuple_struct(&mut self, _name: &str, len: usize) -> Result<SeqAccess>
        ensures { BeginsParts len self.old result self.new }
    {
        self.deserialize_tuple(len)
    }

    /// Begins a struct with these fields, of which only the number is used.
    pub fn deserialize_struct(&mut self, _name: &str, fields: &[&str]) -> Result<SeqAccess>
        ensures { BeginsParts (length fields.now) self.old result self.new }
    {
        Ok(SeqAccess::new(fields.len()))
    }
}
