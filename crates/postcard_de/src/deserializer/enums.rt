//! The calls for enums: the index of a variant, and the content of each kind of variant.

ghost use Rattle.std.specs.Prelude.{◌≡◌, length, Ok};
ghost use Rattle.postcard_de.specs.{BeginsParts, Deserializes, DeserializesNode, number_node};

use crate::access::SeqAccess;
use crate::deserialize::Deserialize;
use crate::deserializer::Deserializer;
use postcard_de_flavors::Flavor;
use postcard_de_nodes::numbers;
use postcard_wire::Result;
use std::alloc::Global;

impl<'de, F: Flavor> Deserializer<'de, F> {
    /// Reads the index of an enum's variant: a varint of at most 5 bytes. The caller has to refuse
    /// an index that no variant has, and reads the content by the call for its kind.
    pub fn deserialize_enum(&mut self, _name: &str, _variants: &[&str]) -> Result<u32>
        ensures { DeserializesNode F.Flavor (number_node 32) self.old result self.new }
    {
        let n = numbers::number(&mut self.flavor, 32)?;
        Ok(n as u32)
    }

    /// Reads the content of a variant without content: nothing. Never fails.
    pub fn unit_variant(&mut self) -> Result<()>
        ensures succeeds { result ≡ Ok tt }
        ensures unchanged { self.new ≡ self.old }
    {
        Ok(())
    }

    /// Reads the content of a variant that has one part.
    #[inline(always)]
    pub fn newtype_variant<T: Deserialize<'de>>(&mut self, alloc: Global) -> Result<T>
        ensures { Deserializes F.Flavor T.shape self.old result self.new }
    {
        T::deserialize(alloc, self)
    }

    /// Begins the content of a variant of `len` parts.
    pub fn tuple_variant(&mut self, len: usize) -> Result<SeqAccess>
        ensures { BeginsParts len self.old result self.new }
    {
        Ok(SeqAccess::new(len))
    }

    /// Begins the content of a variant with these fields, of which only the number is used.
    pub fn struct_variant(&mut self, fields: &[&str]) -> Result<SeqAccess>
        ensures { BeginsParts (length fields.now) self.old result self.new }
    {
        Ok(SeqAccess::new(fields.len()))
    }
}
