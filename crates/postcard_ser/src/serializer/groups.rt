//! The calls for tuples, structs and maps, and for their parts. Nothing is written before the parts
//! of a tuple or a struct.

ghost use Rattle.std.specs.Prelude.{◌≡◌, [], IsOk, IsErrOf, IfSome};
ghost use Rattle.postcard_ser.specs.{IfNone, Num, Serializes, SerializesBytes, SerializesTree};

use crate::serialize::Serialize;
use crate::serializer::Serializer;
use postcard_ser_flavors::Flavor;
use postcard_wire::{Error, Result};

impl<F: Flavor> Serializer<F> {
    /// Begins a tuple or an array of `len` elements, each then written by `serialize_element`.
    pub fn serialize_tuple(&mut self, _len: usize) -> Result<()>
        ensures wrote { SerializesBytes F.Flavor [] self.old result self.new }
        ensures succeeds { IsOk result }
        ensures unchanged { self.new ≡ self.old }
    {
        Ok(())
    }

    /// Begins a struct of `len` fields without names, each then written by `serialize_field`.
    pub fn serialize_tuple_struct(&mut self, _name: &str, len: usize) -> Result<()>
        ensures wrote { SerializesBytes F.Flavor [] self.old result self.new }
        ensures succeeds { IsOk result }
        ensures unchanged { self.new ≡ self.old }
    {
        self.serialize_tuple(len)
    }

    /// Begins a struct of `len` named fields, each then written by `serialize_struct_field`.
    pub fn serialize_struct(&mut self, name: &str, len: usize) -> Result<()>
        ensures wrote { SerializesBytes F.Flavor [] self.old result self.new }
        ensures succeeds { IsOk result }
        ensures unchanged { self.new ≡ self.old }
    {
        self.serialize_tuple_struct(name, len)
    }

    /// Begins a map: writes the number of its entries. Each is then written by `serialize_key` and
    /// `serialize_value`.
    pub fn serialize_map(&mut self, len: Option<usize>) -> Result<()>
        ensures known { IfSome len
            (λ n. SerializesTree F.Flavor (Num 64 n) self.old result self.new) }
        ensures unknown { IfNone len (IsErrOf result Error.SerializeSeqLengthUnknown ×
            (self.new ≡ self.old)) }
    {
        self.serialize_seq(len)
    }

    /// Writes the key of a map's entry.
    pub fn serialize_key<T: Serialize>(&mut self, key: &T) -> Result<()>
        ensures { Serializes F.Flavor T.shape key.now self.old result self.new }
    {
        key.serialize(self)
    }

    /// Writes the value of a map's entry, after its key.
    pub fn serialize_value<T: Serialize>(&mut self, value: &T) -> Result<()>
        ensures { Serializes F.Flavor T.shape value.now self.old result self.new }
    {
        value.serialize(self)
    }

    /// Writes a field without a name, of a struct or a variant.
    pub fn serialize_field<T: Serialize>(&mut self, value: &T) -> Result<()>
        ensures { Serializes F.Flavor T.shape value.now self.old result self.new }
    {
        self.serialize_element(value)
    }

    /// Writes a named field, of a struct or a variant.
    pub fn serialize_struct_field<T: Serialize>(&mut self, _key: &str, value: &T) -> Result<()>
        ensures { Serializes F.Flavor T.shape value.now self.old result self.new }
    {
        self.serialize_field(value)
    }
}
