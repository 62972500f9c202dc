//! The calls for values that have no parts, other than numbers and strings.

ghost use Rattle.std.specs.Prelude.{◌≡◌, IsOk};
ghost use Rattle.postcard_ser.specs.{Boolean, Char, Group, NoTrees, SerializesTree};

use crate::serializer::Serializer;
use postcard_ser_flavors::Flavor;
use postcard_wire::Result;

impl<F: Flavor> Serializer<F> {
    /// Writes a `bool` as one byte: 1 for `true`, and 0 for `false`.
    pub fn serialize_bool(&mut self, v: bool) -> Result<()>
        ensures { SerializesTree F.Flavor (Boolean v) self.old result self.new }
    {
        self.serialize_u8(if v { 1 } else { 0 })
    }

    /// Writes a character as a string: the number of its bytes of UTF-8, 1 to 4, and then these
    /// bytes.
    pub fn serialize_char(&mut self, v: char) -> Result<()>
        ensures { SerializesTree F.Flavor (Char v) self.old result self.new }
    {
        let mut buffer = [0; 4];
        self.serialize_str(v.encode_utf8(&mut buffer))
    }

    /// Writes the unit value, which has no bytes.
    pub fn serialize_unit(&mut self) -> Result<()>
        ensures wrote { SerializesTree F.Flavor (Group NoTrees) self.old result self.new }
        ensures succeeds { IsOk result }
        ensures unchanged { self.new ≡ self.old }
    {
        Ok(())
    }

    /// Writes a struct without fields, which has no bytes.
    pub fn serialize_unit_struct(&mut self, _name: &str) -> Result<()>
        ensures wrote { SerializesTree F.Flavor (Group NoTrees) self.old result self.new }
        ensures succeeds { IsOk result }
        ensures unchanged { self.new ≡ self.old }
    {
        self.serialize_unit()
    }
}
