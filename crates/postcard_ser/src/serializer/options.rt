//! The calls for options and for structs of one value.

ghost use Rattle.std.specs.Prelude.{OnOk};
ghost use Rattle.postcard_ser.specs.{Absent, Present, Serializes, SerializesTree, Wrote, canonical};

use crate::serialize::Serialize;
use crate::serializer::Serializer;
use postcard_ser_flavors::Flavor;
use postcard_wire::Result;

impl<F: Flavor> Serializer<F> {
    /// Writes an option without a value: the byte 0.
    pub fn serialize_none(&mut self) -> Result<()>
        ensures { SerializesTree F.Flavor Absent self.old result self.new }
    {
        self.serialize_u8(0)
    }

    /// Writes an option with a value: the byte 1, and then the value.
    pub fn serialize_some<T: Serialize>(&mut self, value: &T) -> Result<()>
        ensures wrote { Wrote F.Flavor self.old.output
            (canonical (Present (T.shape.tree value.now)))
            (T.shape.refusal value.now) T.shape.text result self.new.output }
        ensures fits { OnOk result (T.shape.fits value.now) }
    {
        self.serialize_u8(1)?;
        value.serialize(self)
    }

    /// Writes a struct of one value as that value.
    pub fn serialize_newtype_struct<T: Serialize>(&mut self, _name: &str, value: &T) -> Result<()>
        ensures { Serializes F.Flavor T.shape value.now self.old result self.new }
    {
        self.serialize_element(value)
    }
}
