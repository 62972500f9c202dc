//! The calls for enums: the variant's index as a varint, followed by its content.

ghost use Rattle.std.specs.Prelude.{OnOk};
ghost use Rattle.postcard_ser.specs.{Num, SerializesTree, Variant, Wrote, canonical, unit_variant};

use crate::serialize::Serialize;
use crate::serializer::Serializer;
use postcard_ser_flavors::Flavor;
use postcard_wire::Result;

impl<F: Flavor> Serializer<F> {
    /// Writes the index of a variant without content.
    pub fn serialize_unit_variant(&mut self, name: &str, index: u32, variant: &str) -> Result<()>
        ensures { SerializesTree F.Flavor (unit_variant index) self.old result self.new }
    {
        self.serialize_tuple_variant(name, index, variant, 0)
    }

    /// Writes the index of a variant with one field, and then the value.
    pub fn serialize_newtype_variant<T: Serialize>(
        &mut self,
        name: &str,
        index: u32,
        variant: &str,
        value: &T,
    ) -> Result<()>
        ensures wrote { Wrote F.Flavor self.old.output
            (canonical (Variant index (T.shape.tree value.now)))
            (T.shape.refusal value.now) T.shape.text result self.new.output }
        ensures fits { OnOk result (T.shape.fits value.now) }
    {
        self.serialize_tuple_variant(name, index, variant, 1)?;
        value.serialize(self)
    }

    /// Begins a variant with `len` fields: writes its index. Each is then written by
    /// `serialize_field`.
    pub fn serialize_tuple_variant(
        &mut self,
        _name: &str,
        index: u32,
        _variant: &str,
        _len: usize,
    ) -> Result<()>
        ensures { SerializesTree F.Flavor (Num 32 index) self.old result self.new }
    {
        self.serialize_u32(index)
    }

    /// Begins a variant with `len` named fields: writes its index. Each is then written by
    /// `serialize_struct_field`.
    pub fn serialize_struct_variant(
        &mut self,
        name: &str,
        index: u32,
        variant: &str,
        len: usize,
    ) -> Result<()>
        ensures { SerializesTree F.Flavor (Num 32 index) self.old result self.new }
    {
        self.serialize_tuple_variant(name, index, variant, len)
    }
}
