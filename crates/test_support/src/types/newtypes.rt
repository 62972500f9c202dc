//! Structs whose fields have no names.

use postcard::ser_flavors::Flavor;
use postcard::{FromRepr, Repr, Result, Serialize, SerializeRepr, Serializer};

/// A struct of a number, which is written as the number alone.
#[derive(Clone, Debug, Drop, PartialEq)]
pub struct NewTypeStruct(pub u32);

impl Repr for NewTypeStruct {
    type As = u32;

    ghost repr = { λ v. v.0 };
}

impl FromRepr for NewTypeStruct {
    fn from_repr(number: Self::As) -> Self {
        NewTypeStruct(number)
    }
}

impl SerializeRepr for NewTypeStruct {
    fn serialize_repr<F: Flavor>(&self, serializer: &mut Serializer<F>) -> Result<()> {
        serializer.serialize_newtype_struct("NewTypeStruct", &self.0)
    }
}

/// A struct of a tuple, which is written as the tuple alone.
#[derive(Clone, Debug, Drop, PartialEq)]
pub struct TupleStruct(pub (u8, u16));

impl Repr for TupleStruct {
    type As = (u8, u16);

    ghost repr = { λ v. v.0 };
}

impl FromRepr for TupleStruct {
    fn from_repr(pair: Self::As) -> Self {
        TupleStruct(pair)
    }
}

impl SerializeRepr for TupleStruct {
    fn serialize_repr<F: Flavor>(&self, serializer: &mut Serializer<F>) -> Result<()> {
        serializer.serialize_newtype_struct("TupleStruct", &self.0)
    }
}

/// A struct of two fields without names.
#[derive(Clone, Debug, Drop, PartialEq)]
pub struct DualTupleStruct(pub u8, pub u16);

impl Repr for DualTupleStruct {
    type As = (u8, u16);

    ghost repr = { λ v. (v.0, v.1) };
}

impl FromRepr for DualTupleStruct {
    fn from_repr((first, second): Self::As) -> Self {
        DualTupleStruct(first, second)
    }
}

impl SerializeRepr for DualTupleStruct {
    fn serialize_repr<F: Flavor>(&self, serializer: &mut Serializer<F>) -> Result<()> {
        (self.0, self.1).serialize(serializer)
    }
}
