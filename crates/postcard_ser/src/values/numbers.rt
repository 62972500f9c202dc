//! Integers of 8 to 128 bits, written as the [`Serializer`] says.

use crate::serialize::Serialize;
use crate::serializer::Serializer;
use postcard_ser_flavors::Flavor;
use postcard_wire::Result;

impl Serialize for u8 {
    fn serialize<F: Flavor>(&self, serializer: &mut Serializer<F>) -> Result<()> {
        serializer.serialize_u8(*self)
    }
}

impl Serialize for u16 {
    fn serialize<F: Flavor>(&self, serializer: &mut Serializer<F>) -> Result<()> {
        serializer.serialize_u16(*self)
    }
}

impl Serialize for u32 {
    fn serialize<F: Flavor>(&self, serializer: &mut Serializer<F>) -> Result<()> {
        serializer.serialize_u32(*self)
    }
}

impl Serialize for u64 {
    fn serialize<F: Flavor>(&self, serializer: &mut Serializer<F>) -> Result<()> {
        serializer.serialize_u64(*self)
    }
}

impl Serialize for u128 {
    fn serialize<F: Flavor>(&self, serializer: &mut Serializer<F>) -> Result<()> {
        serializer.serialize_u128(*self)
    }
}

impl Serialize for i8 {
    fn serialize<F: Flavor>(&self, serializer: &mut Serializer<F>) -> Result<()> {
        serializer.serialize_i8(*self)
    }
}

impl Serialize for i16 {
    fn serialize<F: Flavor>(&self, serializer: &mut Serializer<F>) -> Result<()> {
        serializer.serialize_i16(*self)
    }
}

impl Serialize for i32 {
    fn serialize<F: Flavor>(&self, serializer: &mut Serializer<F>) -> Result<()> {
        serializer.serialize_i32(*self)
    }
}

impl Serialize for i64 {
    fn serialize<F: Flavor>(&self, serializer: &mut Serializer<F>) -> Result<()> {
        serializer.serialize_i64(*self)
    }
}

impl Serialize for i128 {
    fn serialize<F: Flavor>(&self, serializer: &mut Serializer<F>) -> Result<()> {
        serializer.serialize_i128(*self)
    }
}
