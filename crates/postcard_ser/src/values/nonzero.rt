//! Numbers that aren't 0: written as the number.

use crate::serialize::Serialize;
use crate::serializer::Serializer;
use postcard_ser_flavors::Flavor;
use postcard_wire::Result;
use std::num::{
    NonZeroI8, NonZeroI16, NonZeroI32, NonZeroI64, NonZeroI128, NonZeroIsize, NonZeroU8,
    NonZeroU16, NonZeroU32, NonZeroU64, NonZeroU128, NonZeroUsize,
};

impl Serialize for NonZeroU8 {
    fn serialize<F: Flavor>(&self, serializer: &mut Serializer<F>) -> Result<()> {
        serializer.serialize_u8(self.get())
    }
}

impl Serialize for NonZeroU16 {
    fn serialize<F: Flavor>(&self, serializer: &mut Serializer<F>) -> Result<()> {
        serializer.serialize_u16(self.get())
    }
}

impl Serialize for NonZeroU32 {
    fn serialize<F: Flavor>(&self, serializer: &mut Serializer<F>) -> Result<()> {
        serializer.serialize_u32(self.get())
    }
}

impl Serialize for NonZeroU64 {
    fn serialize<F: Flavor>(&self, serializer: &mut Serializer<F>) -> Result<()> {
        serializer.serialize_u64(self.get())
    }
}

impl Serialize for NonZeroU128 {
    fn serialize<F: Flavor>(&self, serializer: &mut Serializer<F>) -> Result<()> {
        serializer.serialize_u128(self.get())
    }
}

impl Serialize for NonZeroUsize {
    fn serialize<F: Flavor>(&self, serializer: &mut Serializer<F>) -> Result<()> {
        serializer.serialize_u64(self.get() as u64)
    }
}

impl Serialize for NonZeroI8 {
    fn serialize<F: Flavor>(&self, serializer: &mut Serializer<F>) -> Result<()> {
        serializer.serialize_i8(self.get())
    }
}

impl Serialize for NonZeroI16 {
    fn serialize<F: Flavor>(&self, serializer: &mut Serializer<F>) -> Result<()> {
        serializer.serialize_i16(self.get())
    }
}

impl Serialize for NonZeroI32 {
    fn serialize<F: Flavor>(&self, serializer: &mut Serializer<F>) -> Result<()> {
        serializer.serialize_i32(self.get())
    }
}

impl Serialize for NonZeroI64 {
    fn serialize<F: Flavor>(&self, serializer: &mut Serializer<F>) -> Result<()> {
        serializer.serialize_i64(self.get())
    }
}

impl Serialize for NonZeroI128 {
    fn serialize<F: Flavor>(&self, serializer: &mut Serializer<F>) -> Result<()> {
        serializer.serialize_i128(self.get())
    }
}

impl Serialize for NonZeroIsize {
    fn serialize<F: Flavor>(&self, serializer: &mut Serializer<F>) -> Result<()> {
        serializer.serialize_i64(self.get() as i64)
    }
}
