//! `bool`, written as one byte: 1 for `true` and 0 for `false`. Characters are written as strings,
//! and `usize` and `isize` as numbers of 64 bits.

use crate::serialize::Serialize;
use crate::serializer::Serializer;
use postcard_ser_flavors::Flavor;
use postcard_wire::Result;

impl Serialize for bool {
    fn serialize<F: Flavor>(&self, serializer: &mut Serializer<F>) -> Result<()> {
        serializer.serialize_bool(*self)
    }
}

impl Serialize for char {
    fn serialize<F: Flavor>(&self, serializer: &mut Serializer<F>) -> Result<()> {
        serializer.serialize_char(*self)
    }
}

impl Serialize for usize {
    fn serialize<F: Flavor>(&self, serializer: &mut Serializer<F>) -> Result<()> {
        serializer.serialize_u64(*self as u64)
    }
}

impl Serialize for isize {
    fn serialize<F: Flavor>(&self, serializer: &mut Serializer<F>) -> Result<()> {
        serializer.serialize_i64(*self as i64)
    }
}
