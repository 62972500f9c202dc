//! Types with one value, for which nothing is written.

use crate::serialize::Serialize;
use crate::serializer::Serializer;
use postcard_ser_flavors::Flavor;
use postcard_wire::Result;
use std::marker::PhantomData;

impl Serialize for () {
    fn serialize<F: Flavor>(&self, serializer: &mut Serializer<F>) -> Result<()> {
        serializer.serialize_unit()
    }
}

impl<T> Serialize for PhantomData<T> {
    fn serialize<F: Flavor>(&self, serializer: &mut Serializer<F>) -> Result<()> {
        serializer.serialize_unit_struct("PhantomData")
    }
}
