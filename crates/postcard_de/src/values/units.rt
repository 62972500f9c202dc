//! Types with one value, for which nothing is read.

use crate::deserialize::Deserialize;
use crate::deserializer::Deserializer;
use crate::owned::DeserializeOwned;
use postcard_de_flavors::Flavor;
use postcard_wire::Result;
use std::alloc::Global;
use std::marker::PhantomData;

impl<'de> Deserialize<'de> for () {
    fn deserialize<F: Flavor>(_alloc: Global, d: &mut Deserializer<'de, F>) -> Result<Self> {
        d.deserialize_unit()
    }
}

impl DeserializeOwned for () {
    fn deserialize_owned<'de, F: Flavor>(
        alloc: Global,
        d: &mut Deserializer<'de, F>,
    ) -> Result<Self> {
        <()>::deserialize(alloc, d)
    }
}

impl<'de, T: Drop> Deserialize<'de> for PhantomData<T> {
    fn deserialize<F: Flavor>(_alloc: Global, d: &mut Deserializer<'de, F>) -> Result<Self> {
        d.deserialize_unit_struct("PhantomData")?;
        Ok(PhantomData)
    }
}

impl<T: Drop> DeserializeOwned for PhantomData<T> {
    fn deserialize_owned<'de, F: Flavor>(
        alloc: Global,
        d: &mut Deserializer<'de, F>,
    ) -> Result<Self> {
        PhantomData::deserialize(alloc, d)
    }
}
