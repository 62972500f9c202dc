//! Parts in a row, read from left to right: one proof for tuples of any length.

ghost use Rattle.postcard_de.specs.{DeserializesParts};

use crate::deserialize::Deserialize;
use crate::deserializer::Deserializer;
use crate::owned::DeserializeOwned;
use postcard_de_flavors::Flavor;
use postcard_shape::{Part, Parts};
use postcard_wire::Result;
use std::alloc::Global;

/// Parts in a row that can be read.
pub trait DeserializeParts<'de>: Parts + Sized + Drop {
    /// Reads the parts from left to right. Fails with the error of the first that can't be read.
    fn deserialize_parts<F: Flavor>(alloc: Global, d: &mut Deserializer<'de, F>) -> Result<Self>
        ensures { DeserializesParts F.Flavor Self.parts d.old result d.new };
}

impl<'de> DeserializeParts<'de> for () {
    fn deserialize_parts<F: Flavor>(_alloc: Global, _d: &mut Deserializer<'de, F>) -> Result<Self> {
        Ok(())
    }
}

impl<'de, A: Deserialize<'de>, R: DeserializeParts<'de>> DeserializeParts<'de> for Part<A, R> {
    fn deserialize_parts<F: Flavor>(alloc: Global, d: &mut Deserializer<'de, F>) -> Result<Self> {
        let first = A::deserialize(alloc, d)?;
        let rest = R::deserialize_parts(alloc, d)?;
        Ok(Part(first, rest))
    }
}

impl<'de, A: Deserialize<'de>, R: DeserializeParts<'de>> Deserialize<'de> for Part<A, R> {
    fn deserialize<F: Flavor>(alloc: Global, d: &mut Deserializer<'de, F>) -> Result<Self> {
        let parts = <Part<A, R> as DeserializeParts<'de>>::deserialize_parts(alloc, d)?;
        Ok(parts)
    }
}

/// Parts in a row that can be read and borrow nothing from the source.
pub trait DeserializePartsOwned: Parts + Sized + Drop {
    /// Does the same as [`DeserializeParts::deserialize_parts`].
    fn deserialize_parts_owned<'de, F: Flavor>(
        alloc: Global,
        d: &mut Deserializer<'de, F>,
    ) -> Result<Self>
        ensures { DeserializesParts F.Flavor Self.parts d.old result d.new };
}

impl DeserializePartsOwned for () {
    fn deserialize_parts_owned<'de, F: Flavor>(
        _alloc: Global,
        _d: &mut Deserializer<'de, F>,
    ) -> Result<Self> {
        Ok(())
    }
}

impl<A: DeserializeOwned, R: DeserializePartsOwned> DeserializePartsOwned for Part<A, R> {
    fn deserialize_parts_owned<'de, F: Flavor>(
        alloc: Global,
        d: &mut Deserializer<'de, F>,
    ) -> Result<Self> {
        let first = A::deserialize_owned(alloc, d)?;
        let rest = R::deserialize_parts_owned(alloc, d)?;
        Ok(Part(first, rest))
    }
}

impl<A: DeserializeOwned, R: DeserializePartsOwned> DeserializeOwned for Part<A, R> {
    fn deserialize_owned<'de, F: Flavor>(
        alloc: Global,
        d: &mut Deserializer<'de, F>,
    ) -> Result<Self> {
        let parts = <Part<A, R> as DeserializePartsOwned>::deserialize_parts_owned(alloc, d)?;
        Ok(parts)
    }
}
