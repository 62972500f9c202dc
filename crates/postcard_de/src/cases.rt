//! The variants of an enum in a row: an index is read, and then the content of the variant of that
//! index.

ghost use Rattle.postcard_de.specs.{DeserializesCase};

use crate::deserialize::Deserialize;
use crate::deserializer::Deserializer;
use crate::owned::DeserializeOwned;
use postcard_de_flavors::Flavor;
use postcard_shape::{Case, Cased, NoCase};
use postcard_wire::{Error, Result};
use std::alloc::Global;

/// Variants in a row that can be read.
pub trait DeserializeCase<'de>: Cased + Sized + Drop {
    /// Reads the content of the variant of index `index`, counted from 0. Fails with
    /// `SerdeDeCustom` if there is no such variant, and as reading the content does.
    fn deserialize_case<F: Flavor>(
        index: u32,
        alloc: Global,
        d: &mut Deserializer<'de, F>,
    ) -> Result<Self>
        ensures { DeserializesCase F.Flavor Self.cases index d.old result d.new };
}

impl<'de> DeserializeCase<'de> for NoCase {
    fn deserialize_case<F: Flavor>(
        _index: u32,
        _alloc: Global,
        _d: &mut Deserializer<'de, F>,
    ) -> Result<Self> {
        Err(Error::SerdeDeCustom)
    }
}

impl<'de, A: Deserialize<'de>, R: DeserializeCase<'de>> DeserializeCase<'de> for Case<A, R> {
    fn deserialize_case<F: Flavor>(
        index: u32,
        alloc: Global,
        d: &mut Deserializer<'de, F>,
    ) -> Result<Self> {
        match index {
            0 => {
                let value = A::deserialize(alloc, d)?;
                Ok(Case::This(value))
            }
            _ => {
                let rest = R::deserialize_case(index - 1, alloc, d)?;
                Ok(Case::Next(rest))
            }
        }
    }
}

impl<'de, A: Deserialize<'de>, R: DeserializeCase<'de>> Deserialize<'de> for Case<A, R> {
    fn deserialize<F: Flavor>(alloc: Global, d: &mut Deserializer<'de, F>) -> Result<Self> {
        let index = d.deserialize_enum("", &[])?;
        let value = <Case<A, R> as DeserializeCase<'de>>::deserialize_case(index, alloc, d)?;
        Ok(value)
    }
}

/// Variants in a row that can be read and borrow nothing from the source.
pub trait DeserializeCaseOwned: Cased + Sized + Drop {
    /// Does the same as [`DeserializeCase::deserialize_case`].
    fn deserialize_case_owned<'de, F: Flavor>(
        index: u32,
        alloc: Global,
        d: &mut Deserializer<'de, F>,
    ) -> Result<Self>
        ensures { DeserializesCase F.Flavor Self.cases index d.old result d.new };
}

impl DeserializeCaseOwned for NoCase {
    fn deserialize_case_owned<'de, F: Flavor>(
        index: u32,
        alloc: Global,
        d: &mut Deserializer<'de, F>,
    ) -> Result<Self> {
        NoCase::deserialize_case(index, alloc, d)
    }
}

impl<A: DeserializeOwned, R: DeserializeCaseOwned> DeserializeCaseOwned for Case<A, R> {
    fn deserialize_case_owned<'de, F: Flavor>(
        index: u32,
        alloc: Global,
        d: &mut Deserializer<'de, F>,
    ) -> Result<Self> {
        match index {
            0 => {
                let value = A::deserialize_owned(alloc, d)?;
                Ok(Case::This(value))
            }
            _ => {
                let rest = R::deserialize_case_owned(index - 1, alloc, d)?;
                Ok(Case::Next(rest))
            }
        }
    }
}

impl<A: DeserializeOwned, R: DeserializeCaseOwned> DeserializeOwned for Case<A, R> {
    fn deserialize_owned<'de, F: Flavor>(
        alloc: Global,
        d: &mut Deserializer<'de, F>,
    ) -> Result<Self> {
        let index = d.deserialize_enum("", &[])?;
        let value = <Case<A, R> as DeserializeCaseOwned>::deserialize_case_owned(index, alloc, d)?;
        Ok(value)
    }
}
