//! Options, and results, which are read as an enum of two variants.

ghost use Rattle.postcard_de.specs.{DeserializesOption, DeserializesResult};

use crate::deserialize::Deserialize;
use crate::deserializer::Deserializer;
use crate::owned::{DeserializeOwned, Owned};
use postcard_de_flavors::Flavor;
use postcard_wire::Error;
use std::alloc::Global;

/// Reads the byte 0 as `None`, and the byte 1 and then a value as `Some`. Fails with
/// `DeserializeBadOption` at any other byte, and as reading the value does.
impl<'de, T: Deserialize<'de>> Deserialize<'de> for Option<T> {
    #[inline(always)]
    fn deserialize<F: Flavor>(
        alloc: Global,
        d: &mut Deserializer<'de, F>,
    ) -> postcard_wire::Result<Self>
        ensures { DeserializesOption F.Flavor T.shape d.old result d.new }
    {
        d.deserialize_option(alloc)
    }
}

impl<T: DeserializeOwned> DeserializeOwned for Option<T> {
    fn deserialize_owned<'de, F: Flavor>(
        alloc: Global,
        d: &mut Deserializer<'de, F>,
    ) -> postcard_wire::Result<Self>
        ensures { DeserializesOption F.Flavor T.shape d.old result d.new }
    {
        let value = d.deserialize_option::<Owned<T>>(alloc)?;
        match value {
            Some(Owned(content)) => Ok(Some(content)),
            None => Ok(None),
        }
    }
}

/// Reads an enum: `Ok` at index 0, and `Err` at 1. Fails with `SerdeDeCustom` at any other index, and
/// as reading the index or the content does.
impl<'de, T: Deserialize<'de>, E: Deserialize<'de>> Deserialize<'de> for Result<T, E> {
    // A content of two words passes through memory if it is returned by a call.
    #[inline(always)]
    fn deserialize<F: Flavor>(
        alloc: Global,
        d: &mut Deserializer<'de, F>,
    ) -> postcard_wire::Result<Self>
        ensures { DeserializesResult F.Flavor T.shape E.shape d.old result d.new }
    {
        let index = d.deserialize_enum("Result", &["Ok", "Err"])?;
        match index {
            0 => {
                let value = d.newtype_variant(alloc)?;
                Ok(Ok(value))
            }
            1 => {
                let value = d.newtype_variant(alloc)?;
                Ok(Err(value))
            }
            _ => Err(Error::SerdeDeCustom),
        }
    }
}

impl<T: DeserializeOwned, E: DeserializeOwned> DeserializeOwned for Result<T, E> {
    fn deserialize_owned<'de, F: Flavor>(
        alloc: Global,
        d: &mut Deserializer<'de, F>,
    ) -> postcard_wire::Result<Self>
        ensures { DeserializesResult F.Flavor T.shape E.shape d.old result d.new }
    {
        let value = <Result<Owned<T>, Owned<E>>>::deserialize(alloc, d)?;
        match value {
            Ok(Owned(good)) => Ok(Ok(good)),
            Err(Owned(bad)) => Ok(Err(bad)),
        }
    }
}
