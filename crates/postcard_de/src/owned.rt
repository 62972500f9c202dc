//! The trait of the types that are read and borrow nothing, and how to use one as a `Deserialize`.

ghost use Rattle.postcard_de.specs.{Deserializes};

use crate::deserialize::Deserialize;
use crate::deserializer::Deserializer;
use postcard_de_flavors::Flavor;
use postcard_shape::{Repr, Shaped};
use postcard_wire::Result;
use std::alloc::Global;

/// A type whose values can be read and borrow nothing from the source.
pub trait DeserializeOwned: Shaped + Sized + Drop {
    /// Reads a value as [`Deserialize::deserialize`] does, and fails as that does.
    fn deserialize_owned<'de, F: Flavor>(
        alloc: Global,
        d: &mut Deserializer<'de, F>,
    ) -> Result<Self>
        ensures { Deserializes F.Flavor Self.shape d.old result d.new };
}

/// A value that borrows nothing. Calls for a `Deserialize` read an `Owned<T>` by
/// [`DeserializeOwned::deserialize_owned`] of `T`.
#[derive(Drop)]
pub struct Owned<T: DeserializeOwned>(pub T);

impl<T: DeserializeOwned> Repr for Owned<T> {
    type As = T;

    ghost repr = { λ v. v.0 };
}

impl<'de, T: DeserializeOwned> Deserialize<'de> for Owned<T> {
    fn deserialize<F: Flavor>(alloc: Global, d: &mut Deserializer<'de, F>) -> Result<Self> {
        let value = T::deserialize_owned(alloc, d)?;
        Ok(Owned(value))
    }
}
