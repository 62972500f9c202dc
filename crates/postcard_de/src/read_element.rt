//! What the loops of `deserializer::containers` take: elements that are read by `Deserialize`, or by
//! `DeserializeOwned`.

ghost use Rattle.postcard_de.specs.{Deserializes};

use crate::deserialize::Deserialize;
use crate::deserializer::Deserializer;
use crate::owned::DeserializeOwned;
use postcard_de_flavors::Flavor;
use postcard_shape::Shaped;
use postcard_wire::Result;
use std::alloc::Global;

/// How a container reads its elements, each a `T`.
pub(crate) trait ReadElement<'de, T: Shaped + Drop> {
    /// Reads a value from the front of what is left. Fails as [`Deserialize::deserialize`] does.
    fn read_element<F: Flavor>(alloc: Global, d: &mut Deserializer<'de, F>) -> Result<T>
        ensures { Deserializes F.Flavor T.shape d.old result d.new };
}

/// For a container that is read by [`Deserialize`]: its elements may borrow from the message.
pub(crate) struct ByDeserialize;

impl<'de, T: Deserialize<'de>> ReadElement<'de, T> for ByDeserialize {
    fn read_element<F: Flavor>(alloc: Global, d: &mut Deserializer<'de, F>) -> Result<T> {
        T::deserialize(alloc, d)
    }
}

/// For a container that is read by [`DeserializeOwned`]: its elements borrow nothing.
pub(crate) struct ByDeserializeOwned;

impl<'de, T: DeserializeOwned> ReadElement<'de, T> for ByDeserializeOwned {
    fn read_element<F: Flavor>(alloc: Global, d: &mut Deserializer<'de, F>) -> Result<T> {
        T::deserialize_owned(alloc, d)
    }
}
