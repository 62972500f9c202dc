//! Types that are read as another type: a struct as the tuple of its fields, an enum as its
//! variants in a row.

ghost use Rattle.std.specs.Prelude.{◌≡◌};

use crate::deserialize::Deserialize;
use crate::deserializer::Deserializer;
use crate::owned::DeserializeOwned;
use postcard_de_flavors::Flavor;
use postcard_shape::Repr;
use postcard_wire::Result;
use std::alloc::Global;

/// A type that is read as another, `Repr::As`, and made from its value. It gets `Deserialize` and
/// `DeserializeOwned` from `As`.
pub trait FromRepr: Repr<As: Drop> + Sized + Drop {
    /// Makes a value from `repr`, which was read.
    fn from_repr(repr: Self::As) -> Self
        ensures { Self.repr result ≡ repr };
}

impl<'de, T: FromRepr> Deserialize<'de> for T
where
    T::As: Deserialize<'de>,
{
    #[inline(always)]
    fn deserialize<F: Flavor>(alloc: Global, d: &mut Deserializer<'de, F>) -> Result<Self> {
        let repr = <T::As as Deserialize<'de>>::deserialize(alloc, d)?;
        Ok(T::from_repr(repr))
    }
}

impl<T: FromRepr> DeserializeOwned for T
where
    T::As: DeserializeOwned,
{
    fn deserialize_owned<'de, F: Flavor>(
        alloc: Global,
        d: &mut Deserializer<'de, F>,
    ) -> Result<Self> {
        let repr = <T::As as DeserializeOwned>::deserialize_owned(alloc, d)?;
        Ok(T::from_repr(repr))
    }
}
