//! A struct with a type parameter.

use postcard::ser_flavors::Flavor;
use postcard::{FromRepr, Repr, Result, Serialize, SerializeRepr, Serializer, Shaped};

/// Two values of one type.
#[derive(Debug, Drop, PartialEq)]
pub struct Pair<T> {
    /// The value that is written first.
    pub left: T,
    /// The value that is written second.
    pub right: T,
}

impl<T: Shaped> Repr for Pair<T> {
    type As = (T, T);

    ghost repr = { λ v. (v.left, v.right) };
}

impl<T: Shaped + Drop> FromRepr for Pair<T> {
    fn from_repr((left, right): Self::As) -> Self {
        Pair { left, right }
    }
}

impl<T: Serialize> SerializeRepr for Pair<T> {
    fn serialize_repr<F: Flavor>(&self, serializer: &mut Serializer<F>) -> Result<()> {
        (&self.left, &self.right).serialize(serializer)
    }
}
