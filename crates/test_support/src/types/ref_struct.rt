//! A struct with borrowed fields: when it is read, both borrow from the input.

use postcard::ser_flavors::Flavor;
use postcard::{FromRepr, Repr, Result, Serialize, SerializeRepr, Serializer};

/// Borrowed bytes and a borrowed string.
#[derive(Clone, Debug, Drop, PartialEq)]
pub struct RefStruct<'a> {
    /// Some bytes.
    pub bytes: &'a [u8],
    /// A string.
    pub str_s: &'a str,
}

impl<'a> Repr for RefStruct<'a> {
    type As = (&'a [u8], &'a str);

    ghost repr = { λ v. (v.bytes, v.str_s) };
}

impl FromRepr for RefStruct<'_> {
    fn from_repr((bytes, str_s): Self::As) -> Self {
        RefStruct { bytes, str_s }
    }
}

impl SerializeRepr for RefStruct<'_> {
    fn serialize_repr<F: Flavor>(&self, serializer: &mut Serializer<F>) -> Result<()> {
        (self.bytes, self.str_s).serialize(serializer)
    }
}
