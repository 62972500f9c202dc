//! Errors as values: read by their index.

ghost use Rattle.std.specs.Prelude.{◌≡◌, ◌<◌, ◌≤◌, IfSome, IfNone};
ghost use Rattle.postcard_de.specs.{error_index};

use crate::deserialize::Deserialize;
use crate::deserializer::Deserializer;
use crate::owned::DeserializeOwned;
use postcard_de_flavors::Flavor;
use postcard_wire::{Error, Result};
use std::alloc::Global;

/// Reads an enum without content: the index of the error, a varint of at most 5 bytes. The index 16
/// is [`Error::OutOfMemory`]. Fails as `deserialize_enum`, and with `SerdeDeCustom` if the index is
/// above 16.
impl<'de> Deserialize<'de> for Error {
    fn deserialize<F: Flavor>(_alloc: Global, d: &mut Deserializer<'de, F>) -> Result<Self> {
        let index = d.deserialize_enum("Error", &[])?;
        match error_of(index) {
            Some(error) => {
                d.unit_variant()?;
                Ok(error)
            }
            None => Err(Error::SerdeDeCustom),
        }
    }
}

impl DeserializeOwned for Error {
    fn deserialize_owned<'de, F: Flavor>(
        alloc: Global,
        d: &mut Deserializer<'de, F>,
    ) -> Result<Self> {
        Error::deserialize(alloc, d)
    }
}

/// Returns the error at an index of the list of [`Error`], counted from 0, or `None` if there is
/// none.
fn error_of(index: u32) -> Option<Error>
    ensures known { IfSome result (λ e. error_index e ≡ index) }
    ensures few { IfSome result (λ _. index < 17) }
    ensures unknown { IfNone result (17 ≤ index) }
{
    match index {
        0 => Some(Error::WontImplement),
        1 => Some(Error::NotYetImplemented),
        2 => Some(Error::SerializeBufferFull),
        3 => Some(Error::SerializeSeqLengthUnknown),
        4 => Some(Error::DeserializeUnexpectedEnd),
        5 => Some(Error::DeserializeBadVarint),
        6 => Some(Error::DeserializeBadBool),
        7 => Some(Error::DeserializeBadChar),
        8 => Some(Error::DeserializeBadUtf8),
        9 => Some(Error::DeserializeBadOption),
        10 => Some(Error::DeserializeBadEnum),
        11 => Some(Error::DeserializeBadEncoding),
        12 => Some(Error::DeserializeBadCrc),
        13 => Some(Error::SerdeSerCustom),
        14 => Some(Error::SerdeDeCustom),
        15 => Some(Error::CollectStrError),
        16 => Some(Error::OutOfMemory),
        _ => None,
    }
}
