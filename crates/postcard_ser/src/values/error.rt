//! Errors as values: an enum without content, the index of the error, 0 to 16, as a varint of 1
//! byte.

ghost use Rattle.std.specs.Prelude.{◌≡◌, ◌<◌};
ghost use Rattle.postcard_ser.specs.{error_index};

use crate::cases::serialize_variant;
use crate::serialize::Serialize;
use crate::serializer::Serializer;
use postcard_ser_flavors::Flavor;
use postcard_wire::{Error, Result};

impl Serialize for Error {
    fn serialize<F: Flavor>(&self, serializer: &mut Serializer<F>) -> Result<()> {
        serialize_variant(index_of(self), &(), serializer)
    }
}

fn index_of(error: &Error) -> u32
    ensures index { result ≡ error_index error.now }
    ensures few { result < 17 }
{
    match error {
        Error::WontImplement => 0,
        Error::NotYetImplemented => 1,
        Error::SerializeBufferFull => 2,
        Error::SerializeSeqLengthUnknown => 3,
        Error::DeserializeUnexpectedEnd => 4,
        Error::DeserializeBadVarint => 5,
        Error::DeserializeBadBool => 6,
        Error::DeserializeBadChar => 7,
        Error::DeserializeBadUtf8 => 8,
        Error::DeserializeBadOption => 9,
        Error::DeserializeBadEnum => 10,
        Error::DeserializeBadEncoding => 11,
        Error::DeserializeBadCrc => 12,
        Error::SerdeSerCustom => 13,
        Error::SerdeDeCustom => 14,
        Error::CollectStrError => 15,
        Error::OutOfMemory => 16,
    }
}
