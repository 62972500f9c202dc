//! The schema of errors: an enum without content.

ghost use Rattle.postcard_described.specs.{alike, of_units};

use crate::cases::units_schema;
use crate::schema::HasSchema;
use postcard_schema::Schema;
use postcard_wire::{Error, Result};
use std::alloc::Global;

/// The names of the errors, in the order of their indices.
const NAMES: [&str; 17] = [
    "WontImplement",
    "NotYetImplemented",
    "SerializeBufferFull",
    "SerializeSeqLengthUnknown",
    "DeserializeUnexpectedEnd",
    "DeserializeBadVarint",
    "DeserializeBadBool",
    "DeserializeBadChar",
    "DeserializeBadUtf8",
    "DeserializeBadOption",
    "DeserializeBadEnum",
    "DeserializeBadEncoding",
    "DeserializeBadCrc",
    "SerdeSerCustom",
    "SerdeDeCustom",
    "CollectStrError",
    "OutOfMemory",
];

impl HasSchema for Error {
    ghost described = { of_units 17 };

    fn schema_with(alloc: Global, _names: &[&str]) -> Result<Schema> {
        units_schema(alloc, &NAMES)
    }

    ghost same = { alike };
}
