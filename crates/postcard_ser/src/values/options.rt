//! Options, written as the byte 0, or as the byte 1 and the value. Results are an enum: `Ok` has
//! index 0, and `Err` index 1.

use crate::serialize::Serialize;
use crate::serializer::Serializer;
use postcard_ser_flavors::Flavor;
use postcard_wire::Result as WireResult;

impl<T: Serialize> Serialize for Option<T> {
    fn serialize<F: Flavor>(&self, serializer: &mut Serializer<F>) -> WireResult<()> {
        match self {
            None => serializer.serialize_none(),
            Some(value) => serializer.serialize_some(value),
        }
    }
}

impl<T: Serialize, E: Serialize> Serialize for Result<T, E> {
    fn serialize<F: Flavor>(&self, serializer: &mut Serializer<F>) -> WireResult<()> {
        match self {
            Ok(value) => serializer.serialize_newtype_variant("Result", 0, "Ok", value),
            Err(error) => serializer.serialize_newtype_variant("Result", 1, "Err", error),
        }
    }
}
