//! Floating-point numbers, written as the 4 or 8 bytes of their bits, the lowest first. Every NaN
//! is written as the same bytes.

use crate::serialize::Serialize;
use crate::serializer::Serializer;
use postcard_ser_flavors::Flavor;
use postcard_shape::formats::{known_f32, known_f64};
use postcard_wire::Result;

impl Serialize for f32 {
    fn serialize<F: Flavor>(&self, serializer: &mut Serializer<F>) -> Result<()> {
        serializer.serialize_f32(known_f32(*self))
    }
}

impl Serialize for f64 {
    fn serialize<F: Flavor>(&self, serializer: &mut Serializer<F>) -> Result<()> {
        serializer.serialize_f64(known_f64(*self))
    }
}
