//! The calls for floating-point numbers: the bytes of their bits, the lowest first.

ghost use Rattle.postcard_ser.specs.{SerializesTree, binary32, binary64, float_tree};

use crate::serializer::Serializer;
use postcard_ser_flavors::Flavor;
use postcard_wire::Result;
use std::num::{f32_to_bits_with_nan, f64_to_bits_with_nan};

impl<F: Flavor> Serializer<F> {
    /// Writes an `f32` in 4 bytes. Every NaN is written as the same bytes, `00 00 C0 7F`.
    #[tactic(auto, using(postcard_shape::proofs::Floats::f32_encoded))]
    pub fn serialize_f32(&mut self, v: f32) -> Result<()>
        ensures { SerializesTree F.Flavor (float_tree binary32 v) self.old result self.new }
    {
        let bytes = f32_to_bits_with_nan(v).to_le_bytes();
        self.extend(&bytes)
    }

    /// Writes an `f64` in 8 bytes. Every NaN is written as the same bytes,
    /// `00 00 00 00 00 00 F8 7F`.
    #[tactic(auto, using(postcard_shape::proofs::Floats::f64_encoded))]
    pub fn serialize_f64(&mut self, v: f64) -> Result<()>
        ensures { SerializesTree F.Flavor (float_tree binary64 v) self.old result self.new }
    {
        let bytes = f64_to_bits_with_nan(v).to_le_bytes();
        self.extend(&bytes)
    }
}
