//! Arrays, written as the elements with no count before them. Vectors and strings of a fixed
//! capacity are written as lists and strings.

use crate::serialize::Serialize;
use crate::serializer::Serializer;
use crate::values::lists::serialize_all;
use arrayvec::{ArrayString, ArrayVec};
use postcard_ser_flavors::Flavor;
use postcard_wire::Result;

impl<T: Serialize, const N: usize> Serialize for [T; N] {
    fn serialize<F: Flavor>(&self, serializer: &mut Serializer<F>) -> Result<()> {
        serialize_all(self, serializer)
    }
}

impl<T: Serialize, const CAP: usize> Serialize for ArrayVec<T, CAP> {
    fn serialize<F: Flavor>(&self, serializer: &mut Serializer<F>) -> Result<()> {
        self.as_slice().serialize(serializer)
    }
}

impl<const CAP: usize> Serialize for ArrayString<CAP> {
    fn serialize<F: Flavor>(&self, serializer: &mut Serializer<F>) -> Result<()> {
        serializer.serialize_str(self.as_str())
    }
}
