//! C strings, written as the number of the bytes before the NUL at the end, and then these bytes.

use crate::serialize::Serialize;
use crate::serializer::Serializer;
use postcard_ser_flavors::Flavor;
use postcard_wire::Result;
use std::ffi::{CStr, CString};

impl Serialize for CStr<'_> {
    fn serialize<F: Flavor>(&self, serializer: &mut Serializer<F>) -> Result<()> {
        let bytes: &[u8] = self.to_bytes();
        bytes.serialize(serializer)
    }
}

impl Serialize for CString {
    fn serialize<F: Flavor>(&self, serializer: &mut Serializer<F>) -> Result<()> {
        self.as_c_str().serialize(serializer)
    }
}
