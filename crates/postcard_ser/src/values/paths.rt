//! Paths, written as strings.

use crate::serialize::Serialize;
use crate::serializer::Serializer;
use postcard_ser_flavors::Flavor;
use postcard_wire::Result;
use std::path::{AsPath, Path, PathBuf};

impl Serialize for Path<'_> {
    fn serialize<F: Flavor>(&self, serializer: &mut Serializer<F>) -> Result<()> {
        serializer.serialize_str(self.path_text())
    }
}

impl Serialize for PathBuf {
    fn serialize<F: Flavor>(&self, serializer: &mut Serializer<F>) -> Result<()> {
        let text = self.path_text();
        serializer.serialize_str(text)
    }
}
