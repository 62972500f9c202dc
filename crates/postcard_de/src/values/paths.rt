//! Paths: `Path`, which borrows from the source, is read as a `&str`, and `PathBuf` as a `String`,
//! with the same errors.

use crate::deserialize::Deserialize;
use crate::deserializer::Deserializer;
use crate::owned::DeserializeOwned;
use postcard_de_flavors::Flavor;
use postcard_wire::Result;
use std::alloc::Global;
use std::path::{Path, PathBuf};

impl<'de> Deserialize<'de> for Path<'de> {
    fn deserialize<F: Flavor>(alloc: Global, d: &mut Deserializer<'de, F>) -> Result<Self> {
        let text = <&'de str>::deserialize(alloc, d)?;
        Ok(Path::new(text))
    }
}

impl<'de> Deserialize<'de> for PathBuf {
    fn deserialize<F: Flavor>(alloc: Global, d: &mut Deserializer<'de, F>) -> Result<Self> {
        let text = <String>::deserialize(alloc, d)?;
        Ok(PathBuf::from(text))
    }
}

impl DeserializeOwned for PathBuf {
    fn deserialize_owned<'de, F: Flavor>(
        alloc: Global,
        d: &mut Deserializer<'de, F>,
    ) -> Result<Self> {
        let content = <String>::deserialize_owned(alloc, d)?;
        Ok(PathBuf::from(content))
    }
}
