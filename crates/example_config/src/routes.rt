//! The routes of a receiver: a struct with two maps.

use crate::config::Filter;
use postcard::ser_flavors::Flavor;
use postcard::{FromRepr, Repr, Result, Serialize, SerializeRepr, Serializer};
use std::collections::BTreeMap;

/// The routes of a receiver.
#[derive(Debug, Drop)]
pub struct Routes {
    /// The names of the ports.
    pub names: BTreeMap<u8, String>,
    /// The filter of each channel.
    pub filters: BTreeMap<u16, Filter>,
}

impl Repr for Routes {
    type As = (BTreeMap<u8, String>, BTreeMap<u16, Filter>);

    ghost repr = { λ v. (v.names, v.filters) };
}

impl FromRepr for Routes {
    fn from_repr((names, filters): Self::As) -> Self {
        Routes { names, filters }
    }
}

impl SerializeRepr for Routes {
    fn serialize_repr<F: Flavor>(&self, serializer: &mut Serializer<F>) -> Result<()> {
        (&self.names, &self.filters).serialize(serializer)
    }
}
