//! A struct with numbers at their full width.

use postcard::fixint::{BE, LE};
use postcard::ser_flavors::Flavor;
use postcard::{FromRepr, Repr, Result, Serialize, SerializeRepr, Serializer};

/// The address of a device in a network.
#[derive(Clone, Debug, Drop, PartialEq)]
pub struct Endpoint {
    /// The address, written as 4 bytes, the highest first.
    pub address: u32,
    /// The port, written as 2 bytes, the lowest first.
    pub port: u16,
    /// The distance, written as a varint.
    pub hops: u16,
}

impl Repr for Endpoint {
    type As = (BE<u32>, LE<u16>, u16);

    ghost repr = { λ v. (v.address, v.port, v.hops) };
}

impl FromRepr for Endpoint {
    fn from_repr((address, port, hops): Self::As) -> Self {
        Endpoint {
            address: address.get(),
            port: port.get(),
            hops,
        }
    }
}

impl SerializeRepr for Endpoint {
    fn serialize_repr<F: Flavor>(&self, serializer: &mut Serializer<F>) -> Result<()> {
        (BE::new(self.address), LE::new(self.port), self.hops).serialize(serializer)
    }
}
