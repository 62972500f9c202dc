//! Addresses of the Internet: the 4 or 16 bytes of an address in network order, the highest first,
//! with no count before them. The port of a socket follows, a number of 16 bits. In the types for
//! either version, `V4` has the index 0 and `V6` the index 1.

use crate::cases::serialize_variant;
use crate::repr::SerializeRepr;
use crate::serialize::Serialize;
use crate::serializer::Serializer;
use postcard_ser_flavors::Flavor;
use postcard_wire::Result;
use std::net::{IpAddr, Ipv4Addr, Ipv6Addr, SocketAddr, SocketAddrV4, SocketAddrV6};

impl SerializeRepr for Ipv4Addr {
    fn serialize_repr<F: Flavor>(&self, serializer: &mut Serializer<F>) -> Result<()> {
        self.octets().serialize(serializer)
    }
}

impl SerializeRepr for Ipv6Addr {
    fn serialize_repr<F: Flavor>(&self, serializer: &mut Serializer<F>) -> Result<()> {
        let octets: [u8; 16] = self.octets();
        octets.serialize(serializer)
    }
}

impl SerializeRepr for IpAddr {
    fn serialize_repr<F: Flavor>(&self, serializer: &mut Serializer<F>) -> Result<()> {
        match self {
            IpAddr::V4(address) => serialize_variant(0, address, serializer),
            IpAddr::V6(address) => serialize_variant(1, address, serializer),
        }
    }
}

impl SerializeRepr for SocketAddrV4 {
    fn serialize_repr<F: Flavor>(&self, serializer: &mut Serializer<F>) -> Result<()> {
        (self.ip(), self.port()).serialize(serializer)
    }
}

/// The flow information and the scope aren't written.
impl SerializeRepr for SocketAddrV6 {
    fn serialize_repr<F: Flavor>(&self, serializer: &mut Serializer<F>) -> Result<()> {
        let parts = (self.ip(), self.port());
        parts.serialize(serializer)
    }
}

impl SerializeRepr for SocketAddr {
    fn serialize_repr<F: Flavor>(&self, serializer: &mut Serializer<F>) -> Result<()> {
        match self {
            SocketAddr::V4(address) => serialize_variant(0, address, serializer),
            SocketAddr::V6(address) => serialize_variant(1, address, serializer),
        }
    }
}
