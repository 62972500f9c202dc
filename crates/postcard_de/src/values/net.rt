//! Addresses of the Internet: read as the bytes of an address in network order, the highest first,
//! and the port of a socket.

ghost use Rattle.std.specs.Prelude.{◌≡◌, ◌<◌, ℕ, slice_index};
ghost use Rattle.postcard_de.specs.{v6_flowinfo, v6_ip, v6_port, v6_scope_id};

use crate::repr::FromRepr;
use postcard_shape::cases::Case;
use std::net::{IpAddr, Ipv4Addr, Ipv6Addr, SocketAddr, SocketAddrV4, SocketAddrV6};

/// Returns the same bytes. Its contract tells the prover that each is below 256.
fn in_range(bytes: [u8; 16]) -> [u8; 16]
    ensures same { result ≡ bytes }
    ensures range { (k : ℕ) → slice_index result k < 256 }
{
    bytes
}

impl FromRepr for Ipv4Addr {
    fn from_repr(octets: Self::As) -> Self {
        Ipv4Addr::from_octets(octets)
    }
}

impl FromRepr for Ipv6Addr {
    fn from_repr(octets: Self::As) -> Self {
        Ipv6Addr::from_octets(in_range(octets))
    }
}

impl FromRepr for IpAddr {
    fn from_repr(repr: Self::As) -> Self {
        match repr {
            Case::This(address) => IpAddr::V4(address),
            Case::Next(Case::This(address)) => IpAddr::V6(address),
            Case::Next(Case::Next(never)) => match never {},
        }
    }
}

impl FromRepr for SocketAddrV4 {
    fn from_repr((address, port): Self::As) -> Self {
        SocketAddrV4::new(address, port)
    }
}

/// The flow information and the scope of an address that was read are 0.
impl FromRepr for SocketAddrV6 {
    fn from_repr(repr: Self::As) -> Self
        ensures same { (v6_ip result, v6_port result) ≡ repr }
        ensures no_flow { v6_flowinfo result ≡ 0 }
        ensures no_scope { v6_scope_id result ≡ 0 }
    {
        let (address, port) = repr;
        SocketAddrV6::new(address, port, 0, 0)
    }
}

impl FromRepr for SocketAddr {
    fn from_repr(repr: Self::As) -> Self {
        match repr {
            Case::This(address) => SocketAddr::V4(address),
            Case::Next(Case::This(address)) => SocketAddr::V6(address),
            Case::Next(Case::Next(never)) => match never {},
        }
    }
}
