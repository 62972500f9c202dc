//! The greatest sizes of addresses of the Internet: 4 or 16 bytes, and 3 more for the port of a
//! socket. An address of either version has 1 more for the index.

use crate::max_size::{MaxSize, MaxSizeRepr};
use std::net::{IpAddr, Ipv4Addr, Ipv6Addr, SocketAddr, SocketAddrV4, SocketAddrV6};

impl MaxSizeRepr for Ipv4Addr {
    fn in_forms_repr(&self) {
        self.octets().in_forms();
    }
}

impl MaxSizeRepr for Ipv6Addr {
    fn in_forms_repr(&self) {
        self.octets().in_forms();
    }
}

impl MaxSizeRepr for IpAddr {
    fn in_forms_repr(&self) {
        match self {
            IpAddr::V4(address) => address.in_forms(),
            IpAddr::V6(address) => address.in_forms(),
        }
    }
}

impl MaxSizeRepr for SocketAddrV4 {
    fn in_forms_repr(&self) {
        (self.ip(), self.port()).in_forms();
    }
}

impl MaxSizeRepr for SocketAddrV6 {
    fn in_forms_repr(&self) {
        (self.ip(), self.port()).in_forms();
    }
}

impl MaxSizeRepr for SocketAddr {
    fn in_forms_repr(&self) {
        match self {
            SocketAddr::V4(address) => address.in_forms(),
            SocketAddr::V6(address) => address.in_forms(),
        }
    }
}
