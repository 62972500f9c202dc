//! Addresses of the Internet.

use super::owners;
use crate::checks::{Outcome, sized_with};
use crate::row::Row;
use std::alloc::Global;
use std::net::{IpAddr, Ipv4Addr, Ipv6Addr, SocketAddr, SocketAddrV4, SocketAddrV6};

/// Checks a row of a type of this group or of those after it.
pub fn with_scratch<'a>(alloc: Global, row: &'a Row<'_>, scratch: &'a mut [u8]) -> Outcome {
    match row.name {
        "Ipv4Addr" => sized_with::<Ipv4Addr>(alloc, row, scratch),
        "Ipv6Addr" => sized_with::<Ipv6Addr>(alloc, row, scratch),
        "IpAddr" => sized_with::<IpAddr>(alloc, row, scratch),
        "SocketAddrV4" => sized_with::<SocketAddrV4>(alloc, row, scratch),
        "SocketAddrV6" => sized_with::<SocketAddrV6>(alloc, row, scratch),
        "SocketAddr" => sized_with::<SocketAddr>(alloc, row, scratch),
        _ => owners::with_scratch(alloc, row, scratch),
    }
}
