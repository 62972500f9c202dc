//! The schemas of addresses of the Internet: the octets, and the port of a socket.

ghost use Rattle.postcard_described.specs.{alike};

use crate::cases::enum_schema;
use crate::schema::HasSchema;
use postcard_schema::Schema;
use postcard_shape::{Case, NoCase};
use postcard_wire::Result;
use std::alloc::Global;
use std::net::{IpAddr, Ipv4Addr, Ipv6Addr, SocketAddr, SocketAddrV4, SocketAddrV6};

impl HasSchema for Ipv4Addr {
    ghost described = { ⟦<[u8; 4] as HasSchema>⟧.described };

    fn schema_with(alloc: Global, _names: &[&str]) -> Result<Schema> {
        <[u8; 4]>::schema_with(alloc, &[])
    }

    ghost same = { alike };
}

impl HasSchema for Ipv6Addr {
    ghost described = { ⟦<[u8; 16] as HasSchema>⟧.described };

    fn schema_with(alloc: Global, _names: &[&str]) -> Result<Schema> {
        <[u8; 16]>::schema_with(alloc, &[])
    }

    ghost same = { alike };
}

impl HasSchema for IpAddr {
    ghost described = { ⟦<Case<Ipv4Addr, Case<Ipv6Addr, NoCase>> as HasSchema>⟧.described };

    fn schema_with(alloc: Global, _names: &[&str]) -> Result<Schema> {
        enum_schema::<Case<Ipv4Addr, Case<Ipv6Addr, NoCase>>>(alloc, &[("V4", &[]), ("V6", &[])])
    }

    ghost same = { alike };
}

impl HasSchema for SocketAddrV4 {
    ghost described = { ⟦<(Ipv4Addr, u16) as HasSchema>⟧.described };

    fn schema_with(alloc: Global, _names: &[&str]) -> Result<Schema> {
        <(Ipv4Addr, u16)>::schema_with(alloc, &[])
    }

    ghost same = { alike };
}

impl HasSchema for SocketAddrV6 {
    ghost described = { ⟦<(Ipv6Addr, u16) as HasSchema>⟧.described };

    fn schema_with(alloc: Global, _names: &[&str]) -> Result<Schema> {
        <(Ipv6Addr, u16)>::schema_with(alloc, &[])
    }

    ghost same = { alike };
}

impl HasSchema for SocketAddr {
    ghost described = { ⟦<Case<SocketAddrV4, Case<SocketAddrV6, NoCase>> as HasSchema>⟧.described };

    fn schema_with(alloc: Global, _names: &[&str]) -> Result<Schema> {
        enum_schema::<Case<SocketAddrV4, Case<SocketAddrV6, NoCase>>>(
            alloc,
            &[("V4", &[]), ("V6", &[])],
        )
    }

    ghost same = { alike };
}
