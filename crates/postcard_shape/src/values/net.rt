//! The shapes of addresses of the Internet: the bytes in network order, the highest first, and the
//! port of a socket.

ghost use Rattle.postcard_shape.specs.{Next, This, ipv4_octets, ipv6_octets, v4_ip, v4_port, v6_ip};
ghost use Rattle.postcard_shape.specs.{v6_port};
ghost use Rattle.std.specs.declared.net.ip_addr.IpAddr.TheVariants as Ip;
ghost use Rattle.std.specs.declared.net.socket_addr.SocketAddr.TheVariants as Socket;

use crate::cases::{Case, NoCase};
use crate::shape::Repr;
use std::net::{IpAddr, Ipv4Addr, Ipv6Addr, SocketAddr, SocketAddrV4, SocketAddrV6};

impl Repr for Ipv4Addr {
    type As = [u8; 4];

    ghost repr = { ipv4_octets };
}

impl Repr for Ipv6Addr {
    type As = [u8; 16];

    ghost repr = { ipv6_octets };
}

impl Repr for IpAddr {
    type As = Case<Ipv4Addr, Case<Ipv6Addr, NoCase>>;

    ghost repr = { elim [ Ip.V4 a ↦ This a | Ip.V6 a ↦ Next (This a) ] };
}

impl Repr for SocketAddrV4 {
    type As = (Ipv4Addr, u16);

    ghost repr = { λ a. (v4_ip a, v4_port a) };
}

/// The flow information and the scope aren't written.
impl Repr for SocketAddrV6 {
    type As = (Ipv6Addr, u16);

    ghost repr = { λ a. (v6_ip a, v6_port a) };
}

impl Repr for SocketAddr {
    type As = Case<SocketAddrV4, Case<SocketAddrV6, NoCase>>;

    ghost repr = { elim [ Socket.V4 a ↦ This a | Socket.V6 a ↦ Next (This a) ] };
}
