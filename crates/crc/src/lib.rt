//! Checksums of 1 to 128 bits: the remainder of a message by a polynomial over GF(2), the field of
//! two elements.
//!
//! A [`Crc`] computes the checksum of a whole message ([`Crc::checksum`]), or of one that comes in
//! pieces ([`Crc::digest`]). The names are those of the Rust crate `crc`.
#![tactic(auto)]

pub mod algorithm;
pub mod catalog;
mod crc;
pub mod digest;
mod entries;
pub mod implementation;
pub mod laws;
mod order;
mod register;
mod slice8;
mod table;
pub mod width;

pub use algorithm::Algorithm;
pub use catalog::{
    CRC_8_MAXIM_DOW, CRC_8_SMBUS, CRC_16_IBM_SDLC, CRC_16_KERMIT, CRC_16_MODBUS, CRC_16_USB,
    CRC_16_XMODEM, CRC_24_OPENPGP, CRC_32_BZIP2, CRC_32_ISCSI, CRC_32_ISO_HDLC, CRC_32_MPEG_2,
    CRC_64_ECMA_182, CRC_64_XZ, CRC_82_DARC,
};
pub use crc::Crc;
pub use digest::Digest;
pub use implementation::{Implementation, Table};
pub use order::order_from;
pub use slice8::Slice8;
pub use width::Width;
