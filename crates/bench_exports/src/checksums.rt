//! Checksums of long messages, and messages that carry one.

use crate::lists::last_of;
use crc::{CRC_16_IBM_SDLC, CRC_32_ISO_HDLC, CRC_64_XZ, Crc, Slice8};
use postcard::{from_bytes_crc32, to_slice_crc32};
use std::alloc::Global;

/// Returns the CRC-32/ISO-HDLC of the bytes, by one table, which is made first.
#[unsafe(no_mangle)]
pub extern "C" fn port_crc32(bytes: &[u8]) -> u64 {
    let crc: Crc<u32> = Crc::new(&CRC_32_ISO_HDLC);
    u64::from(crc.checksum(bytes))
}

/// Returns the CRC-32/ISO-HDLC of the bytes, by eight tables, which are made first.
#[unsafe(no_mangle)]
pub extern "C" fn port_crc32_by_eights(bytes: &[u8]) -> u64 {
    let crc: Crc<u32, Slice8<u32>> = Crc::new(&CRC_32_ISO_HDLC);
    u64::from(crc.checksum(bytes))
}

/// Returns the CRC-16/IBM-SDLC of the bytes, by one table, which is made first.
#[unsafe(no_mangle)]
pub extern "C" fn port_crc16(bytes: &[u8]) -> u64 {
    let crc: Crc<u16> = Crc::new(&CRC_16_IBM_SDLC);
    u64::from(crc.checksum(bytes))
}

/// Returns the CRC-64/XZ of the bytes, by one table, which is made first. A message of which it is `u64::MAX` is taken for a failure.
#[unsafe(no_mangle)]
pub extern "C" fn port_crc64(bytes: &[u8]) -> u64 {
    let crc: Crc<u64> = Crc::new(&CRC_64_XZ);
    crc.checksum(bytes)
}

/// Encodes a list of bytes and its CRC-32/ISO-HDLC, by one table, into `out`. Returns the number of bytes written.
#[unsafe(no_mangle)]
pub extern "C" fn port_crc32_encode(values: &[u8], out: &mut [u8]) -> u64 {
    let crc: Crc<u32> = Crc::new(&CRC_32_ISO_HDLC);
    match to_slice_crc32(&values, out, crc.digest()) {
        Ok(front) => front.len() as u64,
        Err(_) => u64::MAX,
    }
}

/// Decodes a list of bytes with its CRC-32/ISO-HDLC as a slice of the message. Returns the sum of its length and its last
/// byte.
#[unsafe(no_mangle)]
pub extern "C" fn port_crc32_decode(alloc: Global, bytes: &[u8]) -> u64 {
    let crc: Crc<u32> = Crc::new(&CRC_32_ISO_HDLC);
    match from_bytes_crc32::<&[u8], _, _>(alloc, bytes, crc.digest()) {
        Ok(list) => (list.len() as u64).wrapping_add(last_of(list)),
        Err(_) => u64::MAX,
    }
}
