//! Records and a list of bytes, written by `to_io` and read by `from_io`, whose writer and reader are
//! memory. A failure returns `u64::MAX`.

use crate::lists::ends_of;
use crate::records::Record;
use postcard::de_flavors::Reader;
use postcard::{from_io, to_io};
use std::alloc::Global;
use std::io::Write;

/// Writes `count` records, each by a call of `to_io`. Returns `count`.
fn write_records<W: Write + Drop>(count: u32, writer: W) -> u64 {
    let mut writer = writer;
    for i in 0..count {
        match to_io(&Record::numbered(i), writer) {
            Ok(after) => writer = after,
            Err(_) => return u64::MAX,
        }
    }
    u64::from(count)
}

/// Reads `count` records, each by a call of `from_io` with 32 bytes of scratch. Returns the sum of [`Record::sum`] over them.
fn read_records<R: Reader>(alloc: Global, count: u32, reader: R) -> u64 {
    let mut reader = reader;
    let mut sum: u64 = 0;
    for _ in 0..count {
        let mut scratch = [0; 32];
        match from_io::<Record, R>(alloc, (reader, &mut scratch)) {
            Ok((record, (rest, _))) => {
                sum = sum.wrapping_add(record.sum());
                reader = rest;
            }
            Err(_) => return u64::MAX,
        }
    }
    sum
}

/// Writes a list of bytes by a call of `to_io`. Returns its length.
fn write_bytes<W: Write + Drop>(values: &[u8], writer: W) -> u64 {
    match to_io(&values, writer) {
        Ok(_) => values.len() as u64,
        Err(_) => u64::MAX,
    }
}

/// Reads a list of bytes into the scratch by a call of `from_io`. Returns the sum of its length and its last byte.
fn read_bytes<R: Reader>(alloc: Global, reader: R, scratch: &mut [u8]) -> u64 {
    match from_io::<&[u8], R>(alloc, (reader, scratch)) {
        Ok((list, _)) => ends_of(list),
        Err(_) => u64::MAX,
    }
}

/// Encodes `count` records into `out`, one after another, each by a call of `to_io` whose writer is the rest of `out`. Returns
/// `count`.
#[unsafe(no_mangle)]
pub extern "C" fn port_records_to_memory(count: u32, out: &mut [u8]) -> u64 {
    write_records(count, out)
}

/// Decodes `count` records, each by a call of `from_io` whose reader is the rest of the bytes. Returns the sum of
/// [`Record::sum`] over them.
#[unsafe(no_mangle)]
pub extern "C" fn port_records_from_memory(alloc: Global, count: u32, bytes: &[u8]) -> u64 {
    read_records(alloc, count, bytes)
}

/// Encodes a list of bytes by `to_io`, whose writer is `out`. Returns its length.
#[unsafe(no_mangle)]
pub extern "C" fn port_bytes_to_memory(values: &[u8], out: &mut [u8]) -> u64 {
    write_bytes(values, out)
}

/// Decodes a list of bytes by `from_io`, whose reader is the bytes, into the scratch. Returns the sum of its length and its last
/// byte.
#[unsafe(no_mangle)]
pub extern "C" fn port_bytes_from_memory(alloc: Global, bytes: &[u8], scratch: &mut [u8]) -> u64 {
    read_bytes(alloc, bytes, scratch)
}
