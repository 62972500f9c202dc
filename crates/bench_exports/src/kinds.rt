//! Lists and maps of many types: a message is decoded, or its value encoded or counted, many times.

use crate::records::Record;
use postcard::experimental::serialized_size;
use postcard::fixint::{BE, LE};
use postcard::{Deserialize, Serialize, from_bytes, to_slice};
use std::alloc::Global;
use std::collections::BTreeMap;

/// Decodes the message `rounds` times and drops the value. Returns how many times that succeeded.
fn read<'a, T: Deserialize<'a> + Drop>(alloc: Global, bytes: &'a [u8], rounds: u32) -> u64 {
    let mut successes: u64 = 0;
    for _ in 0..rounds {
        if from_bytes::<T>(alloc, bytes).is_ok() {
            successes = successes.wrapping_add(1);
        }
    }
    successes
}

/// Decodes the message once, and encodes its value `rounds` times into `out`. Returns the sum of
/// the lengths, or `u64::MAX` if a call fails.
fn write<'a, T: Deserialize<'a> + Serialize + Drop>(
    alloc: Global,
    bytes: &'a [u8],
    rounds: u32,
    out: &mut [u8],
) -> u64 {
    let Ok(value) = from_bytes::<T>(alloc, bytes) else {
        return u64::MAX;
    };
    let mut sum: u64 = 0;
    for _ in 0..rounds {
        match to_slice(&value, &mut *out) {
            Ok(front) => sum = sum.wrapping_add(front.len() as u64),
            Err(_) => return u64::MAX,
        }
    }
    sum
}

/// Decodes the message once, and counts its value's bytes `rounds` times. Returns the sum of the
/// counts, or `u64::MAX` if a call fails.
fn size<'a, T: Deserialize<'a> + Serialize + Drop>(
    alloc: Global,
    bytes: &'a [u8],
    rounds: u32,
) -> u64 {
    let Ok(value) = from_bytes::<T>(alloc, bytes) else {
        return u64::MAX;
    };
    let mut sum: u64 = 0;
    for _ in 0..rounds {
        match serialized_size(&value) {
            Ok(count) => sum = sum.wrapping_add(count as u64),
            Err(_) => return u64::MAX,
        }
    }
    sum
}

/// The fields of a struct in a struct in a struct.
type Nested = (u8, (u16, (u32, bool)));

/// Decodes the message `rounds` times as a value of the type with the number `kind`. Returns how many times that succeeded.
/// For a number above 9 it returns 0.
#[unsafe(no_mangle)]
pub extern "C" fn port_read(alloc: Global, kind: u32, bytes: &[u8], rounds: u32) -> u64 {
    match kind {
        0 => read::<Vec<&str>>(alloc, bytes, rounds),
        1 => read::<BTreeMap<u32, u32>>(alloc, bytes, rounds),
        2 => read::<Vec<Option<u32>>>(alloc, bytes, rounds),
        3 => read::<Vec<Record>>(alloc, bytes, rounds),
        4 => read::<Vec<Nested>>(alloc, bytes, rounds),
        5 => read::<Vec<Result<u8, &str>>>(alloc, bytes, rounds),
        6 => read::<Vec<LE<u32>>>(alloc, bytes, rounds),
        7 => read::<Vec<BE<u32>>>(alloc, bytes, rounds),
        8 => read::<Vec<LE<u64>>>(alloc, bytes, rounds),
        9 => read::<Vec<BE<u16>>>(alloc, bytes, rounds),
        _ => 0,
    }
}

/// Does [`write`] with the type that has the number `kind` in [`port_read`]; 0 for another number.
#[unsafe(no_mangle)]
pub extern "C" fn port_write(
    alloc: Global,
    kind: u32,
    bytes: &[u8],
    rounds: u32,
    out: &mut [u8],
) -> u64 {
    match kind {
        0 => write::<Vec<&str>>(alloc, bytes, rounds, out),
        1 => write::<BTreeMap<u32, u32>>(alloc, bytes, rounds, out),
        2 => write::<Vec<Option<u32>>>(alloc, bytes, rounds, out),
        3 => write::<Vec<Record>>(alloc, bytes, rounds, out),
        4 => write::<Vec<Nested>>(alloc, bytes, rounds, out),
        5 => write::<Vec<Result<u8, &str>>>(alloc, bytes, rounds, out),
        6 => write::<Vec<LE<u32>>>(alloc, bytes, rounds, out),
        7 => write::<Vec<BE<u32>>>(alloc, bytes, rounds, out),
        8 => write::<Vec<LE<u64>>>(alloc, bytes, rounds, out),
        9 => write::<Vec<BE<u16>>>(alloc, bytes, rounds, out),
        _ => 0,
    }
}

/// Does [`size`] with the type that has the number `kind` in [`port_read`], of texts, maps and
/// records. Returns 0 for another number.
#[unsafe(no_mangle)]
pub extern "C" fn port_size(alloc: Global, kind: u32, bytes: &[u8], rounds: u32) -> u64 {
    match kind {
        0 => size::<Vec<&str>>(alloc, bytes, rounds),
        1 => size::<BTreeMap<u32, u32>>(alloc, bytes, rounds),
        3 => size::<Vec<Record>>(alloc, bytes, rounds),
        _ => 0,
    }
}
