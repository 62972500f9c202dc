//! Long lists of numbers and of bytes, written into a buffer or a vector, and read into a vector or
//! as a borrowed slice.

use postcard::{from_bytes, to_allocvec, to_slice};
use std::alloc::Global;

/// Returns the last byte, or 0 if there is none.
pub fn last_of(bytes: &[u8]) -> u64 {
    match bytes.last() {
        Some(byte) => u64::from(*byte),
        None => 0,
    }
}

/// Returns the sum of the length and the last byte.
pub fn ends_of(bytes: &[u8]) -> u64 {
    (bytes.len() as u64).wrapping_add(last_of(bytes))
}

/// Encodes a list of numbers into `out`. Returns the number of bytes of the encoding.
#[unsafe(no_mangle)]
pub extern "C" fn port_u32s_encode(values: &[u32], out: &mut [u8]) -> u64 {
    match to_slice(&values, out) {
        Ok(front) => front.len() as u64,
        Err(_) => u64::MAX,
    }
}

/// Encodes a list of numbers into a new vector. Returns the number of bytes of the encoding.
#[unsafe(no_mangle)]
pub extern "C" fn port_u32s_allocate(alloc: Global, values: &[u32]) -> u64 {
    match to_allocvec(alloc, &values) {
        Ok(bytes) => bytes.len() as u64,
        Err(_) => u64::MAX,
    }
}

/// Decodes a list of numbers into a new vector. Returns the sum of the numbers.
#[unsafe(no_mangle)]
pub extern "C" fn port_u32s_decode(alloc: Global, bytes: &[u8]) -> u64 {
    let Ok(list) = from_bytes::<Vec<u32>>(alloc, bytes) else {
        return u64::MAX;
    };
    let mut sum: u64 = 0;
    for number in list.as_slice() {
        sum = sum.wrapping_add(u64::from(*number));
    }
    sum
}

/// Encodes a list of bytes into `out`. Returns the number of bytes of the encoding.
#[unsafe(no_mangle)]
pub extern "C" fn port_bytes_encode(values: &[u8], out: &mut [u8]) -> u64 {
    match to_slice(&values, out) {
        Ok(front) => front.len() as u64,
        Err(_) => u64::MAX,
    }
}

/// Encodes a list of bytes into a new vector, which is dropped. Returns the number of bytes of the encoding.
#[unsafe(no_mangle)]
pub extern "C" fn port_bytes_allocate(alloc: Global, values: &[u8]) -> u64 {
    match to_allocvec(alloc, &values) {
        Ok(bytes) => bytes.len() as u64,
        Err(_) => u64::MAX,
    }
}

/// Decodes a list of bytes into a new vector. Returns the sum of its length and its last byte.
#[unsafe(no_mangle)]
pub extern "C" fn port_bytes_decode(alloc: Global, bytes: &[u8]) -> u64 {
    match from_bytes::<Vec<u8>>(alloc, bytes) {
        Ok(list) => ends_of(list.as_slice()),
        Err(_) => u64::MAX,
    }
}

/// Decodes a list of bytes as a slice of the message. Returns the sum of its length and its last
/// byte.
#[unsafe(no_mangle)]
pub extern "C" fn port_bytes_lend(alloc: Global, bytes: &[u8]) -> u64 {
    match from_bytes::<&[u8]>(alloc, bytes) {
        Ok(list) => ends_of(list),
        Err(_) => u64::MAX,
    }
}
