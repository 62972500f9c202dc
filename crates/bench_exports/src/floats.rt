//! Long lists of floating-point numbers, written into a buffer and read into a vector.

use postcard::{from_bytes, to_slice};
use std::alloc::Global;

/// Encodes a list of numbers of 32 bits into `out`. Returns the number of bytes of the encoding.
#[unsafe(no_mangle)]
pub extern "C" fn port_f32s_encode(values: &[f32], out: &mut [u8]) -> u64 {
    match to_slice(&values, out) {
        Ok(front) => front.len() as u64,
        Err(_) => u64::MAX,
    }
}

/// Decodes a list of numbers of 32 bits into a new vector. Returns its length, and 1 more if its last number is positive.
#[unsafe(no_mangle)]
pub extern "C" fn port_f32s_decode(alloc: Global, bytes: &[u8]) -> u64 {
    let Ok(list) = from_bytes::<Vec<f32>>(alloc, bytes) else {
        return u64::MAX;
    };
    let positive = list.last().is_some_and(|last| *last > 0.0);
    (list.len() as u64).wrapping_add(u64::from(positive))
}

/// Encodes a list of numbers of 64 bits into `out`. Returns the number of bytes of the encoding.
#[unsafe(no_mangle)]
pub extern "C" fn port_f64s_encode(values: &[f64], out: &mut [u8]) -> u64 {
    match to_slice(&values, out) {
        Ok(front) => front.len() as u64,
        Err(_) => u64::MAX,
    }
}

/// Decodes a list of numbers of 64 bits into a new vector. Returns its length, and 1 more if its last number is positive.
#[unsafe(no_mangle)]
pub extern "C" fn port_f64s_decode(alloc: Global, bytes: &[u8]) -> u64 {
    let Ok(list) = from_bytes::<Vec<f64>>(alloc, bytes) else {
        return u64::MAX;
    };
    let positive = list.last().is_some_and(|last| *last > 0.0);
    (list.len() as u64).wrapping_add(u64::from(positive))
}
