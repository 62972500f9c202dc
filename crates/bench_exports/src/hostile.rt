//! Messages that announce more elements than they have, by which the memory that a type requests
//! for them is measured.

use arrayvec::{ArrayString, ArrayVec};
use postcard::{Deserialize, from_bytes};
use std::alloc::Global;
use std::collections::BTreeMap;

/// Decodes a value and drops it. Returns 0, or `u64::MAX` if decoding fails.
fn read<'a, T: Deserialize<'a> + Drop>(alloc: Global, bytes: &'a [u8]) -> u64 {
    match from_bytes::<T>(alloc, bytes) {
        Ok(_) => 0,
        Err(_) => u64::MAX,
    }
}

/// Decodes a value of the type with the number `kind`. Returns 0, or `u64::MAX` if decoding fails.
/// For a number above 9 it returns 0.
#[unsafe(no_mangle)]
pub extern "C" fn port_hostile(alloc: Global, kind: u32, bytes: &[u8]) -> u64 {
    match kind {
        0 => read::<Vec<u8>>(alloc, bytes),
        1 => read::<Vec<u32>>(alloc, bytes),
        2 => read::<Vec<u128>>(alloc, bytes),
        3 => read::<String>(alloc, bytes),
        4 => read::<Vec<String>>(alloc, bytes),
        5 => read::<Vec<Vec<u8>>>(alloc, bytes),
        6 => read::<BTreeMap<u8, u8>>(alloc, bytes),
        7 => read::<Vec<BTreeMap<u8, u8>>>(alloc, bytes),
        8 => read::<ArrayString<4>>(alloc, bytes),
        9 => read::<ArrayVec<u8, 4>>(alloc, bytes),
        _ => 0,
    }
}
