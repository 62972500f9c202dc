//! Slices, arrays by reference, tables, and vectors of bytes.

ghost use Rattle.std.specs.Prelude.{◌≤◌, length};

use std::simd::prelude::*;

const PRIMES: [u32; 8] = [2, 3, 5, 7, 11, 13, 17, 19];

const LARGE: [u64; 4] = [1, 0x1_0000_0001, u64::MAX, 42];

const FLAGS: [bool; 4] = [true, false, false, true];

/// Returns what tables have at a place.
#[unsafe(no_mangle)]
pub extern "C" fn tables(place: u64) -> u64 {
    let at = (place & 3) as usize;
    let primes = &PRIMES;
    let large = &LARGE;
    let flags = &FLAGS;
    u64::from(primes[at + 4]) ^ large[at] ^ (u64::from(flags[at]) << 50)
}

/// Copies bytes from one slice to another, up to the length of the shorter one. Returns how many.
#[unsafe(no_mangle)]
pub extern "C" fn copied(from: &[u8], to: &mut [u8]) -> u64 {
    let count = from.len().min(to.len());
    to[..count].copy_from_slice(&from[..count]);
    count as u64
}

/// Moves bytes within a slice, up or down, and returns how many.
#[unsafe(no_mangle)]
pub extern "C" fn moved(bytes: &mut [u8], from: u64, to: u64) -> u64 {
    let size = bytes.len() as u64;
    if size == 0 {
        return 0;
    }
    let from = (from % size) as usize;
    let to = (to % size) as usize;
    let count = bytes.len() - from.max(to);
    bytes.copy_within(from..from + count, to);
    count as u64
}

/// Writes each byte to the place after it, from the first on, so that the first fills all.
#[unsafe(no_mangle)]
pub extern "C" fn smeared(bytes: &mut [u8]) {
    for i in 1..bytes.len() {
        bytes[i] = bytes[i - 1];
    }
}

fn turn(row: &mut [u8; 8]) {
    let before = *row;
    for i in 0..8 {
        row[i] = before[7 - i];
    }
}

/// Reverses the bytes of a number, in an array by reference, and returns the number.
#[unsafe(no_mangle)]
pub extern "C" fn turned(n: u64) -> u64 {
    let mut row = n.to_le_bytes();
    let kept = row;
    turn(&mut row);
    u64::from_le_bytes(row) ^ u64::from_be_bytes(kept).wrapping_mul(3)
}

/// Changes a number in place, and returns what it was, once others have read it.
#[unsafe(no_mangle)]
pub extern "C" fn replaced(n: &mut u64, by: u64) -> u64 {
    let before = *n;
    let old = std::mem::replace(n, by);
    let after = *n;
    *n = after.wrapping_add(before);
    old ^ after.wrapping_mul(9) ^ *n
}

fn zeros<const N: usize>(bytes: &[u8], byte: u8) -> u64
    requires few { N ≤ 64 }
    requires enough { N ≤ length bytes.now }
{
    Simd::<u8, N>::from_slice(bytes)
        .simd_eq(Simd::<u8, N>::splat(byte))
        .to_bitmask()
}

/// Returns which of the first bytes are zero, and which are 7, by vectors of several lengths.
/// Returns 0 for too few bytes.
#[unsafe(no_mangle)]
pub extern "C" fn lanes(bytes: &[u8]) -> u64 {
    if bytes.len() < 64 {
        return 0;
    }
    zeros::<8>(bytes, 0)
        ^ zeros::<16>(bytes, 0).wrapping_mul(3)
        ^ zeros::<32>(bytes, 7).wrapping_mul(5)
        ^ zeros::<64>(bytes, 0).wrapping_mul(7)
        ^ zeros::<4>(bytes, 7).wrapping_mul(11)
}
