//! Tests with random bits of floating-point numbers, a hundred thousand of each width.

use crate::random::Random;
use postcard::{from_bytes, to_slice};
use std::alloc::Global;
use std::num::{f32_to_bits_with_nan, f64_to_bits_with_nan};
use std::process::Abort;

/// Returns the bits that are written for an `f32` of these bits: the same, or those of the one NaN.
fn written_f32(bits: u32) -> u32 {
    let is_nan = bits & 0x7FFF_FFFF > 0x7F80_0000;
    if is_nan { 0x7FC0_0000 } else { bits }
}

/// Returns the bits that are written for an `f64` of these bits: the same, or those of the one NaN.
fn written_f64(bits: u64) -> u64 {
    let is_nan = bits & 0x7FFF_FFFF_FFFF_FFFF > 0x7FF0_0000_0000_0000;
    if is_nan { 0x7FF8_0000_0000_0000 } else { bits }
}

/// Returns whether the bytes of these bits are read as the `f32`, which is written as its bytes.
fn f32_comes_back(alloc: Global, bits: u32) -> bool {
    let want = written_f32(bits);
    let Ok(value) = from_bytes::<f32>(alloc, &bits.to_le_bytes()) else {
        return false;
    };
    let mut buffer = [0; 5];
    match to_slice(&value, &mut buffer) {
        Ok(front) => f32_to_bits_with_nan(value) == want
            && &*front == want.to_le_bytes().as_slice(),
        Err(_) => false,
    }
}

/// Returns whether the bytes of these bits are read as the `f64`, which is written as its bytes.
fn f64_comes_back(alloc: Global, bits: u64) -> bool {
    let want = written_f64(bits);
    let Ok(value) = from_bytes::<f64>(alloc, &bits.to_le_bytes()) else {
        return false;
    };
    let mut buffer = [0; 9];
    match to_slice(&value, &mut buffer) {
        Ok(front) => f64_to_bits_with_nan(value) == want
            && &*front == want.to_le_bytes().as_slice(),
        Err(_) => false,
    }
}

/// Asserts that the call succeeds for these bits, which a failure prints.
fn comes_back(rt: &impl Abort, back: bool, bits: u64) {
    assert!(rt; back, "{bits:X}");
}

#[test]
fn random_bits(rt: HostRuntime) {
    let mut random = Random::new(rt.alloc(), 40);
    for _ in 0..100_000 {
        let bits = random.next();
        let low = (bits & 0xFFFF_FFFF) as u32;
        comes_back(&rt, f32_comes_back(rt.alloc(), low), u64::from(low));
        comes_back(&rt, f64_comes_back(rt.alloc(), bits), bits);
    }
}

#[test]
fn bits_of_each_kind(rt: HostRuntime) {
    // each exponent, with the least, the greatest and two other mantissas, and both signs
    for high in 0..=0xFFFu64 {
        for low in [0, 1, 0x8_0000_0000_0000, 0xF_FFFF_FFFF_FFFF] {
            let bits = (high << 52) | low;
            comes_back(&rt, f64_comes_back(rt.alloc(), bits), bits);
        }
    }
    for high in 0..=0x1FFu32 {
        for low in [0, 1, 0x40_0000, 0x7F_FFFF] {
            let bits = (high << 23) | low;
            comes_back(&rt, f32_comes_back(rt.alloc(), bits), u64::from(bits));
        }
    }
}
