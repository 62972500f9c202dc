//! Data beside its frames, worked out by hand, and functions on bytes that the tests share.

use std::alloc::AllocGlobal;
use std::process::Abort;

/// Data, each beside its frame.
pub const FRAMES: [(&[u8], &[u8]); 20] = [
    (&[], &[1, 0]),
    (&[0], &[1, 1, 0]),
    (&[0, 0], &[1, 1, 1, 0]),
    (&[0, 0, 0, 0], &[1, 1, 1, 1, 1, 0]),
    (&[1], &[2, 1, 0]),
    (&[0xFF], &[2, 0xFF, 0]),
    (&[0, 1], &[1, 2, 1, 0]),
    (&[1, 0], &[2, 1, 1, 0]),
    (&[0, 1, 0], &[1, 2, 1, 1, 0]),
    (&[1, 0, 0x20], &[2, 1, 2, 0x20, 0]),
    (&[1, 0, 0x20, 0x30], &[2, 1, 3, 0x20, 0x30, 0]),
    (&[4, 1, 0, 0x20, 0x30], &[3, 4, 1, 3, 0x20, 0x30, 0]),
    (&[1, 1, 0x31], &[4, 1, 1, 0x31, 0]),
    (&[1, 0x31], &[3, 1, 0x31, 0]),
    (&[3, 0x48, 0x69, 0x21], &[5, 3, 0x48, 0x69, 0x21, 0]),
    (&[0x11, 0x22, 0, 0x33], &[3, 0x11, 0x22, 2, 0x33, 0]),
    (&[0x11, 0x22, 0x33, 0x44], &[5, 0x11, 0x22, 0x33, 0x44, 0]),
    (&[0x11, 0, 0, 0], &[2, 0x11, 1, 1, 1, 0]),
    (&[0x41, 0, 0x42, 0, 0x43], &[2, 0x41, 2, 0x42, 2, 0x43, 0]),
    (
        &[1, 0, 2, 0x20, 5, 0x68, 0x45, 0x6C, 0x4C, 0x6F],
        &[2, 1, 9, 2, 0x20, 5, 0x68, 0x45, 0x6C, 0x4C, 0x6F, 0],
    ),
];

/// The data of a full group.
pub const FULL: [u8; 254] = [0x11; 254];

/// The data of a group that has room for one byte more.
pub const FULL_LESS_ONE: [u8; 253] = [0x11; 253];

/// Data in pieces, each beside its frame in pieces. The data are 253, 254 and 255 bytes other than
/// zero, a full group and a zero, and two full groups.
pub const LONG: [(&[&[u8]], &[&[u8]]); 5] = [
    (&[&FULL_LESS_ONE], &[&[0xFE], &FULL_LESS_ONE, &[0]]),
    (&[&FULL], &[&[0xFF], &FULL, &[1, 0]]),
    (&[&FULL, &[0x11]], &[&[0xFF], &FULL, &[2, 0x11, 0]]),
    (&[&FULL, &[0]], &[&[0xFF], &FULL, &[1, 1, 0]]),
    (&[&FULL, &FULL], &[&[0xFF], &FULL, &[0xFF], &FULL, &[1, 0]]),
];

/// Returns the pieces as one vector.
pub fn joined(rt: &(impl Abort + AllocGlobal), pieces: &[&[u8]]) -> Vec<u8> {
    let mut all = Vec::new(rt.alloc());
    for piece in pieces {
        all.extend_from_slice(piece).expect(rt, "there is memory");
    }
    all
}

/// Returns the place of the first zero, or the number of bytes if none is zero.
pub fn first_zero(bytes: &[u8]) -> usize {
    for place in 0..bytes.len() {
        if bytes[place] == 0 {
            return place;
        }
    }
    bytes.len()
}

/// Sets the byte at a place, or does nothing if there are fewer bytes.
pub fn set(bytes: &mut [u8], place: usize, byte: u8) {
    if let Some(old) = bytes.get_mut(place) {
        *old = byte;
    }
}
