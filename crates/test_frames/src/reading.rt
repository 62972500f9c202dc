//! Tests of reading values from frames: frames worked out by hand, and damaged frames.

use crate::rows::{FULL, first_zero, joined, set};
use crate::same::{same, same_at};
use postcard::{
    DeserializeOwned, Error, Owned, Serialize, from_bytes_cobs, take_from_bytes_cobs,
    to_allocvec_cobs, to_slice_cobs,
};
use std::alloc::AllocGlobal;
use std::process::Abort;
use test_support::types::RefStruct;

/// Bytes that begin with a frame of the byte 7, each beside the bytes after that frame.
const BYTES: [(&[u8], &[u8]); 4] = [
    (&[0x02, 0x07], &[]),
    (&[0x03, 0x07, 0x08, 0x00], &[]),
    (&[0x03, 0x07, 0x08, 0x00, 0x05], &[0x05]),
    (&[0x02, 0x07, 0x00, 0x00, 0x09], &[0x00, 0x09]),
];

/// Bytes that aren't a frame.
const NO_FRAMES: [&[u8]; 3] = [&[], &[0x00], &[0x05, 0x01, 0x00]];

/// Asserts that the byte 7 is read from the frame at the start of `bytes`, and that the bytes
/// `left` remain.
fn is_read(rt: &(impl Abort + AllocGlobal), bytes: &[u8], left: &[u8]) {
    let mut buffer = joined(rt, &[bytes]);
    let front = take_from_bytes_cobs::<u8>(rt.alloc(), &mut buffer);
    let (value, rest) = front.expect(rt, "the frame has a byte");
    same_at(rt, (value, &*rest), (7, left), bytes);
    let mut buffer = joined(rt, &[bytes]);
    let value = from_bytes_cobs::<u8>(rt.alloc(), &mut buffer);
    same_at(rt, value, Ok(7), bytes);
}

/// Asserts that these bytes aren't a frame.
fn is_refused(rt: &(impl Abort + AllocGlobal), bytes: &[u8]) {
    let mut buffer = joined(rt, &[bytes]);
    let front = take_from_bytes_cobs::<u8>(rt.alloc(), &mut buffer).err();
    same_at(rt, front, Some(Error::DeserializeBadEncoding), bytes);
    let mut buffer = joined(rt, &[bytes]);
    let value = from_bytes_cobs::<u8>(rt.alloc(), &mut buffer);
    same_at(rt, value, Err(Error::DeserializeBadEncoding), bytes);
}

#[test]
fn frames_of_a_byte(rt: HostRuntime) {
    for (bytes, left) in &BYTES {
        is_read(&rt, bytes, left);
    }
}

#[test]
fn no_frames_of_a_byte(rt: HostRuntime) {
    for bytes in &NO_FRAMES {
        is_refused(&rt, bytes);
    }
}

/// Asserts that three numbers are read from this frame, one of them zero, and that no bytes are
/// left.
fn numbers_are_read(rt: &(impl Abort + AllocGlobal), frame: &[u8]) {
    let mut buffer = joined(rt, &[frame]);
    let front = take_from_bytes_cobs::<(i32, u8, u64)>(rt.alloc(), &mut buffer);
    let (value, rest) = front.expect(rt, "the frame has three numbers");
    same(rt, (value, rest.len()), ((4, 0, 4), 0));
}

#[test]
fn zeros_inside_and_after(rt: HostRuntime) {
    numbers_are_read(&rt, &[0x02, 0x08, 0x02, 0x04]);
    numbers_are_read(&rt, &[0x02, 0x08, 0x02, 0x04, 0x00]);
}

#[test]
fn a_frame_of_no_bool(rt: HostRuntime) {
    let refused = from_bytes_cobs::<bool>(rt.alloc(), &mut [0x02, 0x05, 0x00]);
    same(&rt, refused, Err(Error::DeserializeBadBool));
}

/// Asserts that the struct is read from this frame, with parts that borrow from it.
fn is_lent(rt: &(impl Abort + AllocGlobal), frame: &mut [u8]) {
    let lent = from_bytes_cobs::<RefStruct>(rt.alloc(), frame).expect(rt, "the frame has a value");
    same(rt, lent.bytes, [0x01, 0x00, 0x02, 0x20].as_slice());
    same(rt, lent.str_s, "hElLo");
}

#[test]
fn lent_parts_of_frames(rt: HostRuntime) {
    let frame = [
        0x03, 0x04, 0x01, 0x09, 0x02, 0x20, 0x05, 0x68, 0x45, 0x6C, 0x4C, 0x6F, 0x00,
    ];
    let mut without_zero = frame;
    is_lent(&rt, &mut without_zero[..12]);
    let mut with_zero = frame;
    is_lent(&rt, &mut with_zero);
}

#[test]
fn lent_texts_of_two_frames(rt: HostRuntime) {
    let mut buffer = [0x03, 0x01, 0x61, 0x00, 0x03, 0x01, 0x62, 0x00];
    let front = take_from_bytes_cobs::<&str>(rt.alloc(), &mut buffer);
    let (first, rest) = front.expect(&rt, "the first frame has a text");
    let front = take_from_bytes_cobs::<&str>(rt.alloc(), rest);
    let (second, rest) = front.expect(&rt, "the second frame has a text");
    same(&rt, (first, second, rest.len()), ("a", "b", 0));
}

/// Asserts that a full group is read with these bytes after it.
fn full_is_read(rt: &(impl Abort + AllocGlobal), end: &[u8]) {
    let mut frame = joined(rt, &[&[0xFF], &FULL, end]);
    let value = from_bytes_cobs::<[u8; 254]>(rt.alloc(), &mut frame);
    same_at(rt, value, Ok(FULL), end);
}

#[test]
fn a_full_group_is_read(rt: HostRuntime) {
    full_is_read(&rt, &[]);
    full_is_read(&rt, &[0x00]);
    full_is_read(&rt, &[0x01]);
    full_is_read(&rt, &[0x01, 0x00]);
}

/// Asserts that the value is written as a frame into a buffer, and is read back from it.
fn comes_back<T: Serialize + DeserializeOwned + PartialEq>(
    rt: &(impl Abort + AllocGlobal),
    value: &T,
) {
    let mut buffer = [crate::OLD; 32];
    let frame = to_slice_cobs(value, &mut buffer).expect(rt, "the frame has room");
    let read = from_bytes_cobs::<Owned<T>>(rt.alloc(), frame);
    let Owned(back) = read.expect(rt, "the frame has a value");
    same(rt, back == *value, true);
}

#[test]
fn what_was_framed_comes_back(rt: HostRuntime) {
    comes_back(&rt, &());
    comes_back(&rt, &(false, 0u8, 0i64));
    comes_back(&rt, &0x1234567890ABCDEF1234567890ABCDEFu128);
    comes_back(&rt, &(i32::MIN, Some(0u16), 'z'));
    comes_back(&rt, &[0u8; 30]);
}

/// Asserts that the list is written as a frame, and is read back from it.
pub fn list_comes_back(rt: &(impl Abort + AllocGlobal), list: &[u8]) {
    let mut frame = to_allocvec_cobs(rt.alloc(), &list).expect(rt, "a vector grows");
    let read = from_bytes_cobs::<&[u8]>(rt.alloc(), &mut frame);
    same_at(rt, read, Ok(list), list.len());
}

/// Frames of values of many types.
const VALUE_FRAMES: [&[u8]; 20] = [
    &[0x01, 0x00],
    &[0x01, 0x01, 0x00],
    &[0x04, 0xC7, 0xCB, 0x02, 0x00],
    &[0x06, 0x92, 0xE8, 0xAC, 0xED, 0x0C, 0x00],
    &[
        0x0A, 0xEF, 0x9B, 0xAF, 0x85, 0x89, 0xCF, 0x95, 0x9A, 0x12, 0x00,
    ],
    &[0x04, 0x02, 0xC2, 0xA2, 0x00],
    &[0x06, 0x04, 0xF0, 0x9F, 0xA5, 0xBA, 0x00],
    &[0x01, 0x04, 0xFF, 0xFF, 0x03, 0x00],
    &[
        0x0C, 0x01, 0xFF, 0xFF, 0xFF, 0xFF, 0xFF, 0xFF, 0xFF, 0xFF, 0xFF, 0x01, 0x00,
    ],
    &[0x03, 0x02, 0xFF, 0x00],
    &[0x06, 0x03, 0xF0, 0xAC, 0xD9, 0x02, 0x00],
    &[0x08, 0x04, 0x0F, 0xC7, 0x8F, 0x9F, 0xBE, 0x0C, 0x00],
    &[0x06, 0x05, 0xE9, 0xD2, 0x01, 0x07, 0x00],
    &[0x05, 0x12, 0xA5, 0x8F, 0x03, 0x00],
    &[0x04, 0xA0, 0xB4, 0x24, 0x00],
    &[
        0x03, 0x04, 0x01, 0x09, 0x02, 0x20, 0x05, 0x68, 0x45, 0x6C, 0x4C, 0x6F, 0x00,
    ],
    &[0x06, 0x04, 0x01, 0x02, 0x03, 0x04, 0x00],
    &[0x08, 0x06, 0x68, 0x65, 0x6C, 0x4C, 0x4F, 0x21, 0x00],
    &[
        0x0A, 0x04, 0x01, 0x05, 0x02, 0x06, 0x03, 0x07, 0x04, 0x08, 0x00,
    ],
    &[0x01, 0x01, 0x06, 0x80, 0x94, 0xEB, 0xDC, 0x03, 0x00],
];

/// Reads the frame at the start of the bytes, which may succeed or fail. Asserts that each byte
/// from the first zero on is then as it was.
fn survives<T: DeserializeOwned>(rt: &(impl Abort + AllocGlobal), before: &[u8]) {
    let mut after = joined(rt, &[before]);
    let error = from_bytes_cobs::<Owned<T>>(rt.alloc(), &mut after).err();
    same_at(rt, error == Some(Error::OutOfMemory), false, before);
    let end = first_zero(before);
    same_at(rt, after.get(end..), before.get(end..), before);
}

/// Changes the byte at this place of a frame to each of the 256 values, and reads the frame with
/// four other bytes after it.
fn place_survives(rt: &(impl Abort + AllocGlobal), frame: &[u8], place: usize) {
    for byte in 0..=255 {
        let mut changed = joined(rt, &[frame, &[0x77; 4]]);
        set(&mut changed, place, byte);
        survives::<u32>(rt, &changed);
        survives::<(u8, Option<u16>)>(rt, &changed);
    }
}

#[test]
fn changed_frames_are_read_or_not(rt: HostRuntime) {
    for frame in &VALUE_FRAMES {
        for place in 0..frame.len() {
            place_survives(&rt, frame, place);
        }
    }
}
