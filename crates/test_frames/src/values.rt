//! Tests of writing values as frames: rows of the published vectors, and frames worked out by hand.

use crate::OLD;
use crate::rows::{FULL, FULL_LESS_ONE, LONG, joined};
use crate::same::same;
use postcard::{
    Error, Result, Serialize, fill_slice_cobs, to_allocvec_cobs, to_allocvec_cobs_after,
    to_slice_cobs, to_stdvec_cobs, to_vec_cobs,
};
use std::alloc::AllocGlobal;
use std::process::Abort;
use test_support::types::RefStruct;

/// Asserts the outcome of writing a frame into a buffer of `room` bytes. If the frame has room, all
/// of it is written. No byte after the `room` bytes changes.
fn is_written(
    rt: &impl Abort,
    buffer: &[u8; 16],
    room: usize,
    outcome: Result<usize>,
    frame: &[u8],
) {
    let len = frame.len();
    if len <= room {
        same(rt, outcome, Ok(len));
        same(rt, buffer.get(..len), Some(frame));
    } else {
        same(rt, outcome, Err(Error::SerializeBufferFull));
    }
    let end = len.min(room);
    same(rt, buffer.get(end..), [OLD; 16].get(end..));
}

/// Asserts that a successful call wrote this frame, and returns the frame's length.
fn written_len(rt: &impl Abort, written: Result<&mut [u8]>, frame: &[u8]) -> Result<usize> {
    match written {
        Ok(front) => {
            same(rt, &*front, frame);
            Ok(front.len())
        }
        Err(e) => Err(e),
    }
}

/// Asserts that the value has this frame in each buffer that is as long or longer, whose other
/// bytes stay as they were. In a shorter buffer, writing it fails.
fn is_framed_in_slices<T: Serialize>(rt: &impl Abort, value: &T, frame: &[u8]) {
    for room in 0..=16 {
        let mut buffer = [OLD; 16];
        let written = written_len(rt, to_slice_cobs(value, &mut buffer[..room]), frame);
        is_written(rt, &buffer, room, written, frame);
        let mut buffer = [OLD; 16];
        let written = fill_slice_cobs(value, &mut buffer[..room]);
        is_written(rt, &buffer, room, written, frame);
    }
}

/// Asserts that the value has this frame in a vector of fixed capacity, and in one that allocates.
fn is_framed_in_vectors<T: Serialize>(rt: &(impl Abort + AllocGlobal), value: &T, frame: &[u8]) {
    let fixed = to_vec_cobs::<_, 16>(value).expect(rt, "the frame has room");
    same(rt, fixed.as_slice(), frame);
    let grown = to_allocvec_cobs(rt.alloc(), value).expect(rt, "a vector grows");
    same(rt, grown.as_slice(), frame);
    let grown = to_stdvec_cobs(rt.alloc(), value).expect(rt, "a vector grows");
    same(rt, grown.as_slice(), frame);
}

/// Asserts that the value has this frame, in a slice and in each vector.
fn is_framed<T: Serialize>(rt: &(impl Abort + AllocGlobal), value: &T, frame: &[u8]) {
    is_framed_in_slices(rt, value, frame);
    is_framed_in_vectors(rt, value, frame);
}

#[test]
fn frames_of_values(rt: HostRuntime) {
    is_framed(&rt, &(), &[0x01, 0x00]);
    is_framed(&rt, &false, &[0x01, 0x01, 0x00]);
    is_framed(&rt, &true, &[0x02, 0x01, 0x00]);
    is_framed(&rt, &"1", &[0x03, 0x01, 0x31, 0x00]);
    is_framed(&rt, &"Hi!", &[0x05, 0x03, 0x48, 0x69, 0x21, 0x00]);
    let list = [0x01u8, 0x00, 0x20, 0x30];
    let frame = [0x03, 0x04, 0x01, 0x03, 0x20, 0x30, 0x00];
    is_framed(&rt, &list.as_slice(), &frame);
    is_framed(&rt, &list, &[0x02, 0x01, 0x03, 0x20, 0x30, 0x00]);
}

#[test]
fn a_frame_of_lent_parts(rt: HostRuntime) {
    let lent = RefStruct {
        bytes: &[0x01, 0x00, 0x02, 0x20],
        str_s: "hElLo",
    };
    let frame = [
        0x03, 0x04, 0x01, 0x09, 0x02, 0x20, 0x05, 0x68, 0x45, 0x6C, 0x4C, 0x6F, 0x00,
    ];
    is_framed(&rt, &lent, &frame);
    let fixed = to_vec_cobs::<_, 13>(&lent).expect(&rt, "the frame has room");
    same(&rt, fixed.as_slice(), frame.as_slice());
    let full = to_vec_cobs::<_, 12>(&lent).err();
    same(&rt, full, Some(Error::SerializeBufferFull));
}

/// Writes a frame of the value into a vector after the bytes that it holds, and asserts that it
/// holds these pieces then.
fn goes_after<T: Serialize>(
    rt: &(impl Abort + AllocGlobal),
    held: Vec<u8>,
    value: &T,
    after: &[&[u8]],
) -> Vec<u8> {
    let vec = to_allocvec_cobs_after(value, held).expect(rt, "a vector grows");
    same(rt, vec.as_slice(), &joined(rt, after));
    vec
}

/// Asserts that the value's frame consists of these pieces.
fn has_pieces<T: Serialize>(rt: &(impl Abort + AllocGlobal), value: &T, pieces: &[&[u8]]) {
    let frame = to_allocvec_cobs(rt.alloc(), value).expect(rt, "a vector grows");
    same(rt, frame, joined(rt, pieces));
}

#[test]
fn frames_with_full_groups(rt: HostRuntime) {
    has_pieces(&rt, &FULL_LESS_ONE, LONG[0].1);
    has_pieces(&rt, &FULL, LONG[1].1);
    has_pieces(&rt, &[0x11u8; 255], LONG[2].1);
}

#[test]
fn frames_after_bytes_that_are_there(rt: HostRuntime) {
    let held = [0xAA, 0xBB].as_slice();
    let one = [0x02, 0x01, 0x00].as_slice();
    let text = [0x05, 0x03, 0x48, 0x69, 0x21, 0x00].as_slice();
    let none = [0x01, 0x01, 0x00].as_slice();
    let frames = goes_after(&rt, joined(&rt, &[held]), &true, &[held, one]);
    goes_after(&rt, frames, &"Hi!", &[held, one, text]);
    let frames = goes_after(&rt, Vec::new(rt.alloc()), &true, &[one]);
    goes_after(&rt, frames, &false, &[one, none]);
}

/// Asserts that a frame is written after these bytes.
fn true_goes_after(rt: &(impl Abort + AllocGlobal), held: &[u8]) {
    let one = [0x02, 0x01, 0x00].as_slice();
    goes_after(rt, joined(rt, &[held]), &true, &[held, one]);
}

#[test]
fn a_frame_after_any_number_of_bytes(rt: HostRuntime) {
    let bytes = [0xAA; 300];
    for count in 0..=300 {
        true_goes_after(&rt, &bytes[..count]);
    }
}
