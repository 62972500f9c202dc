//! Checks of a value and its bytes: buffers of each length, each byte changed, and each byte of the
//! frame changed.

use postcard::experimental::serialized_size;
use postcard::{
    Deserialize, DeserializeOwned, Error, Owned, Serialize, from_bytes_cobs, take_from_bytes,
    to_slice, to_slice_cobs,
};
use std::alloc::{AllocError, AllocGlobal, Global};
use std::process::Abort;

/// The bytes of a buffer before anything is written.
const OLD: u8 = 0xAA;

/// Returns whether reading a value from a slice may fail with this error.
fn is_named(error: &Error) -> bool {
    matches!(
        error,
        Error::DeserializeUnexpectedEnd
            | Error::DeserializeBadVarint
            | Error::DeserializeBadBool
            | Error::DeserializeBadChar
            | Error::DeserializeBadUtf8
            | Error::DeserializeBadOption
            | Error::SerdeDeCustom
    )
}

/// Returns copies of the bytes, each with one byte changed: at each place, to each of the 255 other
/// values.
fn copies(alloc: Global, bytes: &[u8]) -> Result<Vec<Vec<u8>>, AllocError> {
    let mut copies = Vec::new(alloc);
    for place in 0..bytes.len() {
        for change in 1..=255 {
            let mut copy = bytes.to_vec(alloc)?;
            if let Some(changed) = copy.get_mut(place) {
                *changed ^= change;
            }
            copies.push(copy)?;
        }
    }
    Ok(copies)
}

/// Returns what [`copies`] does. An allocation that fails ends the test.
pub(crate) fn changes(rt: &(impl Abort + AllocGlobal), bytes: &[u8]) -> Vec<Vec<u8>> {
    copies(rt.alloc(), bytes).expect(rt, "copies")
}

/// Returns the frame of fewer than 254 bytes, and then `more`. In the frame each run of bytes other
/// than zero comes after its length plus one, and a zero is at the end.
fn framed(alloc: Global, bytes: &[u8], more: &[u8]) -> Result<Vec<u8>, AllocError> {
    let mut frame = Vec::new(alloc);
    for run in bytes.split(|byte| *byte == 0) {
        frame.push(u8::try_from(run.len().saturating_add(1)).unwrap_or(0))?;
        frame.extend_from_slice(run)?;
    }
    frame.push(0)?;
    frame.extend_from_slice(more)?;
    Ok(frame)
}

/// Returns copies of the frame of these bytes with four bytes after it, each with one byte changed.
pub(crate) fn frame_changes(rt: &(impl Abort + AllocGlobal), bytes: &[u8]) -> Vec<Vec<u8>> {
    let frame = framed(rt.alloc(), bytes, &[0x77; 4]).expect(rt, "a frame");
    changes(rt, &frame)
}

/// Returns whether a call wrote `want` into the first bytes of a buffer of `room` bytes, or failed
/// because there is no room for it.
fn is_room(answer: postcard::Result<&mut [u8]>, room: usize, want: &[u8]) -> bool {
    match answer {
        Ok(front) => &*front == want,
        Err(e) => e == Error::SerializeBufferFull && room < want.len(),
    }
}

/// Returns whether the buffer begins with a prefix of `want`, of at most `room` bytes, and its
/// other bytes are unchanged.
fn has_a_beginning(buffer: &[u8; 48], want: &[u8], room: usize) -> bool {
    let same = buffer.iter().zip(want).take_while(|(a, b)| a == b);
    let written = same.count().min(room);
    buffer.get(written..) == [OLD; 48].get(written..)
}

/// Writes a value into a buffer of this length. Returns whether this succeeds if and only if the
/// encoding fits. In each case a prefix of the encoding must be written, and the other bytes of the
/// buffer be unchanged.
fn takes_room<T: Serialize>(value: &T, want: &[u8], room: usize) -> bool {
    let mut buffer = [OLD; 48];
    let right = match buffer.get_mut(..room) {
        Some(place) => is_room(to_slice(value, place), room, want),
        None => false,
    };
    right && has_a_beginning(&buffer, want, room)
}

/// Writes a value as a frame into a buffer of this length. Returns whether this succeeds if and
/// only if the frame fits, and whether the other bytes are unchanged.
fn frame_takes_room<T: Serialize>(value: &T, want: &[u8], room: usize) -> bool {
    let mut buffer = [OLD; 48];
    let right = match buffer.get_mut(..room) {
        Some(place) => is_room(to_slice_cobs(value, place), room, want),
        None => false,
    };
    right && buffer.get(room..) == [OLD; 48].get(room..)
}

/// Returns whether the encoding of the value is at most as long as the bytes that were read.
fn is_no_longer<T: Serialize>(value: &T, copy: &[u8], rest: &[u8]) -> bool {
    match serialized_size(value) {
        Ok(size) => size <= copy.len().saturating_sub(rest.len()),
        Err(_) => false,
    }
}

/// Asserts that reading each copy fails with a named error or returns a value. The value's encoding
/// is no longer than the bytes that were read.
fn copies_are_answered<'a, T: Serialize + Deserialize<'a>>(
    rt: &(impl Abort + AllocGlobal),
    copies: &'a [Vec<u8>],
) {
    for copy in copies {
        let right = match take_from_bytes::<T>(rt.alloc(), copy) {
            Ok((value, rest)) => is_no_longer(&value, copy, rest),
            Err(e) => is_named(&e),
        };
        assert!(rt; right, "{copy:?}");
    }
}

/// Asserts what [`copies_are_answered`] does, for a type that borrows nothing.
fn owned_copies_are_answered<T: Serialize + DeserializeOwned>(
    rt: &(impl Abort + AllocGlobal),
    copies: &[Vec<u8>],
) {
    for copy in copies {
        let right = match take_from_bytes::<Owned<T>>(rt.alloc(), copy) {
            Ok((Owned(value), rest)) => is_no_longer(&value, copy, rest),
            Err(e) => is_named(&e),
        };
        assert!(rt; right, "{copy:?}");
    }
}

/// Asserts that reading each frame fails with a named error or returns a value.
fn frames_are_answered<'a, T: Deserialize<'a>>(
    rt: &(impl Abort + AllocGlobal),
    frames: &'a mut [Vec<u8>],
) {
    for frame in frames {
        if let Err(e) = from_bytes_cobs::<T>(rt.alloc(), frame) {
            let named = is_named(&e) || e == Error::DeserializeBadEncoding;
            assert!(rt; named, "{e}");
        }
    }
}

/// Returns whether a buffer is unchanged from its first zero on.
fn is_kept(before: &[u8], after: &[u8]) -> bool {
    let end = before.iter().position(|byte| *byte == 0);
    let end = end.unwrap_or(before.len());
    after.get(end..) == before.get(end..)
}

/// Asserts, after the changed frames of these bytes were read, that each buffer is unchanged from
/// its first zero on.
pub(crate) fn frames_are_kept(rt: &(impl Abort + AllocGlobal), bytes: &[u8], frames: &[Vec<u8>]) {
    let changed = frame_changes(rt, bytes);
    assert!(rt; changed.len() == frames.len());
    for (before, after) in changed.iter().zip(frames) {
        assert!(rt; is_kept(before, after), "{before:?}");
    }
}

/// Writes a value and its frame into buffers of each length up to three bytes more than its frame
/// needs, and checks the results.
fn take_their_room<T: Serialize>(rt: &(impl Abort + AllocGlobal), value: &T, bytes: &[u8]) {
    let frame = framed(rt.alloc(), bytes, &[]).expect(rt, "a frame");
    for room in 0..=frame.len().saturating_add(3) {
        let right = takes_room(value, bytes, room) && frame_takes_room(value, &frame, room);
        assert!(rt; right, "into {room} bytes");
    }
}

/// Writes a value that may borrow into buffers of each length, reads changed copies of its bytes and
/// of its frame, and checks the results.
pub(crate) fn withstands_lent<'a, T: Serialize + Deserialize<'a>>(
    rt: &(impl Abort + AllocGlobal),
    value: &T,
    bytes: &[u8],
    copies: &'a [Vec<u8>],
    frames: &'a mut [Vec<u8>],
) {
    take_their_room(rt, value, bytes);
    copies_are_answered::<T>(rt, copies);
    frames_are_answered::<T>(rt, frames);
}

/// Writes a value that borrows nothing into buffers of each length, reads its bytes and its frame
/// with each byte changed, and checks the results.
pub(crate) fn withstands<T: Serialize + DeserializeOwned>(
    rt: &(impl Abort + AllocGlobal),
    value: T,
    bytes: &[u8],
) {
    take_their_room(rt, &value, bytes);
    owned_copies_are_answered::<T>(rt, &changes(rt, bytes));
    let mut frames = frame_changes(rt, bytes);
    frames_are_answered::<Owned<T>>(rt, &mut frames);
    frames_are_kept(rt, bytes, &frames);
}
