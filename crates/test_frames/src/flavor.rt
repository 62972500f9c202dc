//! Tests of the flavor `Cobs`: in each storage, after other bytes, and with data that is taken
//! whole, byte by byte and in pieces.

ghost use Rattle.std.specs.Prelude.{◌<◌};

use crate::OLD;
use crate::rows::{FRAMES, FULL, LONG, joined};
use crate::same::{same, same_at};
use postcard::ser_flavors::{AllocVec, Cobs, Flavor, HVec, Slice, Storage};
use postcard::{Error, Result};
use std::alloc::AllocGlobal;
use std::process::Abort;

/// Writes a frame of the data, which the flavor takes in pieces of `size` bytes.
fn framed<B: Storage + Drop>(storage: B, data: &[u8], size: usize) -> Result<<B as Flavor>::Output>
    requires { 0 < size }
{
    let mut cobs = Cobs::try_new(storage)?;
    for piece in data.chunks(size) {
        cobs.try_extend(piece)?;
    }
    cobs.finalize()
}

/// Writes a frame of the data, which the flavor takes byte by byte.
fn framed_bytewise<B: Storage + Drop>(storage: B, data: &[u8]) -> Result<<B as Flavor>::Output> {
    let mut cobs = Cobs::try_new(storage)?;
    for byte in data {
        cobs.try_push(*byte)?;
    }
    cobs.finalize()
}

/// Asserts that the data has this frame in a vector and in a buffer of fixed capacity.
fn fills_vectors(rt: &(impl Abort + AllocGlobal), data: &[u8], frame: &[u8]) {
    let grown = framed(AllocVec::new(rt.alloc()), data, 1000).expect(rt, "a vector grows");
    same(rt, grown.as_slice(), frame);
    let fixed = framed(HVec::<512>::new(), data, 1000).expect(rt, "the frame has room");
    same(rt, fixed.as_slice(), frame);
}

/// Asserts that the data has this frame in a slice, whose other bytes stay as they were.
fn fills_a_slice(rt: &impl Abort, data: &[u8], frame: &[u8]) {
    let mut buffer = [OLD; 513];
    let front: &[u8] = framed(Slice::new(&mut buffer), data, 1000).expect(rt, "the frame has room");
    same(rt, front, frame);
    same(rt, buffer.get(frame.len()), Some(&OLD));
}

/// Asserts that the data has this frame in each storage.
fn fills(rt: &(impl Abort + AllocGlobal), data: &[u8], frame: &[u8]) {
    fills_vectors(rt, data, frame);
    fills_a_slice(rt, data, frame);
}

#[test]
fn each_storage_gets_the_frame(rt: HostRuntime) {
    for (data, frame) in &FRAMES {
        fills(&rt, data, frame);
    }
}

#[test]
fn each_storage_gets_a_long_frame(rt: HostRuntime) {
    for (data, frame) in &LONG {
        fills(&rt, &joined(&rt, data), &joined(&rt, frame));
    }
}

#[test]
fn once_full_it_stays_full(rt: HostRuntime) {
    let mut cobs = Cobs::try_new(HVec::<2>::new()).expect(&rt, "a code byte has room");
    same(&rt, cobs.try_push(0x01), Ok(()));
    same(&rt, cobs.try_push(0x00), Err(Error::SerializeBufferFull));
    same(&rt, cobs.try_push(0x02), Err(Error::SerializeBufferFull));
    same(
        &rt,
        cobs.try_extend(&[0x02]),
        Err(Error::SerializeBufferFull),
    );
    same(&rt, cobs.finalize().err(), Some(Error::SerializeBufferFull));
}

/// Asserts that a slice has room for a frame of the data if and only if `has_room`.
fn fits(rt: &impl Abort, data: &[u8], place: &mut [u8], has_room: bool) {
    let room = place.len();
    match framed(Slice::new(place), data, 10) {
        Ok(front) => same(rt, (front.len(), has_room), (room, true)),
        Err(e) => same(rt, (e, has_room), (Error::SerializeBufferFull, false)),
    }
}

/// Asserts that a slice of `need` bytes has room for a frame of the data, and no shorter one has.
fn needs(rt: &(impl Abort + AllocGlobal), data: &[u8], need: usize) {
    for room in 0..=need {
        let mut place = joined(rt, &[&[OLD; 7]]);
        place.truncate(room);
        fits(rt, data, &mut place, room == need);
    }
}

#[test]
fn short_of_room(rt: HostRuntime) {
    needs(&rt, &[0x04, 0x01, 0x00, 0x20, 0x30], 7);
    needs(&rt, &[0x00], 3);
    needs(&rt, &[], 2);
}

/// Writes a frame of the data after the bytes that the vector holds, and asserts that the vector
/// holds these pieces then.
fn goes_after(rt: &(impl Abort + AllocGlobal), held: Vec<u8>, data: &[u8], after: &[&[u8]]) {
    let vec = framed(AllocVec::from_vec(held), data, 1000).expect(rt, "a vector grows");
    same(rt, vec, joined(rt, after));
}

/// The bytes in a vector before, the data, and the pieces of the vector's bytes then.
const AFTER: [(&[u8], &[u8], &[&[u8]]); 4] = [
    (&[0xAA, 0xBB], &[0x01], &[&[0xAA, 0xBB, 0x02, 0x01, 0x00]]),
    (
        &[0xAA, 0xBB, 0x02, 0x01, 0x00],
        &[0x03, 0x48, 0x69, 0x21],
        &[
            &[0xAA, 0xBB, 0x02, 0x01, 0x00],
            &[0x05, 0x03, 0x48, 0x69, 0x21, 0x00],
        ],
    ),
    (&[0xAA], &FULL, &[&[0xAA, 0xFF], &FULL, &[0x01, 0x00]]),
    (
        &[0xAA],
        &[0x01, 0x00, 0x20, 0x30],
        &[&[0xAA, 0x02, 0x01, 0x03, 0x20, 0x30, 0x00]],
    ),
];

#[test]
fn a_frame_goes_after_held_bytes(rt: HostRuntime) {
    for (held, data, after) in &AFTER {
        goes_after(&rt, joined(&rt, &[held]), data, after);
    }
}

#[test]
fn a_frame_goes_after_a_frame(rt: HostRuntime) {
    let first = framed(AllocVec::new(rt.alloc()), &[0x01], 1).expect(&rt, "a vector grows");
    goes_after(
        &rt,
        first,
        &[0x00],
        &[&[0x02, 0x01, 0x00, 0x01, 0x01, 0x00]],
    );
}

#[test]
fn a_frame_goes_after_a_byte_of_a_slice(rt: HostRuntime) {
    let mut buffer = [OLD; 8];
    let mut slice = Slice::new(&mut buffer);
    same(&rt, slice.try_push(0x09), Ok(()));
    let front: &[u8] = framed(slice, &[0x01, 0x31], 2).expect(&rt, "the frame has room");
    same(&rt, front, [0x09, 0x03, 0x01, 0x31, 0x00].as_slice());
    same(&rt, buffer, [0x09, 0x03, 0x01, 0x31, 0x00, OLD, OLD, OLD]);
}

#[test]
fn a_frame_has_no_room_after_a_byte_of_a_slice(rt: HostRuntime) {
    let mut buffer = [OLD; 4];
    let mut short = Slice::new(&mut buffer);
    same(&rt, short.try_push(0x09), Ok(()));
    let full = framed(short, &[0x01, 0x31], 2).err();
    same(&rt, full, Some(Error::SerializeBufferFull));
}

/// Writes a byte and then the frame of two bytes, which has five bytes, into a slice. Asserts that
/// the slice is returned, with the frame if it has room.
fn comes_back(rt: &impl Abort, place: &mut [u8]) {
    let room = place.len();
    let mut slice = Slice::new(place);
    same(rt, slice.try_push(0x09), Ok(()));
    let mut cobs = Cobs::open(slice);
    let pushed = cobs.try_extend(&[0x01, 0x31]);
    let (slice, closed) = cobs.close();
    let (all, count) = slice.into_parts();
    let expected = (room >= 4, room >= 5, room);
    same(rt, (pushed.is_ok(), closed.is_ok(), all.len()), expected);
    if closed.is_ok() {
        let frame = [0x09, 0x03, 0x01, 0x31, 0x00];
        same_at(rt, all.get(..count), Some(frame.as_slice()), room);
        same_at(rt, all.get(count..), [OLD; 6].get(count..room), room);
    }
}

#[test]
fn the_storage_comes_back(rt: HostRuntime) {
    for room in 1..7 {
        let mut place = joined(&rt, &[&[OLD; 6]]);
        place.truncate(room);
        comes_back(&rt, &mut place);
    }
}

#[test]
fn a_vector_comes_back(rt: HostRuntime) {
    let mut cobs = Cobs::open(AllocVec::from_vec(joined(&rt, &[&[0x09]])));
    same(&rt, cobs.try_push(0x31), Ok(()));
    let held = cobs
        .into_storage()
        .finalize()
        .expect(&rt, "a vector comes back");
    same(&rt, held.len(), 3);
    same(&rt, (held.first(), held.last()), (Some(&0x09), Some(&0x31)));
}

/// Asserts that data has the same frame whether it is taken byte by byte, in pieces of up to 7
/// bytes, or whole.
pub fn pieces_make_the_same_frame(rt: &(impl Abort + AllocGlobal), data: &[u8]) {
    let len = data.len();
    let whole = framed(AllocVec::new(rt.alloc()), data, 600).expect(rt, "a vector grows");
    let bytewise = framed_bytewise(AllocVec::new(rt.alloc()), data).expect(rt, "a vector grows");
    same_at(rt, bytewise.as_slice(), whole.as_slice(), len);
    for size in 1..8 {
        let cut = framed(AllocVec::new(rt.alloc()), data, size).expect(rt, "a vector grows");
        same_at(rt, cut.as_slice(), whole.as_slice(), (len, size));
    }
}
