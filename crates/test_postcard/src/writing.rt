//! Tests of the calls that write.

use crate::asserts::{OLD, assert_bytes, same};
use arrayvec::ArrayVec;
use postcard::experimental::serialized_size;
use postcard::ser_flavors::Size;
use postcard::{
    Error, fill_slice, serialize_with_flavor, to_allocvec, to_extend, to_io, to_slice, to_stdvec,
    to_vec,
};
use std::process::Abort;

/// The encoding of `(1u8, 10u32, "Hello!")`.
const TUPLE: [u8; 9] = [0x01, 0x0A, 0x06, 0x48, 0x65, 0x6C, 0x6C, 0x6F, 0x21];

#[test]
fn a_tuple_into_vectors_and_counted(rt: HostRuntime) {
    let tuple = (1u8, 10u32, "Hello!");
    same(&rt, to_vec::<_, 9>(&tuple), Ok(ArrayVec::from(TUPLE)));
    same(
        &rt,
        to_vec::<_, 8>(&tuple).err(),
        Some(Error::SerializeBufferFull),
    );
    assert_bytes(&rt, to_stdvec(rt.alloc(), &tuple), &TUPLE);
    assert_bytes(&rt, to_allocvec(rt.alloc(), &tuple), &TUPLE);
    same(&rt, serialized_size(&tuple), Ok(9));
    same(&rt, serialize_with_flavor(&false, Size::default()), Ok(1));
}

#[test]
fn after_other_bytes(rt: HostRuntime) {
    let want = [0x01, 0x03, 0x48, 0x69, 0x21];
    match to_extend(&true, Vec::new(rt.alloc())) {
        Ok(vec) => assert_bytes(&rt, to_extend(&"Hi!", vec), &want),
        Err(e) => panic!(rt; "{e}"),
    }
    match to_io(&true, Vec::new(rt.alloc())) {
        Ok(vec) => assert_bytes(&rt, to_io(&"Hi!", vec), &want),
        Err(e) => panic!(rt; "{e}"),
    }
}

#[test]
fn borrowed_lists_into_growing_memory(rt: HostRuntime) {
    let ones = [1u32; 30];
    let list = ones.as_slice();
    let mut want = [0x01; 31];
    want[0] = 30;
    assert_bytes(&rt, to_allocvec(rt.alloc(), &list), &want);
    assert_bytes(&rt, to_stdvec(rt.alloc(), &list), &want);
    assert_bytes(&rt, to_extend(&list, Vec::new(rt.alloc())), &want);
    assert_bytes(&rt, to_io(&list, Vec::new(rt.alloc())), &want);
}

/// Asserts that a list of two numbers doesn't fit in the first `room` bytes of a buffer, which is
/// left as this.
fn assert_full(rt: &impl Abort, room: usize, left: [u8; 4]) {
    let mut buffer = [OLD; 4];
    let (front, _) = buffer.split_at_mut(room.min(4));
    let answer = fill_slice(&[1u32, 300].as_slice(), front);
    same(rt, answer, Err(Error::SerializeBufferFull));
    same(rt, buffer, left);
}

#[test]
fn a_borrowed_list_into_each_room(rt: HostRuntime) {
    assert_full(&rt, 0, [OLD; 4]);
    assert_full(&rt, 1, [0x02, OLD, OLD, OLD]);
    assert_full(&rt, 2, [0x02, 0x01, OLD, OLD]);
    assert_full(&rt, 3, [0x02, 0x01, OLD, OLD]);
    let mut buffer = [OLD; 4];
    same(&rt, fill_slice(&[1u32, 300].as_slice(), &mut buffer), Ok(4));
    same(&rt, buffer, [0x02, 0x01, 0xAC, 0x02]);
    let mut buffer = [OLD; 7];
    same(&rt, fill_slice(&[1u32, 300].as_slice(), &mut buffer), Ok(4));
    same(&rt, buffer, [0x02, 0x01, 0xAC, 0x02, OLD, OLD, OLD]);
}

#[test]
fn a_text_into_as_much_room_as_needed(rt: HostRuntime) {
    let mut buffer = [OLD; 4];
    same(&rt, to_slice(&"Hi!", &mut buffer).is_ok(), true);
    same(&rt, buffer, [0x03, 0x48, 0x69, 0x21]);
    let mut buffer = [OLD; 3];
    same(
        &rt,
        to_slice(&"Hi!", &mut buffer).err(),
        Some(Error::SerializeBufferFull),
    );
    same(&rt, buffer, [0x03, OLD, OLD]);
}
