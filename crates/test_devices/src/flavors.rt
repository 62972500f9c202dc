//! Tests of writing values into other flavors than a slice.

use crate::asserts::{same, same_bytes};
use postcard::experimental::serialized_size;
use postcard::ser_flavors::{Flavor, HVec, Size, Storage};
use postcard::{Error, serialize_with_flavor, to_vec};
use std::ops::IndexMut;

#[test]
fn into_fixed_capacity(rt: HostRuntime) {
    let tuple = (1u8, 10u32, "Hello!");
    let want = [0x01, 0x0A, 0x06, 0x48, 0x65, 0x6C, 0x6C, 0x6F, 0x21];
    let fixed = to_vec::<_, 9>(&tuple).expect(&rt, "the tuple has room");
    same_bytes(&rt, fixed.as_slice(), &want);
    same(
        &rt,
        to_vec::<_, 8>(&tuple).err(),
        Some(Error::SerializeBufferFull),
    );
}

#[test]
fn a_piece_that_does_not_fit(rt: HostRuntime) {
    let mut vec = HVec::<4>::new();
    vec.try_extend(&[0x01, 0x02])
        .expect(&rt, "two bytes have room");
    let full = vec.try_extend(&[0x03, 0x04, 0x05]);
    let error = full.expect_err(&rt, "three more have no room");
    same(&rt, error, Error::SerializeBufferFull);
    same(&rt, vec[0], 0x01);
    same(&rt, vec[1], 0x02);
    vec.try_extend(&[0x03, 0x04])
        .expect(&rt, "two more have room");
    vec[1] = 0x09;
    let bytes = vec.finalize().expect(&rt, "a vector comes back");
    same_bytes(&rt, bytes.as_slice(), &[0x01, 0x09, 0x03, 0x04]);
}

#[test]
fn counted(rt: HostRuntime) {
    same(&rt, serialize_with_flavor(&false, Size::default()), Ok(1));
    same(&rt, serialized_size(&(1u8, 10u32, "Hello!")), Ok(9));
}
