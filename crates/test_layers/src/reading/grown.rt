//! Types whose values allocate, or have a fixed capacity.

use super::{GREATEST, assert_read, check_refused, read, read_owned};
use crate::asserts::{same, same_bytes, value};
use arrayvec::{ArrayString, ArrayVec};
use postcard_de::{Deserialize, DeserializeOwned, Deserializer, Error, Owned, Result};
use std::alloc::Global;
use std::collections::BTreeMap;
use std::convert::AsSlice;
use std::process::Abort;
use std::rc::Rc;

// A run with `rt try --test --fail-alloc N`, in which only the Nth allocation fails, ends as a run
// without it. If an allocation failed, the value is read once more.

fn read_twice<'a, T: Deserialize<'a>>(alloc: Global, bytes: &'a [u8]) -> Result<T> {
    match read(alloc, bytes) {
        Err(Error::OutOfMemory) => read(alloc, bytes),
        answer => answer,
    }
}

fn read_owned_twice<T: DeserializeOwned>(alloc: Global, bytes: &[u8]) -> Result<T> {
    match read_owned(alloc, bytes) {
        Err(Error::OutOfMemory) => read_owned(alloc, bytes),
        answer => answer,
    }
}

/// Reads a value from good bytes, in at most two tries.
fn read_well<'a, T: Deserialize<'a>>(rt: &impl Abort, alloc: Global, bytes: &'a [u8]) -> T {
    value(rt, read_twice(alloc, bytes))
}

fn read_owned_well<T: DeserializeOwned>(rt: &impl Abort, alloc: Global, bytes: &[u8]) -> T {
    value(rt, read_owned_twice(alloc, bytes))
}

/// Reads a value from good bytes by the `Deserialize` of `Owned`, in at most two tries.
fn lead_back<T: DeserializeOwned>(rt: &impl Abort, alloc: Global, bytes: &[u8]) -> T {
    let Owned(read) = read_well::<Owned<T>>(rt, alloc, bytes);
    read
}

fn copy_bytes(alloc: Global, bytes: &[u8]) -> Result<Vec<u8>> {
    Deserializer::from_bytes(bytes).deserialize_byte_buf(alloc)
}

/// Asserts the bytes of a string or a list that is read by both traits.
fn check_bytes<'a, T: Deserialize<'a> + DeserializeOwned + AsSlice<u8>>(
    rt: &impl Abort,
    alloc: Global,
    bytes: &'a [u8],
    want: &[u8],
) {
    same_bytes(rt, read_well::<T>(rt, alloc, bytes).as_slice(), want);
    same_bytes(rt, read_owned_well::<T>(rt, alloc, bytes).as_slice(), want);
}

fn copy_well(rt: &impl Abort, alloc: Global, bytes: &[u8]) -> Vec<u8> {
    let copy = match copy_bytes(alloc, bytes) {
        Err(Error::OutOfMemory) => copy_bytes(alloc, bytes),
        answer => answer,
    };
    value(rt, copy)
}

#[test]
fn reads_texts_and_lists_of_bytes(rt: HostRuntime) {
    let alloc = rt.alloc();
    check_bytes::<String>(&rt, alloc, &[0x02, 0x48, 0x69], b"Hi");
    check_bytes::<Vec<u8>>(&rt, alloc, &[0x02, 0x05, 0x06], &[5, 6]);
    check_bytes::<Vec<u8>>(
        &rt,
        alloc,
        &[0x08, 0xFF, 0xFF, 0xFF, 0x00, 0x00, 0x00, 0x00, 0x00],
        &[0xFF, 0xFF, 0xFF, 0x00, 0x00, 0x00, 0x00, 0x00],
    );
    same_bytes(&rt, &copy_well(&rt, alloc, &[0x02, 0x05, 0x06]), &[5, 6]);
}

fn check_refused_twice<'a, T: Deserialize<'a> + DeserializeOwned>(
    rt: &impl Abort,
    alloc: Global,
    bytes: &'a [u8],
    want: &Error,
) {
    same(rt, read_twice::<T>(alloc, bytes).err().as_ref(), Some(want));
    same(
        rt,
        read_owned_twice::<T>(alloc, bytes).err().as_ref(),
        Some(want),
    );
}

#[test]
fn refuses_texts_and_lists_of_bytes(rt: HostRuntime) {
    let alloc = rt.alloc();
    check_refused_twice::<String>(&rt, alloc, &[0x01, 0xFF], &Error::DeserializeBadUtf8);
    check_refused_twice::<Vec<u8>>(
        &rt,
        alloc,
        &[0x88, 0xFF, 0xFF, 0xFF, 0x00, 0x00, 0x00, 0x00, 0x00],
        &Error::DeserializeUnexpectedEnd,
    );
}

/// A count of 2^64 - 1, and three bytes.
const ANNOUNCED: [u8; 13] = [
    0xFF, 0xFF, 0xFF, 0xFF, 0xFF, 0xFF, 0xFF, 0xFF, 0xFF, 0x01, 0x61, 0x62, 0x63,
];

fn assert_copy_ends(rt: &impl Abort, alloc: Global, bytes: &[u8]) {
    let refused = copy_bytes(alloc, bytes).err();
    same(rt, refused, Some(Error::DeserializeUnexpectedEnd));
}

/// An announced count requests no memory, so these results are the same if the first allocation
/// fails.
#[test]
fn asks_for_what_was_read_alone(rt: HostRuntime) {
    let alloc = rt.alloc();
    check_refused::<String>(&rt, alloc, &ANNOUNCED, &Error::DeserializeUnexpectedEnd);
    check_refused::<Vec<u8>>(&rt, alloc, &GREATEST, &Error::DeserializeUnexpectedEnd);
    check_refused::<BTreeMap<u8, u8>>(&rt, alloc, &GREATEST, &Error::DeserializeUnexpectedEnd);
    assert_copy_ends(&rt, alloc, &[0x02, 0x05]);
    assert_copy_ends(&rt, alloc, &ANNOUNCED);
}

#[test]
fn reads_into_fixed_room(rt: HostRuntime) {
    let alloc = rt.alloc();
    let two: ArrayVec<u8, 2> = ArrayVec::from([1, 2]);
    assert_read(&rt, alloc, &[0x02, 0x01, 0x02], &Ok(two));
    let long = [0x03, 0x01, 0x02, 0x03];
    check_refused::<ArrayVec<u8, 2>>(&rt, alloc, &long, &Error::SerdeDeCustom);
    let ends = [0x03, 0x01, 0x02];
    check_refused::<ArrayVec<u8, 2>>(&rt, alloc, &ends, &Error::DeserializeUnexpectedEnd);
    check_refused::<ArrayVec<(), 3>>(&rt, alloc, &GREATEST, &Error::SerdeDeCustom);
}

#[test]
fn reads_texts_into_fixed_room(rt: HostRuntime) {
    let alloc = rt.alloc();
    let text = read::<ArrayString<2>>(alloc, &[0x02, 0x61, 0x62]);
    same_bytes(&rt, value(&rt, text).as_bytes(), b"ab");
    let text = read_owned::<ArrayString<2>>(alloc, &[0x02, 0x48, 0x69]);
    same_bytes(&rt, value(&rt, text).as_bytes(), b"Hi");
    let long = [0x03, 0x61, 0x62, 0x63];
    check_refused::<ArrayString<2>>(&rt, alloc, &long, &Error::SerdeDeCustom);
    let long = [0x03, 0x61, 0x62, 0xFF];
    check_refused::<ArrayString<2>>(&rt, alloc, &long, &Error::DeserializeBadUtf8);
}

fn assert_pairs(rt: &impl Abort, map: &BTreeMap<u8, u8>, want: &[(u8, u8)]) {
    same(rt, map.len(), want.len());
    for (key, value) in want {
        same(rt, map.get(key), Some(value));
    }
}

fn check_map(rt: &impl Abort, alloc: Global, bytes: &[u8], want: &[(u8, u8)]) {
    assert_pairs(rt, &read_well(rt, alloc, bytes), want);
    assert_pairs(rt, &read_owned_well(rt, alloc, bytes), want);
}

#[test]
fn reads_maps(rt: HostRuntime) {
    let alloc = rt.alloc();
    check_map(&rt, alloc, &[0x02, 0x01, 0x05, 0x01, 0x06], &[(1, 6)]);
    check_map(
        &rt,
        alloc,
        &[0x02, 0x02, 0x06, 0x01, 0x05],
        &[(1, 5), (2, 6)],
    );
    check_map(&rt, alloc, &[0x00], &[]);
}

#[test]
fn reads_boxes(rt: HostRuntime) {
    let alloc = rt.alloc();
    same(&rt, *read_well::<Box<u8>>(&rt, alloc, &[0x07]), 7);
    same(&rt, *read_owned_well::<Box<u8>>(&rt, alloc, &[0x07]), 7);
    same(&rt, *lead_back::<Box<u8>>(&rt, alloc, &[0x07]), 7);
}

#[test]
fn reads_shared_pointers(rt: HostRuntime) {
    let alloc = rt.alloc();
    same(&rt, *read_well::<Rc<u8>>(&rt, alloc, &[0x07]), 7);
    same(&rt, *read_owned_well::<Rc<u8>>(&rt, alloc, &[0x07]), 7);
    same(&rt, *lead_back::<Rc<u8>>(&rt, alloc, &[0x07]), 7);
}

#[test]
fn reads_an_owned_pair(rt: HostRuntime) {
    let pair = lead_back::<(u8, u32)>(&rt, rt.alloc(), &[0x01, 0x0A]);
    same(&rt, pair, (1, 10));
}

/// Returns the number in the box, or 0 if there is no box.
fn number_in(some: Option<Box<u8>>) -> u8 {
    match some {
        Some(boxed) => *boxed,
        None => 0,
    }
}

/// Returns the bytes of the string, or none if there is no string.
fn bytes_of(text: Option<&String>) -> &[u8] {
    match text {
        Some(text) => text.as_bytes(),
        None => &[],
    }
}

#[test]
fn reads_lists_of_texts(rt: HostRuntime) {
    let bytes = [0x02, 0x01, 0x61, 0x01, 0x62];
    let texts = read_well::<Vec<String>>(&rt, rt.alloc(), &bytes);
    same(&rt, texts.len(), 2);
    same_bytes(&rt, bytes_of(texts.first()), b"a");
    same_bytes(&rt, bytes_of(texts.get(1)), b"b");
}

#[test]
fn reads_options_of_boxes(rt: HostRuntime) {
    let alloc = rt.alloc();
    same(&rt, number_in(read_well(&rt, alloc, &[0x01, 0x07])), 7);
    same(
        &rt,
        number_in(read_owned_well(&rt, alloc, &[0x01, 0x07])),
        7,
    );
}

#[test]
fn reads_what_has_parts_that_grow(rt: HostRuntime) {
    let alloc = rt.alloc();
    let (number, text) = read_well::<(Rc<u8>, String)>(&rt, alloc, &[0x07, 0x01, 0x61]);
    same(&rt, *number, 7);
    same_bytes(&rt, text.as_bytes(), b"a");
    same(&rt, read_well::<Vec<()>>(&rt, alloc, &[0x03]).len(), 3);
}
