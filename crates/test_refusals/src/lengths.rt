//! Tests of lists, strings and maps of each length up to 600: no call fails past some length.
//!
//! No clause says this of memory that is allocated or of a writer, since they may always fail. A
//! faulty `AllocVec`, `ExtendFlavor` or `WriteFlavor` could refuse a longer message though memory
//! is left. Only these tests and the long rows of `test_vectors` would catch it.

use postcard::accumulator::{CobsAccumulator, FeedResult};
use postcard::{
    DeserializeOwned, Owned, Serialize, from_bytes, from_io, to_allocvec, to_extend, to_io,
    to_stdvec_cobs,
};
use std::alloc::{AllocError, AllocGlobal, Global};
use std::collections::BTreeMap;
use std::process::Abort;

/// Adds the varint of a number below 2^14.
fn add_number(bytes: &mut Vec<u8>, number: u16) -> Result<(), AllocError> {
    if number < 128 {
        bytes.push((number & 0x7F) as u8)?;
    } else {
        bytes.push((number & 0x7F) as u8 | 0x80)?;
        bytes.push((number >> 7 & 0x7F) as u8)?;
    }
    Ok(())
}

/// Returns the encoding of a list, string or map of this length, whose content has these bytes.
fn counted(alloc: Global, count: u16, content: &[u8]) -> Result<Vec<u8>, AllocError> {
    let mut bytes = Vec::new(alloc);
    add_number(&mut bytes, count)?;
    bytes.extend_from_slice(content)?;
    Ok(bytes)
}

/// Returns whether a call wrote these bytes.
fn wrote(answer: postcard::Result<Vec<u8>>, bytes: &[u8]) -> bool {
    match answer {
        Ok(written) => written.as_slice() == bytes,
        Err(_) => false,
    }
}

/// Returns whether a call read this value.
fn gave<T: DeserializeOwned + PartialEq>(answer: postcard::Result<Owned<T>>, value: &T) -> bool {
    match answer {
        Ok(Owned(read)) => read == *value,
        Err(_) => false,
    }
}

/// Returns whether the value is read from a reader of these bytes.
fn is_read<T: DeserializeOwned + PartialEq>(alloc: Global, value: &T, bytes: &[u8]) -> bool {
    let mut scratch = [0; 600];
    match from_io::<Owned<T>, _>(alloc, (bytes, &mut scratch)) {
        Ok((read, _)) => gave(Ok(read), value),
        Err(_) => false,
    }
}

/// Returns whether the value is written as a frame, and read from it.
fn is_fed<T: Serialize + DeserializeOwned + PartialEq>(
    alloc: Global,
    acc: &mut CobsAccumulator<4096>,
    value: &T,
) -> bool {
    let Ok(frame) = to_stdvec_cobs(alloc, value) else {
        return false;
    };
    match acc.feed::<T>(alloc, &frame) {
        FeedResult::Success { value: read, .. } => read == *value,
        _ => false,
    }
}

/// Asserts that the value is written as its length and the bytes `content`. It is read from these
/// bytes, from a reader of them, and from its frame.
fn comes_back<T: Serialize + DeserializeOwned + PartialEq>(
    rt: &(impl Abort + AllocGlobal),
    acc: &mut CobsAccumulator<4096>,
    value: &T,
    count: u16,
    content: &[u8],
) {
    let alloc = rt.alloc();
    let bytes = counted(alloc, count, content).expect(rt, "bytes");
    let checks = [
        wrote(to_allocvec(alloc, value), &bytes),
        wrote(to_extend(value, Vec::new(alloc)), &bytes),
        wrote(to_io(value, Vec::new(alloc)), &bytes),
        gave(from_bytes(alloc, &bytes), value),
        is_read(alloc, value, &bytes),
        is_fed(alloc, acc, value),
    ];
    assert_eq!(rt; checks, [true; 6], "{count}");
}

#[test]
fn of_lists_and_texts(rt: HostRuntime) {
    let mut acc = CobsAccumulator::<4096>::new();
    let mut list = Vec::new(rt.alloc());
    let mut text = String::new(rt.alloc());
    for count in 0..=600u16 {
        comes_back(&rt, &mut acc, &list, count, list.as_slice());
        comes_back(&rt, &mut acc, &text, count, text.as_bytes());
        list.push((count & 0xFF) as u8).expect(&rt, "a list");
        text.push('a').expect(&rt, "a text");
    }
}

/// Tests the list of the numbers below the length, and the map of each of them to `true`. Each
/// number is its varint, and `true` the byte 1.
#[test]
fn of_maps_and_lists_of_numbers(rt: HostRuntime) {
    let mut acc = CobsAccumulator::<4096>::new();
    let mut list = Vec::new(rt.alloc());
    let mut numbers = Vec::new(rt.alloc());
    let mut map = BTreeMap::new(rt.alloc());
    let mut entries = Vec::new(rt.alloc());
    for count in 0..=600u16 {
        comes_back(&rt, &mut acc, &list, count, &numbers);
        comes_back(&rt, &mut acc, &map, count, &entries);
        list.push(count).expect(&rt, "a list");
        add_number(&mut numbers, count).expect(&rt, "bytes");
        let inserted: Result<_, _> = map.insert(count, true);
        assert!(rt; inserted.is_ok());
        add_number(&mut entries, count).expect(&rt, "bytes");
        entries.push(1).expect(&rt, "bytes");
    }
}
