//! Tests that each call that allocates succeeds at 0 to 65,537 elements, while memory is granted.
//!
//! No clause says this, since an allocation may always fail. `checks/memory` runs these tests again
//! and requires that no request for memory is larger than the elements explain.
//!
//! Covered are:
//! - `to_allocvec`, `to_stdvec`, `to_extend` and `to_io` into a vector, `to_allocvec_cobs`,
//!   `to_stdvec_cobs`, `to_allocvec_cobs_after`, `to_allocvec_crc32`, and `to_allocvec_cobs` of
//!   `ser_flavors::checksum`, of messages of up to 1,114,132 bytes.
//! - `from_bytes` and `from_io` of `String`, `BoxedStr`, `RcStr`, `ArcStr`, `CowStr`, `PathBuf`,
//!   `CString`, `Vec`, `VecDeque`, `LinkedList`, `BinaryHeap`, `BoxedSlice`, `RcSlice`, `ArcSlice`,
//!   `CowSlice`, `BTreeSet`, `HashSet`, `BTreeMap` and `HashMap`, by `Deserialize` and by
//!   `DeserializeOwned`.
//! - `feed` and `read_frames`, and those of `accumulator::checksum`.

use crc::{CRC_8_MAXIM_DOW, CRC_32_ISO_HDLC, Crc};
use postcard::accumulator::{CobsAccumulator, FeedResult, checksum};
use postcard::{
    Answer, Deserialize, DeserializeOwned, Owned, ReadEnd, Serialize, from_bytes, from_io,
    read_frames, ser_flavors, to_allocvec, to_allocvec_cobs, to_allocvec_cobs_after,
    to_allocvec_crc32, to_extend, to_io, to_stdvec, to_stdvec_cobs,
};
use std::alloc::{AllocError, AllocGlobal, Global};
use std::borrow::{CowSlice, CowStr};
use std::boxed::{BoxedSlice, BoxedStr};
use std::collections::{BTreeMap, BTreeSet, BinaryHeap, HashMap, HashSet, LinkedList, VecDeque};
use std::ffi::CString;
use std::path::PathBuf;
use std::process::Abort;
use std::rc::{RcSlice, RcStr};
use std::sync::{ArcSlice, ArcStr};

/// Asserts that each call that allocates writes the value.
fn is_written<T: Serialize>(rt: &(impl Abort + AllocGlobal), value: &T) {
    let alloc = rt.alloc();
    let crc: Crc<u32> = Crc::new(&CRC_32_ISO_HDLC);
    let checks = [
        to_allocvec(alloc, value).is_ok(),
        to_stdvec(alloc, value).is_ok(),
        to_extend(value, Vec::new(alloc)).is_ok(),
        to_io(value, Vec::new(alloc)).is_ok(),
        to_allocvec_cobs(alloc, value).is_ok(),
        to_stdvec_cobs(alloc, value).is_ok(),
        to_allocvec_cobs_after(value, Vec::new(alloc)).is_ok(),
        to_allocvec_crc32(alloc, value, crc.digest()).is_ok(),
        ser_flavors::checksum::to_allocvec_cobs(alloc, value, crc.digest()).is_ok(),
    ];
    assert!(rt; checks == [true; 9]);
}

/// Asserts that the type reads these bytes, from a slice and from a reader.
fn is_read<'a, T: Deserialize<'a> + DeserializeOwned>(
    rt: &(impl Abort + AllocGlobal),
    bytes: &'a [u8],
) {
    let alloc = rt.alloc();
    let mut scratch = bytes.to_vec(alloc).expect(rt, "scratch");
    let checks = [
        from_bytes::<T>(alloc, bytes).is_ok(),
        from_bytes::<Owned<T>>(alloc, bytes).is_ok(),
        from_io::<Owned<T>, _>(alloc, (bytes, scratch.as_mut_slice())).is_ok(),
    ];
    assert!(rt; checks == [true; 3]);
}

/// Lists of `count` elements.
#[derive(Drop)]
struct Inputs {
    flags: Vec<bool>,
    rows: Vec<[bool; 17]>,
    numbers: Vec<u32>,
    pairs: Vec<(u32, bool)>,
}

fn inputs_of(alloc: Global, count: u32) -> Result<Inputs, AllocError> {
    let mut flags = Vec::new(alloc);
    let mut rows = Vec::new(alloc);
    let mut numbers = Vec::new(alloc);
    let mut pairs = Vec::new(alloc);
    for number in 0..count {
        flags.push(true)?;
        rows.push([true; 17])?;
        numbers.push(number)?;
        pairs.push((number, true))?;
    }
    Ok(Inputs {
        flags,
        rows,
        numbers,
        pairs,
    })
}

fn are_read(rt: &(impl Abort + AllocGlobal), inputs: &Inputs) {
    let flags = to_allocvec(rt.alloc(), &inputs.flags).expect(rt, "flags");
    is_read::<String>(rt, &flags);
    is_read::<BoxedStr>(rt, &flags);
    is_read::<RcStr>(rt, &flags);
    is_read::<ArcStr>(rt, &flags);
    is_read::<CowStr<'static>>(rt, &flags);
    is_read::<PathBuf>(rt, &flags);
    is_read::<CString>(rt, &flags);
    is_read::<Vec<u8>>(rt, &flags);
    is_read::<Vec<bool>>(rt, &flags);
    is_read::<VecDeque<bool>>(rt, &flags);
    is_read::<LinkedList<bool>>(rt, &flags);
    is_read::<BinaryHeap<bool>>(rt, &flags);
    is_read::<BoxedSlice<bool>>(rt, &flags);
    is_read::<RcSlice<bool>>(rt, &flags);
    is_read::<ArcSlice<bool>>(rt, &flags);
    is_read::<CowSlice<'static, bool>>(rt, &flags);
    let numbers = to_allocvec(rt.alloc(), &inputs.numbers).expect(rt, "numbers");
    is_read::<Vec<u32>>(rt, &numbers);
    is_read::<BTreeSet<u32>>(rt, &numbers);
    is_read::<HashSet<u32>>(rt, &numbers);
    let pairs = to_allocvec(rt.alloc(), &inputs.pairs).expect(rt, "pairs");
    is_read::<BTreeMap<u32, bool>>(rt, &pairs);
    is_read::<HashMap<u32, bool>>(rt, &pairs);
}

/// Asserts that a frame of the flags is fed, without and with a checksum.
fn is_fed(rt: &(impl Abort + AllocGlobal), flags: &Vec<bool>) {
    let alloc = rt.alloc();
    let crc: Crc<u8> = Crc::new(&CRC_8_MAXIM_DOW);
    let mut acc = CobsAccumulator::<65_820>::new();
    let frame = to_allocvec_cobs(alloc, flags).expect(rt, "a frame");
    let plain: FeedResult<'_, Vec<bool>> = acc.feed(alloc, &frame);
    let checked = ser_flavors::checksum::to_allocvec_cobs(alloc, flags, crc.digest());
    let sent = checked.expect(rt, "a frame");
    let summed: FeedResult<'_, Vec<bool>> = checksum::feed(alloc, &mut acc, &sent, &crc);
    assert!(rt; matches!(&plain, FeedResult::Success { .. }));
    assert!(rt; matches!(&summed, FeedResult::Success { .. }));
}

/// Asserts that a stream of `count` frames of `true` has `count` answers, without and with a
/// checksum. The messages are 01, and 01 with its checksum 5E.
fn are_answered(rt: &(impl Abort + AllocGlobal), count: u32) {
    let alloc = rt.alloc();
    let crc: Crc<u8> = Crc::new(&CRC_8_MAXIM_DOW);
    let mut acc = CobsAccumulator::<8>::new();
    let mut chunk = [0; 1024];
    let mut plain = Vec::new(alloc);
    let mut checked = Vec::new(alloc);
    for _ in 0..count {
        plain
            .extend_from_slice(b"\x02\x01\x00")
            .expect(rt, "a stream");
        checked
            .extend_from_slice(b"\x03\x01\x5e\x00")
            .expect(rt, "a stream");
    }
    let mut out: Vec<Answer<bool>> = Vec::new(alloc);
    let end = read_frames(
        alloc,
        &mut plain.as_slice(),
        &mut chunk,
        1_000_000,
        &mut acc,
        &mut out,
    );
    let last = checksum::read_frames(
        alloc,
        &mut checked.as_slice(),
        &mut chunk,
        1_000_000,
        &mut acc,
        &mut out,
        &crc,
    );
    assert!(rt; end == ReadEnd::End && last == ReadEnd::End);
    assert!(rt; out.len() as u64 == 2 * u64::from(count));
}

fn every_call(rt: &(impl Abort + AllocGlobal), count: u32) {
    let all = inputs_of(rt.alloc(), count).expect(rt, "inputs");
    is_written(rt, &all.flags);
    is_written(rt, &all.rows);
    is_written(rt, &all.numbers);
    let text = to_allocvec(rt.alloc(), &all.rows).expect(rt, "bytes");
    is_written(rt, &text);
    are_read(rt, &all);
    is_fed(rt, &all.flags);
    are_answered(rt, count);
}

#[test]
fn of_0_elements(rt: HostRuntime) {
    every_call(&rt, 0);
}

#[test]
fn of_1_element(rt: HostRuntime) {
    every_call(&rt, 1);
}

#[test]
fn of_31_elements(rt: HostRuntime) {
    every_call(&rt, 31);
}

#[test]
fn of_33_elements(rt: HostRuntime) {
    every_call(&rt, 33);
}

#[test]
fn of_1025_elements(rt: HostRuntime) {
    every_call(&rt, 1025);
}

#[test]
fn of_65537_elements(rt: HostRuntime) {
    every_call(&rt, 65_537);
}
