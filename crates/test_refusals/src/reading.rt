//! Tests of reading values that allocate, from a slice and from a reader. Each call is made twice,
//! and an allocation of one of them may be refused.

use postcard::{DeserializeOwned, Error, Owned, Result, Serialize, from_bytes, from_io, to_slice};
use std::alloc::{AllocGlobal, Global};
use std::boxed::{BoxedSlice, BoxedStr};
use std::collections::{BTreeMap, BTreeSet, BinaryHeap, HashMap, HashSet, LinkedList, VecDeque};
use std::ffi::CString;
use std::path::PathBuf;
use std::process::Abort;
use std::rc::{Rc, RcSlice, RcStr};
use std::sync::{Arc, ArcSlice, ArcStr};

/// Returns whether the value has this encoding.
pub(crate) fn has_encoding<T: Serialize>(value: &T, bytes: &[u8]) -> bool {
    let mut buffer = [0; 64];
    match to_slice(value, &mut buffer) {
        Ok(front) => &*front == bytes,
        Err(_) => false,
    }
}

/// Returns `Some(true)` for a value with this encoding, `Some(false)` for a failed allocation, and
/// `None` for any other answer.
fn judged<T: DeserializeOwned + Serialize>(answer: Result<Owned<T>>, bytes: &[u8]) -> Option<bool> {
    match answer {
        Ok(Owned(value)) => has_encoding(&value, bytes).then_some(true),
        Err(e) => (e == Error::OutOfMemory).then_some(false),
    }
}

/// Returns whether both answers are right, or one is and an allocation failed for the other.
pub(crate) fn one_is_right(first: Option<bool>, second: Option<bool>) -> bool {
    match (first, second) {
        (Some(a), Some(b)) => a || b,
        _ => false,
    }
}

/// Reads a value from a reader.
fn from_reader<T: DeserializeOwned>(alloc: Global, bytes: &[u8]) -> Result<Owned<T>> {
    let mut scratch = [0; 16];
    let (value, _) = from_io::<Owned<T>, _>(alloc, (bytes, &mut scratch))?;
    Ok(value)
}

/// Asserts that the bytes are read as a value with this encoding. If an allocation fails, they are
/// read as such a value the other time.
fn is_read<T: DeserializeOwned + Serialize>(rt: &(impl Abort + AllocGlobal), bytes: &[u8]) {
    let alloc = rt.alloc();
    let first = judged::<T>(from_bytes(alloc, bytes), bytes);
    let second = judged::<T>(from_bytes(alloc, bytes), bytes);
    assert!(rt; one_is_right(first, second), "{bytes:?}");
    let first = judged::<T>(from_reader(alloc, bytes), bytes);
    let second = judged::<T>(from_reader(alloc, bytes), bytes);
    assert!(rt; one_is_right(first, second), "{bytes:?} of a reader");
}

#[test]
fn refused_texts(rt: HostRuntime) {
    is_read::<String>(&rt, b"\x10hello, postcard!");
    is_read::<Vec<String>>(&rt, b"\x02\x01a\x02bc");
}

#[test]
fn refused_texts_of_other_types(rt: HostRuntime) {
    is_read::<BoxedStr>(&rt, b"\x02hi");
    is_read::<RcStr>(&rt, b"\x02hi");
    is_read::<ArcStr>(&rt, b"\x02hi");
    is_read::<PathBuf>(&rt, b"\x03a/b");
    is_read::<CString>(&rt, b"\x02hi");
}

#[test]
fn refused_lists(rt: HostRuntime) {
    is_read::<Vec<u8>>(&rt, &[8, 1, 2, 3, 4, 5, 6, 7, 8]);
    is_read::<Vec<u16>>(&rt, &[2, 0xAC, 0x02, 7]);
    is_read::<Vec<Vec<u8>>>(&rt, &[2, 1, 7, 2, 8, 9]);
}

#[test]
fn refused_lists_of_other_types(rt: HostRuntime) {
    is_read::<VecDeque<u16>>(&rt, &[2, 0xAC, 0x02, 7]);
    is_read::<LinkedList<u16>>(&rt, &[2, 0xAC, 0x02, 7]);
    is_read::<BinaryHeap<u8>>(&rt, &[3, 3, 2, 1]);
    is_read::<BoxedSlice<u16>>(&rt, &[2, 0xAC, 0x02, 7]);
    is_read::<RcSlice<u16>>(&rt, &[2, 0xAC, 0x02, 7]);
    is_read::<ArcSlice<u16>>(&rt, &[2, 0xAC, 0x02, 7]);
}

#[test]
fn refused_sets(rt: HostRuntime) {
    is_read::<BTreeSet<u8>>(&rt, &[3, 1, 2, 3]);
    is_read::<HashSet<u8>>(&rt, &[1, 5]);
}

#[test]
fn refused_maps(rt: HostRuntime) {
    is_read::<BTreeMap<u8, u8>>(&rt, &[4, 1, 5, 2, 6, 3, 7, 4, 8]);
    is_read::<BTreeMap<u8, Vec<u8>>>(&rt, &[2, 1, 1, 5, 2, 2, 6, 7]);
    is_read::<HashMap<u8, u16>>(&rt, &[1, 5, 0xAC, 0x02]);
}

#[test]
fn refused_pointers(rt: HostRuntime) {
    is_read::<Box<u8>>(&rt, &[7]);
    is_read::<Rc<u8>>(&rt, &[7]);
    is_read::<Arc<u8>>(&rt, &[7]);
    is_read::<(Option<Box<u8>>, Box<(u8, Rc<u16>)>)>(&rt, &[1, 7, 8, 0xAC, 0x02]);
}
