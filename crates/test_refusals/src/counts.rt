//! Tests of counts that exceed the input. Each call fails with a named error. Memory is requested
//! for elements that were read, and never for a count. So if nothing is read before the count, the
//! result is the same if every allocation fails.

use arrayvec::{ArrayString, ArrayVec};
use postcard::{Deserialize, DeserializeOwned, Error, Owned, from_bytes, from_io};
use std::alloc::AllocGlobal;
use std::collections::BTreeMap;
use std::process::Abort;

/// The greatest count, 2^64 - 1, and then three bytes.
const BYTES: &[u8] = b"\xFF\xFF\xFF\xFF\xFF\xFF\xFF\xFF\xFF\x01abc";

/// The greatest count.
const ALONE: &[u8] = b"\xFF\xFF\xFF\xFF\xFF\xFF\xFF\xFF\xFF\x01";

const CUSTOM: Error = Error::SerdeDeCustom;

/// Asserts that reading a value from the bytes fails with this error.
fn fails<'a, T: Deserialize<'a>>(rt: &(impl Abort + AllocGlobal), bytes: &'a [u8], error: Error) {
    let outcome = from_bytes::<T>(rt.alloc(), bytes).err();
    assert!(rt; outcome == Some(error), "{bytes:?}");
}

/// Asserts that reading a value from the bytes fails with `DeserializeUnexpectedEnd`.
fn ends<'a, T: Deserialize<'a>>(rt: &(impl Abort + AllocGlobal), bytes: &'a [u8]) {
    fails::<T>(rt, bytes, Error::DeserializeUnexpectedEnd);
}

/// Asserts that reading a value from a reader of the bytes, with 8 bytes of scratch, fails with
/// `DeserializeUnexpectedEnd`.
fn reader_ends<T: DeserializeOwned>(rt: &(impl Abort + AllocGlobal), bytes: &[u8]) {
    let mut scratch = [0; 8];
    let outcome = from_io::<Owned<T>, _>(rt.alloc(), (bytes, &mut scratch)).err();
    assert_eq!(rt; outcome, Some(Error::DeserializeUnexpectedEnd));
}

#[test]
fn not_refused_for_a_count(rt: HostRuntime) {
    ends::<&str>(&rt, BYTES);
    ends::<&[u8]>(&rt, BYTES);
    ends::<String>(&rt, BYTES);
    ends::<ArrayString<8>>(&rt, BYTES);
    ends::<Vec<u8>>(&rt, ALONE);
    ends::<Vec<String>>(&rt, ALONE);
    ends::<Vec<Vec<u128>>>(&rt, ALONE);
    ends::<Vec<BTreeMap<u8, u8>>>(&rt, ALONE);
    ends::<BTreeMap<u8, u8>>(&rt, ALONE);
}

#[test]
fn not_refused_for_a_count_of_a_reader(rt: HostRuntime) {
    reader_ends::<String>(&rt, BYTES);
    reader_ends::<Vec<u8>>(&rt, ALONE);
    reader_ends::<BTreeMap<u8, Vec<u8>>>(&rt, ALONE);
    let mut scratch = [0; 8];
    let outcome = from_io::<&str, _>(rt.alloc(), (BYTES, &mut scratch)).err();
    assert_eq!(rt; outcome, Some(Error::DeserializeUnexpectedEnd));
}

#[test]
fn in_lists_and_maps(rt: HostRuntime) {
    ends::<Vec<u8>>(&rt, BYTES);
    ends::<Vec<(u8, u128)>>(&rt, BYTES);
    ends::<BTreeMap<u8, u8>>(&rt, BYTES);
    ends::<Vec<String>>(&rt, b"\xFF\xFF\xFF\xFF\xFF\xFF\xFF\xFF\xFF\x01\x03abc");
    ends::<Vec<String>>(&rt, b"\x02\x01a\xFF\xFF\xFF\xFF\xFF\xFF\xFF\xFF\xFF\x01abc");
    ends::<Vec<Vec<u8>>>(&rt, b"\xFF\xFF\xFF\xFF\xFF\xFF\xFF\xFF\xFF\x01\x02\x05\x06");
    ends::<Vec<Vec<u8>>>(
        &rt,
        b"\x02\x02\x05\x06\xFF\xFF\xFF\xFF\xFF\xFF\xFF\xFF\xFF\x01\x07\x08",
    );
    ends::<Vec<BTreeMap<u8, u8>>>(
        &rt,
        b"\x02\x01\x05\x06\xFF\xFF\xFF\xFF\xFF\xFF\xFF\xFF\xFF\x01\x01\x02\x03",
    );
    let bytes = b"\x01\x07\xFF\xFF\xFF\xFF\xFF\xFF\xFF\xFF\xFF\x01\x01\x02\x03";
    ends::<BTreeMap<u8, Vec<u64>>>(&rt, bytes);
    ends::<(u8, Box<(u8, Vec<u32>)>)>(&rt, bytes);
}

#[test]
fn past_a_capacity(rt: HostRuntime) {
    let bytes = b"\xFF\xFF\xFF\xFF\xFF\xFF\xFF\xFF\xFF\x01\x01\x02\x03\x04\x05";
    fails::<ArrayVec<u8, 4>>(&rt, bytes, CUSTOM);
    ends::<ArrayVec<(u8, u8), 4>>(&rt, bytes);
    fails::<ArrayVec<(), 3>>(&rt, ALONE, CUSTOM);
    let bytes = b"\x02\x03\xFF\xFF\xFF\xFF\xFF\xFF\xFF\xFF\xFF\x01";
    fails::<ArrayVec<ArrayVec<(), 3>, 2>>(&rt, bytes, CUSTOM);
    let bytes = b"\xFF\xFF\xFF\xFF\xFF\xFF\xFF\xFF\xFF\x01\x03\x03\x03";
    fails::<ArrayVec<ArrayVec<(), 3>, 2>>(&rt, bytes, CUSTOM);
    match from_bytes::<Vec<()>>(rt.alloc(), &[0x80, 0x80, 0x04]) {
        Ok(units) => assert_eq!(rt; units.len(), 65_536),
        Err(e) => panic!(rt; "{e}"),
    }
}
