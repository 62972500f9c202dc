//! Tests of reading from a slice: rows that were worked out without this code, and each call and
//! each generic impl once. A type that borrows nothing is read by both traits, `Deserialize` and
//! `DeserializeOwned`.

mod calls;
mod grown;
mod numbers;
mod types;
mod untyped;

use crate::asserts::{same, same_at};
use postcard_de::{Deserialize, DeserializeOwned, Deserializer, Error, Result};
use std::alloc::Global;
use std::fmt::Debug;
use std::process::Abort;

/// The varint of 2^64 - 1.
const GREATEST: [u8; 10] = [0xFF, 0xFF, 0xFF, 0xFF, 0xFF, 0xFF, 0xFF, 0xFF, 0xFF, 0x01];

/// Input, and the value that is read from its start, or the error.
type Row<'a, T> = (&'a [u8], Result<T>);

fn read<'a, T: Deserialize<'a>>(alloc: Global, bytes: &'a [u8]) -> Result<T> {
    T::deserialize(alloc, &mut Deserializer::from_bytes(bytes))
}

fn read_owned<T: DeserializeOwned>(alloc: Global, bytes: &[u8]) -> Result<T> {
    T::deserialize_owned(alloc, &mut Deserializer::from_bytes(bytes))
}

/// Asserts the result of reading, by `Deserialize`.
fn assert_lent<'a, T: Deserialize<'a> + PartialEq + Debug>(
    rt: &impl Abort,
    alloc: Global,
    bytes: &'a [u8],
    want: &Result<T>,
) {
    same_at(rt, &read::<T>(alloc, bytes), want, bytes);
}

/// Asserts the result of reading, by both traits.
fn assert_read<'a, T: Deserialize<'a> + DeserializeOwned + PartialEq + Debug>(
    rt: &impl Abort,
    alloc: Global,
    bytes: &'a [u8],
    want: &Result<T>,
) {
    assert_lent(rt, alloc, bytes, want);
    same_at(rt, &read_owned::<T>(alloc, bytes), want, (bytes, "owned"));
}

/// Asserts the result of reading each row, by both traits.
fn check<'a, T: Deserialize<'a> + DeserializeOwned + PartialEq + Debug>(
    rt: &impl Abort,
    alloc: Global,
    rows: &[Row<'a, T>],
) {
    for (bytes, want) in rows {
        assert_read(rt, alloc, bytes, want);
    }
}

fn check_refused<'a, T: Deserialize<'a> + DeserializeOwned>(
    rt: &impl Abort,
    alloc: Global,
    bytes: &'a [u8],
    want: &Error,
) {
    same(rt, read::<T>(alloc, bytes).err().as_ref(), Some(want));
    same(rt, read_owned::<T>(alloc, bytes).err().as_ref(), Some(want));
}
