//! Assertions that the tests share.

use postcard::{
    Deserialize, DeserializeOwned, Error, Owned, Result, Serialize, from_bytes, take_from_bytes,
    to_slice,
};
use std::alloc::AllocGlobal;
use std::fmt::Debug;
use std::process::Abort;

/// A byte of a buffer before anything is written.
pub const OLD: u8 = 0xAA;

/// Asserts that the two are equal. It is a function, since each macro that asserts is proved where
/// it stands.
pub fn same<T: PartialEq + Debug + Drop>(rt: &impl Abort, got: T, want: T) {
    assert_eq!(rt; got, want);
}

/// Asserts that a vector with these bytes was written.
pub fn assert_bytes(rt: &impl Abort, answer: Result<Vec<u8>>, want: &[u8]) {
    match answer {
        Ok(bytes) => same(rt, bytes.as_slice(), want),
        Err(e) => panic!(rt; "{e}"),
    }
}

/// Asserts that the value is written as these bytes, of which there are at most 80.
pub fn assert_written<T: Serialize>(rt: &impl Abort, value: &T, want: &[u8]) {
    let mut buffer = [OLD; 80];
    match to_slice(value, &mut buffer) {
        Ok(front) => same(rt, &*front, want),
        Err(e) => panic!(rt; "{e}"),
    }
}

/// Asserts that the bytes are read as this value and the value is written as these bytes, or that
/// they are refused with this error.
pub fn assert_read<'a, T: Serialize + Deserialize<'a> + PartialEq + Debug>(
    rt: &(impl Abort + AllocGlobal),
    bytes: &'a [u8],
    want: Result<T>,
) {
    assert_eq!(rt; from_bytes(rt.alloc(), bytes), want, "{bytes:?}");
    if let Ok(value) = want {
        assert_written(rt, &value, bytes);
    }
}

/// Returns the value at the start of the bytes, and the bytes after it. It has no clauses: the
/// contract of a call is proved anew for each type wherever it is called.
pub fn taken<'a, T: Deserialize<'a>>(
    rt: &(impl Abort + AllocGlobal),
    bytes: &'a [u8],
) -> (T, &'a [u8]) {
    match take_from_bytes(rt.alloc(), bytes) {
        Ok(read) => read,
        Err(e) => panic!(rt; "{e}"),
    }
}

/// Returns the value that is read from the bytes.
pub fn read<'a, T: Deserialize<'a>>(rt: &(impl Abort + AllocGlobal), bytes: &'a [u8]) -> T {
    match from_bytes(rt.alloc(), bytes) {
        Ok(value) => value,
        Err(e) => panic!(rt; "{e}"),
    }
}

/// Returns the value of an `Owned`.
fn value_of<T: DeserializeOwned>(owned: Owned<T>) -> T {
    owned.0
}

/// Asserts what [`assert_read`] does, also if the value is read by `DeserializeOwned`.
pub fn assert_owned<'a, T: Serialize + Deserialize<'a> + DeserializeOwned + PartialEq + Debug>(
    rt: &(impl Abort + AllocGlobal),
    bytes: &'a [u8],
    want: Result<T>,
) {
    let owned = from_bytes::<Owned<T>>(rt.alloc(), bytes).map(value_of);
    assert_eq!(rt; owned, want, "{bytes:?}");
    assert_read(rt, bytes, want);
}

/// Asserts that reading a value from the bytes fails with this error.
pub fn assert_refused<'a, T: Deserialize<'a>>(
    rt: &(impl Abort + AllocGlobal),
    bytes: &'a [u8],
    error: Error,
) {
    assert_eq!(rt;
        from_bytes::<T>(rt.alloc(), bytes).err(),
        Some(error),
        "{bytes:?}"
    );
}
