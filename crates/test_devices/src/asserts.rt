//! Assertions, also on the calls that read from readers. They are functions, since each macro that
//! asserts is proved where it stands.

use postcard::de_flavors::io::io::IOReader;
use postcard::de_flavors::{Flavor, Reader};
use postcard::{Deserialize, Error, from_io};
use std::alloc::AllocGlobal;
use std::fmt::Debug;
use std::process::Abort;

/// Asserts that the two are equal.
pub fn same<T: PartialEq + Debug + Drop>(rt: &impl Abort, got: T, want: T) {
    assert_eq!(rt; got, want);
}

/// Asserts that these are the wanted bytes.
pub fn same_bytes(rt: &impl Abort, got: &[u8], want: &[u8]) {
    assert_eq!(rt; got, want);
}

/// Asserts that a value is read. Returns it, the reader and the scratch that is left.
pub fn assert_read<'a, T: Deserialize<'a>, R: Reader + 'a>(
    rt: &(impl Abort + AllocGlobal),
    from: (R, &'a mut [u8]),
) -> (T, (R, &'a mut [u8])) {
    from_io(rt.alloc(), from).expect(rt, "a value is read")
}

/// Asserts that reading a value fails with `DeserializeUnexpectedEnd`.
pub fn assert_refused<'a, T: Deserialize<'a>, R: Reader + 'a>(
    rt: &(impl Abort + AllocGlobal),
    from: (R, &'a mut [u8]),
) {
    let refused = from_io::<T, R>(rt.alloc(), from).err();
    same(rt, refused, Some(Error::DeserializeUnexpectedEnd));
}

/// Asserts that a source has `left` bytes of scratch left. Returns its reader.
pub fn assert_scratch<R: Reader>(rt: &impl Abort, source: IOReader<'_, R>, left: usize) -> R {
    let (reader, scratch) = source.finalize().expect(rt, "the source comes back");
    same(rt, scratch.len(), left);
    reader
}
