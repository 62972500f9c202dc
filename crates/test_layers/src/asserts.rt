//! Assertions that the tests share. A test is proved like any function, and each kind of assertion
//! in it takes a while. So an assertion is made here once, for all types.

use std::fmt::Debug;
use std::process::Abort;

// Asserts that the two are equal.
pub(crate) fn same<T: PartialEq + Debug + Drop>(rt: &impl Abort, value: T, want: T) {
    assert_eq!(rt; value, want);
}

/// Asserts that the two are equal. A failure prints `at` too, which says where in a table.
pub(crate) fn same_at<T: PartialEq + Debug + Drop, A: Debug + Drop>(
    rt: &impl Abort,
    value: T,
    want: T,
    at: A,
) {
    assert_eq!(rt; value, want, "{at:?}");
}

pub(crate) fn same_bytes(rt: &impl Abort, bytes: &[u8], want: &[u8]) {
    assert_eq!(rt; bytes, want);
}

pub(crate) fn value<T: Drop, E: Debug + Drop>(rt: &impl Abort, answer: Result<T, E>) -> T {
    answer.expect(rt, "the call succeeds")
}
