//! Assertions as functions, since each macro that asserts is proved where it stands.

use std::fmt::Debug;
use std::process::Abort;

/// Asserts that the two are equal.
pub fn same<T: PartialEq + Debug + Drop>(rt: &impl Abort, got: T, want: T) {
    assert_eq!(rt; got, want);
}

/// Asserts that the two are equal. A failure prints `at` too, which says where in a table or loop.
pub fn same_at<T: PartialEq + Debug + Drop, A: Debug + Drop>(
    rt: &impl Abort,
    got: T,
    want: T,
    at: A,
) {
    assert_eq!(rt; got, want, "{at:?}");
}
