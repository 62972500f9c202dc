//! The assertion of all the tests: a function, since each macro that asserts is proved where it is
//! called.

use std::fmt::Debug;
use std::process::Abort;

/// Asserts that the two are equal. A failure prints `at` too, which says where in a table or loop.
pub fn same<T: PartialEq + Debug + Drop, A: Debug + Drop>(rt: &impl Abort, got: T, want: T, at: A) {
    assert_eq!(rt; got, want, "{at:?}");
}
