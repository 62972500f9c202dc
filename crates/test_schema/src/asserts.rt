//! Assertions that the tests share.

use std::fmt;
use std::process::Abort;

/// Asserts that a value is printed as this text.
pub(crate) fn prints<T: fmt::Display>(rt: &(impl Abort + AllocGlobal), value: &T, printed: &str) {
    let text = format!(in rt.alloc(); "{value}").expect(rt, printed);
    assert_eq!(rt; text.as_str(), printed);
}

pub(crate) fn same(rt: &impl Abort, size: Option<usize>, want: Option<usize>, at: &str) {
    assert_eq!(rt; size, want, "{at}");
}
