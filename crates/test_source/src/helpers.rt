//! What the tests share: an assertion, and texts that they make.

use std::fmt::Debug;
use std::process::Abort;

/// Asserts that the two are equal. A failure prints `at` too, which says where in a table or loop. It
/// is a function, since each macro that asserts is proved where it is called.
pub fn same<T: PartialEq + Debug + Drop, A: Debug + Drop>(rt: &impl Abort, got: T, want: T, at: A) {
    assert_eq!(rt; got, want, "{at:?}");
}

/// Returns `before`, `count` times `part`, and `after`.
pub fn text_with(
    rt: &(impl Abort + AllocGlobal),
    before: &str,
    part: &str,
    count: usize,
    after: &str,
) -> String {
    let parts = part.repeat(rt.alloc(), count).expect(rt, "memory");
    format!(in rt.alloc(); "{before}{parts}{after}").expect(rt, "memory")
}
