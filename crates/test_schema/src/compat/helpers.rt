//! What the tests share: types from expressions, and an assertion.

use postcard_compat::flattened;
use postcard_schema::Schema;
use postcard_schema_text::parse;
use std::fmt::Debug;
use std::process::Abort;

/// Asserts that the two are equal. A failure prints `at` too, which says where in a table. It is a
/// function, since each macro that asserts is proved where it is called.
pub fn same<T: PartialEq + Debug + Drop, A: Debug + Drop>(rt: &impl Abort, got: T, want: T, at: A) {
    assert_eq!(rt; got, want, "{at:?}");
}

/// Returns the flattened type of an expression.
pub fn flat(rt: &(impl Abort + AllocGlobal), text: &str) -> Schema {
    let schema = parse(rt.alloc(), text).expect(rt, text);
    flattened(rt.alloc(), &schema).expect(rt, "memory")
}
