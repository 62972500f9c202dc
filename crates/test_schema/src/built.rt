//! Types for the tests.

use postcard_schema::{Leaf, Named, Schema};
use std::process::Abort;

pub(crate) fn boxed(rt: &(impl Abort + AllocGlobal), schema: Schema) -> Box<Schema> {
    Box::new(rt.alloc(), schema).expect(rt, "memory")
}

/// Returns a tuple of two types without parts.
pub(crate) fn pair(rt: &(impl Abort + AllocGlobal), first: Leaf, second: Leaf) -> Schema {
    let parts = [Schema::Leaf(first), Schema::Leaf(second)];
    Schema::Tuple(Vec::from_array(rt.alloc(), parts).expect(rt, "memory"))
}

pub(crate) fn named(rt: &(impl Abort + AllocGlobal), name: &str, content: Schema) -> Named<Schema> {
    let name = String::from_str(rt.alloc(), name).expect(rt, "memory");
    Named { name, content }
}
