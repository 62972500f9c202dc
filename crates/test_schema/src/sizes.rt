//! Least and greatest sizes, and the parts that have no greatest size: sizes of wire format 1.0,
//! added up by hand. A varint of 16, 32 or 64 bits has at most 3, 5 or 10 bytes.

use crate::asserts::{prints, same};
use crate::built::{boxed, named, pair};
use postcard_schema::{Float, Integer, Leaf, Schema};
use postcard_schema_size::{endless_parts, max_size, min_size};
use std::process::Abort;

/// Asserts that the type, and a copy of it, has these sizes and these parts without a greatest
/// size.
fn check(
    rt: &(impl Abort + AllocGlobal),
    schema: &Schema,
    least: usize,
    greatest: Option<usize>,
    endless: &[&str],
) {
    let copy = schema.try_clone(rt.alloc()).expect(rt, "memory");
    check_sizes(rt, schema, least, greatest, endless);
    check_sizes(rt, &copy, least, greatest, endless);
}

fn check_sizes(
    rt: &(impl Abort + AllocGlobal),
    schema: &Schema,
    least: usize,
    greatest: Option<usize>,
    endless: &[&str],
) {
    same(rt, min_size(schema), Some(least), "least");
    same(rt, max_size(schema), greatest, "greatest");
    let paths = endless_parts(rt.alloc(), schema).expect(rt, "memory");
    same(rt, Some(paths.len()), Some(endless.len()), "parts");
    for (path, printed) in paths.iter().zip(endless) {
        prints(rt, path, printed);
    }
}

/// Tests `Boot | Reading(u16, i32) | Level{x: u64}`.
#[test]
fn measures_an_enum(rt: HostRuntime) {
    let unit = Schema::Tuple(Vec::new(rt.alloc()));
    let reading = pair(
        &rt,
        Leaf::Integer(Integer::U16),
        Leaf::Integer(Integer::I32),
    );
    let number = Schema::Leaf(Leaf::Integer(Integer::U64));
    let fields = Vec::from_array(rt.alloc(), [named(&rt, "x", number)]).expect(&rt, "memory");
    let variants = [
        named(&rt, "Boot", unit),
        named(&rt, "Reading", reading),
        named(&rt, "Level", Schema::Struct(fields)),
    ];
    let variants = Vec::from_array(rt.alloc(), variants).expect(&rt, "memory");
    check(&rt, &Schema::Enum(variants), 1, Some(11), &[]);
}

/// Tests `{id: f32, table: {str => (u8, bytes)}, log: [str]?}`.
#[test]
fn finds_the_endless_parts(rt: HostRuntime) {
    let id = Schema::Leaf(Leaf::Float(Float::F32));
    let key = boxed(&rt, Schema::Leaf(Leaf::Str));
    let value = boxed(&rt, pair(&rt, Leaf::Integer(Integer::U8), Leaf::Bytes));
    let texts = Schema::Seq(boxed(&rt, Schema::Leaf(Leaf::Str)));
    let fields = [
        named(&rt, "id", id),
        named(&rt, "table", Schema::Map(key, value)),
        named(&rt, "log", Schema::Option(boxed(&rt, texts))),
    ];
    let schema = Schema::Struct(Vec::from_array(rt.alloc(), fields).expect(&rt, "memory"));
    let endless = ["table", "table[].0", "table[].1.1", "log", "log[]"];
    check(&rt, &schema, 6, None, &endless);
}

/// Tests `[(str, char); 2]` and `[str; 0]`.
#[test]
fn measures_arrays(rt: HostRuntime) {
    let element = boxed(&rt, pair(&rt, Leaf::Str, Leaf::Char));
    check(&rt, &Schema::Array(element, 2), 6, None, &["[].0"]);
    let none = boxed(&rt, Schema::Leaf(Leaf::Str));
    check(&rt, &Schema::Array(none, 0), 0, Some(0), &[]);
}
