//! What types without parts and paths print.

use crate::asserts::prints;
use postcard_schema::{ByteOrder, Float, Integer, Leaf, Path, Step};

/// Types without parts, and their names in Rust. `LE` and `BE` wrap a number at its full width.
const LEAVES: [(Leaf, &str); 17] = [
    (Leaf::Bool, "bool"),
    (Leaf::Integer(Integer::U8), "u8"),
    (Leaf::Integer(Integer::U16), "u16"),
    (Leaf::Integer(Integer::U32), "u32"),
    (Leaf::Integer(Integer::U64), "u64"),
    (Leaf::Integer(Integer::U128), "u128"),
    (Leaf::Integer(Integer::I8), "i8"),
    (Leaf::Integer(Integer::I16), "i16"),
    (Leaf::Integer(Integer::I32), "i32"),
    (Leaf::Integer(Integer::I64), "i64"),
    (Leaf::Integer(Integer::I128), "i128"),
    (Leaf::Float(Float::F32), "f32"),
    (Leaf::Float(Float::F64), "f64"),
    (Leaf::Char, "char"),
    (Leaf::Str, "str"),
    (Leaf::Fixed(ByteOrder::Little, Integer::U16), "LE<u16>"),
    (Leaf::Fixed(ByteOrder::Big, Integer::I64), "BE<i64>"),
];

/// Steps from a value to one of its parts, and the path that they make.
const PATHS: [(&[Step<'static>], &str); 8] = [
    (&[], ""),
    (&[Step::Name("label")], "label"),
    (&[Step::Part(0)], "0"),
    (&[Step::Element(12)], "[12]"),
    (
        &[Step::Name("samples"), Step::Element(1), Step::Name("label")],
        "samples[1].label",
    ),
    (&[Step::Name("Reading"), Step::Part(1)], "Reading.1"),
    (&[Step::Part(1), Step::Part(0)], "1.0"),
    (
        &[Step::Name("table"), Step::Each, Step::Part(1), Step::Each],
        "table[].1[]",
    ),
];

#[test]
fn prints_leaves(rt: HostRuntime) {
    for (leaf, printed) in &LEAVES {
        prints(&rt, leaf, printed);
    }
}

#[test]
fn prints_paths(rt: HostRuntime) {
    for (steps, printed) in &PATHS {
        let steps = Vec::from_slice(rt.alloc(), steps).expect(&rt, printed);
        prints(&rt, &Path { steps }, printed);
    }
}
