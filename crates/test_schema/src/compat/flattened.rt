//! Flattened types, with the paths of their parts.

use crate::compat::helpers::{flat, same};

/// A type, and the flattened one as `Debug` prints it.
const TYPES: [(&str, &str); 8] = [
    ("u8", "Leaf(Integer(U8))"),
    ("()", "Struct([])"),
    (
        "{pos: {lat: i32, lon: i16}, alt: u8}",
        "Struct([Named { name: \"pos.lat\", content: Leaf(Integer(I32)) }, Named { name: \
         \"pos.lon\", content: Leaf(Integer(I16)) }, Named { name: \"alt\", content: \
         Leaf(Integer(U8)) }])",
    ),
    (
        "{samples: [(bool, str); 2]}",
        "Struct([Named { name: \"samples[0].0\", content: Leaf(Bool) }, Named { name: \
         \"samples[0].1\", content: Leaf(Str) }, Named { name: \"samples[1].0\", content: \
         Leaf(Bool) }, Named { name: \"samples[1].1\", content: Leaf(Str) }])",
    ),
    (
        "([[u8; 1]; 2], (u8?,))",
        "Struct([Named { name: \"0[0][0]\", content: Leaf(Integer(U8)) }, Named { name: \
         \"0[1][0]\", content: Leaf(Integer(U8)) }, Named { name: \"1.0\", content: \
         Option(Leaf(Integer(U8))) }])",
    ),
    (
        "{u8 => {a: bytes, b: bool}}",
        "Seq(Struct([Named { name: \"0\", content: Leaf(Integer(U8)) }, Named { name: \
         \"1.a\", content: Seq(Leaf(Integer(U8))) }, Named { name: \"1.b\", content: \
         Leaf(Bool) }]))",
    ),
    (
        "Boot | Reading((u8, bool), ())",
        "Enum([Named { name: \"Boot\", content: Struct([]) }, Named { name: \"Reading\", \
         content: Struct([Named { name: \"0.0\", content: Leaf(Integer(U8)) }, Named { name: \
         \"0.1\", content: Leaf(Bool) }]) }])",
    ),
    (
        "[(u8, (bool,)); 33]",
        "Array(Struct([Named { name: \"0\", content: Leaf(Integer(U8)) }, Named { name: \
         \"1.0\", content: Leaf(Bool) }]), 33)",
    ),
];

#[test]
fn flattens_types(rt: HostRuntime) {
    for (text, wanted) in &TYPES {
        let printed = format!(in rt.alloc(); "{:?}", flat(&rt, text)).expect(&rt, "memory");
        same(&rt, printed.as_str(), *wanted, *text);
    }
}
