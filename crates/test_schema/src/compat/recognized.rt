//! Which pairs of flattened types are recognized as two versions of a type.

use crate::compat::helpers::{flat, same};
use postcard_compat::{both, serves, serves_front};
use std::process::Abort;

/// The relation that is recognized between an old and a new type, the strongest first.
#[derive(Clone, Copy, Debug, PartialEq, Eq)]
enum Found {
    /// Each type serves the other.
    Same,
    /// The new type serves the old one.
    Serves,
    /// The new type serves the first parts of the old one.
    Front,
    /// Another type serves both.
    Both,
    Nothing,
}

/// An old type, a new type, and the relation that is recognized between them.
type Row<'a> = (&'a str, &'a str, Found);

const PAIRS: [Row; 50] = [
    // Groups
    ("((u8, u8), u8)", "(u8, u8, u8)", Found::Same),
    ("(u8, (u8, u8))", "((u8, u8), u8)", Found::Same),
    (
        "{pos: {lat: i32, lon: i32}, alt: i32}",
        "{lat: i32, lon: i32, alt: i32}",
        Found::Same,
    ),
    ("(u16,)", "u16", Found::Same),
    ("{a: (u16,)}", "{b: u16}", Found::Same),
    ("(u8, (), u16)", "{a: u8, b: u16}", Found::Same),
    ("((), ((), ()))", "()", Found::Same),
    ("[[(u8, u8)]]", "[[{a: (u8,), b: u8}]]", Found::Same),
    ("(u8, u16)?", "((u8, ()), u16)?", Found::Same),
    (
        "A | B((u8, u16), u8)",
        "C(()) | D(u8, u16, u8)",
        Found::Same,
    ),
    // Arrays
    ("[u8; 3]", "(u8, u8, u8)", Found::Same),
    ("[u8; 0]", "()", Found::Same),
    ("[(u8, ()); 2]", "(u8, u8)", Found::Same),
    ("[[u16; 2]; 2]", "[u16; 4]", Found::Same),
    (
        "[(u8, bool); 2]",
        "{a: [u8; 1], b: bool, c: u8, d: bool}",
        Found::Same,
    ),
    ("([u8; 40], [u8; 40])", "[[u8; 40]; 2]", Found::Nothing),
    ("[u8; 64]", "([u8; 63], u8)", Found::Same),
    ("[u8; 65]", "([u8; 64], u8)", Found::Nothing),
    ("[(u8, u16); 1000]", "[{a: (u8, u16)}; 1000]", Found::Same),
    ("[u16; 1000]", "[u32; 1000]", Found::Serves),
    ("[u8; 1000]", "[u8; 1001]", Found::Nothing),
    // Lists of bytes, and maps
    ("bytes", "[u8]", Found::Same),
    ("(bytes, u8)", "([(u8,)], u8)", Found::Same),
    ("{u8 => u16}", "[(u8, u16)]", Found::Same),
    ("{(u8, u8) => ()}", "[[u8; 2]]", Found::Same),
    ("{u16 => bytes}", "[{key: u32, value: [u8]}]", Found::Serves),
    // Options
    ("u8?", "None | Some(u8)", Found::Serves),
    ("u16?", "| No(()) | Yes(u32) | Later", Found::Serves),
    ("()?", "A | B", Found::Serves),
    ("u8?", "Some(u8) | None", Found::Nothing),
    ("u8?", "A(u8) | B(u8)", Found::Nothing),
    ("A | B(u8)", "u8?", Found::Nothing),
    ("u16?", "u32?", Found::Serves),
    // Numbers, variants and the number of parts
    ("u16", "u32", Found::Serves),
    ("u32", "u16", Found::Both),
    ("u8", "u16", Found::Nothing),
    ("i16", "u16", Found::Nothing),
    ("A | B(u16)", "A | B(u64) | C", Found::Serves),
    ("A | B | C", "A | B", Found::Both),
    ("(A | B | C, u16)", "((A | B, u64), ())", Found::Both),
    ("(u8, u16)", "u8", Found::Front),
    (
        "{pos: (u8, u16), alt: u8}",
        "{lat: u8, lon: u32}",
        Found::Front,
    ),
    ("u8", "()", Found::Front),
    ("u8", "(u8, u16)", Found::Nothing),
    ("(u8, u16)", "(u8, u16, u8)", Found::Nothing),
    // Other meanings
    ("str", "bytes", Found::Nothing),
    ("bool", "u8", Found::Nothing),
    ("f32", "LE<u32>", Found::Nothing),
    ("f32", "[u8; 4]", Found::Nothing),
    ("LE<u16>", "BE<u16>", Found::Nothing),
];

#[test]
fn recognizes_pairs(rt: HostRuntime) {
    for (old, new, wanted) in &PAIRS {
        same(&rt, found_of(&rt, old, new), *wanted, (*old, *new));
    }
}

fn found_of(rt: &(impl Abort + AllocGlobal), old: &str, new: &str) -> Found {
    let old = flat(rt, old);
    let new = flat(rt, new);
    if serves(&old, &new) {
        return if serves(&new, &old) {
            Found::Same
        } else {
            Found::Serves
        };
    }
    if serves_front(&old, &new) {
        return Found::Front;
    }
    match both(rt.alloc(), &old, &new).expect(rt, "memory") {
        Some(_) => Found::Both,
        None => Found::Nothing,
    }
}
