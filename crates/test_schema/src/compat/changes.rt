//! One change of a type at a time, in both directions: the new type reads old messages, and the old
//! type reads new ones.

use crate::compat::rows::{Row, check};
use postcard_compat::Verdict::{Differs, Front, Misread, Refuses, Same};

const CHANGES: [Row<'static>; 32] = [
    (
        "{id: u32, t: i16}",
        "{id: u32, temp: i16}",
        (Same, ""),
        (Same, ""),
    ),
    (
        "{lat: i32, alt: i16}",
        "{pos: {lat: i32}, alt: i16}",
        (Same, ""),
        (Same, ""),
    ),
    ("i16", "((i16,), ())", (Same, ""), (Same, "")),
    ("{a: u8, b: u8}", "[u8; 2]", (Same, ""), (Same, "")),
    (
        "{id: u32, t: u32}",
        "{t: u32, id: u32}",
        (Misread, "id: is read as t"),
        (Misread, "t: is read as id"),
    ),
    (
        "{id: u32}",
        "{id: u32, t: i16}",
        (Refuses, "t: i16 is new"),
        (Front, "t: i16 is gone"),
    ),
    (
        "{id: u32}",
        "{v: u8, id: u32}",
        (Misread, "id: is read as v"),
        (Misread, "v: is read as id"),
    ),
    // A struct of one field keeps its name.
    (
        "{b: u8, a: u8}",
        "{a: u8}",
        (Differs, "b: is read as a"),
        (Differs, "a: is read as b"),
    ),
    (
        "[{id: u32}]",
        "[{id: u32, t: i16}]",
        (Differs, "[].t: i16 is new"),
        (Differs, "[].t: i16 is gone"),
    ),
    (
        "u32",
        "u32?",
        (Misread, "the value: u32 is read as option"),
        (Misread, "the value: option is read as u32"),
    ),
    (
        "u32",
        "[u32]",
        (Misread, "the value: u32 is read as list"),
        (Misread, "the value: list is read as u32"),
    ),
    (
        "(u16, i16)",
        "(u32, i64)",
        (Same, ""),
        (Refuses, "0: u32 is read as u16, which ends at 65535"),
    ),
    (
        "u8",
        "u16",
        (Differs, "the value: u8 is read as u16"),
        (Differs, "the value: u16 is read as u8"),
    ),
    (
        "u16",
        "i32",
        (Misread, "the value: u16 is read as i32"),
        (Misread, "the value: i32 is read as u16"),
    ),
    (
        "u8",
        "i8",
        (Misread, "the value: u8 is read as i8"),
        (Misread, "the value: i8 is read as u8"),
    ),
    (
        "LE<u16>",
        "LE<u32>",
        (Differs, "the value: LE<u16> is read as LE<u32>"),
        (Differs, "the value: LE<u32> is read as LE<u16>"),
    ),
    (
        "LE<u16>",
        "BE<u16>",
        (Misread, "the value: LE<u16> is read as BE<u16>"),
        (Misread, "the value: BE<u16> is read as LE<u16>"),
    ),
    (
        "f32",
        "f64",
        (Differs, "the value: f32 is read as f64"),
        (Differs, "the value: f64 is read as f32"),
    ),
    (
        "Stop | Go(u8)",
        "Stop | Go(u8) | Reset",
        (Same, ""),
        (Refuses, "the value: variant Reset (2) is unknown"),
    ),
    ("Stop | Go", "Halt | Go", (Same, ""), (Same, "")),
    (
        "Stop | Go",
        "Stop | Reset | Go",
        (Misread, "the value: variant Go (1) is read as Reset"),
        (Misread, "the value: variant Reset (1) is read as Go"),
    ),
    (
        "Stop | Go",
        "Go | Stop",
        (Misread, "the value: variant Stop (0) is read as Go"),
        (Misread, "the value: variant Go (0) is read as Stop"),
    ),
    (
        "Result<u8, u16>",
        "Fine(u8) | Failed(u16)",
        (Same, ""),
        (Same, ""),
    ),
    (
        "u16?",
        "No | Yes(u16)",
        (Same, ""),
        (Differs, "the value: enum is read as option"),
    ),
    (
        "bool",
        "Off | On",
        (Misread, "the value: bool is read as enum"),
        (Misread, "the value: enum is read as bool"),
    ),
    (
        "bool",
        "u8",
        (Misread, "the value: bool is read as u8"),
        (Misread, "the value: u8 is read as bool"),
    ),
    (
        "[u8; 4]",
        "[u8; 5]",
        (Refuses, "[4]: u8 is new"),
        (Front, "[4]: u8 is gone"),
    ),
    (
        "[u8; 4]",
        "[u8]",
        (Misread, "[0]: u8 is read as list"),
        (Misread, "the value: list is read as u8"),
    ),
    ("{u8 => u16}", "[(u8, u16)]", (Same, ""), (Same, "")),
    ("[u8]", "bytes", (Same, ""), (Same, "")),
    (
        "str",
        "bytes",
        (Misread, "the value: str is read as list"),
        (Misread, "the value: list is read as str"),
    ),
    (
        "char",
        "str",
        (Misread, "the value: char is read as str"),
        (Misread, "the value: str is read as char"),
    ),
];

#[test]
fn compares_changes(rt: HostRuntime) {
    check(&rt, &CHANGES);
}
