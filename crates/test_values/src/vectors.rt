//! Tests with vectors that were worked out by hand from the wire format.

use crate::helpers::{check_read, check_refused, check_written, decoded, encoded, type_of};
use crate::same::same;
use postcard_value::Schema;
use postcard_wire::Error;
use std::process::Abort;

/// Type expressions, each with the text of a value as it is printed, and the value's encoding.
const VECTORS: [(&str, &str, &[u8]); 63] = [
    ("u8", "255", &[0xFF]),
    ("(u8)", "0", &[0x00]),
    ("u16", "300", &[0xAC, 0x02]),
    ("u32", "4294967295", &[0xFF, 0xFF, 0xFF, 0xFF, 0x0F]),
    (
        "u64",
        "18446744073709551615",
        &[0xFF, 0xFF, 0xFF, 0xFF, 0xFF, 0xFF, 0xFF, 0xFF, 0xFF, 0x01],
    ),
    ("usize", "128", &[0x80, 0x01]),
    (
        "u128",
        "340282366920938463463374607431768211455",
        &[
            0xFF, 0xFF, 0xFF, 0xFF, 0xFF, 0xFF, 0xFF, 0xFF, 0xFF, 0xFF, 0xFF, 0xFF, 0xFF, 0xFF,
            0xFF, 0xFF, 0xFF, 0xFF, 0x03,
        ],
    ),
    ("i8", "-128", &[0x80]),
    ("i16", "-32768", &[0xFF, 0xFF, 0x03]),
    ("i32", "-1", &[0x01]),
    (
        "i64",
        "9223372036854775807",
        &[0xFE, 0xFF, 0xFF, 0xFF, 0xFF, 0xFF, 0xFF, 0xFF, 0xFF, 0x01],
    ),
    ("isize", "-64", &[0x7F]),
    (
        "i128",
        "-170141183460469231731687303715884105728",
        &[
            0xFF, 0xFF, 0xFF, 0xFF, 0xFF, 0xFF, 0xFF, 0xFF, 0xFF, 0xFF, 0xFF, 0xFF, 0xFF, 0xFF,
            0xFF, 0xFF, 0xFF, 0xFF, 0x03,
        ],
    ),
    ("bool", "true", &[0x01]),
    ("char", "'é'", &[0x02, 0xC3, 0xA9]),
    ("char", "'\\''", &[0x01, 0x27]),
    ("str", "\"\"", &[0x00]),
    ("str", "\"Hi!\"", &[0x03, 0x48, 0x69, 0x21]),
    (
        "str",
        "\"a \\\"b\\\" \\\\ \\n\"",
        &[0x09, 0x61, 0x20, 0x22, 0x62, 0x22, 0x20, 0x5C, 0x20, 0x0A],
    ),
    ("bytes", "0x", &[0x00]),
    ("bytes", "0x00ff", &[0x02, 0x00, 0xFF]),
    ("()", "()", &[]),
    ("u8?", "None", &[0x00]),
    ("u8?", "Some(7)", &[0x01, 0x07]),
    ("u16??", "Some(None)", &[0x01, 0x00]),
    ("u16??", "Some(Some(300))", &[0x01, 0x01, 0xAC, 0x02]),
    ("[u8]", "[]", &[0x00]),
    ("[u32]", "[1, 300]", &[0x02, 0x01, 0xAC, 0x02]),
    (
        "[[i8]]",
        "[[-1], [], [2, 3]]",
        &[0x03, 0x01, 0xFF, 0x00, 0x02, 0x02, 0x03],
    ),
    (
        "[(str, bool?)]",
        "[(\"a\", None), (\"b\", Some(true))]",
        &[0x02, 0x01, 0x61, 0x00, 0x01, 0x62, 0x01, 0x01],
    ),
    (
        "[u16; 3]",
        "[1, 128, 16384]",
        &[0x01, 0x80, 0x01, 0x80, 0x80, 0x01],
    ),
    ("[u8; 0]", "[]", &[]),
    ("(u8,)", "(9,)", &[0x09]),
    (
        "(u8, u32, str)",
        "(1, 10, \"Hello!\")",
        &[0x01, 0x0A, 0x06, 0x48, 0x65, 0x6C, 0x6C, 0x6F, 0x21],
    ),
    ("((u8, u8), ())", "((1, 2), ())", &[0x01, 0x02]),
    (
        "{id: u32, label: str, samples: [i16]}",
        "{id: 42, label: \"x\", samples: [1, -2]}",
        &[0x2A, 0x01, 0x78, 0x02, 0x02, 0x03],
    ),
    (
        "{at: {x: i32, y: i32}, on: bool}",
        "{at: {x: -300, y: 5}, on: false}",
        &[0xD7, 0x04, 0x0A, 0x00],
    ),
    ("{u8 => bool}", "{}", &[0x00]),
    (
        "{u8 => str}",
        "{2 => \"b\", 1 => \"a\", 2 => \"\"}",
        &[0x03, 0x02, 0x01, 0x62, 0x01, 0x01, 0x61, 0x02, 0x00],
    ),
    (
        "{str => [u8]}",
        "{\"k\" => [1]}",
        &[0x01, 0x01, 0x6B, 0x01, 0x01],
    ),
    (
        "Boot | Reading(u16, i32) | Fault{code: u8, text: str}",
        "Boot",
        &[0x00],
    ),
    (
        "Boot | Reading(u16, i32) | Fault{code: u8, text: str}",
        "Reading(300, -2)",
        &[0x01, 0xAC, 0x02, 0x03],
    ),
    (
        "Boot | Reading(u16, i32) | Fault{code: u8, text: str}",
        "Fault{code: 7, text: \"hot\"}",
        &[0x02, 0x07, 0x03, 0x68, 0x6F, 0x74],
    ),
    ("|Only(u64?)", "Only(Some(1))", &[0x00, 0x01, 0x01]),
    (
        "[On | Off | Level(u8)]",
        "[Off, Level(3), On]",
        &[0x03, 0x01, 0x02, 0x03, 0x00],
    ),
    ("(On | Off)?", "Some(Off)", &[0x01, 0x01]),
    (
        "{state: On | Off, raw: bytes}",
        "{state: On, raw: 0x0a}",
        &[0x00, 0x01, 0x0A],
    ),
    (
        "|Pair((u8, u16))",
        "Pair(1, 300)",
        &[0x00, 0x01, 0xAC, 0x02],
    ),
    (
        "Rest(()) | At({x: i16, y: char})",
        "At{x: -65, y: 'x'}",
        &[0x01, 0x81, 0x01, 0x01, 0x78],
    ),
    (
        "[{u16 => (i8, bool)}; 2]",
        "[{128 => (-2, true)}, {}]",
        &[0x01, 0x80, 0x01, 0xFE, 0x01, 0x00],
    ),
    ("u16", "128", &[0x80, 0x01]),
    (
        "(u16, i32, str, [u16], u8?)",
        "(42, -2, \"x\", [1, 2], Some(7))",
        &[42, 3, 1, 120, 2, 1, 2, 1, 7],
    ),
    (
        "{a: [i8; 3], b: {char => bytes}}",
        "{a: [-1, -128, 127], b: {'a' => 0x090a}}",
        &[0xFF, 0x80, 0x7F, 1, 1, 0x61, 2, 9, 10],
    ),
    (
        "Boot | Reading(u16, i32) | Fault{code: u8, text: str}",
        "Fault{code: 5, text: \"x\"}",
        &[2, 5, 1, 0x78],
    ),
    ("[A | B(u8)]", "[B(9), A, A]", &[3, 1, 9, 0, 0]),
    ("&str", "\"Hi!\"", &[0x03, 0x48, 0x69, 0x21]),
    ("&'a [u8]", "[0, 255]", &[0x02, 0x00, 0xFF]),
    ("&&'a u16", "300", &[0xAC, 0x02]),
    ("&[&str]", "[\"a\", \"\"]", &[0x02, 0x01, 0x61, 0x00]),
    ("Option<&'static str>", "Some(\"a\")", &[0x01, 0x01, 0x61]),
    (
        "&'a (u16, &i32)?",
        "Some((300, -2))",
        &[0x01, 0xAC, 0x02, 0x03],
    ),
    ("&(On | Off)", "Off", &[0x01]),
    (
        "{name: &'a str, data: &'a [u16]}",
        "{name: \"x\", data: [128]}",
        &[0x01, 0x78, 0x01, 0x80, 0x01],
    ),
];

/// Asserts that the message, with a byte after it, is read as a value that is printed as the text.
fn check_longer(rt: &(impl Abort + AllocGlobal), schema: &Schema, text: &str, message: &[u8]) {
    let mut longer = message.to_vec(rt.alloc()).expect(rt, "memory");
    longer.push(0xFF).expect(rt, "memory");
    check_read(rt, schema, &longer, text, &[0xFF]);
}

/// Asserts that reading each proper prefix of the message fails with `DeserializeUnexpectedEnd`.
fn check_fronts(rt: &(impl Abort + AllocGlobal), schema: &Schema, message: &[u8]) {
    for length in 0..message.len() {
        let front = &message[..length];
        check_refused(rt, schema, front, &Error::DeserializeUnexpectedEnd);
    }
}

/// Asserts that the value of the text is written as the message. That value is read from the
/// message, with or without a byte after it. No value is read from a proper prefix of the message.
pub fn check_row(rt: &(impl Abort + AllocGlobal), expression: &str, text: &str, message: &[u8]) {
    let schema = type_of(rt, expression);
    check_written(rt, &schema, text, message);
    let (value, rest) = decoded(rt, &schema, message);
    same(rt, rest.len(), 0, text);
    same(rt, encoded(rt, &value).as_slice(), message, text);
    check_longer(rt, &schema, text, message);
    check_fronts(rt, &schema, message);
}

#[test]
fn both_ways(rt: HostRuntime) {
    for (expression, text, message) in &VECTORS {
        check_row(&rt, expression, text, message);
    }
}
