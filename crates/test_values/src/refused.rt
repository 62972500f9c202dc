//! Tests of messages that are refused: the error, and its place.

use crate::helpers::{check_refused, type_of};
use crate::same::same;
use postcard_value::refused_at;
use postcard_wire::Error;
use std::process::Abort;

/// A count of 2^64 - 1, and a byte more.
const GREAT_COUNT: [u8; 11] = [
    0xFF, 0xFF, 0xFF, 0xFF, 0xFF, 0xFF, 0xFF, 0xFF, 0xFF, 0x01, 1,
];

/// Type expressions, each with a message that is refused, the error, and its place: an offset and a
/// path. They are those of the leaf, the count, the index or the option's byte that can't be read.
/// A great count doesn't make reading run out of memory, since memory is requested only for
/// elements that were read.
const REFUSED: [(&str, &[u8], Error, usize, &str); 19] = [
    ("u16", &[0x80], Error::DeserializeUnexpectedEnd, 0, ""),
    (
        "(u16, bool)",
        &[0x80, 0x01, 2],
        Error::DeserializeBadBool,
        2,
        "1",
    ),
    (
        "(u8, str)",
        &[1, 5, 0x61],
        Error::DeserializeUnexpectedEnd,
        1,
        "1",
    ),
    ("[bool]", &[3, 1, 0, 7], Error::DeserializeBadBool, 3, "[2]"),
    (
        "[bool]",
        &[3, 1, 0],
        Error::DeserializeUnexpectedEnd,
        3,
        "[2]",
    ),
    ("[u8]", &[0x80], Error::DeserializeUnexpectedEnd, 0, ""),
    (
        "[u8; 3]",
        &[1, 2],
        Error::DeserializeUnexpectedEnd,
        2,
        "[2]",
    ),
    ("u8?", &[2], Error::DeserializeBadOption, 0, ""),
    (
        "(u8, u16?)",
        &[9, 1, 0x80],
        Error::DeserializeUnexpectedEnd,
        2,
        "1",
    ),
    ("A | B(u8)", &[2], Error::SerdeDeCustom, 0, ""),
    ("A | B(u8)", &[1], Error::DeserializeUnexpectedEnd, 1, "B"),
    (
        "{u8 => bool}",
        &[2, 1, 1, 2, 5],
        Error::DeserializeBadBool,
        4,
        "[1].1",
    ),
    (
        "{id: u8, rows: [A | B {on: bool}]}",
        &[7, 2, 0, 1, 2],
        Error::DeserializeBadBool,
        4,
        "rows[1].B.on",
    ),
    (
        "[u128]",
        &GREAT_COUNT,
        Error::DeserializeUnexpectedEnd,
        11,
        "[1]",
    ),
    (
        "[[u8]]",
        &GREAT_COUNT,
        Error::DeserializeUnexpectedEnd,
        11,
        "[0][0]",
    ),
    (
        "[u8?]",
        &GREAT_COUNT,
        Error::DeserializeUnexpectedEnd,
        11,
        "[0]",
    ),
    (
        "{u8 => u8}",
        &GREAT_COUNT,
        Error::DeserializeUnexpectedEnd,
        11,
        "[0].1",
    ),
    ("str", &GREAT_COUNT, Error::DeserializeUnexpectedEnd, 0, ""),
    (
        "bytes",
        &GREAT_COUNT,
        Error::DeserializeUnexpectedEnd,
        0,
        "",
    ),
];

/// Asserts that the message is refused with the error at the place.
fn check(
    rt: &(impl Abort + AllocGlobal),
    expression: &str,
    message: &[u8],
    error: &Error,
    place: (usize, &str),
) {
    let schema = type_of(rt, expression);
    check_refused(rt, &schema, message, error);
    let found = refused_at(rt.alloc(), &schema, message).expect(rt, "memory");
    let path = format!(in rt.alloc(); "{}", found.path).expect(rt, "memory");
    same(
        rt,
        (found.offset, path.as_str()),
        place,
        (expression, message),
    );
}

#[test]
fn tells_the_error_and_its_place(rt: HostRuntime) {
    for (expression, message, error, offset, path) in &REFUSED {
        check(&rt, expression, message, error, (*offset, *path));
    }
}
