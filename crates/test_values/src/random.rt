//! Tests with random bytes, which several types read. Either they are read as a value, which is
//! then written and read again. Or they are refused with a named error whose place is within the
//! bytes.

use crate::helpers::{check_read, check_written, encoded, text_of, type_of};
use crate::same::same;
use postcard_explain::explain;
use postcard_value::{Schema, Value, refused_at, take_from_bytes};
use postcard_wire::Error;
use std::process::Abort;

/// The type expressions.
const EXPRESSIONS: [&str; 20] = [
    "u8",
    "(u16, i16)",
    "[u32]",
    "[[u8]]",
    "str",
    "bytes",
    "char",
    "bool?",
    "u8???",
    "[u8; 5]",
    "[(u8, bool)]",
    "{u8 => u8}",
    "{str => i64?}",
    "{id: u32, label: str, samples: [i16]}",
    "A | B(u8) | C{x: i8, y: u128}",
    "[A | B | C | D]",
    "(i128, [u64; 2])",
    "[{a: [u8], b: char?}]",
    "{u16 => {u16 => u16}}",
    "((), [(u8, ())], usize)",
];

/// Returns the next byte of a random generator: the highest byte of its state, with the multiplier
/// and the increment of Knuth's MMIX.
fn next(state: &mut u64) -> u8 {
    *state = state
        .wrapping_mul(6_364_136_223_846_793_005)
        .wrapping_add(1_442_695_040_888_963_407);
    state.to_be_bytes()[0]
}

/// Asserts that the value with which a message of `length` bytes begins is read again from its text
/// and from its encoding.
fn check_value(rt: &(impl Abort + AllocGlobal), schema: &Schema, value: &Value, length: usize) {
    let text = text_of(rt, schema, value);
    let message = encoded(rt, value);
    same(rt, message.len() <= length, true, text.as_str());
    check_written(rt, schema, text.as_str(), &message);
    check_read(rt, schema, &message, text.as_str(), &[]);
}

/// Returns whether the error is one of reading.
fn is_of_reading(error: &Error) -> bool {
    matches!(
        error,
        Error::DeserializeUnexpectedEnd
            | Error::DeserializeBadVarint
            | Error::DeserializeBadBool
            | Error::DeserializeBadChar
            | Error::DeserializeBadUtf8
            | Error::DeserializeBadOption
            | Error::SerdeDeCustom
    )
}

/// Asserts that the lines that explain the message end with the error that reading it returns, if
/// any. Returns the number of bytes on the last line.
fn check_lines(
    rt: &(impl Abort + AllocGlobal),
    schema: &Schema,
    message: &[u8],
    error: Option<&Error>,
) -> usize {
    let told = explain(rt.alloc(), schema, 3, message).expect(rt, "memory");
    same(rt, told.refused.as_ref(), error, message);
    match told.lines.as_slice() {
        [.., last] => last.bytes.len(),
        [] => 0,
    }
}

/// Asserts that the error with which a message is refused is one of reading. Its place is within
/// the message, and is that of the last line that explains the message.
fn check_error(rt: &(impl Abort + AllocGlobal), schema: &Schema, message: &[u8], error: &Error) {
    same(rt, is_of_reading(error), true, error);
    let place = refused_at(rt.alloc(), schema, message)
        .expect(rt, "memory")
        .offset;
    same(rt, place <= message.len(), true, message);
    let last = check_lines(rt, schema, message, Some(error));
    same(rt, place.saturating_add(last), message.len(), message);
}

/// Reads a message of the type, and checks the value or the error. Returns 1 if it was a value, and
/// else 0.
fn check(rt: &(impl Abort + AllocGlobal), schema: &Schema, message: &[u8]) -> u32 {
    match take_from_bytes(rt.alloc(), schema, message) {
        Ok((value, rest)) => {
            let _ = check_lines(rt, schema, message, None);
            check_value(rt, schema, &value, message.len() - rest.len());
            1
        }
        Err(error) => {
            check_error(rt, schema, message, &error);
            0
        }
    }
}

/// Returns `length` random bytes: of any value, or if they are to be `small`, below 6.
fn bytes(rt: &(impl Abort + AllocGlobal), state: &mut u64, length: u8, small: bool) -> Vec<u8> {
    let mut bytes = Vec::new(rt.alloc());
    for _ in 0..length {
        let byte = next(state);
        bytes
            .push(if small { byte % 6 } else { byte })
            .expect(rt, "memory");
    }
    bytes
}

/// Checks 200 random messages of the type. Returns the number of those that begin with a value.
fn check_type(rt: &(impl Abort + AllocGlobal), state: &mut u64, expression: &str) -> u32 {
    let schema = type_of(rt, expression);
    let mut values = 0u32;
    for round in 0..200 {
        let message = bytes(rt, state, round % 24, round % 2 == 1);
        values = values.saturating_add(check(rt, &schema, &message));
    }
    values
}

#[test]
fn ends_in_a_value_or_a_refusal(rt: HostRuntime) {
    let mut state = 1;
    let mut values = 0u32;
    for expression in &EXPRESSIONS {
        values = values.saturating_add(check_type(&rt, &mut state, expression));
    }
    same(&rt, values > 500, true, values);
}
