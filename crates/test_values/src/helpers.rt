//! What the tests share: types, values, their texts and their encodings, each with a panic in the
//! place of an error.

use crate::same::same;
use postcard_schema_text::parse;
use postcard_ser_flavors::AllocVec;
use postcard_value::{Schema, Value, take_from_bytes, to_flavor};
use postcard_value_text::{Shown, read_text};
use postcard_wire::Error;
use std::process::Abort;

/// Returns the type of an expression.
pub fn type_of(rt: &(impl Abort + AllocGlobal), expression: &str) -> Schema {
    parse(rt.alloc(), expression).expect(rt, expression)
}

/// Returns the value of a text.
pub fn value_of(rt: &(impl Abort + AllocGlobal), schema: &Schema, text: &str) -> Value {
    read_text(rt.alloc(), schema, text).expect(rt, text)
}

/// Returns the text of a value.
pub fn text_of(rt: &(impl Abort + AllocGlobal), schema: &Schema, value: &Value) -> String {
    format!(in rt.alloc(); "{}", Shown { schema, value }).expect(rt, "a text is not printed")
}

/// Returns the encoding of a value.
pub fn encoded(rt: &(impl Abort + AllocGlobal), value: &Value) -> Vec<u8> {
    to_flavor(value, AllocVec::new(rt.alloc())).expect(rt, "a value is not written")
}

/// Returns the value at the start of a message, and the bytes after it.
pub fn decoded<'a>(
    rt: &(impl Abort + AllocGlobal),
    schema: &Schema,
    message: &'a [u8],
) -> (Value, &'a [u8]) {
    take_from_bytes(rt.alloc(), schema, message).expect(rt, "a message is not read")
}

/// Returns `before`, `count` times `part`, and `after`.
pub fn text_with(
    rt: &(impl Abort + AllocGlobal),
    before: &str,
    part: &str,
    count: usize,
    after: &str,
) -> String {
    let parts = part.repeat(rt.alloc(), count).expect(rt, "memory");
    format!(in rt.alloc(); "{before}{parts}{after}").expect(rt, "memory")
}

/// Returns `inner` within `count` pairs of brackets.
pub fn nested(rt: &(impl Abort + AllocGlobal), count: usize, inner: &str) -> String {
    let opened = text_with(rt, "", "[", count, inner);
    text_with(rt, opened.as_str(), "]", count, "")
}

/// Asserts that the value of the text is written as the message.
pub fn check_written(rt: &(impl Abort + AllocGlobal), schema: &Schema, text: &str, message: &[u8]) {
    let value = value_of(rt, schema, text);
    same(rt, encoded(rt, &value).as_slice(), message, text);
}

/// Asserts that a value that is printed as the text is read from the bytes, and that `rest` is left.
pub fn check_read(
    rt: &(impl Abort + AllocGlobal),
    schema: &Schema,
    bytes: &[u8],
    text: &str,
    rest: &[u8],
) {
    let (value, left) = decoded(rt, schema, bytes);
    same(rt, text_of(rt, schema, &value).as_str(), text, "its text");
    same(rt, left, rest, text);
}

/// Asserts that the bytes are refused with the error.
pub fn check_refused(
    rt: &(impl Abort + AllocGlobal),
    schema: &Schema,
    bytes: &[u8],
    error: &Error,
) {
    let found = take_from_bytes(rt.alloc(), schema, bytes).err();
    same(rt, found.as_ref(), Some(error), bytes);
}

/// Asserts whether the text is a type expression.
pub fn check_type(rt: &(impl Abort + AllocGlobal), text: &str, is_type: bool) {
    same(rt, parse(rt.alloc(), text).is_ok(), is_type, text);
}

/// Asserts that what is read from a text of a type, a value or an error, is printed as `wanted`.
pub fn check_text(rt: &(impl Abort + AllocGlobal), kind: &str, text: &str, wanted: &str) {
    let schema = type_of(rt, kind);
    let printed = match read_text(rt.alloc(), &schema, text) {
        Ok(value) => text_of(rt, &schema, &value),
        Err(error) => format!(in rt.alloc(); "{error}").expect(rt, "memory"),
    };
    same(rt, printed.as_str(), wanted, (kind, text));
}

/// Asserts the same of each row: a type, a text and what is printed.
pub fn check_texts(rt: &(impl Abort + AllocGlobal), rows: &[(&str, &str, &str)]) {
    for (kind, text, wanted) in rows {
        check_text(rt, kind, text, wanted);
    }
}
