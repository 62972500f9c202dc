//! The messages and the names of the errors, and the conversions into errors.

use crate::asserts::{same, same_at, same_bytes, value};
use postcard_wire::{Error, Result};
use std::alloc::{AllocError, Global};
use std::error;
use std::process::Abort;

/// Each error with its name and its message: those of postcard 1.1.3, and last this port's own.
const TABLE: [(Error, &str, &str); 17] = [
    (
        Error::WontImplement,
        "WontImplement",
        "This is a feature that PostCard will never implement",
    ),
    (
        Error::NotYetImplemented,
        "NotYetImplemented",
        "This is a feature that Postcard intends to support, but does not yet",
    ),
    (
        Error::SerializeBufferFull,
        "SerializeBufferFull",
        "The serialize buffer is full",
    ),
    (
        Error::SerializeSeqLengthUnknown,
        "SerializeSeqLengthUnknown",
        "The length of a sequence must be known",
    ),
    (
        Error::DeserializeUnexpectedEnd,
        "DeserializeUnexpectedEnd",
        "Hit the end of buffer, expected more data",
    ),
    (
        Error::DeserializeBadVarint,
        "DeserializeBadVarint",
        "Found a varint that didn't terminate. Is the usize too big for this platform?",
    ),
    (
        Error::DeserializeBadBool,
        "DeserializeBadBool",
        "Found a bool that wasn't 0 or 1",
    ),
    (
        Error::DeserializeBadChar,
        "DeserializeBadChar",
        "Found an invalid unicode char",
    ),
    (
        Error::DeserializeBadUtf8,
        "DeserializeBadUtf8",
        "Tried to parse invalid utf-8",
    ),
    (
        Error::DeserializeBadOption,
        "DeserializeBadOption",
        "Found an Option discriminant that wasn't 0 or 1",
    ),
    (
        Error::DeserializeBadEnum,
        "DeserializeBadEnum",
        "Found an enum discriminant that was > u32::max_value()",
    ),
    (
        Error::DeserializeBadEncoding,
        "DeserializeBadEncoding",
        "The original data was not well encoded",
    ),
    (
        Error::DeserializeBadCrc,
        "DeserializeBadCrc",
        "Bad CRC while deserializing",
    ),
    (
        Error::SerdeSerCustom,
        "SerdeSerCustom",
        "Serde Serialization Error",
    ),
    (
        Error::SerdeDeCustom,
        "SerdeDeCustom",
        "Serde Deserialization Error",
    ),
    (
        Error::CollectStrError,
        "CollectStrError",
        "Error while processing `collect_str` during serialization",
    ),
    (Error::OutOfMemory, "OutOfMemory", "Out of memory"),
];

fn text_of<E: error::Error>(rt: &impl Abort, alloc: Global, error: &E) -> String {
    value(rt, error.to_string(alloc))
}

fn name_of(rt: &impl Abort, alloc: Global, error: &Error) -> String {
    value(rt, format!(in alloc; "{error:?}"))
}

/// Asserts what an error prints, for programmers and otherwise.
fn assert_printed(rt: &impl Abort, alloc: Global, error: &Error, name: &str, text: &str) {
    same_bytes(rt, text_of(rt, alloc, error).as_bytes(), text.as_bytes());
    same_bytes(rt, name_of(rt, alloc, error).as_bytes(), name.as_bytes());
}

#[test]
fn prints_its_text_and_its_name(rt: HostRuntime) {
    let alloc = rt.alloc();
    for (error, name, text) in &TABLE {
        assert_printed(&rt, alloc, error, name, text);
    }
}

/// Asserts that the error at this place of the table, or its clone, equals no other of the table.
fn assert_single(rt: &impl Abort, place: usize, error: &Error) {
    let copy = value(rt, error.clone());
    for (i, (other, name, _)) in TABLE.iter().enumerate() {
        same_at(rt, copy == *other, i == place, *name);
    }
}

#[test]
fn equals_its_clone_alone(rt: HostRuntime) {
    for (i, (error, ..)) in TABLE.iter().enumerate() {
        assert_single(&rt, i, error);
    }
}

#[test]
fn is_made_of_any_message(rt: HostRuntime) {
    same(
        &rt,
        Error::ser_custom("no such colour"),
        Error::SerdeSerCustom,
    );
    same(&rt, Error::ser_custom(7u8), Error::SerdeSerCustom);
    same(
        &rt,
        Error::de_custom("no such colour"),
        Error::SerdeDeCustom,
    );
    same(&rt, Error::de_custom(7u8), Error::SerdeDeCustom);
}

/// Allocates as the impl of a user's type does, with `?` alone.
fn grown(alloc: Global) -> Result<(String, Vec<u8>)> {
    let text = String::from_str(alloc, "Hi!")?;
    let mut items = Vec::new(alloc);
    items.push(7)?;
    Ok((text, items))
}

#[test]
fn is_made_of_a_refused_allocation(rt: HostRuntime) {
    same(&rt, Error::from(AllocError), Error::OutOfMemory);
    match grown(rt.alloc()) {
        Ok((text, items)) => {
            same_bytes(&rt, text.as_bytes(), b"Hi!");
            same_bytes(&rt, &items, &[7]);
        }
        Err(error) => same(&rt, error, Error::OutOfMemory),
    }
}
