//! The examples of the comments of `postcard_compat`.

use postcard_compat::{
    Reading, Verdict, Word, both, compare, differences, example_of, flattened, serves,
    serves_front, words,
};
use postcard_schema_text::parse;
use postcard_value::take_from_bytes;
use std::test::Fail;

#[test]
fn two_types_have_a_common_one(rt: HostRuntime) -> Result<(), Fail> {
    let old = parse(rt.alloc(), "{id: u32, level: u16}").expect(&rt, "a type");
    let new = parse(rt.alloc(), "{id: u16, level: u32}").expect(&rt, "a type");
    let joined = both(rt.alloc(), &old, &new)?;
    assert!(rt; joined.is_some());
    Ok(())
}

#[test]
fn verdicts_of_a_new_variant(rt: HostRuntime) -> Result<(), Fail> {
    let old = parse(rt.alloc(), "Stop | Go(u8)").expect(&rt, "a type");
    let new = parse(rt.alloc(), "Stop | Go(u8) | Reset").expect(&rt, "a type");
    assert_eq!(rt; compare(rt.alloc(), &old, &new)?.verdict, Verdict::Same);
    assert_eq!(rt; compare(rt.alloc(), &new, &old)?.verdict, Verdict::Refuses);
    Ok(())
}

#[test]
fn a_message_that_is_misread(rt: HostRuntime) -> Result<(), Fail> {
    let old = parse(rt.alloc(), "u16").expect(&rt, "a type");
    let new = parse(rt.alloc(), "u8").expect(&rt, "a type");
    let found = example_of(rt.alloc(), &old, &new, &[0xAC, 0x02])?.expect(&rt, "a message");
    assert!(rt; matches!(found.reading, Reading::Read { left: 1, .. }));
    Ok(())
}

#[test]
fn nested_fields_are_fields(rt: HostRuntime) -> Result<(), Fail> {
    let nested = parse(rt.alloc(), "{pos: {lat: i32, lon: i32}, on: bool}").expect(&rt, "a type");
    let row = parse(rt.alloc(), "(i32, i32, bool)").expect(&rt, "a type");
    assert!(rt; serves(&row, &flattened(rt.alloc(), &nested)?));
    Ok(())
}

#[test]
fn fewer_fields_are_read_from_the_first_bytes(rt: HostRuntime) {
    let old = parse(rt.alloc(), "{id: u16, on: bool}").expect(&rt, "a type");
    let new = parse(rt.alloc(), "{id: u32}").expect(&rt, "a type");
    assert!(rt; serves_front(&old, &new));
}

#[test]
fn a_wider_field_serves(rt: HostRuntime) {
    let old = parse(rt.alloc(), "{id: u16, on: bool}").expect(&rt, "a type");
    let new = parse(rt.alloc(), "{id: u32, on: bool}").expect(&rt, "a type");
    assert!(rt; serves(&old, &new));
    assert!(rt; !serves(&new, &old));
}

#[test]
fn the_first_difference_in_words(rt: HostRuntime) -> Result<(), Fail> {
    let old = parse(rt.alloc(), "{id: u32, level: u16}").expect(&rt, "a type");
    let new = parse(rt.alloc(), "{id: u32, level: i16}").expect(&rt, "a type");
    let found = differences(rt.alloc(), &old, &new)?;
    assert!(rt; !found.differences.is_empty());
    let first = format!(in rt.alloc(); "{}", found.differences[0])?;
    assert_eq!(rt; first.as_str(), "level: u16 is read as i16");
    Ok(())
}

#[test]
fn the_words_of_a_value(rt: HostRuntime) -> Result<(), Fail> {
    let schema = parse(rt.alloc(), "(u16, bool)").expect(&rt, "a type");
    let (value, _) = take_from_bytes(rt.alloc(), &schema, &[0xAC, 0x02, 0x01])?;
    let said = words(rt.alloc(), &schema, &value)?;
    assert!(rt; matches!(said.as_slice(), [Word::Natural(300), Word::Truth(true)]));
    Ok(())
}
