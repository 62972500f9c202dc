//! Tests of the calls of the serializer, without those for numbers and strings. The bytes of the
//! values were worked out by hand.

use super::assert_holds;
use crate::asserts::{same, same_bytes};
use postcard_ser::{Serializer, serialize_variant};
use postcard_ser_flavors::Slice;
use postcard_wire::{Error, Result};
use std::process::Abort;

fn assert_done(rt: &impl Abort, answers: &[Result<()>]) {
    for answer in answers {
        same(rt, answer, &Ok(()));
    }
}

fn call_for_leaves(rt: &impl Abort, serializer: &mut Serializer<Slice>) {
    let answers = [
        serializer.serialize_bool(true),
        serializer.serialize_char('¢'),
        serializer.serialize_none(),
        serializer.serialize_some(&300u16),
        serializer.serialize_unit(),
        serializer.serialize_unit_struct("Unit"),
    ];
    assert_done(rt, &answers);
}

fn call_for_structs(rt: &impl Abort, serializer: &mut Serializer<Slice>) {
    let answers = [
        serializer.serialize_newtype_struct("Meters", &300u16),
        serializer.serialize_tuple(1),
        serializer.serialize_element(&7u8),
        serializer.serialize_tuple_struct("Pair", 1),
        serializer.serialize_field(&8u8),
        serializer.serialize_struct("Point", 1),
        serializer.serialize_struct_field("x", &9u8),
    ];
    assert_done(rt, &answers);
}

fn call_for_a_map(rt: &impl Abort, serializer: &mut Serializer<Slice>) {
    let answers = [
        serializer.serialize_map(Some(1)),
        serializer.serialize_key(&1u8),
        serializer.serialize_value(&300u16),
        serializer.end(),
    ];
    assert_done(rt, &answers);
}

#[test]
fn calls_for_leaves_and_parts(rt: HostRuntime) {
    let mut buffer = [0xAA; 24];
    let mut serializer = Serializer {
        output: Slice::new(&mut buffer),
    };
    call_for_leaves(&rt, &mut serializer);
    call_for_structs(&rt, &mut serializer);
    call_for_a_map(&rt, &mut serializer);
    let want = [
        0x01, 0x02, 0xC2, 0xA2, 0x00, 0x01, 0xAC, 0x02, 0xAC, 0x02, 0x07, 0x08, 0x09, 0x01, 0x01,
        0xAC, 0x02,
    ];
    assert_holds(&rt, serializer, &want);
}

fn call_for_variants(rt: &impl Abort, serializer: &mut Serializer<Slice>) {
    let answers = [
        serializer.serialize_unit_variant("Kind", 300, "Unit"),
        serializer.serialize_newtype_variant("Kind", 1, "One", &300u16),
        serializer.serialize_tuple_variant("Kind", 2, "Two", 2),
        serializer.serialize_field(&7u8),
        serializer.serialize_field(&8u8),
    ];
    assert_done(rt, &answers);
}

/// Calls the serializer for variants with named fields. The last call is the one that the impl of a
/// user's enum makes.
fn call_for_struct_variants(rt: &impl Abort, serializer: &mut Serializer<Slice>) {
    let answers = [
        serializer.serialize_struct_variant("Kind", u32::MAX, "Last", 1),
        serializer.serialize_struct_field("x", &9u8),
        serialize_variant(128, &7u8, serializer),
    ];
    assert_done(rt, &answers);
}

#[test]
fn calls_for_enums(rt: HostRuntime) {
    let mut buffer = [0xAA; 24];
    let mut serializer = Serializer {
        output: Slice::new(&mut buffer),
    };
    call_for_variants(&rt, &mut serializer);
    call_for_struct_variants(&rt, &mut serializer);
    let want = [
        0xAC, 0x02, 0x01, 0xAC, 0x02, 0x02, 0x07, 0x08, 0xFF, 0xFF, 0xFF, 0xFF, 0x0F, 0x09, 0x80,
        0x01, 0x07,
    ];
    assert_holds(&rt, serializer, &want);
}

/// Asserts the number of bytes written, and all bytes of the buffer.
fn assert_parts(rt: &impl Abort, serializer: Serializer<Slice>, count: usize, want: &[u8]) {
    let (all, used) = serializer.output.into_parts();
    same(rt, used, count);
    same_bytes(rt, all, want);
}

#[test]
fn a_map_of_unknown_length(rt: HostRuntime) {
    let mut buffer = [0xAA; 2];
    let mut serializer = Serializer {
        output: Slice::new(&mut buffer),
    };
    same(
        &rt,
        serializer.serialize_map(None),
        Err(Error::SerializeSeqLengthUnknown),
    );
    assert_parts(&rt, serializer, 0, &[0xAA, 0xAA]);
}

#[test]
fn bytes_and_a_list_of_unknown_length(rt: HostRuntime) {
    let mut buffer = [0xAA; 4];
    let mut serializer = Serializer {
        output: Slice::new(&mut buffer),
    };
    same(&rt, serializer.is_human_readable(), false);
    same(&rt, serializer.serialize_bytes(&[7, 0]), Ok(()));
    same(
        &rt,
        serializer.serialize_seq(None),
        Err(Error::SerializeSeqLengthUnknown),
    );
    assert_parts(&rt, serializer, 3, &[0x02, 0x07, 0x00, 0xAA]);
}
