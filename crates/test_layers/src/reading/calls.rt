//! Tests of the deserializer's calls for values with parts, for values without bytes, and for
//! values of no known type. Other tests are of what the calls return, and of two laws.

use crate::asserts::{same, same_bytes, value};
use postcard_de::laws::{one_message, read_again};
use postcard_de::{Deserialize, Deserializer, Error, Result, SeqAccess};
use postcard_de_flavors::Slice;
use std::alloc::Global;
use std::process::Abort;

#[test]
fn counts_no_elements_past_the_bytes(rt: HostRuntime) {
    let mut few = Deserializer::from_bytes(&[0x03, 0x01, 0x02]);
    let access = value(&rt, few.deserialize_seq());
    same(&rt, access.size_hint(&few), None);
}

#[test]
fn counts_elements(rt: HostRuntime) {
    let mut all = Deserializer::from_flavor(Slice::new(&[0x03, 0x01, 0x02, 0x03]));
    let mut access = value(&rt, all.deserialize_seq());
    same(&rt, access.size_hint(&all), Some(3));
    let first = access.next_element::<u8, _>(rt.alloc(), &mut all);
    same(&rt, first, Ok(Some(1)));
    same(&rt, access.size_hint(&all), Some(2));
    same(&rt, all.is_human_readable(), false);
    same_bytes(&rt, value(&rt, all.finalize()), &[0x02, 0x03]);
}

fn assert_next(
    rt: &impl Abort,
    alloc: Global,
    access: &mut SeqAccess,
    d: &mut Deserializer<Slice>,
    want: Result<Option<u16>>,
) {
    same(rt, access.next_element(alloc, d), want);
}

#[test]
fn has_no_elements_after_one_that_ends_early(rt: HostRuntime) {
    let alloc = rt.alloc();
    let mut d = Deserializer::from_bytes(&[0x02, 0x01, 0x80]);
    let mut access = value(&rt, d.deserialize_seq());
    assert_next(&rt, alloc, &mut access, &mut d, Ok(Some(1)));
    let ended = Err(Error::DeserializeUnexpectedEnd);
    assert_next(&rt, alloc, &mut access, &mut d, ended);
    assert_next(&rt, alloc, &mut access, &mut d, Ok(None));
}

#[test]
fn takes_just_the_front(rt: HostRuntime) {
    one_message::<u16>();
    read_again::<u16>();
    let mut d = Deserializer::from_bytes(&[0xAC, 0x02, 0x99]);
    same(&rt, u16::deserialize(rt.alloc(), &mut d), Ok(300));
    same_bytes(&rt, value(&rt, d.finalize()), &[0x99]);
}

#[test]
fn gives_keys_and_values(rt: HostRuntime) {
    let alloc = rt.alloc();
    let mut d = Deserializer::from_bytes(&[0x03, 0x01, 0x02]);
    let mut pairs = value(&rt, d.deserialize_map());
    same(&rt, pairs.size_hint(), Some(3));
    same(&rt, pairs.next_key::<u8, _>(alloc, &mut d), Ok(Some(1)));
    same(&rt, pairs.next_value::<u8, _>(alloc, &mut d), Ok(2));
    same(&rt, pairs.size_hint(), Some(2));
}

/// Asserts that the parts begin, and that there is no hint of their number, since it exceeds the
/// bytes left.
fn assert_begins(rt: &impl Abort, parts: Result<SeqAccess>, d: &Deserializer<Slice>) {
    same(rt, value(rt, parts).size_hint(d), None);
}

#[test]
fn begins_what_has_parts(rt: HostRuntime) {
    let mut d = Deserializer::from_bytes(&[0x05]);
    assert_begins(&rt, d.deserialize_tuple(3), &d);
    assert_begins(&rt, d.deserialize_tuple_struct("T", 3), &d);
    assert_begins(&rt, d.deserialize_struct("S", &["a", "b", "c"]), &d);
    assert_begins(&rt, d.tuple_variant(3), &d);
    assert_begins(&rt, d.struct_variant(&["a", "b", "c"]), &d);
}

#[test]
fn refuses_what_tells_no_type(rt: HostRuntime) {
    let mut d = Deserializer::from_bytes(&[0x05]);
    same(&rt, d.deserialize_any(), Err(Error::WontImplement));
    same(&rt, d.deserialize_identifier(), Err(Error::WontImplement));
    same(&rt, d.deserialize_ignored_any(), Err(Error::WontImplement));
    same(&rt, d.deserialize_u8(), Ok(5));
}

#[test]
fn reads_what_has_no_bytes_of_its_own(rt: HostRuntime) {
    let mut d = Deserializer::from_bytes(&[0x05]);
    same(&rt, d.deserialize_unit(), Ok(()));
    same(&rt, d.deserialize_unit_struct("U"), Ok(()));
    same(&rt, d.unit_variant(), Ok(()));
    let number = d.deserialize_newtype_struct::<u8>(rt.alloc(), "N");
    same(&rt, number, Ok(5));
}

#[test]
fn begins_enums(rt: HostRuntime) {
    let mut d = Deserializer::from_bytes(&[0x04, 0x07]);
    same(&rt, d.deserialize_enum("E", &["A", "B"]), Ok(4));
    same(&rt, d.newtype_variant::<u8>(rt.alloc()), Ok(7));
}
