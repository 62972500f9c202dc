//! Tests of the calls of a `Deserializer`, one by one.

use crate::asserts::{assert_bytes, same};
use postcard::{Deserialize, Deserializer, Error, read_hash_map, read_hash_set};
use std::collections::{HashMap, HashSet};
use std::hash::RandomState;
use std::test::Fail;

#[test]
fn counts_left(rt: HostRuntime) {
    let mut short = Deserializer::from_bytes(&[0x03, 0x01, 0x02]);
    match short.deserialize_seq() {
        Ok(elements) => same(&rt, elements.size_hint(&short), None),
        Err(e) => panic!(rt; "{e}"),
    }
    let mut whole = Deserializer::from_bytes(&[0x03, 0x01, 0x02, 0x03]);
    match whole.deserialize_seq() {
        Ok(mut elements) => {
            same(&rt, elements.size_hint(&whole), Some(3));
            let first = elements.next_element::<u8, _>(rt.alloc(), &mut whole);
            same(&rt, first, Ok(Some(1)));
            same(&rt, elements.size_hint(&whole), Some(2));
        }
        Err(e) => panic!(rt; "{e}"),
    }
    let mut map = Deserializer::from_bytes(&[0x03, 0x01, 0x02]);
    match map.deserialize_map() {
        Ok(entries) => same(&rt, entries.size_hint(), Some(3)),
        Err(e) => panic!(rt; "{e}"),
    }
}

#[test]
fn an_element_refused_is_counted(rt: HostRuntime) {
    let mut deserializer = Deserializer::from_bytes(&[0x02, 0x01, 0x80]);
    match deserializer.deserialize_seq() {
        Ok(mut elements) => {
            let first = elements.next_element(rt.alloc(), &mut deserializer);
            same(&rt, first, Ok(Some(1u16)));
            let second = elements.next_element::<u16, _>(rt.alloc(), &mut deserializer);
            same(&rt, second, Err(Error::DeserializeUnexpectedEnd));
            let third = elements.next_element::<u16, _>(rt.alloc(), &mut deserializer);
            same(&rt, third, Ok(None));
        }
        Err(e) => panic!(rt; "{e}"),
    }
}

#[test]
fn bytes_in_memory(rt: HostRuntime) {
    let mut deserializer = Deserializer::from_bytes(&[0x02, 0x05, 0x06]);
    let list = deserializer.deserialize_byte_buf(rt.alloc());
    assert_bytes(&rt, list, &[0x05, 0x06]);
}

#[test]
fn unsupported_calls_change_nothing(rt: HostRuntime) {
    let mut deserializer = Deserializer::from_bytes(&[0x05]);
    same(
        &rt,
        deserializer.deserialize_any(),
        Err(Error::WontImplement),
    );
    same(&rt, deserializer.deserialize_u8(), Ok(5));
}

#[test]
fn bytes_after_a_value(rt: HostRuntime) {
    let mut deserializer = Deserializer::from_bytes(&[0x04, 0x00, 0x04, 0x01, 0x02, 0x03]);
    let value = <(u8, u8, u8)>::deserialize(rt.alloc(), &mut deserializer);
    same(&rt, value, Ok((4, 0, 4)));
    same(
        &rt,
        deserializer.finalize(),
        Ok([0x01, 0x02, 0x03].as_slice()),
    );
}

#[test]
fn a_set_and_a_map_of_random_seeds(rt: HostRuntime) -> std::result::Result<(), Fail> {
    let mut d = Deserializer::from_bytes(&[0x02, 0x05, 0x07, 0x01, 0x06, 0x01]);
    let set: HashSet<u8, RandomState> = read_hash_set(rt.alloc(), &mut d, RandomState::new(&rt)?)?;
    same(&rt, (set.len(), set.contains(&7)), (2, true));
    let map: HashMap<u8, u8, RandomState> = read_hash_map(
        rt.alloc(),
        &mut d,
        RandomState::new(&rt)?,
    )?;
    same(&rt, (map.len(), map.get(&6).copied()), (1, Some(1)));
    Ok(())
}
