//! Tests of writing each type, with values whose bytes were worked out by hand.

use super::{Pieces, assert_written};
use crate::asserts::{same, value};
use arrayvec::{ArrayString, ArrayVec};
use postcard_ser::{Serialize, Serializer};
use postcard_ser_flavors::Slice;
use postcard_wire::{Error, Result};
use std::collections::BTreeMap;
use std::marker::PhantomData;
use std::num::{
    NonZeroI8, NonZeroI16, NonZeroI32, NonZeroI64, NonZeroI128, NonZeroIsize, NonZeroU8,
    NonZeroU16, NonZeroU32, NonZeroU64, NonZeroU128, NonZeroUsize, Wrapping,
};
use std::process::Abort;
use std::rc::Rc;
use std::time::Duration;

#[test]
fn scalars(rt: HostRuntime) {
    assert_written(&rt, &false, &[0x00]);
    assert_written(&rt, &true, &[0x01]);
    assert_written(
        &rt,
        &usize::MAX,
        &[0xFF, 0xFF, 0xFF, 0xFF, 0xFF, 0xFF, 0xFF, 0xFF, 0xFF, 0x01],
    );
    assert_written(&rt, &300usize, &[0xAC, 0x02]);
    assert_written(
        &rt,
        &isize::MIN,
        &[0xFF, 0xFF, 0xFF, 0xFF, 0xFF, 0xFF, 0xFF, 0xFF, 0xFF, 0x01],
    );
    assert_written(&rt, &-3isize, &[0x05]);
    assert_written(&rt, &(), &[]);
    assert_written(&rt, &PhantomData::<u32>, &[]);
}

#[test]
fn characters(rt: HostRuntime) {
    assert_written(&rt, &'z', &[0x01, 0x7A]);
    assert_written(&rt, &'¢', &[0x02, 0xC2, 0xA2]);
    assert_written(&rt, &'€', &[0x03, 0xE2, 0x82, 0xAC]);
    assert_written(&rt, &'𐍈', &[0x04, 0xF0, 0x90, 0x8D, 0x88]);
    assert_written(&rt, &'🥺', &[0x04, 0xF0, 0x9F, 0xA5, 0xBA]);
}

#[test]
fn numbers_without_a_sign_but_zero(rt: HostRuntime) {
    assert_nonzero(&rt, NonZeroU8::new(200), &[0xC8]);
    assert_nonzero(&rt, NonZeroU16::new(300), &[0xAC, 0x02]);
    assert_nonzero(&rt, NonZeroU32::new(300), &[0xAC, 0x02]);
    assert_nonzero(&rt, NonZeroU64::new(300), &[0xAC, 0x02]);
    assert_nonzero(&rt, NonZeroU128::new(300), &[0xAC, 0x02]);
    assert_nonzero(&rt, NonZeroUsize::new(300), &[0xAC, 0x02]);
}

#[test]
fn numbers_with_a_sign_but_zero(rt: HostRuntime) {
    assert_nonzero(&rt, NonZeroI8::new(-2), &[0xFE]);
    assert_nonzero(&rt, NonZeroI16::new(-3), &[0x05]);
    assert_nonzero(&rt, NonZeroI32::new(-3), &[0x05]);
    assert_nonzero(&rt, NonZeroI64::new(-3), &[0x05]);
    assert_nonzero(&rt, NonZeroI128::new(-3), &[0x05]);
    assert_nonzero(&rt, NonZeroIsize::new(-3), &[0x05]);
}

/// Asserts that there is a number, and that it is written as these bytes.
fn assert_nonzero<T: Serialize + Drop>(rt: &impl Abort, number: Option<T>, want: &[u8]) {
    match number {
        Some(number) => assert_written(rt, &number, want),
        None => panic!(rt; "the number is 0"),
    }
}

#[test]
fn tuples(rt: HostRuntime) {
    assert_written(&rt, &(300u16,), &[0xAC, 0x02]);
    assert_written(&rt, &(0x12u8, 0xC7A5u16), &[0x12, 0xA5, 0x8F, 0x03]);
    assert_written(
        &rt,
        &(1u8, 10u32, "Hello!"),
        &[0x01, 0x0A, 0x06, 0x48, 0x65, 0x6C, 0x6C, 0x6F, 0x21],
    );
    assert_written(
        &rt,
        &(1u8, true, 300u16, -1i16),
        &[0x01, 0x01, 0xAC, 0x02, 0x01],
    );
}

#[test]
fn tuples_of_five_and_six(rt: HostRuntime) {
    assert_written(
        &rt,
        &(1u8, true, 300u16, -1i16, 'z'),
        &[0x01, 0x01, 0xAC, 0x02, 0x01, 0x01, 0x7A],
    );
    assert_written(
        &rt,
        &(1u8, true, 300u16, -1i16, 'z', ()),
        &[0x01, 0x01, 0xAC, 0x02, 0x01, 0x01, 0x7A],
    );
}

#[test]
fn long_tuples(rt: HostRuntime) {
    assert_written(
        &rt,
        &(1u8, 2u8, 3u8, 4u8, 5u8, 6u8, 7u8),
        &[1, 2, 3, 4, 5, 6, 7],
    );
    assert_written(
        &rt,
        &(1u8, 2u8, 3u8, 4u8, 5u8, 6u8, 7u8, 8u8),
        &[1, 2, 3, 4, 5, 6, 7, 8],
    );
    assert_written(
        &rt,
        &(1u8, 2u8, 3u8, 4u8, 5u8, 6u8, 7u8, 8u8, 9u8),
        &[1, 2, 3, 4, 5, 6, 7, 8, 9],
    );
}

#[test]
fn tuples_of_ten_to_twelve(rt: HostRuntime) {
    assert_written(
        &rt,
        &(1u8, 2u8, 3u8, 4u8, 5u8, 6u8, 7u8, 8u8, 9u8, 10u8),
        &[1, 2, 3, 4, 5, 6, 7, 8, 9, 10],
    );
    assert_written(
        &rt,
        &(1u8, 2u8, 3u8, 4u8, 5u8, 6u8, 7u8, 8u8, 9u8, 10u8, 11u8),
        &[1, 2, 3, 4, 5, 6, 7, 8, 9, 10, 11],
    );
    assert_written(
        &rt,
        &(
            1u8, 2u8, 3u8, 4u8, 5u8, 6u8, 7u8, 8u8, 9u8, 10u8, 11u8, 12u8,
        ),
        &[1, 2, 3, 4, 5, 6, 7, 8, 9, 10, 11, 12],
    );
}

#[test]
fn options_and_results(rt: HostRuntime) {
    assert_written(&rt, &None::<u8>, &[0x00]);
    assert_written(&rt, &Some(Some(0u8)), &[0x01, 0x01, 0x00]);
    assert_written(&rt, &Ok::<u8, u8>(7), &[0x00, 0x07]);
    assert_written(&rt, &Err::<u8, u8>(7), &[0x01, 0x07]);
}

#[test]
fn wrappers(rt: HostRuntime) {
    let mut number = 300u16;
    let boxed = value(&rt, Box::new(rt.alloc(), 300u16));
    let shared = value(&rt, Rc::new(rt.alloc(), 300u16));
    assert_written(&rt, &&number, &[0xAC, 0x02]);
    assert_written(&rt, &&mut number, &[0xAC, 0x02]);
    assert_written(&rt, &boxed, &[0xAC, 0x02]);
    assert_written(&rt, &shared, &[0xAC, 0x02]);
    assert_written(&rt, &Wrapping(300u16), &[0xAC, 0x02]);
}

#[test]
fn ranges(rt: HostRuntime) {
    assert_written(&rt, &(5u16..300u16), &[0x05, 0xAC, 0x02]);
    assert_written(&rt, &(5u16..=300u16), &[0x05, 0xAC, 0x02]);
    assert_written(&rt, &(300u16..), &[0xAC, 0x02]);
    assert_written(&rt, &(..300u16), &[0xAC, 0x02]);
}

#[test]
fn maps(rt: HostRuntime) {
    let mut map: BTreeMap<u8, u8> = BTreeMap::new(rt.alloc());
    assert_written(&rt, &map, &[0x00]);
    let _ = value(&rt, map.insert(2, 6));
    let _ = value(&rt, map.insert(1, 5));
    assert_written(&rt, &map, &[0x02, 0x01, 0x05, 0x02, 0x06]);
}

#[test]
fn maps_whose_value_was_replaced(rt: HostRuntime) {
    let mut map: BTreeMap<u8, u8> = BTreeMap::new(rt.alloc());
    let _ = value(&rt, map.insert(1, 5));
    let _ = value(&rt, map.insert(1, 6));
    assert_written(&rt, &map, &[0x01, 0x01, 0x06]);
}

#[test]
fn spans_of_time(rt: HostRuntime) {
    assert_written(&rt, &Duration::new(0, 1_000_000_000), &[0x01, 0x00]);
    assert_written(
        &rt,
        &Duration::new(127, 4_294_967_295),
        &[0x83, 0x01, 0xFF, 0xAF, 0xD3, 0x8C, 0x01],
    );
}

#[test]
fn fixed_capacities(rt: HostRuntime) {
    let numbers: ArrayVec<u16, 4> = value(&rt, ArrayVec::from_iter(rt.alloc(), [1u16, 300]));
    assert_written(&rt, &numbers, &[0x02, 0x01, 0xAC, 0x02]);
    let bytes: ArrayVec<u8, 4> = value(&rt, ArrayVec::from_iter(rt.alloc(), [1u8, 2, 3, 4]));
    assert_written(&rt, &bytes, &[0x04, 0x01, 0x02, 0x03, 0x04]);
    let text: ArrayString<6> = value(&rt, ArrayString::from("helLO!"));
    assert_written(&rt, &text, &[0x06, 0x68, 0x65, 0x6C, 0x4C, 0x4F, 0x21]);
}

#[test]
fn arrays(rt: HostRuntime) {
    assert_written(&rt, &[1u16, 300], &[0x01, 0xAC, 0x02]);
    assert_written(&rt, &[0u8; 32], &[0; 32]);
}

/// Writes a value to a flavor that takes `pieces` pieces and refuses the next.
fn written_in<T: Serialize>(value: &T, pieces: usize) -> Result<()> {
    let mut buffer = [0; 8];
    let mut serializer = Serializer {
        output: Pieces {
            inner: Slice::new(&mut buffer),
            left: pieces,
        },
    };
    value.serialize(&mut serializer)
}

fn assert_pieces<T: Serialize>(rt: &impl Abort, value: &T, pieces: usize) {
    same(rt, written_in(value, pieces), Ok(()));
}

#[test]
fn bytes_go_as_one_piece(rt: HostRuntime) {
    assert_pieces(&rt, &[1u8, 2, 3, 4], 1);
    assert_pieces(&rt, &[1u8, 2, 3, 4].as_slice(), 2);
    let grown = value(&rt, vec![in rt.alloc(); 1u8, 2, 3, 4]);
    assert_pieces(&rt, &grown, 2);
    let list: ArrayVec<u8, 4> = value(&rt, ArrayVec::from_iter(rt.alloc(), [1u8, 2, 3, 4]));
    assert_pieces(&rt, &list, 2);
}

#[test]
fn numbers_go_one_by_one(rt: HostRuntime) {
    same(
        &rt,
        written_in(&[1u16, 2], 1),
        Err(Error::SerializeBufferFull),
    );
    assert_pieces(&rt, &[1u16, 2], 2);
}
