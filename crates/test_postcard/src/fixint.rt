//! Tests of numbers at their full width. The bytes were worked out by hand. They are the digits of
//! each number in base 16, two for each byte, with the highest byte first or the lowest first.

use crate::asserts::{OLD, assert_refused, assert_written, read, same, taken};
use postcard::fixint::{BE, FixInt, LE, be, le};
use postcard::ser_flavors::{Flavor, Slice};
use postcard::{Deserializer, Error, Owned, Result, Serializer, from_bytes, from_io, to_slice};
use std::alloc::AllocGlobal;
use std::fmt::Debug;
use std::process::Abort;

const END: Error = Error::DeserializeUnexpectedEnd;

/// The number 0x0102030405060708090A0B0C0D0E0F10, the highest byte first. Its prefixes are the
/// numbers of the other widths.
const COUNT: [u8; 16] = [1, 2, 3, 4, 5, 6, 7, 8, 9, 10, 11, 12, 13, 14, 15, 16];

/// The number 0 of each width.
const ZERO: [u8; 16] = [0; 16];

/// The greatest unsigned number of each width, and the signed number -1.
const ONES: [u8; 16] = [0xFF; 16];

/// The greatest signed number of each width, the highest byte first.
const GREATEST: [u8; 16] = [
    0x7F, 0xFF, 0xFF, 0xFF, 0xFF, 0xFF, 0xFF, 0xFF, 0xFF, 0xFF, 0xFF, 0xFF, 0xFF, 0xFF, 0xFF, 0xFF,
];

/// The least signed number of each width, the highest byte first.
const LEAST: [u8; 16] = [0x80, 0, 0, 0, 0, 0, 0, 0, 0, 0, 0, 0, 0, 0, 0, 0];

/// Asserts that the result is a success, ends the flavor, and asserts that it has these bytes.
fn assert_given(rt: &impl Abort, answer: Result<()>, output: Slice<'_>, want: &[u8]) {
    same(rt, answer, Ok(()));
    match output.finalize() {
        Ok(front) => same(rt, &*front, want),
        Err(e) => panic!(rt; "{e}"),
    }
}

/// Asserts that `le` writes the number as these bytes, and reads it from just these bytes.
fn assert_low_first<T: FixInt + PartialEq + Debug>(
    rt: &(impl Abort + AllocGlobal),
    number: T,
    bytes: &[u8],
) {
    let mut buffer = [OLD; 16];
    let mut serializer = Serializer {
        output: Slice::new(&mut buffer),
    };
    let answer = le::serialize(&number, &mut serializer);
    assert_given(rt, answer, serializer.output, bytes);
    let mut source = Deserializer::from_bytes(bytes);
    same(rt, le::deserialize(rt.alloc(), &mut source), Ok(number));
    same(
        rt,
        le::deserialize::<T, _>(rt.alloc(), &mut source),
        Err(END),
    );
}

/// Asserts that `be` writes the number as these bytes, and reads it from just these bytes.
fn assert_high_first<T: FixInt + PartialEq + Debug>(
    rt: &(impl Abort + AllocGlobal),
    number: T,
    bytes: &[u8],
) {
    let mut buffer = [OLD; 16];
    let mut serializer = Serializer {
        output: Slice::new(&mut buffer),
    };
    let answer = be::serialize(&number, &mut serializer);
    assert_given(rt, answer, serializer.output, bytes);
    let mut source = Deserializer::from_bytes(bytes);
    same(rt, be::deserialize(rt.alloc(), &mut source), Ok(number));
    same(
        rt,
        be::deserialize::<T, _>(rt.alloc(), &mut source),
        Err(END),
    );
}

/// Asserts that `le` and `be` write the number as these bytes, and read it from just these bytes.
fn assert_calls<T: FixInt + PartialEq + Debug>(
    rt: &(impl Abort + AllocGlobal),
    number: T,
    low_first: &[u8],
    high_first: &[u8],
) {
    assert_low_first(rt, number, low_first);
    assert_high_first(rt, number, high_first);
}

/// Returns the number of an owned `LE`.
fn owned_le<T: FixInt>(owned: Owned<LE<T>>) -> T {
    owned.0.get()
}

/// Asserts that the number as an `LE` is written as these bytes and read from them by both traits.
fn assert_le<T: FixInt + PartialEq + Debug>(
    rt: &(impl Abort + AllocGlobal),
    number: T,
    bytes: &[u8],
) {
    assert_written(rt, &LE::new(number), bytes);
    same(rt, from_bytes(rt.alloc(), bytes).map(LE::get), Ok(number));
    same(rt, from_bytes(rt.alloc(), bytes).map(owned_le), Ok(number));
}

/// Returns the number of an owned `BE`.
fn owned_be<T: FixInt>(owned: Owned<BE<T>>) -> T {
    owned.0.get()
}

/// Asserts that the number as a `BE` is written as these bytes and read from them by both traits.
fn assert_be<T: FixInt + PartialEq + Debug>(
    rt: &(impl Abort + AllocGlobal),
    number: T,
    bytes: &[u8],
) {
    assert_written(rt, &BE::new(number), bytes);
    same(rt, from_bytes(rt.alloc(), bytes).map(BE::get), Ok(number));
    same(rt, from_bytes(rt.alloc(), bytes).map(owned_be), Ok(number));
}

/// Asserts that the number is written as these bytes and read from them, by `le` and `be` and by
/// the types `LE` and `BE`.
fn assert_both_ways<T: FixInt + PartialEq + Debug>(
    rt: &(impl Abort + AllocGlobal),
    number: T,
    high_first: &[u8],
) {
    let mut reversed = [0; 16];
    let (low_first, _) = reversed.split_at_mut(high_first.len().min(16));
    for (to, from) in low_first.iter_mut().zip(high_first.iter().rev()) {
        *to = *from;
    }
    assert_calls(rt, number, low_first, high_first);
    assert_le(rt, number, low_first);
    assert_be(rt, number, high_first);
}

/// Returns the first `width` bytes, at most 16.
fn front(bytes: &[u8; 16], width: usize) -> &[u8] {
    bytes.get(..width).unwrap_or(bytes)
}

/// Calls [`assert_both_ways`] for an unsigned type of `width` bytes: for the number of [`COUNT`], 0
/// and the greatest number.
fn assert_unsigned<T: FixInt + PartialEq + Debug>(
    rt: &(impl Abort + AllocGlobal),
    width: usize,
    count: T,
    zero: T,
    greatest: T,
) {
    assert_both_ways(rt, count, front(&COUNT, width));
    assert_both_ways(rt, zero, front(&ZERO, width));
    assert_both_ways(rt, greatest, front(&ONES, width));
}

/// Calls [`assert_both_ways`] for a signed type of `width` bytes: for the number of [`COUNT`], -1,
/// the greatest number and the least.
fn assert_signed<T: FixInt + PartialEq + Debug>(
    rt: &(impl Abort + AllocGlobal),
    width: usize,
    count: T,
    minus_one: T,
    greatest: T,
    least: T,
) {
    assert_both_ways(rt, count, front(&COUNT, width));
    assert_both_ways(rt, minus_one, front(&ONES, width));
    assert_both_ways(rt, greatest, front(&GREATEST, width));
    assert_both_ways(rt, least, front(&LEAST, width));
}

#[test]
fn both_orders(rt: HostRuntime) {
    assert_calls(&rt, 0xABCDu16, &[0xCD, 0xAB], &[0xAB, 0xCD]);
    assert_calls(&rt, -2i16, &[0xFE, 0xFF], &[0xFF, 0xFE]);
    let (low_first, high_first) = ([0xFE, 0xFF, 0xFF, 0xFF], [0xFF, 0xFF, 0xFF, 0xFE]);
    assert_calls(&rt, -2i32, &low_first, &high_first);
    let low_first = [0x88, 0x77, 0x66, 0x55, 0x44, 0x33, 0x22, 0x11];
    let high_first = [0x11, 0x22, 0x33, 0x44, 0x55, 0x66, 0x77, 0x88];
    assert_calls(&rt, 0x1122_3344_5566_7788u64, &low_first, &high_first);
}

#[test]
fn unsigned_numbers(rt: HostRuntime) {
    let sixteen = 0x0102_0304_0506_0708_090A_0B0C_0D0E_0F10;
    assert_unsigned(&rt, 2, 0x0102u16, 0, u16::MAX);
    assert_unsigned(&rt, 4, 0x0102_0304u32, 0, u32::MAX);
    assert_unsigned(&rt, 8, 0x0102_0304_0506_0708u64, 0, u64::MAX);
    assert_unsigned(&rt, 16, sixteen, 0, u128::MAX);
}

#[test]
fn signed_numbers(rt: HostRuntime) {
    let sixteen = 0x0102_0304_0506_0708_090A_0B0C_0D0E_0F10;
    assert_signed(&rt, 2, 0x0102i16, -1, i16::MAX, i16::MIN);
    assert_signed(&rt, 4, 0x0102_0304i32, -1, i32::MAX, i32::MIN);
    assert_signed(&rt, 8, 0x0102_0304_0506_0708i64, -1, i64::MAX, i64::MIN);
    assert_signed(&rt, 16, sixteen, -1, i128::MAX, i128::MIN);
}

#[test]
fn too_few_bytes(rt: HostRuntime) {
    assert_refused::<LE<u16>>(&rt, &[0xCD], END);
    assert_refused::<BE<i16>>(&rt, &[], END);
    assert_refused::<LE<i32>>(&rt, &COUNT[..3], END);
    assert_refused::<LE<u64>>(&rt, &COUNT[..7], END);
    assert_refused::<BE<u128>>(&rt, &COUNT[..15], END);
    assert_refused::<Owned<BE<i64>>>(&rt, &COUNT[..7], END);
}

#[test]
fn too_little_room(rt: HostRuntime) {
    let mut buffer = [OLD; 3];
    let refused = to_slice(&BE::new(7u32), &mut buffer).err();
    same(&rt, refused, Some(Error::SerializeBufferFull));
    same(&rt, buffer, [OLD; 3]);
}

#[test]
fn in_other_values(rt: HostRuntime) {
    let list = [LE::new(1u16), LE::new(0x0203)];
    assert_written(&rt, &list.as_slice(), &[0x02, 0x01, 0x00, 0x03, 0x02]);
    assert_written(&rt, &Some(BE::new(5i16)), &[0x01, 0x00, 0x05]);
    assert_written(&rt, &None::<BE<i16>>, &[0x00]);
    let bytes = [0x82, 0x00, 0x01, 0x00, 0x03, 0x02, 0x09];
    let (mut numbers, rest) = taken::<Vec<LE<u16>>>(&rt, &bytes);
    same(&rt, rest, [0x09].as_slice());
    same(&rt, numbers.pop().map(LE::get), Some(0x0203));
    same(&rt, numbers.pop().map(LE::get), Some(1));
    same(&rt, numbers.is_empty(), true);
    let number = read::<Option<BE<i16>>>(&rt, &[0x01, 0x00, 0x05]);
    same(&rt, number.map(BE::get), Some(5));
}

/// Returns the count 300 and 300 numbers of 32 bits from 0x09070000 on, the lowest byte first.
fn three_hundred() -> [u8; 1202] {
    let mut bytes = [0; 1202];
    bytes[0] = 0xAC;
    bytes[1] = 0x02;
    for i in 0..300 {
        bytes[4 * i + 2] = (i % 256) as u8;
        bytes[4 * i + 3] = (i / 256) as u8;
        bytes[4 * i + 4] = 0x07;
        bytes[4 * i + 5] = 0x09;
    }
    bytes
}

/// Asserts that these are the numbers of [`three_hundred`].
fn assert_three_hundred(rt: &impl Abort, mut numbers: Vec<LE<u32>>) {
    for number in (0x0907_0000..0x0907_012C).rev() {
        same(rt, numbers.pop().map(LE::get), Some(number));
    }
    same(rt, numbers.is_empty(), true);
}

/// Asserts that no list is read from the first `len` bytes.
fn assert_cut(rt: &(impl Abort + AllocGlobal), bytes: &[u8], len: usize) {
    let front = bytes.get(..len).unwrap_or(bytes);
    assert_refused::<Vec<LE<u32>>>(rt, front, END);
}

#[test]
fn long_lists(rt: HostRuntime) {
    let bytes = three_hundred();
    assert_three_hundred(&rt, read(&rt, &bytes));
    assert_cut(&rt, &bytes, 1200);
    assert_cut(&rt, &bytes, 3);
}

#[test]
fn a_long_list_from_a_reader(rt: HostRuntime) {
    let bytes = three_hundred();
    let mut scratch = [0; 1];
    match from_io::<Vec<LE<u32>>, _>(rt.alloc(), (bytes.as_slice(), &mut scratch)) {
        Ok((numbers, _)) => assert_three_hundred(&rt, numbers),
        Err(e) => panic!(rt; "{e}"),
    }
}

#[test]
fn lists_of_other_widths(rt: HostRuntime) {
    let bytes = [0x02, 0x01, 0x02, 0xFF, 0xFE, 0x09];
    let (mut numbers, rest) = taken::<Vec<BE<u16>>>(&rt, &bytes);
    same(&rt, rest, [0x09].as_slice());
    same(&rt, numbers.pop().map(BE::get), Some(0xFFFE));
    same(&rt, numbers.pop().map(BE::get), Some(0x0102));
    same(&rt, numbers.is_empty(), true);
    let mut bytes = [0; 33];
    bytes[0] = 0x02;
    bytes[1] = 0x03;
    bytes[32] = 0x80;
    let mut numbers = read::<Vec<LE<u128>>>(&rt, &bytes);
    same(&rt, numbers.pop().map(LE::get), Some(1 << 127));
    same(&rt, numbers.pop().map(LE::get), Some(3));
    same(&rt, numbers.is_empty(), true);
    assert_refused::<Vec<LE<u128>>>(&rt, &bytes[..32], END);
}
