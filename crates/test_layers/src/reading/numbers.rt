//! Numbers: rows of each width and sign, and numbers that are never zero.

use super::{GREATEST, Row, assert_read, check, check_refused, read, read_owned};
use crate::asserts::same;
use postcard_de::{Deserialize, DeserializeOwned, Error};
use std::alloc::Global;
use std::fmt::Debug;
use std::num::{
    NonZeroI8, NonZeroI16, NonZeroI32, NonZeroI64, NonZeroI128, NonZeroIsize, NonZeroU8,
    NonZeroU16, NonZeroU32, NonZeroU64, NonZeroU128, NonZeroUsize, Wrapping,
};
use std::process::Abort;

// Bytes, each beside the result of reading a number of this type.

const ROWS_U8: [Row<'static, u8>; 2] = [
    (&[0x07], Ok(7)),
    (&[], Err(Error::DeserializeUnexpectedEnd)),
];

const ROWS_U16: [Row<'static, u16>; 6] = [
    (&[0xAC, 0x02], Ok(300)),
    (&[0x80, 0x00], Ok(0)),
    (&[0x80, 0x80, 0x00], Ok(0)),
    (&[0x80, 0x80, 0x04], Err(Error::DeserializeBadVarint)),
    (&[0x80, 0x80, 0x80, 0x00], Err(Error::DeserializeBadVarint)),
    (&[], Err(Error::DeserializeUnexpectedEnd)),
];

const ROWS_U32: [Row<'static, u32>; 6] = [
    (&[0xAC, 0x02], Ok(300)),
    (&[0xFF, 0xFF, 0xFF, 0xFF, 0x0F], Ok(u32::MAX)),
    (
        &[0xFF, 0xFF, 0xFF, 0xFF, 0x1F],
        Err(Error::DeserializeBadVarint),
    ),
    (
        &[0xFF, 0xFF, 0xFF, 0xFF, 0xFF, 0x01],
        Err(Error::DeserializeBadVarint),
    ),
    (
        &[0xFF, 0xFF, 0xFF, 0xFF],
        Err(Error::DeserializeUnexpectedEnd),
    ),
    (&[], Err(Error::DeserializeUnexpectedEnd)),
];

const ROWS_U64: [Row<'static, u64>; 2] = [
    (&[0xAC, 0x02], Ok(300)),
    (&[], Err(Error::DeserializeUnexpectedEnd)),
];

const ROWS_U128: [Row<'static, u128>; 3] = [
    (&[0xAC, 0x02], Ok(300)),
    (
        &[
            0xFF, 0xFF, 0xFF, 0xFF, 0xFF, 0xFF, 0xFF, 0xFF, 0xFF, 0xFF, 0xFF, 0xFF, 0xFF, 0xFF,
            0xFF, 0xFF, 0xFF, 0xFF, 0x03,
        ],
        Ok(u128::MAX),
    ),
    (&[], Err(Error::DeserializeUnexpectedEnd)),
];

const ROWS_USIZE: [Row<'static, usize>; 3] = [
    (&[0xAC, 0x02], Ok(300)),
    (&GREATEST, Ok(usize::MAX)),
    (&[], Err(Error::DeserializeUnexpectedEnd)),
];

#[test]
fn reads_numbers_without_a_sign(rt: HostRuntime) {
    let alloc = rt.alloc();
    check(&rt, alloc, &ROWS_U8);
    check(&rt, alloc, &ROWS_U16);
    check(&rt, alloc, &ROWS_U32);
    assert_read(&rt, alloc, &[0x07], &Ok(Wrapping(7u8)));
}

#[test]
fn reads_great_numbers_without_a_sign(rt: HostRuntime) {
    let alloc = rt.alloc();
    check(&rt, alloc, &ROWS_U64);
    check(&rt, alloc, &ROWS_U128);
    check(&rt, alloc, &ROWS_USIZE);
}

const ROWS_I8: [Row<'static, i8>; 4] = [
    (&[0x07], Ok(7)),
    (&[0x80], Ok(-128)),
    (&[0xFF], Ok(-1)),
    (&[], Err(Error::DeserializeUnexpectedEnd)),
];

const ROWS_I16: [Row<'static, i16>; 4] = [
    (&[0xFF, 0xFF, 0x03], Ok(-32768)),
    (&[0xFE, 0xFF, 0x03], Ok(32767)),
    (&[0x01], Ok(-1)),
    (&[], Err(Error::DeserializeUnexpectedEnd)),
];

const ROWS_I32: [Row<'static, i32>; 2] = [
    (&[0x03], Ok(-2)),
    (&[], Err(Error::DeserializeUnexpectedEnd)),
];

const ROWS_I64: [Row<'static, i64>; 3] = [
    (&[0x04], Ok(2)),
    (&GREATEST, Ok(i64::MIN)),
    (&[], Err(Error::DeserializeUnexpectedEnd)),
];

const ROWS_I128: [Row<'static, i128>; 3] = [
    (&[0x01], Ok(-1)),
    (&[0x03], Ok(-2)),
    (&[], Err(Error::DeserializeUnexpectedEnd)),
];

const ROWS_ISIZE: [Row<'static, isize>; 2] = [
    (&GREATEST, Ok(isize::MIN)),
    (&[], Err(Error::DeserializeUnexpectedEnd)),
];

#[test]
fn reads_numbers_with_a_sign(rt: HostRuntime) {
    let alloc = rt.alloc();
    check(&rt, alloc, &ROWS_I8);
    check(&rt, alloc, &ROWS_I16);
    check(&rt, alloc, &ROWS_I32);
}

#[test]
fn reads_great_numbers_with_a_sign(rt: HostRuntime) {
    let alloc = rt.alloc();
    check(&rt, alloc, &ROWS_I64);
    check(&rt, alloc, &ROWS_I128);
    check(&rt, alloc, &ROWS_ISIZE);
}

fn check_nonzero<'a, T: Deserialize<'a> + DeserializeOwned + PartialEq + Debug>(
    rt: &impl Abort,
    alloc: Global,
    bytes: &'a [u8],
    want: Option<T>,
) {
    same(rt, read::<T>(alloc, bytes).ok().as_ref(), want.as_ref());
    same(
        rt,
        read_owned::<T>(alloc, bytes).ok().as_ref(),
        want.as_ref(),
    );
    check_refused::<T>(rt, alloc, &[0x00], &Error::SerdeDeCustom);
}

#[test]
fn reads_numbers_without_a_sign_but_zero(rt: HostRuntime) {
    let alloc = rt.alloc();
    check_nonzero(&rt, alloc, &[0x05], NonZeroU8::new(5));
    check_nonzero(&rt, alloc, &[0xAC, 0x02], NonZeroU16::new(300));
    check_nonzero(&rt, alloc, &[0xAC, 0x02], NonZeroU32::new(300));
    check_nonzero(&rt, alloc, &GREATEST, NonZeroU64::new(u64::MAX));
    check_nonzero(&rt, alloc, &[0xAC, 0x02], NonZeroU128::new(300));
    check_nonzero(&rt, alloc, &GREATEST, NonZeroUsize::new(usize::MAX));
}

#[test]
fn reads_numbers_with_a_sign_but_zero(rt: HostRuntime) {
    let alloc = rt.alloc();
    check_nonzero(&rt, alloc, &[0x80], NonZeroI8::new(-128));
    check_nonzero(&rt, alloc, &[0x05], NonZeroI16::new(-3));
    check_nonzero(&rt, alloc, &[0x05], NonZeroI32::new(-3));
    check_nonzero(&rt, alloc, &GREATEST, NonZeroI64::new(i64::MIN));
    check_nonzero(&rt, alloc, &[0x05], NonZeroI128::new(-3));
    check_nonzero(&rt, alloc, &GREATEST, NonZeroIsize::new(isize::MIN));
    check_refused::<NonZeroI32>(&rt, alloc, &[0x80, 0x00], &Error::SerdeDeCustom);
}
