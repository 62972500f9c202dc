//! Types whose values don't allocate: `bool`, enums, characters, spans of time, tuples, and values
//! that borrow from the input. Numbers have a file of their own.

use super::{Row, assert_lent, assert_read, check, check_refused};
use postcard_de::Error;
use std::marker::PhantomData;
use std::ops::{Range, RangeFrom, RangeInclusive, RangeTo};
use std::time::Duration;

const BOOLS: [Row<'static, bool>; 4] = [
    (&[0x00], Ok(false)),
    (&[0x01], Ok(true)),
    (&[0x02], Err(Error::DeserializeBadBool)),
    (&[], Err(Error::DeserializeUnexpectedEnd)),
];

const OPTIONS: [Row<'static, Option<u8>>; 5] = [
    (&[0x00], Ok(None)),
    (&[0x01, 0x07], Ok(Some(7))),
    (&[0x02, 0x07], Err(Error::DeserializeBadOption)),
    (&[0x02], Err(Error::DeserializeBadOption)),
    (&[0x01], Err(Error::DeserializeUnexpectedEnd)),
];

const RESULTS: [Row<'static, Result<u8, u8>>; 5] = [
    (&[0x80, 0x00, 0x07], Ok(Ok(7))),
    (&[0x01, 0x07], Ok(Err(7))),
    (&[0x02, 0x00], Err(Error::SerdeDeCustom)),
    (&[0x02], Err(Error::SerdeDeCustom)),
    (
        &[0xFF, 0xFF, 0xFF, 0xFF, 0x1F],
        Err(Error::DeserializeBadVarint),
    ),
];

#[test]
fn reads_what_chooses(rt: HostRuntime) {
    let alloc = rt.alloc();
    check(&rt, alloc, &BOOLS);
    check(&rt, alloc, &OPTIONS);
    assert_read(&rt, alloc, &[0x01, 0x01, 0x00], &Ok(Some(Some(0u8))));
    check(&rt, alloc, &RESULTS);
}

const CHARACTERS: [Row<'static, char>; 9] = [
    (&[0x01, 0x7A], Ok('z')),
    (&[0x02, 0xC2, 0xA2], Ok('¢')),
    (&[0x04, 0xF0, 0x90, 0x8D, 0x88], Ok('𐍈')),
    (&[0x02, 0x61, 0x62], Ok('a')),
    (&[0x82, 0x00, 0x61, 0x62], Ok('a')),
    (&[0x00], Err(Error::DeserializeBadChar)),
    (&[0x05], Err(Error::DeserializeBadChar)),
    (&[0x01, 0xC3], Err(Error::DeserializeBadChar)),
    (&[0x04, 0x61], Err(Error::DeserializeUnexpectedEnd)),
];

#[test]
fn reads_characters(rt: HostRuntime) {
    check(&rt, rt.alloc(), &CHARACTERS);
}

#[test]
fn reads_spans_of_time(rt: HostRuntime) {
    let alloc = rt.alloc();
    let second = Ok(Duration::new(1, 0));
    assert_read(&rt, alloc, &[0x01, 0x00], &second);
    let nanoseconds = [0x00, 0x80, 0x94, 0xEB, 0xDC, 0x03];
    assert_read(&rt, alloc, &nanoseconds, &second);
    assert_read(
        &rt,
        alloc,
        &[0x7F, 0xFF, 0xFF, 0xFF, 0xFF, 0x0F],
        &Ok(Duration::new(131, 294_967_295)),
    );
    let past = [
        0xFF, 0xFF, 0xFF, 0xFF, 0xFF, 0xFF, 0xFF, 0xFF, 0xFF, 0x01, 0x80, 0x94, 0xEB, 0xDC, 0x03,
    ];
    check_refused::<Duration>(&rt, alloc, &past, &Error::SerdeDeCustom);
}

#[test]
fn reads_tuples(rt: HostRuntime) {
    let alloc = rt.alloc();
    assert_read(&rt, alloc, &[], &Ok(()));
    assert_read(&rt, alloc, &[], &Ok(PhantomData::<u8>));
    assert_read(&rt, alloc, &[0x07], &Ok((7u8,)));
    assert_read(
        &rt,
        alloc,
        &[0x12, 0xA5, 0x8F, 0x03],
        &Ok((0x12u8, 0xC7A5u16)),
    );
    check_refused::<(u8, u16)>(&rt, alloc, &[0x12, 0xA5], &Error::DeserializeUnexpectedEnd);
    assert_lent(
        &rt,
        alloc,
        &[0x01, 0x0A, 0x06, 0x48, 0x65, 0x6C, 0x6C, 0x6F, 0x21],
        &Ok((1u8, 10u32, "Hello!")),
    );
}

#[test]
fn reads_long_tuples(rt: HostRuntime) {
    let alloc = rt.alloc();
    assert_read(&rt, alloc, &[1, 2, 3], &Ok((1u8, 2u8, 3u8)));
    assert_read(&rt, alloc, &[1, 2, 3, 4], &Ok((1u8, 2u8, 3u8, 4u8)));
    assert_read(&rt, alloc, &[1, 2, 3, 4, 5], &Ok((1u8, 2u8, 3u8, 4u8, 5u8)));
    assert_read(
        &rt,
        alloc,
        &[1, 2, 3, 4, 5, 6],
        &Ok((1u8, 2u8, 3u8, 4u8, 5u8, 6u8)),
    );
}

#[test]
fn reads_ranges(rt: HostRuntime) {
    let alloc = rt.alloc();
    let range = Range {
        start: 5u16,
        end: 300,
    };
    assert_read(&rt, alloc, &[0x05, 0xAC, 0x02], &Ok(range));
    assert_read(
        &rt,
        alloc,
        &[0x05, 0xAC, 0x02],
        &Ok(RangeInclusive::new(5u16, 300)),
    );
    assert_read(&rt, alloc, &[0x05], &Ok(RangeFrom { start: 5u16 }));
    assert_read(&rt, alloc, &[0x05], &Ok(RangeTo { end: 5u16 }));
}

#[test]
fn reads_arrays(rt: HostRuntime) {
    let alloc = rt.alloc();
    assert_read(&rt, alloc, &[1, 2, 3], &Ok([1u8, 2, 3]));
    check_refused::<[u8; 3]>(&rt, alloc, &[1, 2], &Error::DeserializeUnexpectedEnd);
}

#[test]
fn reads_what_is_borrowed(rt: HostRuntime) {
    let alloc = rt.alloc();
    assert_lent(&rt, alloc, &[0x02, 0x48, 0x69], &Ok("Hi"));
    let refused = Err::<&str, _>(Error::DeserializeBadUtf8);
    assert_lent(&rt, alloc, &[0x01, 0xFF], &refused);
    let ended = Err::<&str, _>(Error::DeserializeUnexpectedEnd);
    assert_lent(&rt, alloc, &[0x03, 0x48, 0x69], &ended);
    let eight: &[u8] = &[1, 2, 3, 4, 5, 6, 7, 8];
    assert_lent(&rt, alloc, &[8, 1, 2, 3, 4, 5, 6, 7, 8], &Ok(eight));
    let ended = Err::<&[u8], _>(Error::DeserializeUnexpectedEnd);
    assert_lent(&rt, alloc, &[8, 1, 2, 3], &ended);
}
