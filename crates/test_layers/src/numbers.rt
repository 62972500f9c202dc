//! Numbers and characters of the wire, against vectors worked out by hand.

ghost use Rattle.postcard_wire.specs.Tree.{IsWidth};
ghost use Rattle.std.specs.Prelude.{◌≤◌, length};

use crate::asserts::{same, same_bytes};
use postcard_wire::digits::Digits;
use postcard_wire::{Error, Result, text, varint, zigzag};
use std::process::Abort;

/// Reads a number from the start of `bytes`. Returns it with its count of bytes.
fn read(bits: u32, bytes: &[u8]) -> Result<(u128, usize)>
    requires { IsWidth bits }
{
    let mut digits = Digits::new();
    for (i, byte) in bytes.iter().enumerate() {
        match digits.push(bits, *byte) {
            Ok(Some(n)) => return Ok((n, i + 1)),
            Ok(None) => {}
            Err(error) => return Err(error),
        }
    }
    Err(Error::DeserializeUnexpectedEnd)
}

#[test]
fn writes_the_vectors(rt: HostRuntime) {
    same_bytes(
        &rt,
        varint::varint_u16(0xA5C7, &mut [0; varint::VARINT_MAX_16]),
        &[0xC7, 0xCB, 0x02],
    );
    same_bytes(
        &rt,
        varint::varint_u32(0xCDAB_3412, &mut [0; varint::VARINT_MAX_32]),
        &[0x92, 0xE8, 0xAC, 0xED, 0x0C],
    );
    same_bytes(
        &rt,
        varint::varint_u64(0x1234_5678_90AB_CDEF, &mut [0; varint::VARINT_MAX_64]),
        &[0xEF, 0x9B, 0xAF, 0x85, 0x89, 0xCF, 0x95, 0x9A, 0x12],
    );
    same_bytes(
        &rt,
        varint::varint_u128(
            0x1234_5678_90AB_CDEF_1234_5678_90AB_CDEF,
            &mut [0; varint::VARINT_MAX_128],
        ),
        &[
            0xEF, 0x9B, 0xAF, 0x85, 0x89, 0xCF, 0x95, 0x9A, 0x92, 0xDE, 0xB7, 0xDE, 0x8A, 0x92,
            0x9E, 0xAB, 0xB4, 0x24,
        ],
    );
}

#[test]
fn writes_the_vectors_of_lengths(rt: HostRuntime) {
    same_bytes(
        &rt,
        varint::varint_usize(usize::MAX, &mut [0; varint::VARINT_MAX_64]),
        &[0xFF, 0xFF, 0xFF, 0xFF, 0xFF, 0xFF, 0xFF, 0xFF, 0xFF, 0x01],
    );
    same_bytes(
        &rt,
        varint::varint_usize(1, &mut [0; varint::VARINT_MAX_64]),
        &[0x01],
    );
}

/// Asserts the number of bytes of the greatest number of a width, and the last of them.
fn assert_ends(rt: &impl Abort, written: &[u8], count: usize, last: u8) {
    same(
        rt,
        (written.len(), written.last().copied()),
        (count, Some(last)),
    );
}

#[test]
fn has_its_most_bytes_at_the_greatest(rt: HostRuntime) {
    assert_ends(
        &rt,
        varint::varint_u16(u16::MAX, &mut [0; varint::VARINT_MAX_16]),
        3,
        varint::MAX_OF_LAST_BYTE_16,
    );
    assert_ends(
        &rt,
        varint::varint_u32(u32::MAX, &mut [0; varint::VARINT_MAX_32]),
        5,
        varint::MAX_OF_LAST_BYTE_32,
    );
    assert_ends(
        &rt,
        varint::varint_u64(u64::MAX, &mut [0; varint::VARINT_MAX_64]),
        10,
        varint::MAX_OF_LAST_BYTE_64,
    );
    assert_ends(
        &rt,
        varint::varint_u128(u128::MAX, &mut [0; varint::VARINT_MAX_128]),
        19,
        varint::MAX_OF_LAST_BYTE_128,
    );
}

fn assert_read(rt: &impl Abort, bits: u32, bytes: &[u8], want: Result<(u128, usize)>)
    requires { IsWidth bits }
{
    same(rt, read(bits, bytes), want);
}

#[test]
fn reads_padded_numbers(rt: HostRuntime) {
    assert_read(&rt, 16, &[0x80, 0x00], Ok((0, 2)));
    assert_read(&rt, 16, &[0x80, 0x80, 0x00, 0x07], Ok((0, 3)));
    assert_read(
        &rt,
        32,
        &[0xFF, 0xFF, 0xFF, 0xFF, 0x0F],
        Ok((0xFFFF_FFFF, 5)),
    );
}

fn assert_bad(rt: &impl Abort, bits: u32, bytes: &[u8])
    requires { IsWidth bits }
{
    same(rt, read(bits, bytes), Err(Error::DeserializeBadVarint));
}

/// A full length is refused for its last byte.
#[test]
fn refuses_numbers_past_the_width(rt: HostRuntime) {
    assert_bad(&rt, 16, &[0x80, 0x80, 0x04]);
    assert_bad(&rt, 16, &[0x80, 0x80, 0x80, 0x00]);
    assert_bad(&rt, 32, &[0xFF, 0xFF, 0xFF, 0xFF, 0x1F]);
    assert_bad(&rt, 32, &[0xFF, 0xFF, 0xFF, 0xFF, 0xFF, 0x01]);
}

#[test]
fn refuses_numbers_past_the_great_widths(rt: HostRuntime) {
    assert_bad(&rt, 64, &[0x80; 10]);
    assert_bad(
        &rt,
        64,
        &[0x80, 0x80, 0x80, 0x80, 0x80, 0x80, 0x80, 0x80, 0x80, 0x02],
    );
    assert_bad(&rt, 128, &[0x80; 19]);
    assert_bad(
        &rt,
        128,
        &[
            0x80, 0x80, 0x80, 0x80, 0x80, 0x80, 0x80, 0x80, 0x80, 0x80, 0x80, 0x80, 0x80, 0x80,
            0x80, 0x80, 0x80, 0x80, 0x04,
        ],
    );
}

#[test]
fn refuses_numbers_that_do_not_end(rt: HostRuntime) {
    assert_read(&rt, 32, &[], Err(Error::DeserializeUnexpectedEnd));
    assert_read(
        &rt,
        32,
        &[0xFF, 0xFF, 0xFF, 0xFF],
        Err(Error::DeserializeUnexpectedEnd),
    );
}

/// Signed numbers of 16 bits, each beside its zigzag encoding.
const FOLDED: [(i16, u16); 6] = [
    (0, 0),
    (-1, 1),
    (1, 2),
    (-2, 3),
    (i16::MAX, 0xFFFE),
    (i16::MIN, 0xFFFF),
];

#[test]
fn folds_the_vectors(rt: HostRuntime) {
    for (signed, folded) in &FOLDED {
        same(&rt, zigzag::zig_zag_i16(*signed), *folded);
    }
}

#[test]
fn folds_the_least_of_each_width(rt: HostRuntime) {
    same(&rt, zigzag::zig_zag_i32(i32::MIN), u32::MAX);
    same(&rt, zigzag::zig_zag_i64(i64::MIN), u64::MAX);
    same(&rt, zigzag::zig_zag_i128(i128::MIN), u128::MAX);
    same(&rt, zigzag::de_zig_zag_i128(u128::MAX), i128::MIN);
}

fn assert_first(rt: &impl Abort, bytes: &[u8], want: Result<char>)
    requires { length bytes.now ≤ 4 }
{
    same(rt, text::first_char(bytes), want);
}

#[test]
fn takes_the_first_character(rt: HostRuntime) {
    assert_first(&rt, b"z", Ok('z'));
    assert_first(&rt, b"ab", Ok('a'));
    assert_first(&rt, &[0xC2, 0xA2], Ok('¢'));
    assert_first(&rt, &[0xF0, 0x90, 0x8D, 0x88], Ok('𐍈'));
    assert_first(&rt, &[0xC2, 0xA2, 0x61], Ok('¢'));
}

#[test]
fn refuses_a_first_character(rt: HostRuntime) {
    assert_first(&rt, b"", Err(Error::DeserializeBadChar));
    assert_first(&rt, &[0xC3], Err(Error::DeserializeBadChar));
    assert_first(&rt, &[0x61, 0xC3], Err(Error::DeserializeBadChar));
}
