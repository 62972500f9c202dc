//! The calls that read numbers at their full width: 2, 4, 8 or 16 bytes, the lowest first (`_le`)
//! or the highest first (`_be`), in place of a varint. Each returns the reader's status, as those
//! of `get`, and fails with `DeserializeUnexpectedEnd` if fewer bytes are left. After an error the
//! reader's place is that before the call, and nothing was written.
//!
//! A signed number is the unsigned number of its two's complement; `c/postcard.h` has the casts.

ghost use Rattle.std.specs.Prelude.{◌+◌, ◌*◌, ◌^◌, length};
ghost use Rattle.postcard_c.specs.{GetsBytes, GetsFixed, big, little};

use crate::reader::{Reader, rest_at};
use crate::wide::halves;
use postcard_fixint::FixInt;
use postcard_wire::status::UNEXPECTED_END;

/// Reads as many bytes as `bytes` has, and copies them there.
fn fill(reader: &mut Reader<'_>, bytes: &mut [u8]) -> u32
    ensures { GetsBytes (length bytes.old) reader.old reader.new bytes.old bytes.new result }
{
    if reader.status != 0 {
        return reader.status;
    }
    let rest = rest_at(reader.bytes, reader.at);
    let size = bytes.len();
    if size > rest.len() {
        reader.status = UNEXPECTED_END;
        return UNEXPECTED_END;
    }
    bytes.copy_from_slice(&rest[..size]);
    reader.at += size;
    0
}

/// Reads a number from 2 bytes, the lowest first.
#[unsafe(no_mangle)]
pub extern "C" fn postcard_get_u16_le(reader: &mut Reader<'_>, value: &mut u16) -> u32
    ensures { GetsFixed little.value 2 reader.old reader.new value.old value.new result }
{
    let mut bytes = [0; 2];
    let status = fill(reader, &mut bytes);
    if status != 0 {
        return status;
    }
    *value = u16::decode_le(bytes);
    status
}

/// Reads a number from 2 bytes, the highest first.
#[unsafe(no_mangle)]
pub extern "C" fn postcard_get_u16_be(reader: &mut Reader<'_>, value: &mut u16) -> u32
    ensures { GetsFixed big.value 2 reader.old reader.new value.old value.new result }
{
    let mut bytes = [0; 2];
    let status = fill(reader, &mut bytes);
    if status != 0 {
        return status;
    }
    *value = u16::decode_be(bytes);
    status
}

/// Reads a number from 4 bytes, the lowest first.
#[unsafe(no_mangle)]
pub extern "C" fn postcard_get_u32_le(reader: &mut Reader<'_>, value: &mut u32) -> u32
    ensures { GetsFixed little.value 4 reader.old reader.new value.old value.new result }
{
    let mut bytes = [0; 4];
    let status = fill(reader, &mut bytes);
    if status != 0 {
        return status;
    }
    *value = u32::decode_le(bytes);
    status
}

/// Reads a number from 4 bytes, the highest first.
#[unsafe(no_mangle)]
pub extern "C" fn postcard_get_u32_be(reader: &mut Reader<'_>, value: &mut u32) -> u32
    ensures { GetsFixed big.value 4 reader.old reader.new value.old value.new result }
{
    let mut bytes = [0; 4];
    let status = fill(reader, &mut bytes);
    if status != 0 {
        return status;
    }
    *value = u32::decode_be(bytes);
    status
}

/// Reads a number from 8 bytes, the lowest first.
#[unsafe(no_mangle)]
pub extern "C" fn postcard_get_u64_le(reader: &mut Reader<'_>, value: &mut u64) -> u32
    ensures { GetsFixed little.value 8 reader.old reader.new value.old value.new result }
{
    let mut bytes = [0; 8];
    let status = fill(reader, &mut bytes);
    if status != 0 {
        return status;
    }
    *value = u64::decode_le(bytes);
    status
}

/// Reads a number from 8 bytes, the highest first.
#[unsafe(no_mangle)]
pub extern "C" fn postcard_get_u64_be(reader: &mut Reader<'_>, value: &mut u64) -> u32
    ensures { GetsFixed big.value 8 reader.old reader.new value.old value.new result }
{
    let mut bytes = [0; 8];
    let status = fill(reader, &mut bytes);
    if status != 0 {
        return status;
    }
    *value = u64::decode_be(bytes);
    status
}

/// Reads a number from 16 bytes, the lowest first, as its lower and its higher 64 bits.
#[unsafe(no_mangle)]
pub extern "C" fn postcard_get_u128_le(
    reader: &mut Reader<'_>,
    low: &mut u64,
    high: &mut u64,
) -> u32
    ensures { GetsFixed little.value 16 reader.old reader.new (low.old + 2 ^ 64 * high.old)
        (low.new + 2 ^ 64 * high.new) result }
{
    let mut bytes = [0; 16];
    let status = fill(reader, &mut bytes);
    if status != 0 {
        return status;
    }
    (*low, *high) = halves(u128::decode_le(bytes));
    status
}

/// Reads a number from 16 bytes, the highest first, as its lower and its higher 64 bits.
#[unsafe(no_mangle)]
pub extern "C" fn postcard_get_u128_be(
    reader: &mut Reader<'_>,
    low: &mut u64,
    high: &mut u64,
) -> u32
    ensures { GetsFixed big.value 16 reader.old reader.new (low.old + 2 ^ 64 * high.old)
        (low.new + 2 ^ 64 * high.new) result }
{
    let mut bytes = [0; 16];
    let status = fill(reader, &mut bytes);
    if status != 0 {
        return status;
    }
    (*low, *high) = halves(u128::decode_be(bytes));
    status
}
