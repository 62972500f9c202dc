//! The calls that write: one for each node of the format.
//!
//! Each appends to a [`Writer`], and returns the writer's status, which is 0 for success. It fails
//! with `SerializeBufferFull` if and only if the bytes have no room, and as before if the writer
//! has failed before. A call with an error of its own says so. A number of 16 bits or more is
//! written as a varint, of its zigzag encoding if signed.

ghost use Rattle.std.specs.Prelude.{◌∷◌, [], ◌+◌, ◌*◌, ◌^◌, ◌<◌, map, IsUtf8};
ghost use Rattle.postcard_c.specs.{Absent, Boolean, Byte, Char, Int, IsScalar, Num, Puts, Refuses};
ghost use Rattle.postcard_c.specs.{Seq, Text, canonical, cast_signed, cast_unsigned, trees, w128};
ghost use Rattle.postcard_c.specs.{w8};

use crate::wide::joined;
use crate::writer::{Writer, append, put_counted, put_number, refuse};
use postcard_wire::status::{BAD_CHAR, BAD_UTF8};
use postcard_wire::text::is_utf8;
use postcard_wire::varint::{VARINT_MAX_128, varint_u128};
use postcard_wire::zigzag::{zig_zag_i16, zig_zag_i32, zig_zag_i64, zig_zag_i128};

/// Appends a `bool` as one byte, 0 or 1.
#[unsafe(no_mangle)]
pub extern "C" fn postcard_put_bool(writer: &mut Writer<'_>, value: bool) -> u32
    ensures { Puts (canonical (Boolean value)) writer.old writer.new result }
{
    append(writer, &[value as u8], &[])
}

/// Appends a number of 8 bits as one byte.
#[unsafe(no_mangle)]
pub extern "C" fn postcard_put_u8(writer: &mut Writer<'_>, value: u8) -> u32
    ensures { Puts (canonical (Byte value)) writer.old writer.new result }
{
    append(writer, &[value], &[])
}

/// Appends a number of 16 bits.
#[unsafe(no_mangle)]
pub extern "C" fn postcard_put_u16(writer: &mut Writer<'_>, value: u16) -> u32
    ensures { Puts (canonical (Num 16 value)) writer.old writer.new result }
{
    put_number(writer, value.into())
}

/// Appends a number of 32 bits.
#[unsafe(no_mangle)]
pub extern "C" fn postcard_put_u32(writer: &mut Writer<'_>, value: u32) -> u32
    ensures { Puts (canonical (Num 32 value)) writer.old writer.new result }
{
    put_number(writer, u64::from(value))
}

/// Appends a number of 64 bits.
#[unsafe(no_mangle)]
pub extern "C" fn postcard_put_u64(writer: &mut Writer<'_>, value: u64) -> u32
    ensures { Puts (canonical (Num 64 value)) writer.old writer.new result }
{
    put_number(writer, value)
}

/// Appends a number of 128 bits, passed as its lower and its higher 64 bits.
#[unsafe(no_mangle)]
pub extern "C" fn postcard_put_u128(writer: &mut Writer<'_>, low: u64, high: u64) -> u32
    ensures { Puts (canonical (Num 128 (low + 2 ^ 64 * high))) writer.old writer.new result }
{
    put_wide(writer, joined(low, high))
}

fn put_wide(writer: &mut Writer<'_>, value: u128) -> u32
    ensures { Puts (canonical (Num 128 value)) writer.old writer.new result }
{
    let mut varint = [0; VARINT_MAX_128];
    append(writer, varint_u128(value, &mut varint), &[])
}

/// Appends a signed number of 8 bits as one byte, in two's complement.
#[unsafe(no_mangle)]
pub extern "C" fn postcard_put_i8(writer: &mut Writer<'_>, value: i8) -> u32
    ensures { Puts (canonical (Byte (cast_unsigned w8 value))) writer.old writer.new result }
{
    append(writer, &[value.cast_unsigned()], &[])
}

/// Appends a signed number of 16 bits.
#[unsafe(no_mangle)]
pub extern "C" fn postcard_put_i16(writer: &mut Writer<'_>, value: i16) -> u32
    ensures { Puts (canonical (Int 16 value)) writer.old writer.new result }
{
    put_number(writer, u64::from(zig_zag_i16(value)))
}

/// Appends a signed number of 32 bits.
#[unsafe(no_mangle)]
pub extern "C" fn postcard_put_i32(writer: &mut Writer<'_>, value: i32) -> u32
    ensures { Puts (canonical (Int 32 value)) writer.old writer.new result }
{
    put_number(writer, u64::from(zig_zag_i32(value)))
}

/// Appends a signed number of 64 bits.
#[unsafe(no_mangle)]
pub extern "C" fn postcard_put_i64(writer: &mut Writer<'_>, value: i64) -> u32
    ensures { Puts (canonical (Int 64 value)) writer.old writer.new result }
{
    put_number(writer, zig_zag_i64(value))
}

/// Appends a signed number of 128 bits, passed as the lower and the higher 64 bits of its two's
/// complement.
#[unsafe(no_mangle)]
pub extern "C" fn postcard_put_i128(writer: &mut Writer<'_>, low: u64, high: u64) -> u32
    ensures { Puts (canonical (Int 128 (cast_signed w128 (low + 2 ^ 64 * high))))
        writer.old writer.new result }
{
    let value = joined(low, high).cast_signed();
    put_wide(writer, zig_zag_i128(value))
}

/// Appends a character, which is passed as its code. Fails with `DeserializeBadChar` if the code is
/// no Unicode scalar value.
#[unsafe(no_mangle)]
pub extern "C" fn postcard_put_char(writer: &mut Writer<'_>, code: u32) -> u32
    ensures written { IsScalar code → Puts (canonical (Char code)) writer.old writer.new result }
    ensures refused { ¬ IsScalar code → Refuses 7 writer.old writer.new result }
{
    match char::from_u32(code) {
        Some(character) => {
            let mut room = [0; 4];
            let utf8 = character.encode_utf8(&mut room).as_bytes();
            put_counted(writer, utf8.len() as u64, utf8)
        }
        None => refuse(writer, BAD_CHAR),
    }
}

/// Appends a text: its length in bytes as a varint, and its bytes. Fails with `DeserializeBadUtf8`
/// if they are not UTF-8.
#[unsafe(no_mangle)]
pub extern "C" fn postcard_put_str(writer: &mut Writer<'_>, text: &[u8]) -> u32
    ensures written { IsUtf8 text.now → Puts (canonical (Text text.now)) writer.old writer.new result }
    ensures refused { ¬ IsUtf8 text.now → Refuses 8 writer.old writer.new result }
{
    if !is_utf8(text) {
        return refuse(writer, BAD_UTF8);
    }
    put_counted(writer, text.len() as u64, text)
}

/// Appends a byte string, a list of `u8`: its length as a varint, and its bytes.
#[unsafe(no_mangle)]
#[tactic(auto, using(crate::proofs::Bytes::counted_bytes))]
pub extern "C" fn postcard_put_bytes(writer: &mut Writer<'_>, bytes: &[u8]) -> u32
    ensures { Puts (canonical (Seq (trees (map Byte bytes.now)))) writer.old writer.new result }
{
    put_counted(writer, bytes.len() as u64, bytes)
}

/// Appends bytes as they are, with no length before them: an array of `u8`, or what was encoded
/// elsewhere.
#[unsafe(no_mangle)]
pub extern "C" fn postcard_put_raw(writer: &mut Writer<'_>, bytes: &[u8]) -> u32
    ensures { Puts bytes.now writer.old writer.new result }
{
    append(writer, &[], bytes)
}

/// Appends an option without a value.
#[unsafe(no_mangle)]
pub extern "C" fn postcard_put_none(writer: &mut Writer<'_>) -> u32
    ensures { Puts (canonical Absent) writer.old writer.new result }
{
    append(writer, &[0], &[])
}

/// Begins an option with a value, which is written next.
#[unsafe(no_mangle)]
pub extern "C" fn postcard_put_some(writer: &mut Writer<'_>) -> u32
    ensures { Puts (1 ∷ []) writer.old writer.new result }
{
    append(writer, &[1], &[])
}

/// Begins a variant of an enum, by its index, counted from 0. Its content is written next.
#[unsafe(no_mangle)]
pub extern "C" fn postcard_put_variant(writer: &mut Writer<'_>, index: u32) -> u32
    ensures { Puts (canonical (Num 32 index)) writer.old writer.new result }
{
    put_number(writer, index.into())
}

/// Begins a list or a map, by the number of its elements or of its pairs, which are written next.
#[unsafe(no_mangle)]
pub extern "C" fn postcard_put_count(writer: &mut Writer<'_>, count: usize) -> u32
    ensures { Puts (canonical (Num 64 count)) writer.old writer.new result }
{
    put_number(writer, count as u64)
}
