//! The calls that write numbers at their full width: 2, 4, 8 or 16 bytes, the lowest first (`_le`)
//! or the highest first (`_be`), in place of a varint. Each returns the writer's status, and fails
//! as those of `put`.
//!
//! A signed number is the unsigned number of its two's complement; `c/postcard.h` has the casts.

ghost use Rattle.std.specs.Prelude.{◌+◌, ◌*◌, ◌^◌};
ghost use Rattle.postcard_c.specs.{Puts, big, little};

use crate::wide::joined;
use crate::writer::{Writer, append};
use postcard_fixint::FixInt;

/// Appends the 2 bytes of a number, the lowest first.
#[unsafe(no_mangle)]
pub extern "C" fn postcard_put_u16_le(writer: &mut Writer<'_>, value: u16) -> u32
    ensures { Puts (little.spell 2 value) writer.old writer.new result }
{
    append(writer, &u16::encode_le(value), &[])
}

/// Appends the 2 bytes of a number, the highest first.
#[unsafe(no_mangle)]
pub extern "C" fn postcard_put_u16_be(writer: &mut Writer<'_>, value: u16) -> u32
    ensures { Puts (big.spell 2 value) writer.old writer.new result }
{
    append(writer, &u16::encode_be(value), &[])
}

/// Appends the 4 bytes of a number, the lowest first.
#[unsafe(no_mangle)]
pub extern "C" fn postcard_put_u32_le(writer: &mut Writer<'_>, value: u32) -> u32
    ensures { Puts (little.spell 4 value) writer.old writer.new result }
{
    append(writer, &u32::encode_le(value), &[])
}

/// Appends the 4 bytes of a number, the highest first.
#[unsafe(no_mangle)]
pub extern "C" fn postcard_put_u32_be(writer: &mut Writer<'_>, value: u32) -> u32
    ensures { Puts (big.spell 4 value) writer.old writer.new result }
{
    append(writer, &u32::encode_be(value), &[])
}

/// Appends the 8 bytes of a number, the lowest first.
#[unsafe(no_mangle)]
pub extern "C" fn postcard_put_u64_le(writer: &mut Writer<'_>, value: u64) -> u32
    ensures { Puts (little.spell 8 value) writer.old writer.new result }
{
    append(writer, &u64::encode_le(value), &[])
}

/// Appends the 8 bytes of a number, the highest first.
#[unsafe(no_mangle)]
pub extern "C" fn postcard_put_u64_be(writer: &mut Writer<'_>, value: u64) -> u32
    ensures { Puts (big.spell 8 value) writer.old writer.new result }
{
    append(writer, &u64::encode_be(value), &[])
}

/// Appends the 16 bytes of a number, passed as its lower and its higher 64 bits, the lowest first.
#[unsafe(no_mangle)]
pub extern "C" fn postcard_put_u128_le(writer: &mut Writer<'_>, low: u64, high: u64) -> u32
    ensures { Puts (little.spell 16 (low + 2 ^ 64 * high)) writer.old writer.new result }
{
    put_wide_le(writer, joined(low, high))
}

fn put_wide_le(writer: &mut Writer<'_>, value: u128) -> u32
    ensures { Puts (little.spell 16 value) writer.old writer.new result }
{
    append(writer, &u128::encode_le(value), &[])
}

/// Appends the 16 bytes of a number, passed as its lower and its higher 64 bits, the highest first.
#[unsafe(no_mangle)]
pub extern "C" fn postcard_put_u128_be(writer: &mut Writer<'_>, low: u64, high: u64) -> u32
    ensures { Puts (big.spell 16 (low + 2 ^ 64 * high)) writer.old writer.new result }
{
    put_wide_be(writer, joined(low, high))
}

fn put_wide_be(writer: &mut Writer<'_>, value: u128) -> u32
    ensures { Puts (big.spell 16 value) writer.old writer.new result }
{
    append(writer, &u128::encode_be(value), &[])
}
