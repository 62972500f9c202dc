//! The calls that read: one for each node of the format.
//!
//! Each reads from a [`Reader`], writes what it has read to where its last pointers point, and
//! returns the reader's status, which is 0 for success. After an error the reader's place is that
//! of the first byte of the node, and nothing was written. A reader that has failed before fails as
//! before.
//!
//! Each fails with `DeserializeUnexpectedEnd` if the bytes end before the node does. A number, an
//! index, a count or a length fails with `DeserializeBadVarint` if its varint has more bytes than
//! its width allows, or its number more bits. The bytes are at most 3, 5, 10 or 19 for 16, 32, 64
//! or 128 bits. A call with an error of its own says so.

ghost use Rattle.std.specs.Prelude.{◌≡◌, ◌+◌, ◌*◌, ◌^◌, ◌<◌};
ghost use Rattle.postcard_c.specs.{AreBytesOf, BadBool, BadChar, BadNumber, BadText, Boolean, Byte};
ghost use Rattle.postcard_c.specs.{Char, Gets, GetsBytes, GetsOption, Int, IsBoolean, IsByte};
ghost use Rattle.postcard_c.specs.{IsChar, IsInt, IsNum, IsSeq, IsText, ListIs, NoneBad, Num, Text};
ghost use Rattle.postcard_c.specs.{WantsByte, WantsChar, WantsDigit, WantsText, cast_signed};
ghost use Rattle.postcard_c.specs.{cast_unsigned, w128, w8};

use crate::reader::{Reader, open, rest_at, settle};
use crate::wide::{halves, joined};
use postcard_wire::Result;
use postcard_wire::status::{BAD_OPTION, UNEXPECTED_END};

/// Reads a `bool`. Fails with `DeserializeBadBool` if the byte is neither 0 nor 1.
#[unsafe(no_mangle)]
pub extern "C" fn postcard_get_bool(reader: &mut Reader<'_>, value: &mut bool) -> u32
    ensures { Gets IsBoolean (λ t v. t ≡ Boolean v) WantsByte BadBool
        reader.old reader.new value.old value.new result }
{
    let mut source = open(reader);
    let read = source.deserialize_bool();
    settle(reader, source, read, value)
}

/// Reads a number of 8 bits.
#[unsafe(no_mangle)]
pub extern "C" fn postcard_get_u8(reader: &mut Reader<'_>, value: &mut u8) -> u32
    ensures { Gets IsByte (λ t v. t ≡ Byte v) WantsByte NoneBad
        reader.old reader.new value.old value.new result }
{
    let mut source = open(reader);
    let read = source.deserialize_u8();
    settle(reader, source, read, value)
}

/// Reads a number of 16 bits.
#[unsafe(no_mangle)]
pub extern "C" fn postcard_get_u16(reader: &mut Reader<'_>, value: &mut u16) -> u32
    ensures { Gets (IsNum 16) (λ t v. t ≡ Num 16 v) (WantsDigit 16) (BadNumber 16)
        reader.old reader.new value.old value.new result }
{
    let mut source = open(reader);
    let read = source.deserialize_u16();
    settle(reader, source, read, value)
}

/// Reads a number of 32 bits.
#[unsafe(no_mangle)]
pub extern "C" fn postcard_get_u32(reader: &mut Reader<'_>, value: &mut u32) -> u32
    ensures { Gets (IsNum 32) (λ t v. t ≡ Num 32 v) (WantsDigit 32) (BadNumber 32)
        reader.old reader.new value.old value.new result }
{
    let mut source = open(reader);
    let read = source.deserialize_u32();
    settle(reader, source, read, value)
}

/// Reads a number of 64 bits.
#[unsafe(no_mangle)]
pub extern "C" fn postcard_get_u64(reader: &mut Reader<'_>, value: &mut u64) -> u32
    ensures { Gets (IsNum 64) (λ t v. t ≡ Num 64 v) (WantsDigit 64) (BadNumber 64)
        reader.old reader.new value.old value.new result }
{
    let mut source = open(reader);
    let read = source.deserialize_u64();
    settle(reader, source, read, value)
}

/// Reads a signed number of 8 bits.
#[unsafe(no_mangle)]
pub extern "C" fn postcard_get_i8(reader: &mut Reader<'_>, value: &mut i8) -> u32
    ensures { Gets IsByte (λ t v. t ≡ Byte (cast_unsigned w8 v)) WantsByte NoneBad
        reader.old reader.new value.old value.new result }
{
    let mut source = open(reader);
    let read = source.deserialize_i8();
    settle(reader, source, read, value)
}

/// Reads a signed number of 16 bits.
#[unsafe(no_mangle)]
pub extern "C" fn postcard_get_i16(reader: &mut Reader<'_>, value: &mut i16) -> u32
    ensures { Gets (IsInt 16) (λ t v. t ≡ Int 16 v) (WantsDigit 16) (BadNumber 16)
        reader.old reader.new value.old value.new result }
{
    let mut source = open(reader);
    let read = source.deserialize_i16();
    settle(reader, source, read, value)
}

/// Reads a signed number of 32 bits.
#[unsafe(no_mangle)]
pub extern "C" fn postcard_get_i32(reader: &mut Reader<'_>, value: &mut i32) -> u32
    ensures { Gets (IsInt 32) (λ t v. t ≡ Int 32 v) (WantsDigit 32) (BadNumber 32)
        reader.old reader.new value.old value.new result }
{
    let mut source = open(reader);
    let read = source.deserialize_i32();
    settle(reader, source, read, value)
}

/// Reads a signed number of 64 bits.
#[unsafe(no_mangle)]
pub extern "C" fn postcard_get_i64(reader: &mut Reader<'_>, value: &mut i64) -> u32
    ensures { Gets (IsInt 64) (λ t v. t ≡ Int 64 v) (WantsDigit 64) (BadNumber 64)
        reader.old reader.new value.old value.new result }
{
    let mut source = open(reader);
    let read = source.deserialize_i64();
    settle(reader, source, read, value)
}

/// Reads the index of a variant of an enum, of 32 bits. The content is read next.
#[unsafe(no_mangle)]
pub extern "C" fn postcard_get_variant(reader: &mut Reader<'_>, value: &mut u32) -> u32
    ensures { Gets (IsNum 32) (λ t v. t ≡ Num 32 v) (WantsDigit 32) (BadNumber 32)
        reader.old reader.new value.old value.new result }
{
    postcard_get_u32(reader, value)
}

/// Reads the number of elements of a list or of pairs of a map, of 64 bits. They are read next, if
/// the bytes have that many.
#[unsafe(no_mangle)]
pub extern "C" fn postcard_get_count(reader: &mut Reader<'_>, value: &mut usize) -> u32
    ensures { Gets (IsNum 64) (λ t v. t ≡ Num 64 v) (WantsDigit 64) (BadNumber 64)
        reader.old reader.new value.old value.new result }
{
    let mut source = open(reader);
    let read = count_of(source.deserialize_u64());
    settle(reader, source, read, value)
}

fn count_of(read: Result<u64>) -> Result<usize>
    ensures { result ≡ read }
{
    match read {
        Ok(count) => Ok(count as usize),
        Err(error) => Err(error),
    }
}

/// Reads a number of 128 bits as its lower and its higher 64 bits.
#[unsafe(no_mangle)]
pub extern "C" fn postcard_get_u128(reader: &mut Reader<'_>, low: &mut u64, high: &mut u64) -> u32
    ensures { Gets (IsNum 128) (λ t v. t ≡ Num 128 v) (WantsDigit 128) (BadNumber 128)
        reader.old reader.new (low.old + 2 ^ 64 * high.old) (low.new + 2 ^ 64 * high.new) result }
{
    let mut value = joined(*low, *high);
    let status = get_wide(reader, &mut value);
    (*low, *high) = halves(value);
    status
}

fn get_wide(reader: &mut Reader<'_>, value: &mut u128) -> u32
    ensures { Gets (IsNum 128) (λ t v. t ≡ Num 128 v) (WantsDigit 128) (BadNumber 128)
        reader.old reader.new value.old value.new result }
{
    let mut source = open(reader);
    let read = source.deserialize_u128();
    settle(reader, source, read, value)
}

/// Reads a signed number of 128 bits as the lower and the higher 64 bits of its two's complement.
#[unsafe(no_mangle)]
pub extern "C" fn postcard_get_i128(reader: &mut Reader<'_>, low: &mut u64, high: &mut u64) -> u32
    ensures { Gets (IsInt 128) (λ t v. t ≡ Int 128 (cast_signed w128 v)) (WantsDigit 128) (BadNumber 128)
        reader.old reader.new (low.old + 2 ^ 64 * high.old) (low.new + 2 ^ 64 * high.new) result }
{
    let (status, value) = get_wide_signed(reader, joined(*low, *high));
    (*low, *high) = halves(value);
    status
}

/// Reads a signed number of 128 bits as its two's complement, and returns the status and the number,
/// or `before` if it can't be read.
fn get_wide_signed(reader: &mut Reader<'_>, before: u128) -> (u32, u128)
    ensures { Gets (IsInt 128) (λ t v. t ≡ Int 128 (cast_signed w128 v)) (WantsDigit 128) (BadNumber 128)
        reader.old reader.new before result.1 result.0 }
{
    let mut value = before.cast_signed();
    let status = get_signed(reader, &mut value);
    (status, value.cast_unsigned())
}

fn get_signed(reader: &mut Reader<'_>, value: &mut i128) -> u32
    ensures { Gets (IsInt 128) (λ t v. t ≡ Int 128 v) (WantsDigit 128) (BadNumber 128)
        reader.old reader.new value.old value.new result }
{
    let mut source = open(reader);
    let read = source.deserialize_i128();
    settle(reader, source, read, value)
}

/// Reads a character, as its code. A length of 64 bits and that many bytes are read, of which the
/// first character counts, as in postcard 1.1.3. Fails with `DeserializeBadChar` if the length is
/// 0 or above 4, or the bytes are not UTF-8.
#[unsafe(no_mangle)]
pub extern "C" fn postcard_get_char(reader: &mut Reader<'_>, code: &mut u32) -> u32
    ensures { Gets IsChar (λ t v. t ≡ Char v) WantsChar BadChar
        reader.old reader.new code.old code.new result }
{
    let mut source = open(reader);
    let read = code_of(source.deserialize_char());
    settle(reader, source, read, code)
}

fn code_of(read: Result<char>) -> Result<u32>
    ensures { result ≡ read }
{
    match read {
        Ok(character) => Ok(character as u32),
        Err(error) => Err(error),
    }
}

/// Reads a text after its length, of 64 bits, and lends its bytes, which lie in the reader's bytes.
/// Fails with `DeserializeBadUtf8` if they are not UTF-8.
#[unsafe(no_mangle)]
pub extern "C" fn postcard_get_str<'a>(reader: &mut Reader<'a>, text: &mut &'a [u8]) -> u32
    ensures { Gets IsText (λ t v. t ≡ Text v.now) WantsText (BadText ⊥)
        reader.old reader.new text.old text.new result }
{
    let mut source = open(reader);
    let read = bytes_of(source.deserialize_str());
    settle(reader, source, read, text)
}

fn bytes_of(read: Result<&str>) -> Result<&[u8]>
    ensures { AreBytesOf read.entry result }
{
    match read {
        Ok(text) => Ok(text.as_bytes()),
        Err(error) => Err(error),
    }
}

/// Reads a byte string, a list of `u8`, after its length, of 64 bits, and lends its bytes, which
/// lie in the reader's bytes.
#[unsafe(no_mangle)]
pub extern "C" fn postcard_get_bytes<'a>(reader: &mut Reader<'a>, bytes: &mut &'a [u8]) -> u32
    ensures { Gets (IsSeq IsByte) (λ t v. ListIs (λ s b. s ≡ Byte b) t v.now) WantsText (BadNumber 64)
        reader.old reader.new bytes.old bytes.new result }
{
    let mut source = open(reader);
    let read = source.deserialize_bytes();
    settle(reader, source, read, bytes)
}

/// Reads a number of bytes with no length before them, as an array of `u8`, and lends them. They
/// lie in the reader's bytes.
#[unsafe(no_mangle)]
pub extern "C" fn postcard_get_raw<'a>(
    reader: &mut Reader<'a>,
    size: usize,
    bytes: &mut &'a [u8],
) -> u32
    ensures { GetsBytes size reader.old reader.new bytes.old.now bytes.new.now result }
{
    if reader.status != 0 {
        return reader.status;
    }
    let rest = rest_at(reader.bytes, reader.at);
    if size > rest.len() {
        reader.status = UNEXPECTED_END;
        return UNEXPECTED_END;
    }
    *bytes = &rest[..size];
    reader.at += size;
    0
}

/// Reads whether an option has a value, which is read next. Fails with `DeserializeBadOption` if
/// the byte is neither 0 nor 1.
#[unsafe(no_mangle)]
pub extern "C" fn postcard_get_option(reader: &mut Reader<'_>, present: &mut bool) -> u32
    ensures { GetsOption reader.old reader.new present.old present.new result }
{
    if reader.status != 0 {
        return reader.status;
    }
    match rest_at(reader.bytes, reader.at) {
        [] => reader.status = UNEXPECTED_END,
        [0, ..] => {
            *present = false;
            reader.at += 1;
        }
        [1, ..] => {
            *present = true;
            reader.at += 1;
        }
        _ => reader.status = BAD_OPTION,
    }
    reader.status
}
