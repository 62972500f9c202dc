//! Checksums: of bytes, of what a writer holds, and of what a reader has read.
//!
//! The algorithms are two of Greg Cook's catalogue of parametrised CRC algorithms. Both
//! take and give the lowest bit first, here without a table, so that the code is small.

ghost use Rattle.std.specs.Prelude.{◌≡◌, ◌↔◌, ◌++◌, ℕ, List, length, take, true, IsTrue};
ghost use Rattle.postcard_c.specs.{GetsCrc, Holds, IsCrc, Parameters, PutsCrc, Reflects, TakesJust};
ghost use Rattle.postcard_c.specs.{crc_16, crc_32, next, rounds};

use crate::put_fixed::{postcard_put_u16_le, postcard_put_u32_le};
use crate::reader::{Reader, rest_at};
use crate::writer::Writer;
use postcard_fixint::FixInt;
use postcard_wire::status::{BAD_CRC, UNEXPECTED_END};

/// The generator of CRC-32/ISO-HDLC without its highest power, the lowest bit first.
const GENERATOR_32: u32 = 0xedb8_8320;
/// The generator of CRC-16/IBM-SDLC, likewise.
const GENERATOR_16: u32 = 0x8408;

/// Returns the register after one more power of x.
fn next(generator: u32, register: u32) -> u32
    ensures { result ≡ next true 32 generator register }
{
    let half = register / 2;
    if register % 2 == 1 {
        half ^ generator
    } else {
        half
    }
}

/// Returns the register after eight more powers of x.
#[tactic(auto, using(crc::proofs::RegisterLemmas::rounds_none, crc::proofs::RegisterLemmas::rounds_more))]
fn eight(generator: u32, start: u32) -> u32
    ensures { result ≡ rounds true 32 generator 8 start }
{
    let mut register = start;
    for k in 0..8u32 {
        let _ = k;
        register = next(generator, register);
    }
    register
}

/// Returns the register after more bytes of a message.
fn taken(generator: u32, register: u32, bytes: &[u8]) -> u32
    ensures { (a : Parameters) (added : ℕ) (m : List ℕ) → Reflects a generator added
        → Holds 32 a register m → Holds 32 a result (m ++ bytes.now) }
{
    let mut register = register;
    for byte in bytes {
        register = eight(generator, register ^ u32::from(*byte));
    }
    register
}

/// Returns the checksum of a message that goes on with these bytes, where `so_far` is that of the
/// bytes before them.
#[inline(never)]
fn continued(generator: u32, added: u32, so_far: u32, bytes: &[u8]) -> u32
    ensures { (a : Parameters) (m : List ℕ) → Reflects a generator added
        → IsCrc a m so_far → IsCrc a (m ++ bytes.now) result }
{
    taken(generator, so_far ^ added, bytes) ^ added
}

/// Returns the checksum of a message by CRC-32/ISO-HDLC, which is often called just CRC-32. Where the
/// message comes in pieces, `so_far` is the checksum of those before this one; it is 0 for the first.
#[unsafe(no_mangle)]
pub extern "C" fn postcard_crc32(so_far: u32, bytes: &[u8]) -> u32
    ensures whole { so_far ≡ 0 → IsCrc crc_32 bytes.now result }
    ensures continues { (m : List ℕ) → IsCrc crc_32 m so_far
        → IsCrc crc_32 (m ++ bytes.now) result }
{
    continued(GENERATOR_32, 0xffff_ffff, so_far, bytes)
}

/// Does the same by CRC-16/IBM-SDLC, that of HDLC and X.25.
#[unsafe(no_mangle)]
pub extern "C" fn postcard_crc16(so_far: u16, bytes: &[u8]) -> u16
    ensures whole { so_far ≡ 0 → IsCrc crc_16 bytes.now result }
    ensures continues { (m : List ℕ) → IsCrc crc_16 m so_far
        → IsCrc crc_16 (m ++ bytes.now) result }
{
    (continued(GENERATOR_16, 0xffff, so_far.into(), bytes) & 0xffff) as u16
}

/// Returns the bytes before a place, or all of them if the place is after their end.
fn front_at(bytes: &[u8], place: usize) -> &[u8]
    ensures { result.now ≡ take place bytes.now }
{
    if place > bytes.len() {
        return bytes;
    }
    &bytes[..place]
}

fn held<'b>(writer: &'b Writer<'_>) -> &'b [u8]
    ensures { result.now ≡ take writer.now.used writer.now.buffer.now }
{
    let used = writer.used;
    front_at(writer.buffer, used)
}

/// Appends the CRC-32/ISO-HDLC of what the writer holds, as its 4 bytes, the lowest first.
#[unsafe(no_mangle)]
pub extern "C" fn postcard_put_crc32(writer: &mut Writer<'_>) -> u32
    ensures { PutsCrc crc_32 4 writer.old writer.new result }
{
    let crc = postcard_crc32(0, held(writer));
    postcard_put_u32_le(writer, crc)
}

/// Appends the CRC-16/IBM-SDLC of what the writer holds, as its 2 bytes, the lowest first.
#[unsafe(no_mangle)]
pub extern "C" fn postcard_put_crc16(writer: &mut Writer<'_>) -> u32
    ensures { PutsCrc crc_16 2 writer.old writer.new result }
{
    let crc = postcard_crc16(0, held(writer));
    postcard_put_u16_le(writer, crc)
}

fn are_same(found: &[u8], wanted: &[u8]) -> bool
    requires { length found.now ≡ length wanted.now }
    ensures { IsTrue result ↔ (found.now ≡ wanted.now) }
{
    for i in 0..wanted.len() {
        if found[i] != wanted[i] {
            return false;
        }
    }
    true
}

/// Takes the next bytes, which must be those that are wanted. Fails with `DeserializeUnexpectedEnd`
/// if fewer are left, and with `DeserializeBadCrc` if they are others.
fn take_just(reader: &mut Reader<'_>, wanted: &[u8]) -> u32
    ensures { TakesJust wanted.now reader.old reader.new result }
{
    if reader.status != 0 {
        return reader.status;
    }
    let rest = rest_at(reader.bytes, reader.at);
    let size = wanted.len();
    if size > rest.len() {
        reader.status = UNEXPECTED_END;
        return UNEXPECTED_END;
    }
    if !are_same(&rest[..size], wanted) {
        reader.status = BAD_CRC;
        return BAD_CRC;
    }
    reader.at += size;
    0
}

/// Takes the next 4 bytes, which must be the CRC-32/ISO-HDLC of all bytes that were read before,
/// the lowest first. Fails with `DeserializeUnexpectedEnd` if fewer bytes are left, and with
/// `DeserializeBadCrc` if they are others.
#[unsafe(no_mangle)]
pub extern "C" fn postcard_get_crc32(reader: &mut Reader<'_>) -> u32
    ensures { GetsCrc crc_32 4 reader.old reader.new result }
{
    let crc = postcard_crc32(0, front_at(reader.bytes, reader.at));
    take_just(reader, &u32::encode_le(crc))
}

/// Takes the next 2 bytes, which must be the CRC-16/IBM-SDLC of all bytes that were read before,
/// the lowest first. Fails as [`postcard_get_crc32`] does.
#[unsafe(no_mangle)]
pub extern "C" fn postcard_get_crc16(reader: &mut Reader<'_>) -> u32
    ensures { GetsCrc crc_16 2 reader.old reader.new result }
{
    let crc = postcard_crc16(0, front_at(reader.bytes, reader.at));
    take_just(reader, &u16::encode_le(crc))
}
