//! The writer: appends bytes to the caller's buffer, and counts those that a whole message needs.

ghost use Rattle.std.specs.Prelude.{◌≡◌, ◌+◌, ◌<◌, ◌≤◌, [], ◌++◌, length, IsTrue};
ghost use Rattle.postcard_c.specs.{Puts, Refuses, WrittenAt, digits};

use postcard_wire::status::BUFFER_FULL;
use postcard_wire::varint::{VARINT_MAX_64, write_u64};

/// A writer over the caller's buffer.
///
/// `buffer[..used]` is the message so far. `status` is 0 until a call fails; from then on each
/// call returns that status, and changes nothing but `needed`.
#[repr(C)]
#[derive(Drop)]
pub struct Writer<'a> {
    pub buffer: &'a mut [u8],
    pub used: usize,
    /// The number of bytes that the message has, or would have in a buffer with room for it, at
    /// most `usize::MAX`.
    pub needed: usize,
    /// 0, or the number of the first error.
    pub status: u32,
}

/// Appends the bytes of `head` and then those of `tail`, all or none of them. Fails with
/// `SerializeBufferFull` if and only if both have no room together, and as before if the writer has
/// failed before.
// Inlined, so that the call for a byte stores it without a copy of unknown length.
#[inline(always)]
pub(crate) fn append(writer: &mut Writer<'_>, head: &[u8], tail: &[u8]) -> u32
    ensures { Puts (head.now ++ tail.now) writer.old writer.new result }
{
    let size = head.len() + tail.len();
    writer.needed = writer.needed.saturating_add(size);
    if writer.status != 0 {
        return writer.status;
    }
    let used = writer.used;
    let room = writer.buffer.len();
    if used > room || size > room - used {
        writer.status = BUFFER_FULL;
        return BUFFER_FULL;
    }
    write_at(writer.buffer, used, head, tail);
    writer.used = used + size;
    0
}

#[inline(always)]
#[tactic(auto, using(crate::proofs::Places::both_written))]
fn write_at(buffer: &mut [u8], place: usize, head: &[u8], tail: &[u8])
    requires { place + length (head.now ++ tail.now) ≤ length buffer.old }
    ensures { WrittenAt place (head.now ++ tail.now) buffer.old buffer.new }
{
    copy_at(buffer, place, head);
    copy_at(buffer, place + head.len(), tail);
}

#[inline(always)]
fn copy_at(buffer: &mut [u8], place: usize, bytes: &[u8])
    requires { place + length bytes.now ≤ length buffer.old }
    ensures { WrittenAt place bytes.now buffer.old buffer.new }
{
    let end = place + bytes.len();
    buffer[place..end].copy_from_slice(bytes);
}

/// Appends the varint of a number. Fails as [`append`] does.
pub(crate) fn put_number(writer: &mut Writer<'_>, number: u64) -> u32
    ensures { Puts (digits number) writer.old writer.new result }
{
    if writer.status != 0 || !surely_fits(writer, 0) {
        return put_if_it_fits(writer, number, &[]);
    }
    let size = write_number_at(writer.buffer, writer.used, number);
    writer.used += size;
    writer.needed = writer.needed.saturating_add(size);
    0
}

/// Appends the varint of a number, and then bytes, all or none of them. Fails as [`append`] does.
pub(crate) fn put_counted(writer: &mut Writer<'_>, number: u64, bytes: &[u8]) -> u32
    ensures { Puts (digits number ++ bytes.now) writer.old writer.new result }
{
    if writer.status != 0 || !surely_fits(writer, bytes.len()) {
        return put_if_it_fits(writer, number, bytes);
    }
    let size = write_counted_at(writer.buffer, writer.used, number, bytes);
    writer.used += size;
    writer.needed = writer.needed.saturating_add(size);
    0
}

/// The longest varint and the bytes must have room at the place.
fn write_counted_at(buffer: &mut [u8], place: usize, number: u64, bytes: &[u8]) -> usize
    requires { place + 10 + length bytes.now ≤ length buffer.old }
    ensures written { WrittenAt place (digits number ++ bytes.now) buffer.old buffer.new }
    ensures count { result ≡ length (digits number ++ bytes.now) }
{
    let varint = write_number_at(buffer, place, number);
    copy_at(buffer, place + varint, bytes);
    varint + bytes.len()
}

/// Returns whether the longest varint has room, and this number of bytes after it.
fn surely_fits(writer: &Writer<'_>, size: usize) -> bool
    ensures { IsTrue result → writer.now.used + 10 + size ≤ length writer.now.buffer.now }
{
    let room = writer.buffer.len();
    writer.used <= room
        && VARINT_MAX_64 <= room - writer.used
        && size <= room - writer.used - VARINT_MAX_64
}

/// The buffer must have ten bytes from the place on.
fn write_number_at(buffer: &mut [u8], place: usize, number: u64) -> usize
    requires { place + 10 ≤ length buffer.old }
    ensures written { WrittenAt place (digits number) buffer.old buffer.new }
    ensures count { result ≡ length (digits number) }
    ensures few { result ≤ 10 }
{
    write_u64(number, &mut buffer[place..])
}

/// Does what [`put_counted`] does, where the room may not suffice.
#[inline(never)]
#[tactic(auto, using(postcard_wire::proofs::Writing::few_64))]
fn put_if_it_fits(writer: &mut Writer<'_>, number: u64, bytes: &[u8]) -> u32
    ensures { Puts (digits number ++ bytes.now) writer.old writer.new result }
{
    let mut varint = [0; VARINT_MAX_64];
    let size = write_u64(number, &mut varint);
    append(writer, &varint[..size], bytes)
}

/// Fails with a status, unless the writer has failed before.
pub(crate) fn refuse(writer: &mut Writer<'_>, status: u32) -> u32
    ensures { Refuses status writer.old writer.new result }
{
    if writer.status == 0 {
        writer.status = status;
    }
    writer.status
}
