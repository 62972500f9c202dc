//! The reader: a place in the caller's bytes, from which each call reads one node of the format.

ghost use Rattle.std.specs.Prelude.{◌≡◌, ◌-◌, drop, length};
ghost use Rattle.postcard_c.specs.{Settles, rest_of, source_of};

use postcard_de::Deserializer;
use postcard_de_flavors::Slice;
use postcard_wire::Result;
use postcard_wire::status::status_of;

/// A reader over the caller's bytes.
///
/// `bytes[..at]` is read. `status` is 0 until a call fails; from then on each call returns that
/// status, and changes nothing.
#[repr(C)]
#[derive(Drop)]
pub struct Reader<'a> {
    /// All bytes.
    pub bytes: &'a [u8],
    /// The place of the next byte to be read. After a failure, the place of the first byte of what
    /// could not be read.
    pub at: usize,
    /// 0, or the number of the first error.
    pub status: u32,
}

/// Returns the bytes at an index and after it: no bytes if the index is after their end.
pub(crate) fn rest_at(bytes: &[u8], place: usize) -> &[u8]
    ensures { result.now ≡ drop place bytes.now }
{
    if place > bytes.len() {
        return &bytes[bytes.len()..];
    }
    &bytes[place..]
}

/// Returns a deserializer of the bytes that aren't read yet.
pub(crate) fn open<'a>(reader: &Reader<'a>) -> Deserializer<'a, Slice<'a>>
    ensures { source_of result ≡ rest_of reader.now }
{
    Deserializer::from_bytes(rest_at(reader.bytes, reader.at))
}

/// Returns the index of the first byte that a source has left of the bytes.
fn place_before<'a>(bytes: &[u8], source: Deserializer<'a, Slice<'a>>) -> usize
    ensures { result ≡ length bytes.now - length (source_of source.entry) }
{
    match source.finalize() {
        Ok(rest) => bytes.len().saturating_sub(rest.len()),
        Err(_) => bytes.len(),
    }
}

/// Ends a call that read a value from a source of the bytes that weren't read yet: writes the
/// value, and moves the reader on to what the source has left. After an error the reader has failed
/// with its number. A reader that has failed before is not changed.
pub(crate) fn settle<'a, T: Drop>(
    reader: &mut Reader<'a>,
    source: Deserializer<'a, Slice<'a>>,
    read: Result<T>,
    value: &mut T,
) -> u32
    ensures { Settles reader.old reader.new read (source_of source.entry) value.old value.new result }
{
    if reader.status != 0 {
        return reader.status;
    }
    match read {
        Ok(read) => {
            *value = read;
            reader.at = place_before(reader.bytes, source);
        }
        Err(error) => reader.status = status_of(&error),
    }
    reader.status
}
