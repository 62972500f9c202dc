//! Decoding a value from a reader.

ghost use Rattle.std.specs.Prelude.{◌≡◌, Err, IfOk, IfErr};
ghost use Rattle.postcard.specs.{AcceptsReader, Grows, IsReadError, ReadsBackReader, ReadsReader};

use postcard_de::{Deserialize, Deserializer};
use postcard_de_flavors::Reader;
use postcard_de_flavors::io::io::IOReader;
use postcard_wire::{Error, Result};
use std::alloc::Global;

/// Decodes a value from a reader and a scratch buffer. Returns the value, the reader and the
/// remaining scratch, for the next call. The bytes after the value stay unread.
///
/// A slice or a string that the value borrows lies in the scratch buffer, and uses up its length
/// there. A `String` needs its length only while it is read, and uses up nothing. So does a float,
/// which needs 4 or 8 bytes, and a `char`, which needs up to 4. Other numbers need no scratch. The
/// scratch returned is the end of the scratch passed. Reading `n` bytes changes at most the first
/// `n` bytes of the scratch passed.
///
/// Over a steady reader, the call succeeds if the reader's bytes begin with an accepted encoding of
/// the type and the scratch is no shorter. An allocation may still fail.
/// [`Plain`](crate::de_flavors::Plain) wraps a reader that is no `Reader`.
///
/// # Errors
///
/// Fails as [`take_from_bytes`](crate::take_from_bytes). Also fails with `DeserializeUnexpectedEnd`
/// if the reader fails or the scratch is too short. After a failure the reader and the scratch are
/// dropped.
///
/// # Examples
///
/// ```rust
/// let records = [0x01, 0x61, 0xAC, 0x02, 0x99];
/// let mut scratch = [0; 8];
/// let (name, from) = from_io::<&str, _>(rt.alloc(), (records.as_slice(), &mut scratch))?;
/// let (number, (reader, left)) = from_io::<u32, _>(rt.alloc(), from)?;
/// assert_eq!(rt; (name, number), ("a", 300));
/// ```
pub fn from_io<'a, T: Deserialize<'a>, R: Reader + 'a>(
    alloc: Global,
    from: (R, &'a mut [u8]),
) -> Result<(T, (R, &'a mut [u8]))>
    ensures gives { IfOk result (λ read. ReadsReader T.shape.reads T.shape.value R.remaining
        R.steady from.entry.0 from.entry.1.now read.0 read.1.0 read.1.1.now) }
    ensures accepts { AcceptsReader T.shape R.remaining R.steady from.entry.0 from.entry.1.now
        result }
    ensures reads_back { ReadsBackReader T.shape R.remaining R.steady from.entry.0
        from.entry.1.now result }
    ensures stays_steady { R.steady from.entry.0 → IfOk result (λ read. R.steady read.1.0) }
    // For users' proofs.
    ensures out_of_memory_only_if_grows { result ≡ Err Error.OutOfMemory → Grows T.shape }
    ensures named_error { IfErr result (IsReadError T.shape.other) }
{
    let (reader, scratch) = from;
    let mut deserializer = Deserializer::from_flavor(IOReader::new(reader, scratch));
    let value = T::deserialize(alloc, &mut deserializer)?;
    let left = deserializer.finalize()?;
    Ok((value, left))
}
