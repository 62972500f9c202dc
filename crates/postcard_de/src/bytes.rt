//! Decoding from a slice of bytes.

ghost use Rattle.postcard_de.specs.{ReadsFromBytes, TakesFromBytes};

use crate::deserialize::Deserialize;
use crate::deserializer::Deserializer;
use postcard_wire::Result;
use std::alloc::Global;

/// Decodes a value from the first bytes of `bytes`, and returns it with the bytes after them.
///
/// It succeeds if and only if `bytes` begins with an accepted encoding of a value of the type, and
/// no allocation fails. An encoding with padded varints is accepted, too. At most one beginning of
/// `bytes` is an accepted encoding. A `&str` or a `&[u8]` in the value borrows from `bytes`.
///
/// # Errors
///
/// Fails with the error of the first part that can't be read: `DeserializeUnexpectedEnd` if the
/// bytes end, an error of `Deserializer`'s calls, or `SerdeDeCustom` if a type refuses what was
/// read. Fails with `OutOfMemory` if an allocation fails. Only types that allocate do.
///
/// # Examples
///
/// ```rust
/// let bytes = [0x03, 0x48, 0x69, 0x21, 0x07];
/// let (text, rest) = take_from_bytes::<&str>(rt.alloc(), &bytes)?;
/// assert_eq!(rt; text, "Hi!");
/// ```
#[inline(always)]
pub fn take_from_bytes<'a, T: Deserialize<'a>>(
    alloc: Global,
    bytes: &'a [u8],
) -> Result<(T, &'a [u8])>
    ensures { TakesFromBytes T.shape bytes.now result }
{
    let mut deserializer = Deserializer::from_bytes(bytes);
    let value = T::deserialize(alloc, &mut deserializer)?;
    let rest = deserializer.finalize()?;
    Ok((value, rest))
}

/// Decodes a value as [`take_from_bytes`] does, with the same errors. Bytes after that front are
/// ignored.
///
/// # Examples
///
/// ```rust
/// let seven: u8 = from_bytes(rt.alloc(), rest)?;
/// ```
pub fn from_bytes<'a, T: Deserialize<'a>>(alloc: Global, bytes: &'a [u8]) -> Result<T>
    ensures { ReadsFromBytes T.shape bytes.now result }
{
    let (value, _) = take_from_bytes(alloc, bytes)?;
    Ok(value)
}
