//! Encoding with a checksum.

ghost use Rattle.std.specs.Prelude.{◌+◌, ◌≤◌, length, IfOk, IfErr, IsOk, OnOk};
ghost use Rattle.postcard_crc.specs.{Encodes, EncodesGrowing, FinishedWithCrc, HasRoom, IsErrorOf};
ghost use Rattle.postcard_crc.specs.{IsWilling, IsWithCrc, encoding};

use arrayvec::ArrayVec;
use crc::{Digest, Implementation, Width};
use postcard_ser::{Serialize, Serializer};
use postcard_ser_flavors::{AllocVec, Flavor, HVec, Slice};
use postcard_wire::{Error, Result};
use std::alloc::Global;

mod cobs;
mod modifier;

pub use cobs::{to_allocvec_cobs, to_slice_cobs};
pub use modifier::CrcModifier;

/// Encodes a value and then its checksum into a flavor, ends the flavor, and returns its output.
/// The checksum is that of what `digest` has taken, and then the encoding.
///
/// # Errors
///
/// Fails with `SerializeBufferFull` if the flavor refuses bytes or can't end, and never if it has
/// room for the encoding and the checksum. The [exceptions](crate#errors-of-encoding) apply. After
/// a failure the flavor is dropped.
pub fn serialize_with_checksum<
    T: Serialize,
    S: Flavor<Output = O> + Drop,
    O,
    W: Width,
    I: Implementation<W>,
>(value: &T, flavor: S, digest: Digest<'_, W, I>) -> Result<O>
    ensures gives { IfOk result (FinishedWithCrc S.Flavor W.size digest.entry flavor
        (encoding T.shape value.now)) }
    ensures has_room { IsWilling T.shape value.now
        → HasRoom W.size S.room flavor (encoding T.shape value.now) → IsOk result }
    ensures own_error { HasRoom W.size S.room flavor (encoding T.shape value.now)
        → IfErr result (T.shape.refusal value.now) }
    ensures named_error { IfErr result (IsErrorOf T.shape value.now) }
    ensures fits { OnOk result (T.shape.fits value.now) }
{
    let mut serializer = Serializer {
        output: CrcModifier::new(flavor, digest),
    };
    value.serialize(&mut serializer)?;
    match serializer.output.finalize() {
        Ok(output) => Ok(output),
        Err(_) => Err(Error::SerializeBufferFull),
    }
}

/// Encodes a value and then its checksum into the first bytes of `buf`, and returns these bytes.
/// Nothing is allocated.
///
/// # Errors
///
/// Fails with `SerializeBufferFull` if and only if `buf` has no room for the encoding and the
/// checksum. The [exceptions](crate#errors-of-encoding) apply. After a failure the content of the
/// buffer is unspecified.
///
/// # Examples
///
/// ```rust
/// let crc: Crc<u32> = Crc::new(&CRC_32_ISCSI);
/// let mut buffer = [0; 16];
/// let sent = to_slice_crc32(&(7u8, 300u32), &mut buffer, crc.digest())?;
/// ```
pub fn to_slice<'a, T: Serialize, W: Width, I: Implementation<W>>(
    value: &T,
    buf: &'a mut [u8],
    digest: Digest<'_, W, I>,
) -> Result<&'a mut [u8]>
    ensures { Encodes T.shape value.now
        (λ front. IsWithCrc W.size digest.entry (encoding T.shape value.now) front.now)
        (length (encoding T.shape value.now) + W.size ≤ length buf.old) result }
{
    serialize_with_checksum(value, Slice::new(buf), digest)
}

/// Encodes a value and then its checksum into an `ArrayVec` with room for `B` bytes, and returns
/// the `ArrayVec`. Nothing is allocated.
///
/// # Errors
///
/// Fails with `SerializeBufferFull` if and only if the encoding and the checksum have more than `B`
/// bytes. The [exceptions](crate#errors-of-encoding) apply.
pub fn to_vec<T: Serialize, W: Width, I: Implementation<W>, const B: usize>(
    value: &T,
    digest: Digest<'_, W, I>,
) -> Result<ArrayVec<u8, B>>
    ensures { Encodes T.shape value.now
        (λ vec. IsWithCrc W.size digest.entry (encoding T.shape value.now) vec.items)
        (length (encoding T.shape value.now) + W.size ≤ B) result }
{
    serialize_with_checksum(value, HVec::new(), digest)
}

/// Encodes a value and then its checksum into a new `Vec`.
///
/// # Errors
///
/// Fails with `SerializeBufferFull`, only if an allocation fails. The
/// [exceptions](crate#errors-of-encoding) apply.
pub fn to_allocvec<T: Serialize, W: Width, I: Implementation<W>>(
    alloc: Global,
    value: &T,
    digest: Digest<'_, W, I>,
) -> Result<Vec<u8>>
    ensures { EncodesGrowing T.shape value.now
        (λ vec. IsWithCrc W.size digest.entry (encoding T.shape value.now) vec.items) result }
{
    serialize_with_checksum(value, AllocVec::new(alloc), digest)
}
