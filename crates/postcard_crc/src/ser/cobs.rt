//! Encoding with a checksum into a COBS frame.

ghost use Rattle.std.specs.Prelude.{◌≡◌, ◌+◌, ◌-◌, ◌++◌, ℕ, List, length, IfOk, IfErr, IsOk, OnOk};
ghost use Rattle.postcard_crc.specs.{EncodesGrowing, FrameFits, IsCrcAfter, IsErrorOf};
ghost use Rattle.postcard_crc.specs.{IsFrameWithCrc, IsWilling, encoding, low_bytes, made};

use crate::ser::serialize_with_checksum;
use crc::{Digest, Implementation, Width};
use postcard_ser::Serialize;
use postcard_ser_cobs::Cobs;
use postcard_ser_flavors::{AllocVec, Flavor, Slice, Storage};
use postcard_wire::Result;
use std::alloc::Global;

/// Encodes a value and its checksum as a frame after the bytes that a storage holds, ends the
/// storage, and returns its output. Fails as
/// [`serialize_with_checksum`](crate::ser::serialize_with_checksum) does.
fn framed<T: Serialize, B: Storage + Drop, W: Width, I: Implementation<W>>(
    value: &T,
    storage: B,
    digest: Digest<'_, W, I>,
) -> Result<<B as Flavor>::Output>
    ensures gives { IfOk result (λ output. (crc : ℕ)
        × IsCrcAfter digest.entry (encoding T.shape value.now) crc × ((last : B)
        × (B.held last ≡ B.held storage
        ++ made (encoding T.shape value.now ++ low_bytes W.size crc))
        × B.reaches storage last × B.finishes last output)) }
    ensures has_room { IsWilling T.shape value.now
        → FrameFits W.size (encoding T.shape value.now) (usize.MAX - 2)
        → ((ys : List ℕ) → length ys ≡ length (encoding T.shape value.now) + W.size
        → B.free storage (length (made ys))) → IsOk result }
    ensures own_error { FrameFits W.size (encoding T.shape value.now) (usize.MAX - 2)
        → ((ys : List ℕ) → length ys ≡ length (encoding T.shape value.now) + W.size
        → B.free storage (length (made ys))) → IfErr result (T.shape.refusal value.now) }
    ensures named_error { IfErr result (IsErrorOf T.shape value.now) }
    ensures fits { OnOk result (T.shape.fits value.now) }
{
    serialize_with_checksum(value, Cobs::try_new(storage)?, digest)
}

/// Encodes a value and its checksum as a frame into the first bytes of `buf`, and returns the frame
/// with its zero. Nothing is allocated. The Rust crate has no such call.
///
/// # Errors
///
/// Fails with `SerializeBufferFull` if the frame is longer than `buf`, and never if `buf` has room
/// for the frame of the encoding and any checksum. The [exceptions](crate#errors-of-encoding)
/// apply. After a failure the content of the buffer is unspecified.
pub fn to_slice_cobs<'a, T: Serialize, W: Width, I: Implementation<W>>(
    value: &T,
    buf: &'a mut [u8],
    digest: Digest<'_, W, I>,
) -> Result<&'a mut [u8]>
    ensures gives { IfOk result (λ front. IsFrameWithCrc W.size digest.entry
        (encoding T.shape value.now) front.now) }
    ensures has_room { IsWilling T.shape value.now
        → FrameFits W.size (encoding T.shape value.now) (length buf.old) → IsOk result }
    ensures own_error { FrameFits W.size (encoding T.shape value.now) (length buf.old)
        → IfErr result (T.shape.refusal value.now) }
    ensures named_error { IfErr result (IsErrorOf T.shape value.now) }
    ensures fits { OnOk result (T.shape.fits value.now) }
{
    // For the prover: a slice has fewer than 2^63 bytes, so the frame's length can be counted.
    let _len = buf.len();
    framed(value, Slice::new(buf), digest)
}

/// Encodes a value and its checksum as a frame with its zero into a new `Vec`. Fails as
/// [`to_allocvec`](crate::ser::to_allocvec). The Rust crate has no such call.
///
/// # Examples
///
/// ```rust
/// let frame = to_allocvec_cobs(rt.alloc(), &1u8, maxim.digest())?;
/// ```
pub fn to_allocvec_cobs<T: Serialize, W: Width, I: Implementation<W>>(
    alloc: Global,
    value: &T,
    digest: Digest<'_, W, I>,
) -> Result<Vec<u8>>
    ensures { EncodesGrowing T.shape value.now
        (λ vec. IsFrameWithCrc W.size digest.entry (encoding T.shape value.now) vec.items) result }
{
    framed(value, AllocVec::new(alloc), digest)
}
