//! Encoding into frames of COBS (Cheshire and Baker, 1999). A frame has a value's canonical
//! encoding, and a zero ends it. The zero counts as a byte of the frame.

ghost use Rattle.std.specs.Prelude.{◌≡◌, ◌-◌, ◌≤◌, ◌↔◌, ◌++◌, length, take, drop, IfOk, IfErr};
ghost use Rattle.std.specs.Prelude.{IsOk, OnOk, ⊤};
ghost use Rattle.postcard.specs.{Array, DecodesTo, EncodesFrame, Fills, IsAttempt, IsErrorOf};
ghost use Rattle.postcard.specs.{IsWilling, LendsSoOk, encoding, made, sem, u8};

use crate::ser::{Attempt, lend_front};
use crate::with_flavor::serialize_with_flavor;
use arrayvec::ArrayVec;
use postcard_ser::{Serialize, Serializer};
use postcard_ser_cobs::Cobs;
use postcard_ser_flavors::{AllocVec, Flavor, HVec, Slice, Storage};
use postcard_wire::{Error, Result};
use std::alloc::Global;

/// Encodes a value as a frame after the bytes that a storage holds, ends the storage, and returns
/// its output. Fails as [`serialize_with_flavor`] does.
fn framed<T: Serialize, B: Storage + Drop>(value: &T, storage: B) -> Result<<B as Flavor>::Output>
    ensures gives { IfOk result (λ output. (last : B)
        × (B.held last ≡ B.held storage ++ made (encoding T.shape value.now))
        × B.reaches storage last × B.finishes last output) }
    ensures has_room { IsWilling T.shape value.now
        → length (made (encoding T.shape value.now)) ≤ usize.MAX - 2
        → B.free storage (length (made (encoding T.shape value.now))) → IsOk result }
    ensures own_error { length (made (encoding T.shape value.now)) ≤ usize.MAX - 2
        → B.free storage (length (made (encoding T.shape value.now)))
        → IfErr result (T.shape.refusal value.now) }
    ensures named_error { IfErr result (IsErrorOf T.shape value.now) }
    ensures fits { OnOk result (T.shape.fits value.now) }
{
    serialize_with_flavor(value, Cobs::try_new(storage)?)
}

/// Encodes a value as a frame into a vector with room for `B` bytes. Nothing is allocated.
///
/// # Errors
///
/// If `B` is at most `usize::MAX - 2`, fails with `SerializeBufferFull` if and only if the frame is
/// longer than `B` bytes. The [exceptions](crate#errors-of-encoding) apply.
///
/// # Examples
///
/// ```rust
/// let fixed = to_vec_cobs::<_, 16>(value).expect(rt, "the frame has room");
/// ```
#[tactic(auto, using(crate::specs::Lemmas::frame_decodes))]
pub fn to_vec_cobs<T: Serialize, const B: usize>(value: &T) -> Result<ArrayVec<u8, B>>
    ensures gives { IfOk result (λ vec. vec.items ≡ made (encoding T.shape value.now)) }
    ensures decodes { IfOk result (λ vec. DecodesTo vec.items (encoding T.shape value.now)) }
    ensures fits_iff { IsWilling T.shape value.now → B ≤ usize.MAX - 2
        → (IsOk result ↔ (length (made (encoding T.shape value.now)) ≤ B)) }
    ensures own_error { B ≤ usize.MAX - 2
        → length (made (encoding T.shape value.now)) ≤ B
        → IfErr result (T.shape.refusal value.now) }
    ensures named_error { IfErr result (IsErrorOf T.shape value.now) }
    ensures fits { OnOk result (T.shape.fits value.now) }
{
    framed(value, HVec::new())
}

/// Encodes a value as a frame into the first bytes of `buf`, and returns the frame. The bytes after
/// it are unchanged. Nothing is allocated.
///
/// [`fill_slice_cobs`] says in plain clauses what `writes_back` does.
///
/// # Errors
///
/// Fails with `SerializeBufferFull` if and only if the frame is longer than `buf`. The
/// [exceptions](crate#errors-of-encoding) apply. After a failure the content of the buffer is
/// unspecified.
///
/// # Examples
///
/// ```rust
/// let mut buffer = [0; 16];
/// let frame = to_slice_cobs(&[0x01u8, 0x00, 0x20, 0x30].as_slice(), &mut buffer)?;
/// assert_eq!(rt; &*frame, [0x03, 0x04, 0x01, 0x03, 0x20, 0x30, 0x00].as_slice());
/// ```
pub fn to_slice_cobs<'a, T: Serialize>(value: &T, buf: &'a mut [u8]) -> Result<&'a mut [u8]>
    ensures* writes_back { sem 𝓛 (LendsSoOk (Array u8 0) (Array u8 0) buf.entry result
        (λ all front. all ≡ front
        ++ drop (length (made (encoding T.shape value.now))) buf.old)
        (λ _. ⊤)) }
    ensures gives { IfOk result (λ front. front.now ≡ made (encoding T.shape value.now)) }
    ensures decodes { IfOk result (λ front. DecodesTo front.now (encoding T.shape value.now)) }
    ensures fits_iff { IsWilling T.shape value.now
        → (IsOk result ↔ (length (made (encoding T.shape value.now)) ≤ length buf.old)) }
    ensures own_error { length (made (encoding T.shape value.now)) ≤ length buf.old
        → IfErr result (T.shape.refusal value.now) }
    ensures named_error { IfErr result (IsErrorOf T.shape value.now) }
    ensures fits { OnOk result (T.shape.fits value.now) }
{
    lend_front(write_frame(value, buf))
}

/// Does what [`framed`] does, but always returns the storage, with whether it succeeded.
fn frame_into<T: Serialize, B: Storage + Drop>(value: &T, storage: B) -> (B, Result<()>)
    ensures gives { OnOk result.1
        (B.held result.0 ≡ B.held storage ++ made (encoding T.shape value.now)) }
    ensures leaves { B.reaches storage result.0 }
    ensures has_room { IsWilling T.shape value.now
        → length (made (encoding T.shape value.now)) ≤ usize.MAX - 2
        → B.free storage (length (made (encoding T.shape value.now))) → IsOk result.1 }
    ensures own_error { length (made (encoding T.shape value.now)) ≤ usize.MAX - 2
        → B.free storage (length (made (encoding T.shape value.now)))
        → IfErr result.1 (T.shape.refusal value.now) }
    ensures named_error { IfErr result.1 (IsErrorOf T.shape value.now) }
    ensures fits { OnOk result.1 (T.shape.fits value.now) }
{
    let mut serializer = Serializer {
        output: Cobs::open(storage),
    };
    match value.serialize(&mut serializer) {
        Ok(()) => serializer.output.close(),
        Err(error) => (serializer.output.into_storage(), Err(error)),
    }
}

/// Encodes a value as a frame into the first bytes of a buffer.
fn write_frame<'a, T: Serialize>(value: &T, buf: &'a mut [u8]) -> Attempt<'a>
    ensures same_loan { result.all.ghost_name ≡ buf.entry.ghost_name }
    ensures attempts { IsAttempt T.shape value.now (made (encoding T.shape value.now))
        (λ _. ⊤) buf.old result }
{
    let (slice, framed) = frame_into(value, Slice::new(buf));
    let (all, count) = slice.into_parts();
    match framed {
        Ok(()) => Attempt {
            all,
            count,
            failed: false,
            error: Error::SerializeBufferFull,
        },
        Err(error) => Attempt {
            all,
            count,
            failed: true,
            error,
        },
    }
}

/// Does what [`to_slice_cobs`] does, with the same errors, and returns the number of the frame's
/// bytes, for callers that keep the buffer.
///
/// # Examples
///
/// ```rust
/// let written = fill_slice_cobs(value, &mut buffer[..room]);
/// ```
pub fn fill_slice_cobs<T: Serialize>(value: &T, buf: &mut [u8]) -> Result<usize>
    ensures count_is_length { IfOk result
        (λ count. count ≡ length (made (encoding T.shape value.now))) }
    ensures fills { OnOk result (Fills (made (encoding T.shape value.now)) buf.old buf.new) }
    ensures decodes { IfOk result
        (λ count. DecodesTo (take count buf.new) (encoding T.shape value.now)) }
    ensures fits_iff { IsWilling T.shape value.now
        → (IsOk result ↔ (length (made (encoding T.shape value.now)) ≤ length buf.old)) }
    ensures own_error { length (made (encoding T.shape value.now)) ≤ length buf.old
        → IfErr result (T.shape.refusal value.now) }
    ensures named_error { IfErr result (IsErrorOf T.shape value.now) }
    ensures fits { OnOk result (T.shape.fits value.now) }
{
    let Attempt {
        all: _all,
        count,
        failed,
        error,
    } = write_frame(value, buf);
    if failed { Err(error) } else { Ok(count) }
}

/// Encodes a value as a frame into a new `Vec`.
///
/// # Errors
///
/// Fails with `SerializeBufferFull`, only if an allocation fails. The
/// [exceptions](crate#errors-of-encoding) apply.
///
/// # Examples
///
/// ```rust
/// let grown = to_allocvec_cobs(rt.alloc(), value).expect(rt, "a vector grows");
/// ```
#[tactic(auto, using(crate::specs::Lemmas::frame_decodes))]
pub fn to_allocvec_cobs<T: Serialize>(alloc: Global, value: &T) -> Result<Vec<u8>>
    ensures { EncodesFrame T.shape value.now (λ vec. vec.items) result }
{
    framed(value, AllocVec::new(alloc))
}

/// Does what [`to_allocvec_cobs`] does. It is the Rust crate's name for `std`.
///
/// # Examples
///
/// ```rust
/// let grown = to_stdvec_cobs(rt.alloc(), value).expect(rt, "a vector grows");
/// ```
pub fn to_stdvec_cobs<T: Serialize>(alloc: Global, value: &T) -> Result<Vec<u8>>
    ensures { EncodesFrame T.shape value.now (λ vec. vec.items) result }
{
    to_allocvec_cobs(alloc, value)
}

/// Encodes a value as a frame after the bytes of a vector, and returns the vector.
///
/// # Errors
///
/// Fails as [`to_allocvec_cobs`], and drops the vector then.
///
/// # Examples
///
/// ```rust
/// let mut two = to_allocvec_cobs_after(&5u8, frame.to_vec(rt.alloc())?)?;
/// ```
#[tactic(auto, using(crate::specs::Lemmas::frame_after_decodes))]
pub fn to_allocvec_cobs_after<T: Serialize>(value: &T, vec: Vec<u8>) -> Result<Vec<u8>>
    ensures gives { IfOk result
        (λ output. output.items ≡ vec.items ++ made (encoding T.shape value.now)) }
    ensures decodes { IfOk result (λ output. DecodesTo (drop (length vec.items) output.items)
        (encoding T.shape value.now)) }
    ensures named_error { IfErr result (IsErrorOf T.shape value.now) }
    ensures fits { OnOk result (T.shape.fits value.now) }
{
    framed(value, AllocVec::from_vec(vec))
}
