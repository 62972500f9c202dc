//! Laws of what the calls return. Each law is the contract of a function that does nothing, except
//! that [`comes_back`] and [`frame_comes_back`] run the calls. A contract can tell two values apart
//! only by what their type's shape says of them. Values that it can't tell apart are called equal
//! here.

ghost use Rattle.std.specs.Prelude.{◌≡◌, ◌≤◌, ℕ, List, ◌++◌, length, Some, IfOk};
ghost use Rattle.postcard.specs.{Begins, ReadsFront, ReadsReader, Spells, Tree, canonical};

use crate::cobs::to_allocvec_cobs;
use crate::with_flavor::to_allocvec;
use postcard_de::{Deserialize, DeserializeOwned, Owned, from_bytes};
use postcard_de_flavors::Reader;
use postcard_frame::from_bytes_cobs;
use postcard_ser::Serialize;
use postcard_wire::Result;
use std::alloc::Global;

/// An encoding is decoded again, whatever bytes follow. Let bytes begin with the canonical encoding
/// of a tree that the type reads. They are read as a value of that tree, and just the bytes after
/// the encoding are left.
pub fn decodes_encoded<'a, T: Deserialize<'a>>()
    ensures spelled { (t : Tree) → T.shape.reads t → Spells t (canonical t) }
    ensures decoded { (t : Tree) (rest left : List ℕ) (v : T) → T.shape.reads t
        → ReadsFront T.shape.reads T.shape.value (canonical t ++ rest) v left
        → T.shape.value t v × (left ≡ rest) }
{}

/// Two decodings of the same bytes, as by `take_from_bytes` and by `from_io`, return equal values
/// and leave the same bytes.
pub fn decodes_alike<'a, T: Deserialize<'a>>()
    ensures { (all rest left : List ℕ) (v w : T) → ReadsFront T.shape.reads T.shape.value all v rest
        → ReadsFront T.shape.reads T.shape.value all w left → T.shape.same v w × (rest ≡ left) }
{}

/// Reading from a reader that knows its bytes agrees with reading from these bytes. `from_io` and
/// `take_from_bytes` return equal values, and the reader has the remaining bytes. Over a steady
/// reader with scratch as long as the bytes, `from_io` succeeds if and only if they can be decoded
/// and no allocation fails.
pub fn reads_alike<'a, T: Deserialize<'a>, R: Reader>()
    ensures alike { (old new : R) (all scratch room rest : List ℕ) (v w : T)
        → R.remaining old ≡ Some all
        → ReadsReader T.shape.reads T.shape.value R.remaining R.steady old scratch v new room
        → ReadsFront T.shape.reads T.shape.value all w rest
        → T.shape.same v w × (R.remaining new ≡ Some rest) }
    ensures given { (old new : R) (all scratch room : List ℕ) (v : T) → R.remaining old ≡ Some all
        → ReadsReader T.shape.reads T.shape.value R.remaining R.steady old scratch v new room
        → (rest : List ℕ) × ReadsFront T.shape.reads T.shape.value all v rest }
    ensures taken { (old : R) (all scratch rest : List ℕ) (w : T) → R.remaining old ≡ Some all
        → length all ≤ length scratch
        → ReadsFront T.shape.reads T.shape.value all w rest
        → (t : Tree) × (front : List ℕ) × T.shape.reads t × Spells t front
        × Begins (R.remaining old) front × (length front ≤ length scratch) }
{}

/// Encodes a value, decodes it again, and returns the decoded value, which equals the first.
///
/// # Errors
///
/// Fails with `SerializeBufferFull` or `OutOfMemory` if an allocation fails. A type that is written
/// as the string that it prints may fail with `CollectStrError`. A value that refuses itself fails
/// with its own error.
pub fn comes_back<T: Serialize + DeserializeOwned>(alloc: Global, value: &T) -> Result<T>
    ensures { IfOk result (λ back. T.shape.same back value.now) }
{
    let message = to_allocvec(alloc, value)?;
    let Owned(back) = from_bytes::<Owned<T>>(alloc, &message)?;
    Ok(back)
}

/// Encodes a value as a frame, decodes it in place, and returns the decoded value, which equals the
/// first. Fails as [`comes_back`].
pub fn frame_comes_back<T: Serialize + DeserializeOwned>(alloc: Global, value: &T) -> Result<T>
    ensures { IfOk result (λ back. T.shape.same back value.now) }
{
    let mut frame = to_allocvec_cobs(alloc, value)?;
    let Owned(back) = from_bytes_cobs::<Owned<T>>(alloc, &mut frame)?;
    Ok(back)
}
