//! Encoding into any writing flavor, and the calls that encode into an `ArrayVec`, a `Vec`, an
//! extensible target, and a writer.

ghost use Rattle.std.specs.Prelude.{◌≡◌, ◌≤◌, ◌++◌, length, IfOk, IfErr, IsOk, OnOk};
ghost use Rattle.postcard.specs.{Appends, Encodes, EncodesGrowing, IsErrorOf, IsWilling, encoding};
ghost use Rattle.postcard.specs.Finished.{Finished};

use crate::experimental::serialized_size;
use crate::ser::fill_slice;
use arrayvec::ArrayVec;
use postcard_ser::{Serialize, Serializer};
use postcard_ser_flavors::io::WriteFlavor;
use postcard_ser_flavors::{ExtendBytes, ExtendFlavor, Flavor, HVec};
use postcard_wire::{Error, Result};
use std::alloc::Global;
use std::io::Write;

/// Passes the canonical encoding of a value's tree to a flavor, ends the flavor, and returns its
/// output.
///
/// # Errors
///
/// Fails with `SerializeBufferFull` if the flavor refuses bytes or can't end, and never if it has
/// room for the encoding. The [exceptions](crate#errors-of-encoding) apply. After a failure the
/// flavor is dropped.
///
/// # Examples
///
/// ```rust
/// assert_eq!(rt; serialize_with_flavor(&false, Size::default()), Ok(1));
/// ```
pub fn serialize_with_flavor<T: Serialize, S: Flavor<Output = O> + Drop, O>(
    value: &T,
    flavor: S,
) -> Result<O>
    ensures gives { IfOk result (Finished S.Flavor flavor (encoding T.shape value.now)) }
    ensures has_room { IsWilling T.shape value.now
        → S.room flavor (encoding T.shape value.now) → IsOk result }
    ensures own_error { S.room flavor (encoding T.shape value.now)
        → IfErr result (T.shape.refusal value.now) }
    ensures named_error { IfErr result (IsErrorOf T.shape value.now) }
    ensures fits { OnOk result (T.shape.fits value.now) }
{
    let mut serializer = Serializer { output: flavor };
    value.serialize(&mut serializer)?;
    match serializer.output.finalize() {
        Ok(output) => Ok(output),
        Err(_) => Err(Error::SerializeBufferFull),
    }
}

/// Encodes a value into an `ArrayVec` with room for `B` bytes, and returns it. Nothing is
/// allocated.
///
/// # Errors
///
/// Fails with `SerializeBufferFull` if and only if the encoding has more than `B` bytes. The
/// [exceptions](crate#errors-of-encoding) apply.
///
/// # Examples
///
/// ```rust
/// let tuple = (1u8, 10u32, "Hello!");
/// let fixed = to_vec::<_, 9>(&tuple)?;
/// ```
pub fn to_vec<T: Serialize, const B: usize>(value: &T) -> Result<ArrayVec<u8, B>>
    ensures { Encodes T.shape value.now (λ vec. vec.items ≡ encoding T.shape value.now)
        (length (encoding T.shape value.now) ≤ B) result }
{
    serialize_with_flavor(value, HVec::new())
}

/// Encodes a value into a new `Vec`. It allocates once, the size of the encoding.
///
/// The value is written twice: first to count its bytes. A value that is slow to write, such as a
/// long string by `collect_str`, is written once by [`to_extend`] with an empty `Vec`.
///
/// # Errors
///
/// Fails with `SerializeBufferFull`, only if an allocation fails. The
/// [exceptions](crate#errors-of-encoding) apply.
///
/// # Examples
///
/// ```rust
/// let tuple = (1u8, 10u32, "Hello!");
/// let longer = to_extend(&true, to_allocvec(rt.alloc(), &tuple)?)?;
/// ```
pub fn to_allocvec<T: Serialize>(alloc: Global, value: &T) -> Result<Vec<u8>>
    ensures { EncodesGrowing T.shape value.now (λ vec. vec.items ≡ encoding T.shape value.now)
        result }
{
    let size = serialized_size(value)?;
    let Ok(mut vec) = Vec::from_elem(alloc, 0, size) else {
        return Err(Error::SerializeBufferFull);
    };
    fill_slice(value, vec.as_mut_slice())?;
    Ok(vec)
}

/// Does what [`to_allocvec`] does. It is the Rust crate's name for `std`.
///
/// # Examples
///
/// ```rust
/// let tuple = (1u8, 10u32, "Hello!");
/// let growing = to_stdvec(rt.alloc(), &tuple)?;
/// ```
pub fn to_stdvec<T: Serialize>(alloc: Global, value: &T) -> Result<Vec<u8>>
    ensures { EncodesGrowing T.shape value.now (λ vec. vec.items ≡ encoding T.shape value.now)
        result }
{
    to_allocvec(alloc, value)
}

/// Encodes a value after the bytes that the target `writer` holds, and returns the target.
///
/// # Errors
///
/// Fails with `SerializeBufferFull` if the target refuses bytes. The
/// [exceptions](crate#errors-of-encoding) apply. After a failure the target is dropped.
///
/// # Examples
///
/// ```rust
/// let tuple = (1u8, 10u32, "Hello!");
/// let longer = to_extend(&true, to_allocvec(rt.alloc(), &tuple)?)?;
/// ```
pub fn to_extend<T: Serialize, W: ExtendBytes + Drop>(value: &T, writer: W) -> Result<W>
    ensures appends { IfOk result
        (λ target. W.content target ≡ W.content writer ++ encoding T.shape value.now) }
    ensures named_error { IfErr result (IsErrorOf T.shape value.now) }
    ensures fits { OnOk result (T.shape.fits value.now) }
{
    serialize_with_flavor(value, ExtendFlavor::new(writer))
}

/// Writes the encoding of a value to a writer, flushes the writer, and returns it.
///
/// # Errors
///
/// Fails with `SerializeBufferFull` if the writer or its flush fails. The
/// [exceptions](crate#errors-of-encoding) apply. After a failure the writer is dropped, and may
/// have been given some of the bytes.
///
/// # Examples
///
/// ```rust
/// let tuple = (1u8, 10u32, "Hello!");
/// let written = to_io(&tuple, Vec::new(rt.alloc()))?;
/// ```
pub fn to_io<T: Serialize, W: Write + Drop>(value: &T, writer: W) -> Result<W>
    ensures appends { IfOk result (λ output. Appends (W.contents writer) (W.contents output)
        (encoding T.shape value.now)) }
    ensures named_error { IfErr result (IsErrorOf T.shape value.now) }
    ensures fits { OnOk result (T.shape.fits value.now) }
{
    serialize_with_flavor(value, WriteFlavor::new(writer))
}
