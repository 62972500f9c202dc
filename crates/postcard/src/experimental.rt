//! The size of a value's encoding, and the greatest size of a type's encodings. The Rust crate has
//! them in a module of the same name.

ghost use Rattle.std.specs.Prelude.{◌≡◌, ◌<◌, ◌^◌, ◌↔◌, length, IfOk, IfErr, IsOk};
ghost use Rattle.postcard.specs.{IsErrorOf, IsWilling, encoding};

pub mod max_size;

use crate::with_flavor::serialize_with_flavor;
use postcard_ser::Serialize;
use postcard_ser_flavors::Size;
use postcard_wire::Result;

/// Returns the number of bytes of a value's encoding. Nothing is stored or allocated.
///
/// # Errors
///
/// Fails with `SerializeBufferFull` if and only if the number exceeds `usize::MAX`. The
/// [exceptions](crate#errors-of-encoding) apply.
///
/// # Examples
///
/// ```rust
/// let tuple = (1u8, 10u32, "Hello!");
/// assert_eq!(rt; serialized_size(&tuple), Ok(9));
/// ```
pub fn serialized_size<T: Serialize>(value: &T) -> Result<usize>
    ensures gives { IfOk result (λ count. count ≡ length (encoding T.shape value.now)) }
    ensures fits_iff { IsWilling T.shape value.now
        → (IsOk result ↔ (length (encoding T.shape value.now) < 2 ^ 64)) }
    ensures own_error { length (encoding T.shape value.now) < 2 ^ 64
        → IfErr result (T.shape.refusal value.now) }
    ensures named_error { IfErr result (IsErrorOf T.shape value.now) }
{
    serialize_with_flavor(value, Size::default())
}
