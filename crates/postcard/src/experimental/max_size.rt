//! The greatest size of a type's encodings (all of `postcard_max`), and a call for a buffer of that
//! size.

ghost use Rattle.std.specs.Prelude.{◌≤◌, length, IfSome, IsOk};
ghost use Rattle.postcard.specs.{FillsSlice, IsWilling};

use crate::ser::fill_slice;
pub use postcard_max::{MaxSize, MaxSizeRepr, SizeBound, cases, laws, rows, sizes};
use postcard_ser::Serialize;
use postcard_wire::Result;

/// Does what [`fill_slice`](crate::fill_slice) does. If `T::postcard_max_size()` is `Some(n)`, a
/// buffer of at least `n` bytes is enough for every value that doesn't refuse itself.
///
/// # Examples
///
/// ```rust
/// assert_eq!(rt; fill_max_size(&Choice::Narrow(7), &mut [0; 4]), Ok(2));
/// ```
pub fn fill_max_size<T: Serialize + MaxSize>(value: &T, buffer: &mut [u8]) -> Result<usize>
    ensures filled { FillsSlice T.shape value.now buffer.old result buffer.new }
    ensures enough { IsWilling T.shape value.now
        → IfSome T.limit.greatest (λ m. m ≤ length buffer.old → IsOk result) }
    ensures always_enough { T.limit.willing
        → IfSome T.limit.greatest (λ m. m ≤ length buffer.old → IsOk result) }
{
    laws::within_max_size(value);
    fill_slice(value, buffer)
}
