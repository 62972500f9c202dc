//! Values of a fixed number of bytes each, read many at a time from bytes that are in memory.

ghost use Rattle.std.specs.Prelude.{◌≡◌, ◌<◌, ◌≤◌, ℕ, length, take, IfErr, IfOk, IfSome};
ghost use Rattle.postcard_shape.specs.{Appends, IfNone, IsValue};
ghost use Rattle.postcard_shape.specs.Shape.{Shape};

use postcard_wire::{Error, Result};

/// A type whose values have the same number of bytes each. Any bytes are read.
pub trait OfBytes: Sized {
    /// The number of bytes.
    ghost size: { ℕ };

    /// The shape of a value, once more: the impls of `Shaped` call [`append`], whose bound can't
    /// lead back to them.
    ghost form: { Shape Self };

    /// Returns the number of bytes.
    fn size() -> usize
        ensures { result ≡ size };

    /// Returns the value that `bytes` begin with.
    fn from_front(bytes: &[u8]) -> Self
        requires { size ≤ length bytes.now }
        ensures { IsValue form (take size bytes.now) result };
}

/// Appends the next values to a list, as `append_at_hand` does: those that `bytes` have whole, but
/// at most `most`. Asks for memory for just these.
#[inline(always)]
pub fn append<T: OfBytes>(items: &mut Vec<T>, bytes: &[u8], most: usize) -> Result<Option<usize>>
    ensures within { IfOk result (λ front. IfSome front
        (λ n. (0 < n) × (n ≤ length bytes.now))) }
    ensures reads { IfOk result (λ front. IfSome front (λ n. Appends T.form.reads T.form.value most
        (take n bytes.now) items.old.items items.new.items)) }
    ensures unchanged_if_none { IfOk result
        (λ front. IfNone front (items.new.items ≡ items.old.items)) }
    ensures only_out_of_memory { IfErr result (λ e. e ≡ Error.OutOfMemory) }
{
    let size = T::size();
    if size == 0 || bytes.len() < size || most == 0 {
        return Ok(None);
    }
    let count = most.min(bytes.len() / size);
    if items.reserve(count).is_err() {
        return Err(Error::OutOfMemory);
    }
    let mut rest = bytes;
    for _ in 0..count {
        items.push_reserved(T::from_front(rest));
        rest = &rest[size..];
    }
    Ok(Some(bytes.len() - rest.len()))
}
