//! The traits by which a type says its shape: directly, or as that of another type.

ghost use Rattle.std.specs.Prelude.{◌≡◌, ◌<◌, ◌≤◌, length, take, IfErr, IfOk, IfSome};
ghost use Rattle.postcard_shape.specs.{Appends, AreFirst, IfNone, via};
ghost use Rattle.postcard_shape.specs.Shape.{Shape};

use crate::first::FirstBytes;
use postcard_wire::{Error, Result};

/// A type that says what its values are on the wire, once for both directions.
///
/// [`Repr`] is the short way for structs and enums. A type says its shape itself if it refuses
/// values, or if it is made of no other type.
pub trait Shaped {
    /// The tree of each value, the trees that are read, their values, and the laws that tie them.
    ghost shape: { Shape Self };

    /// Returns the encodings of some first `items`, one after the other, for a type whose values
    /// are written quicker many at a time. These are all items if they are just these bytes in
    /// memory, as those of a slice of `u8`. Else they are a block or a row: four or sixteen `f32`,
    /// or sixteen `u32` below 128. By default returns `OneByOne`.
    fn first_bytes(items: &[Self]) -> FirstBytes<'_>
    where
        Self: Sized,
        ensures gives { AreFirst shape items.now result }
    {
        let _ = items;
        FirstBytes::OneByOne
    }

    /// Appends to `items` the next elements of a list, at most `most` of them, which a front of
    /// `bytes` spells, and returns how many bytes that front has. So a list of bytes is one copy,
    /// and numbers are read many at a time. With `None`, the default, nothing is appended, and
    /// elements are to be read one by one.
    fn append_at_hand(items: &mut Vec<Self>, bytes: &[u8], most: usize) -> Result<Option<usize>>
    where
        Self: Sized,
        ensures within { IfOk result (λ front. IfSome front
            (λ n. (0 < n) × (n ≤ length bytes.now))) }
        ensures reads { IfOk result (λ front. IfSome front (λ n. Appends shape.reads shape.value most
            (take n bytes.now) items.old.items items.new.items)) }
        ensures unchanged_if_none { IfOk result
            (λ front. IfNone front (items.new.items ≡ items.old.items)) }
        ensures only_out_of_memory { IfErr result (λ e. e ≡ Error.OutOfMemory) }
    {
        let _ = items;
        let _ = bytes;
        let _ = most;
        Ok(None)
    }
}

/// A type whose values are written and read as those of another: a struct as the tuple of its
/// fields, an enum as its variants in a row (`Case`).
pub trait Repr {
    /// The type that the values are written and read as.
    type As: Shaped;

    /// The value of that type for each value of this one.
    ghost repr: { Self → Self.As };
}

impl<T: Repr> Shaped for T {
    ghost shape = { via T.repr T.As.shape };
}
