//! The traits by which a type says its greatest size: directly, or as that of another type.

ghost use Rattle.std.specs.Prelude.{◌≡◌};
ghost use Rattle.postcard_max.specs.{IsLimit, via_lawful};
ghost use Rattle.postcard_max.specs.SizeLimit.{SizeLimit};

use postcard_shape::{Repr, Shaped};

/// A type whose encodings have a greatest size.
///
/// Your own struct or enum implements [`MaxSizeRepr`], and gets this trait by that. Types that hold
/// any number of elements, such as `Vec<T>`, `String` and `&str`, have no greatest size.
pub trait MaxSize: Shaped {
    /// The greatest size in bytes, and two conditions. Under the first some encoding has this size,
    /// and under the second no value refuses to be written.
    ghost limit: { SizeLimit };

    /// Returns the greatest size of an encoding of this type's values, in bytes, or `None` if none
    /// is known that fits `usize`. No encoding is longer. If `reached` holds, some encoding has
    /// this size.
    fn postcard_max_size() -> Option<usize>
        ensures { result ≡ limit.greatest };

    /// Does nothing. Its contract tells the prover that this value fits and that the type reads its
    /// tree.
    fn in_forms(&self)
        ensures fits { Self.shape.fits self.now }
        ensures in_forms { Self.shape.reads (Self.shape.tree self.now) };

    /// `limit` holds of the trees that the type reads, and of its values.
    ghost lawful: { IsLimit limit Self.shape.reads Self.shape.refusal };
}

/// A type with a greatest size that a [`Repr`] may name. It is a type with [`MaxSize`], parts in a
/// row (`Part`), or the variants of an enum (`Case`).
///
/// It is [`MaxSize`] without `in_forms`, which a `Case` can't have. Only for a concrete enum is it
/// known that a variant's index fits 32 bits.
pub trait SizeBound: Shaped {
    ghost limit: { SizeLimit };

    /// Returns the greatest size in bytes, or `None` if none is known that fits `usize`.
    fn size_bound() -> Option<usize>
        ensures { result ≡ limit.greatest };

    ghost lawful: { IsLimit limit Self.shape.reads Self.shape.refusal };
}

impl<T: MaxSize> SizeBound for T {
    ghost limit = { T.limit };

    fn size_bound() -> Option<usize> {
        T::postcard_max_size()
    }

    ghost lawful = { T.lawful };
}

/// A type that has the greatest size of its [`Repr`]. A struct has that of the tuple of its fields,
/// and an enum that of its greatest variant.
pub trait MaxSizeRepr: Repr {
    /// Does nothing. An impl calls `in_forms` on each field, as by
    /// `(&self.name, self.count).in_forms()`, and in an enum on each field of the value's variant.
    /// Its contract tells the prover that the value fits.
    fn in_forms_repr(&self)
        ensures { Self.As.shape.fits (Self.repr self.now) };
}

impl<T: MaxSizeRepr> MaxSize for T
where
    T::As: SizeBound,
{
    ghost limit = { T.As.limit };

    fn postcard_max_size() -> Option<usize> {
        T::As::size_bound()
    }

    fn in_forms(&self) {
        self.in_forms_repr();
    }

    ghost lawful = { via_lawful T.repr T.As.lawful };
}
