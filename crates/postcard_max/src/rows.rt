//! The greatest size of parts in a row, which tuples are written as: the sum of the parts' sizes.

ghost use Rattle.std.specs.Prelude.{◌≡◌};
ghost use Rattle.postcard_max.specs.{IsRowLimit, end_lawful, exactly, group_lawful, then_lawful};
ghost use Rattle.postcard_max.specs.{then_limit, via_lawful};
ghost use Rattle.postcard_max.specs.SizeLimit.{SizeLimit};

use crate::max_size::{MaxSize, SizeBound};
use crate::sizes::sum;
use postcard_shape::{Part, Parts};

/// Parts in a row that each have a greatest size: `()`, or a `Part` of a type with [`MaxSize`],
/// followed by other parts.
pub trait MaxParts: Parts {
    /// The sum of the parts' greatest sizes, and its conditions, as in [`MaxSize`].
    ghost limit: { SizeLimit };

    /// Returns the sum of the parts' greatest sizes in bytes, or `None` if it does not fit `usize`.
    fn parts_size() -> Option<usize>
        ensures { result ≡ limit.greatest };

    ghost lawful: { IsRowLimit limit Self.parts.reads Self.parts.refusal };
}

impl MaxParts for () {
    ghost limit = { exactly 0 };

    fn parts_size() -> Option<usize> {
        Some(0)
    }

    ghost lawful = { end_lawful };
}

impl<A: MaxSize, R: MaxParts> MaxParts for Part<A, R> {
    ghost limit = { then_limit A.limit R.limit };

    fn parts_size() -> Option<usize> {
        sum(A::postcard_max_size(), R::parts_size())
    }

    ghost lawful = { via_lawful (λ v. (v.0, v.1)) (then_lawful A.lawful R.lawful) };
}

impl<A: MaxSize, R: MaxParts> SizeBound for Part<A, R> {
    ghost limit = { then_limit A.limit R.limit };

    fn size_bound() -> Option<usize> {
        <Part<A, R> as MaxParts>::parts_size()
    }

    ghost lawful = { group_lawful (via_lawful (λ v. (v.0, v.1)) (then_lawful A.lawful R.lawful)) };
}
