//! The greatest size of an enum: that of its greatest variant, the index and the content.

ghost use Rattle.std.specs.Prelude.{◌≡◌, ℕ, Option};
ghost use Rattle.postcard_max.specs.{IsCasesLimit, case_lawful, case_limit, len_of, no_case_lawful};
ghost use Rattle.postcard_max.specs.{no_case_limit, sum_of, variants_lawful, variants_limit};
ghost use Rattle.postcard_max.specs.SizeLimit.{SizeLimit};

use crate::max_size::{MaxSize, SizeBound};
use crate::sizes::{greater, sum, varint_len};
use postcard_shape::{Case, Cased, NoCase};

/// Variants in a row whose contents each have a greatest size: `NoCase`, or a `Case` of a type with
/// [`MaxSize`], followed by others. They may be the last variants of an enum. So their sizes depend
/// on the index of the first of them, which is `None` if it does not fit `usize`.
pub trait MaxCases: Cased {
    /// The greatest size of a variant with its index, and its conditions, as in [`MaxSize`].
    ghost limit: { Option ℕ → SizeLimit };

    /// Returns the greatest size of a variant with its index, or `None` if it does not fit `usize`.
    /// The first variant has the index `index`.
    fn cases_size(index: Option<usize>) -> Option<usize>
        ensures { result ≡ (limit index).greatest };

    ghost lawful: { (i : Option ℕ) → IsCasesLimit limit Self.cases.reads Self.cases.refusal i };
}

impl MaxCases for NoCase {
    ghost limit = { no_case_limit };

    fn cases_size(index: Option<usize>) -> Option<usize> {
        match index {
            Some(_) => Some(0),
            None => None,
        }
    }

    ghost lawful = { no_case_lawful };
}

impl<A: MaxSize, R: MaxCases> MaxCases for Case<A, R> {
    ghost limit = { case_limit A.limit R.limit };

    fn cases_size(index: Option<usize>) -> Option<usize> {
        greater(case_size::<A>(index), R::cases_size(sum(index, Some(1))))
    }

    ghost lawful = { case_lawful A.lawful R.lawful };
}

/// Returns the size of one variant with its index, or `None` if it does not fit `usize`.
fn case_size<A: MaxSize>(index: Option<usize>) -> Option<usize>
    ensures { result ≡ sum_of (len_of index) A.limit.greatest }
{
    sum(index_len(index), A::postcard_max_size())
}

/// Returns the number of bytes of an index, or `None` if there is no index.
fn index_len(index: Option<usize>) -> Option<usize>
    ensures { result ≡ len_of index }
{
    match index {
        Some(index) => Some(varint_len(index)),
        None => None,
    }
}

impl<A: MaxSize, R: MaxCases> SizeBound for Case<A, R> {
    ghost limit = { variants_limit A.limit R.limit };

    fn size_bound() -> Option<usize> {
        <Case<A, R> as MaxCases>::cases_size(Some(0))
    }

    ghost lawful = { variants_lawful A.lawful R.lawful };
}
