//! The greatest sizes of arrays, and of vectors and strings of a fixed capacity. An array has the
//! size of all its elements. The others add their count as a varint.

ghost use Rattle.postcard_max.specs.{AllFit, array_lawful, array_limit, few_lawful, few_limit};
ghost use Rattle.postcard_max.specs.{short_text_lawful, short_text_limit, via_lawful};

use crate::max_size::MaxSize;
use crate::sizes::{product, sum, varint_len};
use arrayvec::{ArrayString, ArrayVec};

/// Tells the prover that each element of the slice fits its type.
fn each_in_forms<T: MaxSize>(items: &[T])
    ensures { AllFit T.shape.fits items.now }
{
    for item in items {
        item.in_forms();
    }
}

impl<T: MaxSize, const N: usize> MaxSize for [T; N] {
    ghost limit = { array_limit N T.limit };

    fn postcard_max_size() -> Option<usize> {
        product(N, T::postcard_max_size())
    }

    fn in_forms(&self) {
        each_in_forms(self);
    }

    ghost lawful = { array_lawful N T.lawful };
}

impl<T: MaxSize, const CAP: usize> MaxSize for ArrayVec<T, CAP> {
    ghost limit = { few_limit CAP T.limit };

    fn postcard_max_size() -> Option<usize> {
        sum(product(CAP, T::postcard_max_size()), Some(varint_len(CAP)))
    }

    fn in_forms(&self) {
        let _count = self.len();
        each_in_forms(self.as_slice());
    }

    ghost lawful = { via_lawful (λ v. v.items) (few_lawful CAP T.lawful) };
}

impl<const CAP: usize> MaxSize for ArrayString<CAP> {
    ghost limit = { short_text_limit CAP };

    fn postcard_max_size() -> Option<usize> {
        sum(Some(CAP), Some(varint_len(CAP)))
    }

    fn in_forms(&self) {
        let _count = self.len();
        let _text = self.as_str();
    }

    ghost lawful = { short_text_lawful CAP };
}
