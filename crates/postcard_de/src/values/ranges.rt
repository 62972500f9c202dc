//! Ranges, read as the tuple of their ends, and one end of a range.

use crate::repr::FromRepr;
use postcard_shape::Shaped;
use postcard_shape::cases::Case;
use std::ops::{Bound, Range, RangeFrom, RangeInclusive, RangeTo};

impl<T: Shaped + Drop> FromRepr for Range<T> {
    fn from_repr((start, end): Self::As) -> Self {
        Range { start, end }
    }
}

/// Whether a range was iterated to its end isn't written, so a range that was read is never
/// exhausted by iteration.
impl<T: Shaped + Drop> FromRepr for RangeInclusive<T> {
    fn from_repr((start, end): Self::As) -> Self {
        RangeInclusive::new(start, end)
    }
}

impl<T: Shaped + Drop> FromRepr for RangeFrom<T> {
    fn from_repr((start,): Self::As) -> Self {
        RangeFrom { start }
    }
}

impl<T: Shaped + Drop> FromRepr for RangeTo<T> {
    fn from_repr((end,): Self::As) -> Self {
        RangeTo { end }
    }
}

impl<T: Shaped + Drop> FromRepr for Bound<T> {
    fn from_repr(repr: Self::As) -> Self {
        match repr {
            Case::This(()) => Bound::Unbounded,
            Case::Next(Case::This(value)) => Bound::Included(value),
            Case::Next(Case::Next(Case::This(value))) => Bound::Excluded(value),
            Case::Next(Case::Next(Case::Next(never))) => match never {},
        }
    }
}
