//! The greatest sizes of ranges: that of the tuple of their ends. One end of a range, `Bound`, has
//! 1 byte for the index, and the end.

use crate::max_size::{MaxSize, MaxSizeRepr};
use std::ops::{Bound, Range, RangeFrom, RangeInclusive, RangeTo};

impl<T: MaxSize> MaxSizeRepr for Range<T> {
    fn in_forms_repr(&self) {
        self.start.in_forms();
        self.end.in_forms();
    }
}

impl<T: MaxSize> MaxSizeRepr for RangeInclusive<T> {
    fn in_forms_repr(&self) {
        self.start().in_forms();
        self.end().in_forms();
    }
}

impl<T: MaxSize> MaxSizeRepr for RangeFrom<T> {
    fn in_forms_repr(&self) {
        self.start.in_forms();
    }
}

impl<T: MaxSize> MaxSizeRepr for RangeTo<T> {
    fn in_forms_repr(&self) {
        self.end.in_forms();
    }
}

impl<T: MaxSize> MaxSizeRepr for Bound<T> {
    fn in_forms_repr(&self) {
        match self {
            Bound::Unbounded => {}
            Bound::Included(value) => value.in_forms(),
            Bound::Excluded(value) => value.in_forms(),
        }
    }
}
