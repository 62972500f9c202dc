//! Ranges, written as the tuple of their ends, and `Bound`, one end of a range.

use crate::cases::serialize_variant;
use crate::repr::SerializeRepr;
use crate::serialize::Serialize;
use crate::serializer::Serializer;
use postcard_ser_flavors::Flavor;
use postcard_wire::Result;
use std::ops::{Bound, Range, RangeFrom, RangeInclusive, RangeTo};

impl<T: Serialize> SerializeRepr for Range<T> {
    fn serialize_repr<F: Flavor>(&self, serializer: &mut Serializer<F>) -> Result<()> {
        (&self.start, &self.end).serialize(serializer)
    }
}

/// Whether the range is exhausted isn't written.
impl<T: Serialize> SerializeRepr for RangeInclusive<T> {
    fn serialize_repr<F: Flavor>(&self, serializer: &mut Serializer<F>) -> Result<()> {
        (self.start(), self.end()).serialize(serializer)
    }
}

impl<T: Serialize> SerializeRepr for RangeFrom<T> {
    fn serialize_repr<F: Flavor>(&self, serializer: &mut Serializer<F>) -> Result<()> {
        (&self.start,).serialize(serializer)
    }
}

impl<T: Serialize> SerializeRepr for RangeTo<T> {
    fn serialize_repr<F: Flavor>(&self, serializer: &mut Serializer<F>) -> Result<()> {
        (&self.end,).serialize(serializer)
    }
}

/// Written as an enum: `Unbounded` at index 0, `Included` at 1, `Excluded` at 2.
impl<T: Serialize> SerializeRepr for Bound<T> {
    fn serialize_repr<F: Flavor>(&self, serializer: &mut Serializer<F>) -> Result<()> {
        match self {
            Bound::Unbounded => serialize_variant(0, &(), serializer),
            Bound::Included(value) => serialize_variant(1, value, serializer),
            Bound::Excluded(value) => serialize_variant(2, value, serializer),
        }
    }
}
