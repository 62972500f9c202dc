//! The shapes of ranges, that of the tuple of their ends, and of one end. Whether a range is
//! exhausted is not written.

ghost use Rattle.postcard_shape.specs.{Next, This, range_inclusive_end, range_inclusive_start};
ghost use Rattle.std.specs.declared.ops.Bound.TheVariants as End;

use crate::cases::{Case, NoCase};
use crate::shape::{Repr, Shaped};
use std::ops::{Bound, Range, RangeFrom, RangeInclusive, RangeTo};

impl<T: Shaped> Repr for Range<T> {
    type As = (T, T);

    ghost repr = { λ v. (v.start, v.end) };
}

impl<T: Shaped> Repr for RangeInclusive<T> {
    type As = (T, T);

    ghost repr = { λ v. (range_inclusive_start v, range_inclusive_end v) };
}

impl<T: Shaped> Repr for RangeFrom<T> {
    type As = (T,);

    ghost repr = { λ v. record { 0 = v.start } };
}

impl<T: Shaped> Repr for RangeTo<T> {
    type As = (T,);

    ghost repr = { λ v. record { 0 = v.end } };
}

/// The variants are in the order of serde.
impl<T: Shaped> Repr for Bound<T> {
    type As = Case<(), Case<T, Case<T, NoCase>>>;

    ghost repr = { elim [
      | End.Unbounded ↦ This tt
      | End.Included v ↦ Next (This v)
      | End.Excluded v ↦ Next (Next (This v))
    ] };
}
