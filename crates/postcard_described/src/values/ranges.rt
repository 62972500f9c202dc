//! The schemas of ranges: a struct of their ends, named as serde names them.

ghost use Rattle.postcard_described.specs.{alike, case_same, case_then, end_same, group_same};
ghost use Rattle.postcard_described.specs.{no_cases, no_parts, of_cases, of_parts, part_then};
ghost use Rattle.postcard_described.specs.{then_same, variants_same};

use crate::cases::enum_schema;
use crate::rows::parts_schema;
use crate::schema::HasSchema;
use postcard_schema::Schema;
use postcard_shape::{Case, NoCase, Part};
use postcard_wire::Result;
use std::alloc::Global;
use std::ops::{Bound, Range, RangeFrom, RangeInclusive, RangeTo};

impl<T: HasSchema> HasSchema for Range<T> {
    ghost described = { of_parts (part_then T.described (part_then T.described no_parts)) };

    fn schema_with(alloc: Global, _names: &[&str]) -> Result<Schema> {
        parts_schema::<Part<T, Part<T, ()>>>(alloc, &["start", "end"])
    }

    ghost same = { group_same (then_same T.same (then_same T.same end_same)) };
}

impl<T: HasSchema> HasSchema for RangeInclusive<T> {
    ghost described = { of_parts (part_then T.described (part_then T.described no_parts)) };

    fn schema_with(alloc: Global, _names: &[&str]) -> Result<Schema> {
        <Range<T>>::schema(alloc)
    }

    ghost same = { group_same (then_same T.same (then_same T.same end_same)) };
}

impl<T: HasSchema> HasSchema for RangeFrom<T> {
    ghost described = { of_parts (part_then T.described no_parts) };

    fn schema_with(alloc: Global, _names: &[&str]) -> Result<Schema> {
        parts_schema::<Part<T, ()>>(alloc, &["start"])
    }

    ghost same = { group_same (then_same T.same end_same) };
}

impl<T: HasSchema> HasSchema for RangeTo<T> {
    ghost described = { of_parts (part_then T.described no_parts) };

    fn schema_with(alloc: Global, _names: &[&str]) -> Result<Schema> {
        parts_schema::<Part<T, ()>>(alloc, &["end"])
    }

    ghost same = { group_same (then_same T.same end_same) };
}

/// The variants are in the order of serde.
impl<T: HasSchema> HasSchema for Bound<T> {
    ghost described = { of_cases (case_then (of_parts no_parts)
        (case_then T.described (case_then T.described no_cases))) };

    fn schema_with(alloc: Global, _names: &[&str]) -> Result<Schema> {
        enum_schema::<Case<(), Case<T, Case<T, NoCase>>>>(
            alloc,
            &[("Unbounded", &[]), ("Included", &[]), ("Excluded", &[])],
        )
    }

    ghost same = { variants_same (case_same (group_same end_same)
        (case_same T.same (case_same T.same (λ i. alike)))) };
}
