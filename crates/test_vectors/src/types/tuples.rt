//! Tuples and ranges.

use super::floats;
use crate::checks::{Outcome, borrowed, owned, sized};
use crate::row::Row;
use crate::row_error::{Reason, RowError};
use postcard::Error;
use std::alloc::Global;
use std::ops::{Bound, Range, RangeFrom, RangeInclusive, RangeTo};

/// Checks a row of a type of this group that needs a scratch, or of those after it.
pub fn with_scratch<'a>(alloc: Global, row: &'a Row<'_>, scratch: &'a mut [u8]) -> Outcome {
    match row.name {
        "(u8, u32, &str)" => borrowed::<(u8, u32, &'a str)>(alloc, row, scratch),
        _ => floats::with_scratch(alloc, row, scratch),
    }
}

/// Checks a row of another type of this group or of those after it.
pub fn check(alloc: Global, row: &Row<'_>) -> Outcome {
    match row.name {
        "(u16,)" => sized::<(u16,)>(alloc, row),
        "(u8, u16)" => sized::<(u8, u16)>(alloc, row),
        "(u8, u32)" => sized::<(u8, u32)>(alloc, row),
        "(Error, u8)" => owned::<(Error, u8)>(alloc, row),
        _ => longer(alloc, row),
    }
}

fn longer(alloc: Global, row: &Row<'_>) -> Outcome {
    match row.name {
        "(u16, bool)" => sized::<(u16, bool)>(alloc, row),
        "(u8, u16, bool)" => sized::<(u8, u16, bool)>(alloc, row),
        "(u8, u8, u16, bool)" => sized::<(u8, u8, u16, bool)>(alloc, row),
        "(u8, u8, u8, u16, bool)" => sized::<(u8, u8, u8, u16, bool)>(alloc, row),
        "(u8, u8, u8, u8, u16, bool)" => sized::<(u8, u8, u8, u8, u16, bool)>(alloc, row),
        _ => ranges(alloc, row),
    }
}

/// Checks a row of a range. No type has another name.
fn ranges(alloc: Global, row: &Row<'_>) -> Outcome {
    match row.name {
        "Bound<u16>" => sized::<Bound<u16>>(alloc, row),
        "Range<i16>" => sized::<Range<i16>>(alloc, row),
        "RangeFrom<u16>" => sized::<RangeFrom<u16>>(alloc, row),
        "RangeInclusive<i8>" => sized::<RangeInclusive<i8>>(alloc, row),
        "RangeInclusive<u16>" => sized::<RangeInclusive<u16>>(alloc, row),
        "RangeTo<u16>" => sized::<RangeTo<u16>>(alloc, row),
        _ => Err(RowError::NotARow(Reason::Type)),
    }
}
