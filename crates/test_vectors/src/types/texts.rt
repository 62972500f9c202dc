//! Strings, and bytes that are borrowed.

use super::lists;
use crate::checks::{Outcome, borrowed, owned_with, sized_with};
use crate::row::Row;
use arrayvec::ArrayString;
use std::alloc::Global;

/// Checks a row of a type of this group or of those after it.
pub fn with_scratch<'a>(alloc: Global, row: &'a Row<'_>, scratch: &'a mut [u8]) -> Outcome {
    match row.name {
        "&str" => borrowed::<&'a str>(alloc, row, scratch),
        "&[u8]" => borrowed::<&'a [u8]>(alloc, row, scratch),
        "String" => owned_with::<String>(alloc, row, scratch),
        "ArrayString<0>" => sized_with::<ArrayString<0>>(alloc, row, scratch),
        "ArrayString<2>" => sized_with::<ArrayString<2>>(alloc, row, scratch),
        "ArrayString<6>" => sized_with::<ArrayString<6>>(alloc, row, scratch),
        _ => lists::with_scratch(alloc, row, scratch),
    }
}
