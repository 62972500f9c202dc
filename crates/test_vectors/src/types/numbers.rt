//! Numbers with and without a sign.

use super::nonzero;
use crate::checks::{Outcome, sized};
use crate::row::Row;
use std::alloc::Global;
use std::num::Wrapping;

/// Checks a row of a type of this group or of those after it.
pub fn check(alloc: Global, row: &Row<'_>) -> Outcome {
    match row.name {
        "u8" => sized::<u8>(alloc, row),
        "u16" => sized::<u16>(alloc, row),
        "u32" => sized::<u32>(alloc, row),
        "u64" => sized::<u64>(alloc, row),
        "u128" => sized::<u128>(alloc, row),
        "usize" => sized::<usize>(alloc, row),
        "Wrapping<u32>" => sized::<Wrapping<u32>>(alloc, row),
        _ => signed(alloc, row),
    }
}

fn signed(alloc: Global, row: &Row<'_>) -> Outcome {
    match row.name {
        "i8" => sized::<i8>(alloc, row),
        "i16" => sized::<i16>(alloc, row),
        "i32" => sized::<i32>(alloc, row),
        "i64" => sized::<i64>(alloc, row),
        "i128" => sized::<i128>(alloc, row),
        "isize" => sized::<isize>(alloc, row),
        _ => nonzero::check(alloc, row),
    }
}
