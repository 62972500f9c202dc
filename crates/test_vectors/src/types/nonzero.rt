//! Numbers other than zero.

use super::scalars;
use crate::checks::{Outcome, sized};
use crate::row::Row;
use std::alloc::Global;
use std::num::{
    NonZeroI8, NonZeroI16, NonZeroI32, NonZeroI64, NonZeroI128, NonZeroIsize, NonZeroU8,
    NonZeroU16, NonZeroU32, NonZeroU64, NonZeroU128, NonZeroUsize,
};

/// Checks a row of a type of this group or of those after it.
pub fn check(alloc: Global, row: &Row<'_>) -> Outcome {
    match row.name {
        "NonZeroU8" => sized::<NonZeroU8>(alloc, row),
        "NonZeroU16" => sized::<NonZeroU16>(alloc, row),
        "NonZeroU32" => sized::<NonZeroU32>(alloc, row),
        "NonZeroU64" => sized::<NonZeroU64>(alloc, row),
        "NonZeroU128" => sized::<NonZeroU128>(alloc, row),
        "NonZeroUsize" => sized::<NonZeroUsize>(alloc, row),
        _ => signed(alloc, row),
    }
}

fn signed(alloc: Global, row: &Row<'_>) -> Outcome {
    match row.name {
        "NonZeroI8" => sized::<NonZeroI8>(alloc, row),
        "NonZeroI16" => sized::<NonZeroI16>(alloc, row),
        "NonZeroI32" => sized::<NonZeroI32>(alloc, row),
        "NonZeroI64" => sized::<NonZeroI64>(alloc, row),
        "NonZeroI128" => sized::<NonZeroI128>(alloc, row),
        "NonZeroIsize" => sized::<NonZeroIsize>(alloc, row),
        _ => scalars::check(alloc, row),
    }
}
