//! Pointers and wrappers, which are written as what they hold.

use super::tuples;
use crate::checks::{Outcome, sized, sized_with};
use crate::row::Row;
use std::alloc::Global;
use std::cmp::Reverse;
use std::num::Saturating;
use std::rc::Rc;
use std::sync::Arc;

/// Checks a row of a type of this group that needs a scratch, or of those after it.
pub fn with_scratch<'a>(alloc: Global, row: &'a Row<'_>, scratch: &'a mut [u8]) -> Outcome {
    match row.name {
        "Box<(u128, [u8; 8])>" => sized_with::<Box<(u128, [u8; 8])>>(alloc, row, scratch),
        "Rc<(u128, [u8; 8])>" => sized_with::<Rc<(u128, [u8; 8])>>(alloc, row, scratch),
        "Arc<(u128, [u8; 8])>" => sized_with::<Arc<(u128, [u8; 8])>>(alloc, row, scratch),
        _ => tuples::with_scratch(alloc, row, scratch),
    }
}

/// Checks a row of another type of this group or of those after it.
pub fn check(alloc: Global, row: &Row<'_>) -> Outcome {
    match row.name {
        "Box<u8>" => sized::<Box<u8>>(alloc, row),
        "Rc<u8>" => sized::<Rc<u8>>(alloc, row),
        "Arc<u8>" => sized::<Arc<u8>>(alloc, row),
        "Reverse<u16>" => sized::<Reverse<u16>>(alloc, row),
        "Saturating<u32>" => sized::<Saturating<u32>>(alloc, row),
        _ => tuples::check(alloc, row),
    }
}
