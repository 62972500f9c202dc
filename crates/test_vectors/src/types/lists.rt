//! Lists, arrays, maps and sets.

use super::pointers;
use crate::checks::{Outcome, owned, owned_with, sized, sized_with};
use crate::row::Row;
use arrayvec::ArrayVec;
use std::alloc::Global;
use std::collections::{BTreeMap, BTreeSet, VecDeque};

/// Checks a row of a type of this group that needs a scratch, or of those after it.
pub fn with_scratch<'a>(alloc: Global, row: &'a Row<'_>, scratch: &'a mut [u8]) -> Outcome {
    match row.name {
        "Vec<u8>" => owned_with::<Vec<u8>>(alloc, row, scratch),
        "BTreeSet<String>" => owned_with::<BTreeSet<String>>(alloc, row, scratch),
        "VecDeque<u8>" => owned_with::<VecDeque<u8>>(alloc, row, scratch),
        _ => arrays(alloc, row, scratch),
    }
}

fn arrays<'a>(alloc: Global, row: &'a Row<'_>, scratch: &'a mut [u8]) -> Outcome {
    match row.name {
        "[u8; 32]" => sized_with::<[u8; 32]>(alloc, row, scratch),
        "ArrayVec<u8, 1>" => sized_with::<ArrayVec<u8, 1>>(alloc, row, scratch),
        "ArrayVec<u8, 2>" => sized_with::<ArrayVec<u8, 2>>(alloc, row, scratch),
        "ArrayVec<u8, 4>" => sized_with::<ArrayVec<u8, 4>>(alloc, row, scratch),
        "ArrayVec<u8, 127>" => sized_with::<ArrayVec<u8, 127>>(alloc, row, scratch),
        "ArrayVec<u8, 128>" => sized_with::<ArrayVec<u8, 128>>(alloc, row, scratch),
        "ArrayVec<u8, 129>" => sized_with::<ArrayVec<u8, 129>>(alloc, row, scratch),
        "ArrayVec<u16, 200>" => sized_with::<ArrayVec<u16, 200>>(alloc, row, scratch),
        _ => pointers::with_scratch(alloc, row, scratch),
    }
}

/// Checks a row of another type of this group or of those after it.
pub fn check(alloc: Global, row: &Row<'_>) -> Outcome {
    match row.name {
        "Vec<u16>" => owned::<Vec<u16>>(alloc, row),
        "Vec<u32>" => owned::<Vec<u32>>(alloc, row),
        "Vec<u64>" => owned::<Vec<u64>>(alloc, row),
        "Vec<u128>" => owned::<Vec<u128>>(alloc, row),
        "Vec<()>" => owned::<Vec<()>>(alloc, row),
        "Vec<(u8, u64)>" => owned::<Vec<(u8, u64)>>(alloc, row),
        _ => maps(alloc, row),
    }
}

fn maps(alloc: Global, row: &Row<'_>) -> Outcome {
    match row.name {
        "[u128; 3]" => sized::<[u128; 3]>(alloc, row),
        "BTreeMap<u8, u8>" => owned::<BTreeMap<u8, u8>>(alloc, row),
        "BTreeMap<u8, u64>" => owned::<BTreeMap<u8, u64>>(alloc, row),
        "BTreeSet<u8>" => owned::<BTreeSet<u8>>(alloc, row),
        "VecDeque<u16>" => owned::<VecDeque<u16>>(alloc, row),
        _ => pointers::check(alloc, row),
    }
}
