//! Strings and lists in a box, an `Rc`, an `Arc` or a `Cow`. Linked lists, heaps, hash sets and
//! maps, paths, C strings and points of time.

use super::users;
use crate::checks::{Outcome, borrowed, owned_with, sized_with};
use crate::row::Row;
use std::alloc::Global;
use std::borrow::{Cow, CowSlice, CowStr};
use std::boxed::{BoxedSlice, BoxedStr};
use std::collections::{BinaryHeap, HashMap, HashSet, LinkedList};
use std::ffi::CString;
use std::path::{Path, PathBuf};
use std::rc::{RcSlice, RcStr};
use std::sync::{ArcSlice, ArcStr};
use std::time::SystemTime;

/// Checks a row of a type of this group or of those after it.
pub fn with_scratch<'a>(alloc: Global, row: &'a Row<'_>, scratch: &'a mut [u8]) -> Outcome {
    match row.name {
        "Box<str>" => owned_with::<BoxedStr>(alloc, row, scratch),
        "Rc<str>" => owned_with::<RcStr>(alloc, row, scratch),
        "Arc<str>" => owned_with::<ArcStr>(alloc, row, scratch),
        "Cow<str>" => owned_with::<CowStr<'a>>(alloc, row, scratch),
        "&Path" => borrowed::<Path<'a>>(alloc, row, scratch),
        "PathBuf" => owned_with::<PathBuf>(alloc, row, scratch),
        "CString" => owned_with::<CString>(alloc, row, scratch),
        "SystemTime" => owned_with::<SystemTime>(alloc, row, scratch),
        _ => lists(alloc, row, scratch),
    }
}

fn lists<'a>(alloc: Global, row: &'a Row<'_>, scratch: &'a mut [u8]) -> Outcome {
    match row.name {
        "Box<[u16]>" => owned_with::<BoxedSlice<u16>>(alloc, row, scratch),
        "Rc<[u16]>" => owned_with::<RcSlice<u16>>(alloc, row, scratch),
        "Arc<[u16]>" => owned_with::<ArcSlice<u16>>(alloc, row, scratch),
        "Cow<[u8]>" => owned_with::<CowSlice<'a, u8>>(alloc, row, scratch),
        "Cow<u16>" => sized_with::<Cow<'a, u16>>(alloc, row, scratch),
        "LinkedList<u16>" => owned_with::<LinkedList<u16>>(alloc, row, scratch),
        "HashSet<u8>" => owned_with::<HashSet<u8>>(alloc, row, scratch),
        "HashMap<u8, u16>" => owned_with::<HashMap<u8, u16>>(alloc, row, scratch),
        "BinaryHeap<u8>" => owned_with::<BinaryHeap<u8>>(alloc, row, scratch),
        _ => users::with_scratch(alloc, row, scratch),
    }
}
