//! Floating-point numbers, alone and in other values.

use super::net;
use crate::checks::{Outcome, owned_with, sized_with};
use crate::row::Row;
use std::alloc::Global;
use std::collections::BTreeMap;

/// Checks a row of a type of this group or of those after it.
pub fn with_scratch<'a>(alloc: Global, row: &'a Row<'_>, scratch: &'a mut [u8]) -> Outcome {
    match row.name {
        "f32" => sized_with::<f32>(alloc, row, scratch),
        "f64" => sized_with::<f64>(alloc, row, scratch),
        "Option<f32>" => sized_with::<Option<f32>>(alloc, row, scratch),
        "[f32; 3]" => sized_with::<[f32; 3]>(alloc, row, scratch),
        "(u8, f64, f32)" => sized_with::<(u8, f64, f32)>(alloc, row, scratch),
        "Vec<f32>" => owned_with::<Vec<f32>>(alloc, row, scratch),
        "BTreeMap<u8, f64>" => owned_with::<BTreeMap<u8, f64>>(alloc, row, scratch),
        _ => net::with_scratch(alloc, row, scratch),
    }
}
