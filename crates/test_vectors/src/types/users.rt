//! Structs and enums of a user.

use super::numbers;
use crate::checks::{Outcome, borrowed, owned_with};
use crate::row::Row;
use std::alloc::Global;
use test_support::types::{
    BasicEnum, BasicU8S, DataEnum, DualTupleStruct, Endpoint, EnumStruct, NewTypeStruct, RefStruct,
    TupleStruct, WideU8S,
};

/// Checks a row of a type of this group or of those after it.
pub fn with_scratch<'a>(alloc: Global, row: &'a Row<'_>, scratch: &'a mut [u8]) -> Outcome {
    match row.name {
        "BasicEnum" => owned_with::<BasicEnum>(alloc, row, scratch),
        "DataEnum" => owned_with::<DataEnum>(alloc, row, scratch),
        "EnumStruct" => owned_with::<EnumStruct>(alloc, row, scratch),
        "NewTypeStruct" => owned_with::<NewTypeStruct>(alloc, row, scratch),
        "TupleStruct" => owned_with::<TupleStruct>(alloc, row, scratch),
        "DualTupleStruct" => owned_with::<DualTupleStruct>(alloc, row, scratch),
        "BasicU8S" => owned_with::<BasicU8S>(alloc, row, scratch),
        "WideU8S" => owned_with::<WideU8S>(alloc, row, scratch),
        "Endpoint" => owned_with::<Endpoint>(alloc, row, scratch),
        "RefStruct" => borrowed::<RefStruct<'a>>(alloc, row, scratch),
        _ => numbers::check(alloc, row),
    }
}
