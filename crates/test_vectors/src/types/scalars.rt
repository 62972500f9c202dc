//! `bool`, characters, options and results, spans of time and errors.

use super::{lists, texts};
use crate::checks::{Outcome, owned, sized, sized_with};
use crate::row::Row;
use postcard::Error;
use std::alloc::Global;
use std::result::Result;
use std::time::Duration;

/// Checks a row of a type of this group that needs a scratch, or of those after it.
pub fn with_scratch<'a>(alloc: Global, row: &'a Row<'_>, scratch: &'a mut [u8]) -> Outcome {
    match row.name {
        "char" => sized_with::<char>(alloc, row, scratch),
        "Option<char>" => sized_with::<Option<char>>(alloc, row, scratch),
        _ => texts::with_scratch(alloc, row, scratch),
    }
}

/// Checks a row of another type of this group or of those after it.
pub fn check(alloc: Global, row: &Row<'_>) -> Outcome {
    match row.name {
        "()" => sized::<()>(alloc, row),
        "bool" => sized::<bool>(alloc, row),
        "Duration" => sized::<Duration>(alloc, row),
        "Error" => owned::<Error>(alloc, row),
        "Option<u8>" => sized::<Option<u8>>(alloc, row),
        _ => choice(alloc, row),
    }
}

fn choice(alloc: Global, row: &Row<'_>) -> Outcome {
    match row.name {
        "Option<Option<u8>>" => sized::<Option<Option<u8>>>(alloc, row),
        "Result<u8, u8>" => sized::<Result<u8, u8>>(alloc, row),
        "Result<u16, u8>" => sized::<Result<u16, u8>>(alloc, row),
        "Result<u8, Error>" => owned::<Result<u8, Error>>(alloc, row),
        _ => lists::check(alloc, row),
    }
}
