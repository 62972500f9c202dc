//! How two types differ, part by part: [`differences`].

mod names;
mod parts;
mod report;

use crate::change::{Change, Kind, Turn};
use crate::numbers::leaf_serves;
use crate::word::greatest_bits;
use names::{compare_names, compare_variant_names, report_added, variant_of};
use parts::{Content, content_of, part_of};
use postcard_schema::{Integer, Leaf, Named, Schema};
pub use report::Changes;
use report::{Stop, report, report_at, report_variant};
use std::alloc::{AllocError, Global};

/// Returns how two flattened types differ. The two rows are compared part by part.
///
/// Once two parts are of different kinds, the parts after them aren't compared, since they stand at
/// other places.
///
/// # Errors
///
/// Fails if an allocation fails.
///
/// # Examples
///
/// ```rust
/// let old = parse(rt.alloc(), "{id: u32, level: u16}").expect(&rt, "a type");
/// let new = parse(rt.alloc(), "{id: u32, level: i16}").expect(&rt, "a type");
/// let found = differences(rt.alloc(), &old, &new)?;
/// let first = format!(in rt.alloc(); "{}", found.differences[0])?;
/// assert_eq!(rt; first.as_str(), "level: u16 is read as i16");
/// ```
pub fn differences(alloc: Global, old: &Schema, new: &Schema) -> Result<Changes, AllocError> {
    let mut found = Changes {
        differences: Vec::new(alloc),
        notes: Vec::new(alloc),
    };
    let mut way = Vec::new(alloc);
    walk(alloc, old, new, &mut way, &mut found)?;
    Ok(found)
}

/// Appends the differences of two parts. Returns `true` if the parts after them stand at the same
/// places in both types. So do the functions below.
#[cycle(walk)]
fn walk<'a>(
    alloc: Global,
    old: &'a Schema,
    new: &'a Schema,
    way: &mut Vec<Stop<'a>>,
    found: &mut Changes,
) -> Result<bool, AllocError> {
    if let Schema::Struct(fields) = old {
        return walk_fields(alloc, fields, new, way, found);
    }
    let Some(part) = part_of(new, 0) else {
        let kind = Kind::of(old);
        report(alloc, way, Change::Removed { kind }, found)?;
        return Ok(false);
    };
    let new_part = part.content;
    let aligned = match old {
        Schema::Leaf(leaf) => compare_leaves(alloc, *leaf, new_part, way, found)?,
        Schema::Option(content) => walk_option(alloc, content, new_part, way, found)?,
        Schema::Seq(element) => walk_list(alloc, element, new_part, way, found)?,
        Schema::Array(element, count) => {
            walk_array(alloc, element, *count, new_part, way, found)?
        }
        Schema::Enum(variants) => walk_variants(alloc, variants, new_part, way, found)?,
        _ => retyped(alloc, Kind::of(old), new_part, way, found)?,
    };
    if !aligned {
        return Ok(false);
    }
    no_more(alloc, new, 1, way, found)
}

#[cycle(walk)]
fn walk_fields<'a>(
    alloc: Global,
    fields: &'a Vec<Named<Schema>>,
    new: &'a Schema,
    way: &mut Vec<Stop<'a>>,
    found: &mut Changes,
) -> Result<bool, AllocError> {
    compare_names(alloc, fields, new, way, found)?;
    for (index, field) in fields.iter().enumerate() {
        way.push(Stop {
            name: &field.name,
            turn: Turn::Part(index),
        })?;
        let aligned = match part_of(new, index) {
            Some(part) => walk(alloc, &field.content, part.content, way, found)?,
            None => {
                let kind = Kind::of(&field.content);
                report(alloc, way, Change::Removed { kind }, found)?;
                false
            }
        };
        way.pop();
        if !aligned {
            return Ok(false);
        }
    }
    no_more(alloc, new, fields.len(), way, found)
}

/// Does what [`walk`] does, for parts to which one more step leads.
#[cycle(walk)]
fn walk_inside<'a>(
    alloc: Global,
    stop: Stop<'a>,
    old: &'a Schema,
    new: &'a Schema,
    way: &mut Vec<Stop<'a>>,
    found: &mut Changes,
) -> Result<bool, AllocError> {
    way.push(stop)?;
    let aligned = walk(alloc, old, new, way, found)?;
    way.pop();
    Ok(aligned)
}

#[cycle(walk)]
fn walk_option<'a>(
    alloc: Global,
    content: &'a Schema,
    new: &'a Schema,
    way: &mut Vec<Stop<'a>>,
    found: &mut Changes,
) -> Result<bool, AllocError> {
    let stop = Stop {
        name: "",
        turn: Turn::Content,
    };
    match new {
        Schema::Option(inner) => walk_inside(alloc, stop, content, inner, way, found),
        Schema::Enum(variants) => {
            if !compare_absent(alloc, variants, way, found)? {
                return Ok(false);
            }
            if let Some(second) = variants.get(1) {
                return walk_inside(alloc, stop, content, &second.content, way, found);
            }
            let variant = variant_of(alloc, "Some", 1)?;
            report_variant(alloc, way, 1, Change::VariantRemoved { variant }, found)?;
            Ok(true)
        }
        _ => retyped(alloc, Kind::Option, new, way, found),
    }
}

#[cycle(walk)]
fn walk_list<'a>(
    alloc: Global,
    element: &'a Schema,
    new: &'a Schema,
    way: &mut Vec<Stop<'a>>,
    found: &mut Changes,
) -> Result<bool, AllocError> {
    let Schema::Seq(inner) = new else {
        return retyped(alloc, Kind::List, new, way, found);
    };
    walk_inside(alloc, element_stop(), element, inner, way, found)
}

#[cycle(walk)]
fn walk_array<'a>(
    alloc: Global,
    element: &'a Schema,
    count: usize,
    new: &'a Schema,
    way: &mut Vec<Stop<'a>>,
    found: &mut Changes,
) -> Result<bool, AllocError> {
    let Schema::Array(inner, new_count) = new else {
        return retyped(alloc, Kind::Array, new, way, found);
    };
    if !walk_inside(alloc, element_stop(), element, inner, way, found)? {
        return Ok(false);
    }
    if count == *new_count {
        return Ok(true);
    }
    let (old, new) = (count, *new_count);
    report(alloc, way, Change::Resized { old, new }, found)?;
    Ok(false)
}

#[cycle(walk)]
fn walk_variants<'a>(
    alloc: Global,
    variants: &'a Vec<Named<Schema>>,
    new: &'a Schema,
    way: &mut Vec<Stop<'a>>,
    found: &mut Changes,
) -> Result<bool, AllocError> {
    if !compare_kinds(alloc, variants, new, way, found)? {
        return Ok(false);
    }
    let mut aligned = true;
    for (index, variant) in variants.iter().enumerate() {
        let stop = Stop {
            name: &variant.name,
            turn: Turn::Variant(index),
        };
        let same = match content_of(new, index) {
            Content::Of(content) => {
                walk_inside(alloc, stop, &variant.content, content, way, found)?
            }
            Content::Empty => no_more_of_old(alloc, stop, &variant.content, way, found)?,
            Content::Unknown => {
                let variant = variant_of(alloc, &variant.name, index)?;
                report_variant(alloc, way, index, Change::VariantRemoved { variant }, found)?;
                true
            }
        };
        aligned = aligned && same;
    }
    report_added(alloc, variants.len(), new, way, found)?;
    Ok(aligned)
}

fn element_stop<'a>() -> Stop<'a> {
    Stop {
        name: "[]",
        turn: Turn::Element,
    }
}

/// Reports the first part of the new row that the old one doesn't have, if there is one.
fn no_more(
    alloc: Global,
    new: &Schema,
    parts: usize,
    way: &Vec<Stop<'_>>,
    found: &mut Changes,
) -> Result<bool, AllocError> {
    let Some(part) = part_of(new, parts) else {
        return Ok(true);
    };
    let kind = Kind::of(part.content);
    report_at(alloc, way, part.name, Change::Added { kind }, found)?;
    Ok(false)
}

/// Reports the first part of a variant's content, if there is one, since the new type has none.
fn no_more_of_old<'a>(
    alloc: Global,
    stop: Stop<'a>,
    old: &'a Schema,
    way: &mut Vec<Stop<'a>>,
    found: &mut Changes,
) -> Result<bool, AllocError> {
    let Some(part) = part_of(old, 0) else {
        return Ok(true);
    };
    let kind = Kind::of(part.content);
    way.push(stop)?;
    report_at(alloc, way, part.name, Change::Removed { kind }, found)?;
    way.pop();
    Ok(false)
}

fn retyped(
    alloc: Global,
    old: Kind,
    new: &Schema,
    way: &Vec<Stop<'_>>,
    found: &mut Changes,
) -> Result<bool, AllocError> {
    let new = Kind::of(new);
    report(alloc, way, Change::Retyped { old, new }, found)?;
    Ok(false)
}

/// Reports that an option is read as an enum, and the first part of its first variant, if there is
/// one.
fn compare_absent(
    alloc: Global,
    variants: &Vec<Named<Schema>>,
    way: &Vec<Stop<'_>>,
    found: &mut Changes,
) -> Result<bool, AllocError> {
    let (old, new) = (Kind::Option, Kind::Enum);
    report(alloc, way, Change::Widened { old, new }, found)?;
    match variants.get(0) {
        Some(first) => no_more(alloc, &first.content, 0, way, found),
        None => Ok(true),
    }
}

/// Reports how the variants are named in the new type. Returns `false` if it has none.
fn compare_kinds<'a>(
    alloc: Global,
    variants: &'a Vec<Named<Schema>>,
    new: &Schema,
    way: &mut Vec<Stop<'a>>,
    found: &mut Changes,
) -> Result<bool, AllocError> {
    match new {
        Schema::Enum(others) => compare_variant_names(alloc, variants, others, way, found)?,
        Schema::Option(_) => {
            let _ = retyped(alloc, Kind::Enum, new, way, found)?;
        }
        _ => return retyped(alloc, Kind::Enum, new, way, found),
    }
    Ok(true)
}

fn compare_leaves(
    alloc: Global,
    old: Leaf,
    new: &Schema,
    way: &Vec<Stop<'_>>,
    found: &mut Changes,
) -> Result<bool, AllocError> {
    let Schema::Leaf(new_leaf) = new else {
        return retyped(alloc, Kind::Leaf(old), new, way, found);
    };
    let new_leaf = *new_leaf;
    if old == new_leaf {
        return Ok(true);
    }
    if leaf_serves(old, new_leaf) {
        let (old, new) = (Kind::Leaf(old), Kind::Leaf(new_leaf));
        report(alloc, way, Change::Widened { old, new }, found)?;
        return Ok(true);
    }
    match (old, new_leaf) {
        (Leaf::Integer(wide), Leaf::Integer(narrow)) if leaf_serves(new_leaf, old) => {
            let greatest = greatest(narrow);
            let (old, new) = (wide, narrow);
            let change = Change::Narrowed { old, new, greatest };
            report(alloc, way, change, found)?;
            Ok(true)
        }
        _ => retyped(alloc, Kind::Leaf(old), new, way, found),
    }
}

/// Returns the greatest number of the type.
fn greatest(integer: Integer) -> u128 {
    let bits = greatest_bits(integer);
    if integer.is_signed() { bits / 2 } else { bits }
}
