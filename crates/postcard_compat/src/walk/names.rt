//! Names of fields and variants that stand at another place, or that are new.

use crate::change::{Change, Turn, Variant};
use crate::walk::report::{Changes, Stop, path_of, report, report_variant};
use postcard_schema::{Named, Schema};
use std::alloc::{AllocError, Global};

/// Reports the fields whose names differ from those at their places in the new row.
pub(crate) fn compare_names<'a>(
    alloc: Global,
    fields: &'a Vec<Named<Schema>>,
    new: &Schema,
    way: &mut Vec<Stop<'a>>,
    found: &mut Changes,
) -> Result<(), AllocError> {
    let Schema::Struct(others) = new else {
        return Ok(());
    };
    for (index, field) in fields.iter().enumerate() {
        let Some(other) = others.get(index) else {
            return Ok(());
        };
        let (name, new_name) = (field.name.as_str(), other.name.as_str());
        if name == new_name || is_numbered(name) || is_numbered(new_name) {
            continue;
        }
        let is_moved = has_name(others, name) || has_name(fields, new_name);
        if is_moved || last_name(name) != last_name(new_name) {
            let change = name_change(alloc, way, new_name, is_moved)?;
            let turn = Turn::Part(index);
            way.push(Stop { name, turn })?;
            report(alloc, way, change, found)?;
            way.pop();
        }
    }
    Ok(())
}

/// Returns the change of a field whose name at its place is `new` now.
fn name_change(
    alloc: Global,
    way: &Vec<Stop<'_>>,
    new: &str,
    is_moved: bool,
) -> Result<Change, AllocError> {
    if is_moved {
        let path = path_of(alloc, way, new)?;
        return Ok(Change::Moved { path });
    }
    let name = String::from_str(alloc, last_name(new))?;
    Ok(Change::Renamed { name })
}

/// Returns `true` for a path of numbers alone, as of the parts of tuples and arrays.
fn is_numbered(name: &str) -> bool {
    for byte in name.as_bytes() {
        if !byte.is_ascii_digit() && !matches!(*byte, b'.' | b'[' | b']') {
            return false;
        }
    }
    true
}

/// Returns the last name of a path. It is empty for an element of an array.
fn last_name(path: &str) -> &str {
    if path.ends_with(']') {
        return "";
    }
    match path.rsplit_once('.') {
        Some((_, name)) => name,
        None => path,
    }
}

fn has_name(named: &Vec<Named<Schema>>, name: &str) -> bool {
    for each in named {
        if each.name.as_str() == name {
            return true;
        }
    }
    false
}

/// Reports the variants whose names differ from those at their indices in the new enum.
pub(crate) fn compare_variant_names<'a>(
    alloc: Global,
    variants: &'a Vec<Named<Schema>>,
    others: &Vec<Named<Schema>>,
    way: &mut Vec<Stop<'a>>,
    found: &mut Changes,
) -> Result<(), AllocError> {
    for (index, variant) in variants.iter().enumerate() {
        let Some(other) = others.get(index) else {
            return Ok(());
        };
        let (old, new) = (variant.name.as_str(), other.name.as_str());
        if old == new {
            continue;
        }
        let variant = variant_of(alloc, old, index)?;
        let is_moved = has_name(others, old) || has_name(variants, new);
        let change = variant_change(alloc, variant, new, is_moved)?;
        report_variant(alloc, way, index, change, found)?;
    }
    Ok(())
}

/// Returns the change of a variant whose index has the name `new` now.
fn variant_change(
    alloc: Global,
    variant: Variant,
    new: &str,
    is_moved: bool,
) -> Result<Change, AllocError> {
    let name = String::from_str(alloc, new)?;
    if is_moved {
        return Ok(Change::VariantMoved { variant, name });
    }
    Ok(Change::VariantRenamed { variant, name })
}

/// Reports the variants of an enum from an index on.
pub(crate) fn report_added(
    alloc: Global,
    from: usize,
    new: &Schema,
    way: &mut Vec<Stop<'_>>,
    found: &mut Changes,
) -> Result<(), AllocError> {
    let Schema::Enum(variants) = new else {
        return Ok(());
    };
    for (index, added) in variants.iter().enumerate().skip(from) {
        let variant = variant_of(alloc, &added.name, index)?;
        report(alloc, way, Change::VariantAdded { variant }, found)?;
    }
    Ok(())
}

/// Returns a variant under its name.
pub(crate) fn variant_of(alloc: Global, name: &str, index: usize) -> Result<Variant, AllocError> {
    let name = String::from_str(alloc, name)?;
    Ok(Variant { name, index })
}
