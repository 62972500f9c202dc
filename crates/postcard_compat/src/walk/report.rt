//! The list of changes, under their paths: [`Changes`].

use crate::change::{Change, Difference, Turn};
use std::alloc::{AllocError, Global};

/// How two types differ.
#[derive(Drop)]
pub struct Changes {
    /// The parts that the new type may not read as the same, in the order of a message.
    pub differences: Vec<Difference>,
    /// The other changes.
    pub notes: Vec<Difference>,
}

/// A step on the way to a part, and its name. An element has the name `[]`. An option's value and
/// a variant that changed have the empty name.
#[derive(Clone, Copy)]
pub(crate) struct Stop<'a> {
    pub(crate) name: &'a str,
    pub(crate) turn: Turn,
}

/// Appends a change of the variant with an index.
pub(crate) fn report_variant(
    alloc: Global,
    way: &mut Vec<Stop<'_>>,
    index: usize,
    what: Change,
    found: &mut Changes,
) -> Result<(), AllocError> {
    way.push(Stop {
        name: "",
        turn: Turn::Variant(index),
    })?;
    report(alloc, way, what, found)?;
    way.pop();
    Ok(())
}

/// Appends a change of the part to which the way leads.
pub(crate) fn report(
    alloc: Global,
    way: &Vec<Stop<'_>>,
    what: Change,
    found: &mut Changes,
) -> Result<(), AllocError> {
    report_at(alloc, way, "", what, found)
}

/// Appends a change of the part with a name after the way.
pub(crate) fn report_at(
    alloc: Global,
    way: &Vec<Stop<'_>>,
    name: &str,
    what: Change,
    found: &mut Changes,
) -> Result<(), AllocError> {
    let path = path_of(alloc, way, name)?;
    let mut steps = Vec::with_capacity(alloc, way.len())?;
    for stop in way {
        steps.push(stop.turn)?;
    }
    let is_note = what.is_note();
    let difference = Difference { path, what, steps };
    if is_note {
        found.notes.push(difference)?;
    } else {
        found.differences.push(difference)?;
    }
    Ok(())
}

/// Returns the path of the part with a name after the way.
pub(crate) fn path_of(
    alloc: Global,
    way: &Vec<Stop<'_>>,
    name: &str,
) -> Result<String, AllocError> {
    let mut path = String::new(alloc);
    for stop in way {
        push_name(&mut path, stop.name)?;
    }
    push_name(&mut path, name)?;
    Ok(path)
}

/// Appends a name to a path, after a `.`. The first name and a number in brackets have no `.`.
fn push_name(path: &mut String, name: &str) -> Result<(), AllocError> {
    if !path.is_empty() && !name.is_empty() && !name.starts_with('[') {
        path.push('.')?;
    }
    path.push_str(name)?;
    Ok(())
}
