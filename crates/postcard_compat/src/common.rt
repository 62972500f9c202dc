//! A type that serves two versions of a type: [`both`].

ghost use Rattle.std.specs.Prelude.{IfOk, IfSome};
ghost use Rattle.postcard_compat.specs.{Serves, type_of};

use crate::numbers::leaf_serves;
use crate::row::Row;
use crate::serves;
use postcard_schema::{Leaf, Named, Schema};
use std::alloc::{AllocError, Global};

/// Returns a type that serves both types, or `None` if none is found. `None` promises nothing.
///
/// Its names are those of the new type. If the old type has more variants, it has those, too.
///
/// # Errors
///
/// Fails if an allocation fails.
///
/// # Examples
///
/// ```rust
/// let old = parse(rt.alloc(), "{id: u32, level: u16}").expect(&rt, "a type");
/// let new = parse(rt.alloc(), "{id: u16, level: u32}").expect(&rt, "a type");
/// let joined = both(rt.alloc(), &old, &new)?;
/// assert!(rt; joined.is_some());
/// ```
pub fn both(alloc: Global, old: &Schema, new: &Schema) -> Result<Option<Schema>, AllocError>
    ensures { IfOk result (λ found. IfSome found (λ joined.
        Serves (type_of joined) (type_of old.now) × Serves (type_of joined) (type_of new.now))) }
{
    let joined = join(alloc, new, old)?;
    if !serves(old, &joined) {
        return Ok(None);
    }
    if !serves(new, &joined) {
        return Ok(None);
    }
    Ok(Some(joined))
}

/// Returns the new type with the wider of each two integers, and the further variants of the old
/// type. Other parts that differ are those of the new type.
#[cycle(join)]
pub(crate) fn join(alloc: Global, new: &Schema, old: &Schema) -> Result<Schema, AllocError> {
    match (new, old) {
        (Schema::Leaf(new), Schema::Leaf(old)) => Ok(Schema::Leaf(wider(*new, *old))),
        (Schema::Option(new), Schema::Option(old)) => Ok(Schema::Option(boxed(alloc, new, old)?)),
        (Schema::Seq(new), Schema::Seq(old)) => Ok(Schema::Seq(boxed(alloc, new, old)?)),
        (Schema::Map(key, value), Schema::Map(old_key, old_value)) => {
            let key = boxed(alloc, key, old_key)?;
            Ok(Schema::Map(key, boxed(alloc, value, old_value)?))
        }
        (Schema::Array(new, count), Schema::Array(old, _)) => {
            Ok(Schema::Array(boxed(alloc, new, old)?, *count))
        }
        (Schema::Tuple(new), Schema::Tuple(old)) => {
            Ok(Schema::Tuple(join_parts(alloc, new, Row::Plain(old))?))
        }
        (Schema::Tuple(new), Schema::Struct(old)) => {
            Ok(Schema::Tuple(join_parts(alloc, new, Row::Named(old))?))
        }
        (Schema::Struct(new), Schema::Tuple(old)) => {
            Ok(Schema::Struct(join_named(alloc, new, Row::Plain(old))?))
        }
        (Schema::Struct(new), Schema::Struct(old)) => {
            Ok(Schema::Struct(join_named(alloc, new, Row::Named(old))?))
        }
        (Schema::Enum(new), Schema::Enum(old)) => {
            let mut joined = join_named(alloc, new, Row::Named(old))?;
            push_from(alloc, old, new.len(), &mut joined)?;
            Ok(Schema::Enum(joined))
        }
        _ => new.try_clone(alloc),
    }
}

#[cycle(join)]
fn boxed(alloc: Global, new: &Schema, old: &Schema) -> Result<Box<Schema>, AllocError> {
    let joined = join(alloc, new, old)?;
    Ok(Box::new(alloc, joined)?)
}

/// Returns each part joined with the one at its place in the old row, if there is one.
#[cycle(join)]
fn join_parts(alloc: Global, new: &Vec<Schema>, old: Row<'_>) -> Result<Vec<Schema>, AllocError> {
    let mut joined = Vec::with_capacity(alloc, new.len())?;
    for (index, part) in new.iter().enumerate() {
        let other = old.get(index).unwrap_or(part);
        joined.push(join(alloc, part, other)?)?;
    }
    Ok(joined)
}

/// Returns each field or variant joined with the part at its place in the old row, if there is one.
#[cycle(join)]
fn join_named(
    alloc: Global,
    new: &Vec<Named<Schema>>,
    old: Row<'_>,
) -> Result<Vec<Named<Schema>>, AllocError> {
    let mut joined = Vec::with_capacity(alloc, new.len())?;
    for (index, part) in new.iter().enumerate() {
        let other = old.get(index).unwrap_or(&part.content);
        let content = join(alloc, &part.content, other)?;
        joined.push(renamed(alloc, part, content)?)?;
    }
    Ok(joined)
}

/// Appends copies of the variants from an index on.
fn push_from(
    alloc: Global,
    variants: &Vec<Named<Schema>>,
    from: usize,
    joined: &mut Vec<Named<Schema>>,
) -> Result<(), AllocError> {
    for variant in variants.iter().skip(from) {
        let content = variant.content.try_clone(alloc)?;
        joined.push(renamed(alloc, variant, content)?)?;
    }
    Ok(())
}

/// Returns a type with the name of a field or a variant.
fn renamed(
    alloc: Global,
    part: &Named<Schema>,
    content: Schema,
) -> Result<Named<Schema>, AllocError> {
    let name = String::from_str(alloc, &part.name)?;
    Ok(Named { name, content })
}

/// Returns the old type if it serves the new one, and the new one otherwise.
fn wider(new: Leaf, old: Leaf) -> Leaf {
    if leaf_serves(new, old) { old } else { new }
}
