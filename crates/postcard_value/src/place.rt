//! The place in a message where reading fails: [`refused_at`].

ghost use Rattle.std.specs.Prelude.{◌≡◌, ◌≤◌, ◌++◌, ◌∷◌, [], List, Box, length};
ghost use Rattle.std.specs.Prelude.{IfOk, IfErr, OnOk};
ghost use Rattle.postcard_value.specs.{Element, Enum, Finds, FindsElement, FindsEntry, Global};
ghost use Rattle.postcard_value.specs.{HasNoFront, IsRefusedAt, Map, Option, Part, Schema, Seq};
ghost use Rattle.postcard_value.specs.{Step, Struct, Tuple};

use crate::calls::take_from_bytes;
use postcard_schema::{Field, Path, Schema, Step, Variant};
use postcard_wire::{Error, Result};
use std::alloc::Global;

/// A part of a message that can't be read. It is a value without parts, an option's first byte, the
/// count of a list or a map, or a variant's index.
#[derive(Debug, Drop)]
pub struct RefusedPart<'a> {
    /// The offset in bytes of its first byte.
    pub offset: usize,
    /// Its path. An option's first byte, a count and an index have the path of the option, the
    /// list, the map or the enum.
    pub path: Path<'a>,
}

/// Returns the part at which [`take_from_bytes`] fails.
///
/// The caller must know that `take_from_bytes` fails on these bytes, and not with `OutOfMemory`;
/// this is not checked.
///
/// # Errors
///
/// Fails with `OutOfMemory` if an allocation for the path, or for a value before that part, fails.
pub fn refused_at<'a>(alloc: Global, schema: &'a Schema, bytes: &[u8]) -> Result<RefusedPart<'a>>
    ensures at { IfOk result (λ place. HasNoFront schema.now bytes.now
        → IsRefusedAt schema.now bytes.now place.path.steps.items place.offset) }
    ensures within { IfOk result (λ place. place.offset ≤ length bytes.now) }
    ensures only_out_of_memory { IfErr result (λ e. e ≡ Error.OutOfMemory) }
{
    let mut steps = Vec::new(alloc);
    let mut part = schema;
    let mut rest = bytes;
    while let Some((inner, after)) = enter(alloc, part, rest, &mut steps)? {
        part = inner;
        rest = after;
    }
    Ok(RefusedPart {
        offset: bytes.len().saturating_sub(rest.len()),
        path: Path { steps },
    })
}

/// Returns the part in which reading a value of the schema stops, and the bytes from that part on.
/// Returns `None` if it stops at the first node of the value. Appends the steps to that part to
/// `path`. The functions `enter_..` below do the same for one kind of type.
fn enter<'a, 'b>(
    alloc: Global,
    schema: &'a Schema,
    bytes: &'b [u8],
    path: &mut Vec<Step<'a>>,
) -> Result<Option<(&'a Schema, &'b [u8])>>
    ensures found { IfOk result (Finds schema.now bytes.now path.old.items path.new.items) }
    ensures only_out_of_memory { IfErr result (λ e. e ≡ Error.OutOfMemory) }
{
    match schema {
        Schema::Leaf(_) => Ok(None),
        Schema::Option(content) => Ok(enter_option(content, bytes)),
        Schema::Seq(element) => enter_list(alloc, element, bytes, path),
        Schema::Map(key, value) => enter_map(alloc, key, value, bytes, path),
        Schema::Array(element, count) => {
            enter_elements(alloc, element, *count as u64, bytes, path)
        }
        Schema::Tuple(parts) => enter_tuple(alloc, parts, bytes, path),
        Schema::Struct(fields) => enter_struct(alloc, fields, bytes, path),
        Schema::Enum(variants) => enter_variant(alloc, variants, bytes, path),
    }
}

fn enter_option<'a, 'b>(content: &'a Schema, bytes: &'b [u8]) -> Option<(&'a Schema, &'b [u8])>
    ensures { (s : Schema) (held : Box Schema Global) (steps : List Step) → s ≡ Option held
        → held.value ≡ content.now → Finds s bytes.now steps steps result }
{
    let Some((first, rest)) = bytes.split_first() else {
        return None;
    };
    if *first != 1 {
        return None;
    }
    Some((content, rest))
}

fn enter_list<'a, 'b>(
    alloc: Global,
    element: &'a Schema,
    bytes: &'b [u8],
    path: &mut Vec<Step<'a>>,
) -> Result<Option<(&'a Schema, &'b [u8])>>
    ensures found { (s : Schema) (held : Box Schema Global) → s ≡ Seq held
        → held.value ≡ element.now
        → IfOk result (Finds s bytes.now path.old.items path.new.items) }
    ensures only_out_of_memory { IfErr result (λ e. e ≡ Error.OutOfMemory) }
{
    match postcard_de::take_from_bytes::<u64>(alloc, bytes) {
        Ok((count, rest)) => enter_elements(alloc, element, count, rest, path),
        Err(_) => Ok(None),
    }
}

/// Does what [`enter`] does, for `count` values in a row.
fn enter_elements<'a, 'b>(
    alloc: Global,
    element: &'a Schema,
    count: u64,
    bytes: &'b [u8],
    path: &mut Vec<Step<'a>>,
) -> Result<Option<(&'a Schema, &'b [u8])>>
    ensures found { IfOk result
        (FindsElement element.now count bytes.now path.old.items path.new.items) }
    ensures only_out_of_memory { IfErr result (λ e. e ≡ Error.OutOfMemory) }
{
    let mut rest = bytes;
    for i in 0..count {
        match take_from_bytes(alloc, element, rest) {
            Ok((_, after)) => rest = after,
            Err(Error::OutOfMemory) => return Err(Error::OutOfMemory),
            Err(_) => {
                path.push(Step::Element(i))?;
                return Ok(Some((element, rest)));
            }
        }
    }
    Ok(None)
}

fn enter_map<'a, 'b>(
    alloc: Global,
    key: &'a Schema,
    value: &'a Schema,
    bytes: &'b [u8],
    path: &mut Vec<Step<'a>>,
) -> Result<Option<(&'a Schema, &'b [u8])>>
    ensures found { (s : Schema) (k v : Box Schema Global) → s ≡ Map k v → k.value ≡ key.now
        → v.value ≡ value.now
        → IfOk result (Finds s bytes.now path.old.items path.new.items) }
    ensures only_out_of_memory { IfErr result (λ e. e ≡ Error.OutOfMemory) }
{
    match postcard_de::take_from_bytes::<u64>(alloc, bytes) {
        Ok((count, rest)) => enter_entries(alloc, key, value, count, rest, path),
        Err(_) => Ok(None),
    }
}

/// Does what [`enter`] does, for `count` entries of a map in a row.
fn enter_entries<'a, 'b>(
    alloc: Global,
    key: &'a Schema,
    value: &'a Schema,
    count: u64,
    bytes: &'b [u8],
    path: &mut Vec<Step<'a>>,
) -> Result<Option<(&'a Schema, &'b [u8])>>
    ensures found { IfOk result
        (FindsEntry key.now value.now count bytes.now path.old.items path.new.items) }
    ensures only_out_of_memory { IfErr result (λ e. e ≡ Error.OutOfMemory) }
{
    let mut rest = bytes;
    for i in 0..count {
        match take_from_bytes(alloc, key, rest) {
            Ok((_, middle)) => match take_from_bytes(alloc, value, middle) {
                Ok((_, after)) => rest = after,
                Err(Error::OutOfMemory) => return Err(Error::OutOfMemory),
                Err(_) => {
                    push_entry(path, i, 1)?;
                    return Ok(Some((value, middle)));
                }
            },
            Err(Error::OutOfMemory) => return Err(Error::OutOfMemory),
            Err(_) => {
                push_entry(path, i, 0)?;
                return Ok(Some((key, rest)));
            }
        }
    }
    Ok(None)
}

/// Appends the steps to a part of an entry.
fn push_entry(path: &mut Vec<Step<'_>>, entry: u64, part: usize) -> Result<()>
    ensures added { OnOk result
        (path.new.items ≡ path.old.items ++ Element entry ∷ Part part ∷ []) }
    ensures only_out_of_memory { IfErr result (λ e. e ≡ Error.OutOfMemory) }
{
    path.push(Step::Element(entry))?;
    path.push(Step::Part(part))?;
    Ok(())
}

fn enter_tuple<'a, 'b>(
    alloc: Global,
    parts: &'a Vec<Schema>,
    bytes: &'b [u8],
    path: &mut Vec<Step<'a>>,
) -> Result<Option<(&'a Schema, &'b [u8])>>
    ensures found { (s : Schema) → s ≡ Tuple parts.now
        → IfOk result (Finds s bytes.now path.old.items path.new.items) }
    ensures only_out_of_memory { IfErr result (λ e. e ≡ Error.OutOfMemory) }
{
    let mut rest = bytes;
    for (i, part) in parts.iter().enumerate() {
        match take_from_bytes(alloc, part, rest) {
            Ok((_, after)) => rest = after,
            Err(error) => match error {
                Error::OutOfMemory => return Err(error),
                _ => {
                    path.push(Step::Part(i))?;
                    return Ok(Some((part, rest)));
                }
            },
        }
    }
    Ok(None)
}

fn enter_struct<'a, 'b>(
    alloc: Global,
    fields: &'a Vec<Field>,
    bytes: &'b [u8],
    path: &mut Vec<Step<'a>>,
) -> Result<Option<(&'a Schema, &'b [u8])>>
    ensures found { (s : Schema) → s ≡ Struct fields.now
        → IfOk result (Finds s bytes.now path.old.items path.new.items) }
    ensures only_out_of_memory { IfErr result (λ e. e ≡ Error.OutOfMemory) }
{
    let mut rest = bytes;
    for field in fields {
        match take_from_bytes(alloc, &field.content, rest) {
            Ok((_, after)) => rest = after,
            Err(error) => match error {
                Error::OutOfMemory => return Err(error),
                _ => {
                    path.push(Step::Name(&field.name))?;
                    return Ok(Some((&field.content, rest)));
                }
            },
        }
    }
    Ok(None)
}

fn enter_variant<'a, 'b>(
    alloc: Global,
    variants: &'a Vec<Variant>,
    bytes: &'b [u8],
    path: &mut Vec<Step<'a>>,
) -> Result<Option<(&'a Schema, &'b [u8])>>
    ensures found { (s : Schema) → s ≡ Enum variants.now
        → IfOk result (Finds s bytes.now path.old.items path.new.items) }
    ensures only_out_of_memory { IfErr result (λ e. e ≡ Error.OutOfMemory) }
{
    match postcard_de::take_from_bytes::<u32>(alloc, bytes) {
        Ok((index, rest)) => match variants.get(index as usize) {
            Some(variant) => {
                path.push(Step::Name(&variant.name))?;
                Ok(Some((&variant.content, rest)))
            }
            None => Ok(None),
        },
        Err(_) => Ok(None),
    }
}
