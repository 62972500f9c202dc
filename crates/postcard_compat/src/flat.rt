//! Types without nested groups: [`flattened`].

ghost use Rattle.std.specs.Prelude.{◌≡◌, ◌++◌, ◌∷◌, [], IfOk, OnOk, map};
ghost use Rattle.std.specs.List.{AllZip};
ghost use Rattle.postcard_compat.specs.{MessageType, SameMessages, SameRows, Serves, array, group};
ghost use Rattle.postcard_compat.specs.{leaf, part_types, row_of, type_of};

use postcard_schema::{Integer, Leaf, Named, Schema};
use std::alloc::{AllocError, Global};

/// The most parts of an array that is written out. An array of more parts is kept as an array.
const MAX_PARTS: usize = 64;

/// Returns a type of the same messages without nested groups.
///
/// The parts of structs, tuples and short arrays are put into one row, and parts without bytes
/// vanish. A row is a struct whose fields have the paths of the parts as names, such as `pos.lat`,
/// `0.1` and `samples[2]`. A row of one part is that part. An array is short if it has at most 64
/// parts in all. A longer array stays an array of the flattened element.
///
/// `bytes` becomes a list of `u8`, and a map a list of pairs. The contents of options, lists and
/// variants are flattened, too.
///
/// # Errors
///
/// Fails if an allocation fails.
///
/// # Examples
///
/// ```rust
/// let nested = parse(rt.alloc(), "{pos: {lat: i32, lon: i32}, on: bool}").expect(&rt, "a type");
/// let row = parse(rt.alloc(), "(i32, i32, bool)").expect(&rt, "a type");
/// assert!(rt; serves(&row, &flattened(rt.alloc(), &nested)?));
/// ```
#[cycle(flattened)]
pub fn flattened(alloc: Global, schema: &Schema) -> Result<Schema, AllocError>
    ensures { IfOk result (λ flat. Serves (type_of flat) (type_of schema.now)
        × Serves (type_of schema.now) (type_of flat)) }
{
    let row = flat_row(alloc, schema)?;
    Ok(grouped(row))
}

#[cycle(flattened)]
fn boxed(alloc: Global, schema: &Schema) -> Result<Box<Schema>, AllocError>
    ensures { IfOk result (λ flat. SameMessages (type_of flat.value) (type_of schema.now)) }
{
    let flat = flattened(alloc, schema)?;
    Ok(Box::new(alloc, flat)?)
}

/// Returns the row of a type as a struct, even if it has one part. So the part keeps its path.
pub(crate) fn named_row(alloc: Global, schema: &Schema) -> Result<Schema, AllocError> {
    let row = flat_row(alloc, schema)?;
    Ok(Schema::Struct(row))
}

/// Returns the parts of a type in one row, under their paths.
#[cycle(flattened)]
fn flat_row(alloc: Global, schema: &Schema) -> Result<Vec<Named<Schema>>, AllocError>
    ensures { IfOk result (λ row. SameRows (part_types row.items) (type_of schema.now ∷ [])) }
{
    match schema {
        Schema::Leaf(leaf) => single(alloc, flat_leaf(alloc, *leaf)?),
        Schema::Option(content) => single(alloc, Schema::Option(boxed(alloc, content)?)),
        Schema::Seq(element) => single(alloc, Schema::Seq(boxed(alloc, element)?)),
        Schema::Map(key, value) => {
            let mut entry = Vec::new(alloc);
            let key = flat_row(alloc, key)?;
            append(alloc, &mut entry, "0", &key)?;
            let value = flat_row(alloc, value)?;
            append(alloc, &mut entry, "1", &value)?;
            single(alloc, Schema::Seq(Box::new(alloc, grouped(entry))?))
        }
        Schema::Array(element, count) => {
            let element = flat_row(alloc, element)?;
            array_row(alloc, element, *count)
        }
        Schema::Tuple(parts) => tuple_row(alloc, parts),
        Schema::Struct(fields) => struct_row(alloc, fields),
        Schema::Enum(variants) => single(alloc, Schema::Enum(flat_variants(alloc, variants)?)),
    }
}

#[cycle(flattened)]
fn tuple_row(alloc: Global, parts: &Vec<Schema>) -> Result<Vec<Named<Schema>>, AllocError>
    ensures { IfOk result (λ row. SameRows (part_types row.items) (map type_of parts.now.items)) }
{
    let mut row = Vec::new(alloc);
    for (number, part) in parts.iter().enumerate() {
        let step = format!(in alloc; "{number}")?;
        let inner = flat_row(alloc, part)?;
        append(alloc, &mut row, &step, &inner)?;
    }
    Ok(row)
}

#[cycle(flattened)]
fn struct_row(alloc: Global, fields: &Vec<Named<Schema>>) -> Result<Vec<Named<Schema>>, AllocError>
    ensures { IfOk result (λ row. SameRows (part_types row.items) (part_types fields.now.items)) }
{
    let mut row = Vec::new(alloc);
    for field in fields {
        let inner = flat_row(alloc, &field.content)?;
        append(alloc, &mut row, &field.name, &inner)?;
    }
    Ok(row)
}

/// Returns the variants with their contents flattened.
#[cycle(flattened)]
fn flat_variants(
    alloc: Global,
    variants: &Vec<Named<Schema>>,
) -> Result<Vec<Named<Schema>>, AllocError>
    ensures { IfOk result (λ flat. AllZip SameMessages (part_types flat.items)
        (part_types variants.now.items)) }
{
    let mut flat = Vec::with_capacity(alloc, variants.len())?;
    for variant in variants {
        let name = String::from_str(alloc, &variant.name)?;
        let content = flattened(alloc, &variant.content)?;
        flat.push(Named { name, content })?;
    }
    Ok(flat)
}

/// Returns the parts of an array whose elements have these parts.
fn array_row(
    alloc: Global,
    element: Vec<Named<Schema>>,
    count: usize,
) -> Result<Vec<Named<Schema>>, AllocError>
    ensures { IfOk result (λ row. SameRows (part_types row.items)
        (array count (group (row_of (part_types element.items))) ∷ [])) }
{
    if element.is_empty() {
        return Ok(Vec::new(alloc));
    }
    if count > MAX_PARTS / element.len() {
        return single(
            alloc,
            Schema::Array(Box::new(alloc, grouped(element))?, count),
        );
    }
    written_out(alloc, &element, count)
}

/// Returns the parts of each element of an array, one element after the other.
fn written_out(
    alloc: Global,
    element: &Vec<Named<Schema>>,
    count: usize,
) -> Result<Vec<Named<Schema>>, AllocError>
    ensures { IfOk result (λ row. SameRows (part_types row.items)
        (array count (group (row_of (part_types element.now.items))) ∷ [])) }
{
    let mut row = Vec::new(alloc);
    for index in 0..count {
        let step = format!(in alloc; "[{index}]")?;
        append(alloc, &mut row, &step, element)?;
    }
    Ok(row)
}

fn flat_leaf(alloc: Global, kind: Leaf) -> Result<Schema, AllocError>
    ensures { IfOk result (λ flat. SameMessages (type_of flat) (leaf kind)) }
{
    match kind {
        Leaf::Bytes => {
            let byte = Schema::Leaf(Leaf::Integer(Integer::U8));
            Ok(Schema::Seq(Box::new(alloc, byte)?))
        }
        _ => Ok(Schema::Leaf(kind)),
    }
}

/// Returns a row as one type.
fn grouped(mut row: Vec<Named<Schema>>) -> Schema
    ensures { SameMessages (type_of result) (group (row_of (part_types row.items))) }
{
    if row.len() != 1 {
        return Schema::Struct(row);
    }
    match row.pop() {
        Some(part) => part.content,
        None => Schema::Struct(row),
    }
}

/// Returns a row of one part, at the path of the whole.
fn single(alloc: Global, schema: Schema) -> Result<Vec<Named<Schema>>, AllocError>
    ensures { IfOk result (λ row. (x : MessageType) → SameMessages (type_of schema) x
        → SameRows (part_types row.items) (x ∷ [])) }
{
    let mut row = Vec::new(alloc);
    let name = String::new(alloc);
    row.push(Named {
        name,
        content: schema,
    })?;
    Ok(row)
}

/// Appends copies of the parts of a part, which is reached by this step.
fn append(
    alloc: Global,
    row: &mut Vec<Named<Schema>>,
    step: &str,
    parts: &Vec<Named<Schema>>,
) -> Result<(), AllocError>
    ensures { OnOk result (part_types row.new.items
        ≡ part_types row.old.items ++ part_types parts.now.items) }
{
    for part in parts {
        let name = path_of(alloc, step, &part.name)?;
        let content = part.content.try_clone(alloc)?;
        row.push(Named { name, content })?;
    }
    Ok(())
}

/// Returns the path of a part: a step, and the path from there.
fn path_of(alloc: Global, step: &str, inner: &str) -> Result<String, AllocError> {
    if inner.is_empty() || inner.starts_with('[') {
        return format!(in alloc; "{step}{inner}");
    }
    format!(in alloc; "{step}.{inner}")
}
