//! Schemas made of schemas. Each function fails with `OutOfMemory` if an allocation fails.

ghost use Rattle.std.specs.Prelude.{◌≡◌, ◌<◌, ◌++◌, ◌∷◌, [], get_or, length, map, IfErr, IfOk};
ghost use Rattle.std.specs.Prelude.{OnOk};
ghost use Rattle.postcard_described.specs.{array, choice, contents, entry_of, group, option, seq};
ghost use Rattle.postcard_described.specs.{HasFields, Schema, names_of, text_of, type_of, types_of};

use postcard_schema::{Named, Schema};
use postcard_wire::{Error, Result};
use std::alloc::Global;

fn boxed(alloc: Global, schema: Schema) -> Result<Box<Schema>>
    ensures held { IfOk result (λ held. held.value ≡ schema) }
    ensures only_out_of_memory { IfErr result (λ e. e ≡ Error.OutOfMemory) }
{
    match Box::new(alloc, schema) {
        Ok(held) => Ok(held),
        Err(_) => Err(Error::OutOfMemory),
    }
}

/// Returns the schema of an option of such a value.
#[tactic(auto, using(postcard_schema::specs::Lemmas::type_of_option))]
pub fn option_schema(alloc: Global, content: Schema) -> Result<Schema>
    ensures typed { IfOk result (λ schema. type_of schema ≡ option (type_of content)) }
    ensures only_out_of_memory { IfErr result (λ e. e ≡ Error.OutOfMemory) }
{
    Ok(Schema::Option(boxed(alloc, content)?))
}

/// Returns the schema of a list of such values.
#[tactic(auto, using(postcard_schema::specs::Lemmas::type_of_seq))]
pub fn seq_schema(alloc: Global, element: Schema) -> Result<Schema>
    ensures typed { IfOk result (λ schema. type_of schema ≡ seq (type_of element)) }
    ensures only_out_of_memory { IfErr result (λ e. e ≡ Error.OutOfMemory) }
{
    Ok(Schema::Seq(boxed(alloc, element)?))
}

/// Returns the schema of a map with such keys and values.
#[tactic(auto, using(postcard_schema::specs::Lemmas::type_of_map))]
pub fn map_schema(alloc: Global, key: Schema, value: Schema) -> Result<Schema>
    ensures typed { IfOk result (λ schema.
        type_of schema ≡ seq (entry_of (type_of key) (type_of value))) }
    ensures only_out_of_memory { IfErr result (λ e. e ≡ Error.OutOfMemory) }
{
    let key = boxed(alloc, key)?;
    Ok(Schema::Map(key, boxed(alloc, value)?))
}

/// Returns the schema of an array of `count` such values.
#[tactic(auto, using(postcard_schema::specs::Lemmas::type_of_array))]
pub fn array_schema(alloc: Global, element: Schema, count: usize) -> Result<Schema>
    ensures typed { IfOk result (λ schema. type_of schema ≡ array count (type_of element)) }
    ensures only_out_of_memory { IfErr result (λ e. e ≡ Error.OutOfMemory) }
{
    Ok(Schema::Array(boxed(alloc, element)?, count))
}

/// Returns the schema of these parts in a row: of a struct if each has a name, and else of a tuple.
#[tactic(auto, using(postcard_schema::specs::Lemmas::type_of_tuple, postcard_schema::specs::Lemmas::type_of_struct))]
pub fn group_schema(alloc: Global, names: &[&str], parts: Vec<Schema>) -> Result<Schema>
    ensures typed { IfOk result (λ schema. type_of schema ≡ group (types_of parts.items)) }
    ensures named { 0 < length names.now → length names.now ≡ length parts.items
        → IfOk result (HasFields names.now) }
    ensures only_out_of_memory { IfErr result (λ e. e ≡ Error.OutOfMemory) }
{
    if names.is_empty() || names.len() != parts.len() {
        return Ok(Schema::Tuple(parts));
    }
    Ok(Schema::Struct(with_names(alloc, names, parts)?))
}

/// Returns the schemas with these names, one name for each schema.
fn with_names(alloc: Global, names: &[&str], parts: Vec<Schema>) -> Result<Vec<Named<Schema>>>
    ensures parts { IfOk result (λ fields. contents fields.items ≡ parts.items) }
    ensures named { length names.now ≡ length parts.items
        → IfOk result (λ fields. names_of fields.items ≡ map text_of names.now) }
    ensures only_out_of_memory { IfErr result (λ e. e ≡ Error.OutOfMemory) }
{
    let mut fields = Vec::new(alloc);
    for part in parts {
        push_named(alloc, name_at(names, fields.len()), part, &mut fields)?;
    }
    Ok(fields)
}

/// Returns the name at an index, or an empty name past the last.
fn name_at<'a>(names: &[&'a str], index: usize) -> &'a str
    ensures { index < length names.now → result.now ≡ get_or (map text_of names.now) index [] }
{
    match names.get(index) {
        Some(name) => name,
        None => "",
    }
}

/// Returns the schema of an enum of these variants.
#[tactic(auto, using(postcard_schema::specs::Lemmas::type_of_enum))]
pub fn choice_schema(variants: Vec<Named<Schema>>) -> Schema
    ensures typed { type_of result ≡ choice (types_of (contents variants.items)) }
    ensures same { result ≡ Schema.Enum variants }
{
    Schema::Enum(variants)
}

/// Appends an item.
pub fn push<T: Drop>(item: T, items: &mut Vec<T>) -> Result<()>
    ensures added { OnOk result (items.new.items ≡ items.old.items ++ item ∷ []) }
    ensures only_out_of_memory { IfErr result (λ e. e ≡ Error.OutOfMemory) }
{
    match items.push(item) {
        Ok(()) => Ok(()),
        Err(_) => Err(Error::OutOfMemory),
    }
}

/// Appends a schema with this name.
#[tactic(auto, using(postcard_schema::specs::Lemmas::contents_append, crate::specs::Names::names_append))]
pub fn push_named(
    alloc: Global,
    name: &str,
    content: Schema,
    all: &mut Vec<Named<Schema>>,
) -> Result<()>
    ensures added { OnOk result (contents all.new.items ≡ contents all.old.items ++ content ∷ []) }
    ensures named { OnOk result (names_of all.new.items ≡ names_of all.old.items ++ name.now ∷ []) }
    ensures only_out_of_memory { IfErr result (λ e. e ≡ Error.OutOfMemory) }
{
    let name = String::from_str(alloc, name)?;
    push(Named { name, content }, all)
}
