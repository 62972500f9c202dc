//! Reading a value from JSON: [`from_json`]. The functions below it fail as it does.

ghost use Rattle.std.specs.Prelude.{◌≡◌, length, map, Some, IfOk, MatchResult};
ghost use Rattle.postcard_value_json_read.specs.{Answers, AreItems, ArePartsReading};
ghost use Rattle.postcard_value_json_read.specs.{AreFieldsReading, AreNamed, HasDistinctNames};
ghost use Rattle.postcard_value_json_read.specs.{HaveDistinctNames, IsContentReading};
ghost use Rattle.postcard_value_json_read.specs.{IsHeldReading, IsJsonOf};
ghost use Rattle.postcard_value_json_read.specs.{IsMemberReading, IsReading, Present, Reads, Tree};
ghost use Rattle.postcard_value_json_read.specs.{contents, entry_tree, fields_of};
ghost use Rattle.postcard_value_json_read.specs.{items_view, json_of};
ghost use Rattle.postcard_value_json_read.specs.{layout_of, layouts_of, reads, tree, trees};
ghost use Rattle.postcard_value_json_read.specs.{type_of, types_of, view};
ghost use Rattle.postcard_schema.specs.Meaning as types;
ghost use Rattle.postcard_value_text.specs.Layout as layouts;

use crate::error::{Expected, JsonError, push};
use crate::find::{has_members, index_of, is_text, items_in, length_error, only_member, pair_in};
use crate::leaf::read_leaf;
use postcard_schema::{Field, Schema, Step, Variant};
use postcard_value::value::Value;
use postcard_value_json::write::may_be_null;
use postcard_value_text::is_unit;
use serde_json::Value as Json;
use std::alloc::Global;

/// Reads the value of the schema that the JSON denotes: what `to_json` returns for the value, or
/// another form of it.
///
/// # Errors
///
/// Fails with `NotAValue` if the JSON is no value of the schema. The error has the place and what
/// is expected there. Fails with `OutOfMemory` if an allocation fails.
pub fn from_json<'a>(
    alloc: Global,
    schema: &'a Schema,
    json: &'a Json,
) -> Result<Value, JsonError<'a>>
    ensures value { IfOk result (λ v. reads (type_of schema.now) (tree v)) }
    ensures spelled { IfOk result (λ v. IsJsonOf (layout_of schema.now) (tree v) (view json.now)) }
    ensures accepted { HasDistinctNames (layout_of schema.now) → (t : Tree)
        → reads (type_of schema.now) t → IsJsonOf (layout_of schema.now) t (view json.now)
        → MatchResult result (λ v. t ≡ tree v) (λ e. e ≡ JsonError.OutOfMemory) }
    ensures reads_back { HasDistinctNames (layout_of schema.now) → (t : Tree)
        → reads (type_of schema.now) t → json_of (layout_of schema.now) t ≡ Some (view json.now)
        → MatchResult result (λ v. t ≡ tree v) (λ e. e ≡ JsonError.OutOfMemory) }
{
    read(alloc, schema, json)
}

#[cycle(read)]
fn read<'a>(alloc: Global, schema: &'a Schema, json: &'a Json) -> Result<Value, JsonError<'a>>
    ensures { Reads (type_of schema.now) (layout_of schema.now) (view json.now) result }
{
    match schema {
        Schema::Leaf(leaf) => read_leaf(alloc, *leaf, json),
        Schema::Option(content) => read_option(alloc, content, json),
        Schema::Seq(element) => read_list(alloc, element, json),
        Schema::Map(key, value) => {
            let Some(items) = json.as_array() else {
                return Err(JsonError::here(alloc, Expected::Array));
            };
            let mut entries = Vec::new(alloc);
            for (i, item) in items.iter().enumerate() {
                let step = Step::Element(i as u64);
                let Some((first, second)) = pair_in(item) else {
                    return Err(JsonError::here(alloc, Expected::ArrayOf(2)).within(step));
                };
                let first = read_half(alloc, key, first, 0, step)?;
                let second = read_half(alloc, value, second, 1, step)?;
                let entry = make_entry(alloc, first, second)?;
                push(&mut entries, entry)?;
            }
            Ok(Value::Seq(entries))
        }
        Schema::Array(element, count) => read_array(alloc, element, *count, json),
        Schema::Tuple(parts) => read_tuple(alloc, parts, json),
        Schema::Struct(fields) => read_struct(alloc, fields, json),
        Schema::Enum(variants) => read_variant(alloc, variants, json),
    }
}

/// Reads a part of the JSON to which this step leads.
#[cycle(read)]
fn read_part<'a>(
    alloc: Global,
    schema: &'a Schema,
    part: &'a Json,
    step: Step<'a>,
) -> Result<Value, JsonError<'a>>
    ensures { Reads (type_of schema.now) (layout_of schema.now) (view part.now) result }
{
    match read(alloc, schema, part) {
        Ok(value) => Ok(value),
        Err(error) => Err(error.within(step)),
    }
}

#[cycle(read)]
fn read_option<'a>(
    alloc: Global,
    content: &'a Schema,
    json: &'a Json,
) -> Result<Value, JsonError<'a>>
    ensures { Reads (types.option (type_of content.now)) (layouts.option (layout_of content.now))
        (view json.now) result }
{
    if json.is_null() {
        return Ok(Value::Absent);
    }
    let value = read_held(alloc, content, json)?;
    present(alloc, value)
}

/// Reads the value in an option from the option's JSON.
#[cycle(read)]
fn read_held<'a>(alloc: Global, content: &'a Schema, json: &'a Json) -> Result<Value, JsonError<'a>>
    ensures { Answers (HasDistinctNames (layout_of content.now)) tree
        (IsHeldReading (type_of content.now) (layout_of content.now)) (view json.now) result }
{
    if !may_be_null(content) {
        return read(alloc, content, json);
    }
    let Some(held) = only_member(json, "Some") else {
        return Err(JsonError::here(alloc, Expected::Option));
    };
    read_part(alloc, content, held, Step::Name("Some"))
}

/// Returns an option with this value.
fn present<'a>(alloc: Global, value: Value) -> Result<Value, JsonError<'a>>
    ensures { MatchResult result (λ v. tree v ≡ Present (tree value))
        (λ e. e ≡ JsonError.OutOfMemory) }
{
    match Box::new(alloc, value) {
        Ok(held) => Ok(Value::Present(held)),
        Err(_) => Err(JsonError::OutOfMemory),
    }
}

#[cycle(read)]
fn read_list<'a>(alloc: Global, element: &'a Schema, json: &'a Json) -> Result<Value, JsonError<'a>>
    ensures { Reads (types.seq (type_of element.now)) (layouts.list (layout_of element.now))
        (view json.now) result }
{
    let Some(items) = json.as_array() else {
        return Err(JsonError::here(alloc, Expected::Array));
    };
    let values = read_items(alloc, element, items)?;
    Ok(Value::Seq(values))
}

#[cycle(read)]
fn read_array<'a>(
    alloc: Global,
    element: &'a Schema,
    count: usize,
    json: &'a Json,
) -> Result<Value, JsonError<'a>>
    ensures { Reads (types.array count (type_of element.now))
        (layouts.array (layout_of element.now)) (view json.now) result }
{
    let Some(items) = json.as_array() else {
        return Err(JsonError::here(alloc, Expected::ArrayOf(count)));
    };
    let values = read_items(alloc, element, items)?;
    if values.len() != count {
        return Err(JsonError::here(alloc, Expected::ArrayOf(count)));
    }
    Ok(Value::Group(values))
}

#[cycle(read)]
fn read_items<'a>(
    alloc: Global,
    element: &'a Schema,
    items: &'a Vec<Json>,
) -> Result<Vec<Value>, JsonError<'a>>
    ensures { Answers (HasDistinctNames (layout_of element.now)) (λ v. trees (map tree v.items))
        (AreItems (IsReading (type_of element.now) (layout_of element.now)))
        (items_view items.now.items) result }
{
    let mut values = Vec::new(alloc);
    for (i, item) in items.iter().enumerate() {
        let value = read_part(alloc, element, item, Step::Element(i as u64))?;
        push(&mut values, value)?;
    }
    Ok(values)
}

/// Reads the half of an entry at this index: 0 for the key, and 1 for the value. The step leads to
/// the entry.
#[cycle(read)]
fn read_half<'a>(
    alloc: Global,
    schema: &'a Schema,
    half: &'a Json,
    index: u64,
    step: Step<'a>,
) -> Result<Value, JsonError<'a>>
    ensures { Reads (type_of schema.now) (layout_of schema.now) (view half.now) result }
{
    match read_part(alloc, schema, half, Step::Element(index)) {
        Ok(value) => Ok(value),
        Err(error) => Err(error.within(step)),
    }
}

/// Returns an entry of a map, as a value.
fn make_entry<'a>(alloc: Global, key: Value, value: Value) -> Result<Value, JsonError<'a>>
    ensures { MatchResult result (λ v. tree v ≡ entry_tree (tree key) (tree value))
        (λ e. e ≡ JsonError.OutOfMemory) }
{
    let mut parts = Vec::new(alloc);
    push(&mut parts, key)?;
    push(&mut parts, value)?;
    Ok(Value::Group(parts))
}

#[cycle(read)]
fn read_tuple<'a>(
    alloc: Global,
    parts: &'a Vec<Schema>,
    json: &'a Json,
) -> Result<Value, JsonError<'a>>
    ensures { Reads (types.group (types_of parts.now.items))
        (layouts.tuple (layouts_of parts.now.items)) (view json.now) result }
{
    if parts.is_empty() {
        return read_unit(alloc, json);
    }
    let Some(items) = items_in(json, parts.len()) else {
        return Err(JsonError::here(alloc, Expected::ArrayOf(parts.len())));
    };
    let values = read_parts(alloc, parts, items)?;
    Ok(Value::Group(values))
}

fn read_unit<'a>(alloc: Global, json: &'a Json) -> Result<Value, JsonError<'a>>
    ensures { Reads (types.group types.no_types) (layouts.tuple layouts.no_layouts)
        (view json.now) result }
{
    if json.is_null() {
        return Ok(Value::Group(Vec::new(alloc)));
    }
    Err(JsonError::here(alloc, Expected::Null))
}

/// Reads each item as the part of a tuple at its index.
#[cycle(read)]
fn read_parts<'a>(
    alloc: Global,
    parts: &'a Vec<Schema>,
    items: &'a Vec<Json>,
) -> Result<Vec<Value>, JsonError<'a>>
    requires { length items.now.items ≡ length parts.now.items }
    ensures { Answers (HaveDistinctNames (layouts_of parts.now.items))
        (λ v. trees (map tree v.items))
        (ArePartsReading (types_of parts.now.items) (layouts_of parts.now.items))
        (items_view items.now.items) result }
{
    let mut values = Vec::new(alloc);
    for (i, part) in parts.iter().enumerate() {
        let value = read_part(alloc, part, &items[i], Step::Element(i as u64))?;
        push(&mut values, value)?;
    }
    Ok(values)
}

#[cycle(read)]
fn read_struct<'a>(
    alloc: Global,
    fields: &'a Vec<Field>,
    json: &'a Json,
) -> Result<Value, JsonError<'a>>
    ensures { Reads (types.group (types_of (contents fields.now.items)))
        (layouts.structure (fields_of fields.now.items)) (view json.now) result }
{
    if !has_members(json, fields.len()) {
        return Err(length_error(alloc, fields, json));
    }
    let values = read_fields(alloc, fields, json)?;
    Ok(Value::Group(values))
}

#[cycle(read)]
fn read_fields<'a>(
    alloc: Global,
    fields: &'a Vec<Field>,
    json: &'a Json,
) -> Result<Vec<Value>, JsonError<'a>>
    ensures { Answers (AreNamed (fields_of fields.now.items)) (λ v. trees (map tree v.items))
        (AreFieldsReading (types_of (contents fields.now.items)) (fields_of fields.now.items))
        (view json.now) result }
{
    let mut values = Vec::new(alloc);
    for field in fields {
        let value = read_field(alloc, &field.name, &field.content, json)?;
        push(&mut values, value)?;
    }
    Ok(values)
}

#[cycle(read)]
fn read_field<'a>(
    alloc: Global,
    name: &'a str,
    content: &'a Schema,
    json: &'a Json,
) -> Result<Value, JsonError<'a>>
    ensures { Answers (HasDistinctNames (layout_of content.now)) tree
        (IsMemberReading name.now (type_of content.now) (layout_of content.now))
        (view json.now) result }
{
    match json.get(name) {
        Some(found) => read_part(alloc, content, found, Step::Name(name)),
        None => Err(JsonError::here(alloc, Expected::Present).within(Step::Name(name))),
    }
}

#[cycle(read)]
fn read_variant<'a>(
    alloc: Global,
    variants: &'a Vec<Variant>,
    json: &'a Json,
) -> Result<Value, JsonError<'a>>
    ensures { Reads (types.choice (types_of (contents variants.now.items)))
        (layouts.choice (fields_of variants.now.items)) (view json.now) result }
{
    let index = index_of(variants, json);
    let Some(variant) = variants.get(index) else {
        return Err(JsonError::here(alloc, Expected::Variant));
    };
    let Ok(index) = u32::try_from(index) else {
        return Err(JsonError::here(alloc, Expected::Variant));
    };
    let content = read_content(alloc, &variant.name, &variant.content, json)?;
    match Box::new(alloc, content) {
        Ok(held) => Ok(Value::Variant(index, held)),
        Err(_) => Err(JsonError::OutOfMemory),
    }
}

#[cycle(read)]
fn read_content<'a>(
    alloc: Global,
    name: &'a str,
    content: &'a Schema,
    json: &'a Json,
) -> Result<Value, JsonError<'a>>
    ensures { Answers (HasDistinctNames (layout_of content.now)) tree
        (IsContentReading name.now (type_of content.now) (layout_of content.now))
        (view json.now) result }
{
    if is_unit(content) {
        if is_text(json, name) {
            return Ok(Value::Group(Vec::new(alloc)));
        }
        return Err(JsonError::here(alloc, Expected::Variant));
    }
    let Some(found) = only_member(json, name) else {
        return Err(JsonError::here(alloc, Expected::Variant));
    };
    read_part(alloc, content, found, Step::Name(name))
}
