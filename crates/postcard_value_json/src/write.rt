//! The JSON of a value: [`to_json`]. The functions below it return `None` and fail as it does.

ghost use Rattle.std.specs.Prelude.{◌≡◌, IfOk, IfSome, Some, map, string_bytes};
ghost use Rattle.postcard_value_json.specs.{alone, can_be_null, entry_json, field_writers};
ghost use Rattle.postcard_value_json.specs.{fields_json, fields_of, items_json, json_of, layout_of};
ghost use Rattle.postcard_value_json.specs.{layouts_of, option_json, parts_json, tree, trees};
ghost use Rattle.postcard_value_json.specs.{variant_json, view, writers};

use crate::leaf::write_leaf;
use postcard_schema::{Field, Schema, Variant};
use postcard_value::value::Value;
use postcard_value_text::is_unit;
use serde_json::{Map, Value as Json, put};
use std::alloc::{AllocError, Global};

/// Returns the JSON of the value. Returns `None` if the value has another form than the schema, or
/// if two fields of a struct have the same name. The count of an array is not checked.
///
/// # Errors
///
/// Fails if an allocation fails.
pub fn to_json(alloc: Global, schema: &Schema, value: &Value) -> Result<Option<Json>, AllocError>
    ensures { IfOk result (λ o. IfSome o (λ j. Some (view j)
        ≡ json_of (layout_of schema.now) (tree value.now))) }
{
    write(alloc, value, schema)
}

// The value stands before its type, since the calls end by the depth of the value.
#[cycle(write)]
fn write(alloc: Global, value: &Value, schema: &Schema) -> Result<Option<Json>, AllocError>
    ensures { IfOk result (λ o. IfSome o (λ j. Some (view j)
        ≡ json_of (layout_of schema.now) (tree value.now))) }
{
    match (schema, value) {
        (Schema::Leaf(leaf), _) => write_leaf(alloc, *leaf, value),
        (Schema::Option(content), _) => write_option(alloc, value, content),
        (Schema::Seq(element), Value::Seq(items)) => write_list(alloc, items, element),
        (Schema::Array(element, _), Value::Group(items)) => write_list(alloc, items, element),
        (Schema::Map(key, content), Value::Seq(items)) => write_map(alloc, items, key, content),
        (Schema::Tuple(parts), Value::Group(items)) => write_tuple(alloc, items, parts),
        (Schema::Struct(fields), Value::Group(items)) => write_struct(alloc, items, fields),
        (Schema::Enum(variants), Value::Variant(index, content)) => {
            match variants.get(*index as usize) {
                Some(variant) => write_variant(alloc, content, variant),
                None => Ok(None),
            }
        }
        _ => Ok(None),
    }
}

/// Returns an object with this member alone.
fn alone(alloc: Global, name: &str, content: Json) -> Result<Json, AllocError>
    ensures { IfOk result (λ j. view j ≡ alone name.now (view content)) }
{
    let mut members = Map::new(alloc);
    put(&mut members, alloc, name, content)?;
    Ok(Json::Object(members))
}

#[cycle(write)]
fn write_option(alloc: Global, value: &Value, content: &Schema) -> Result<Option<Json>, AllocError>
    ensures { IfOk result (λ o. IfSome o (λ j. Some (view j)
        ≡ option_json (can_be_null (layout_of content.now)) (json_of (layout_of content.now))
        (tree value.now))) }
{
    match value {
        Value::Absent => Ok(Some(Json::Null)),
        Value::Present(held) => {
            let Some(json) = write(alloc, held, content)? else {
                return Ok(None);
            };
            if may_be_null(content) {
                Ok(Some(alone(alloc, "Some", json)?))
            } else {
                Ok(Some(json))
            }
        }
        _ => Ok(None),
    }
}

/// Returns whether the JSON of a value of the type may be `null`: that of an option or of the unit.
pub fn may_be_null(schema: &Schema) -> bool
    ensures { result ≡ can_be_null (layout_of schema.now) }
{
    match schema {
        Schema::Option(_) => true,
        _ => is_unit(schema),
    }
}

#[cycle(write)]
fn write_list(
    alloc: Global,
    items: &Vec<Value>,
    element: &Schema,
) -> Result<Option<Json>, AllocError>
    ensures { IfOk result (λ o. IfSome o (λ j. Some (view j) ≡ items_json
        (json_of (layout_of element.now)) (trees (map tree items.now.items)))) }
{
    let mut all = Vec::new(alloc);
    for item in items {
        let Some(json) = write(alloc, item, element)? else {
            return Ok(None);
        };
        all.push(json)?;
    }
    Ok(Some(Json::Array(all)))
}

#[cycle(write)]
fn write_map(
    alloc: Global,
    items: &Vec<Value>,
    key: &Schema,
    content: &Schema,
) -> Result<Option<Json>, AllocError>
    ensures { IfOk result (λ o. IfSome o (λ j. Some (view j) ≡ items_json
        (entry_json (json_of (layout_of key.now)) (json_of (layout_of content.now)))
        (trees (map tree items.now.items)))) }
{
    let mut all = Vec::new(alloc);
    for item in items {
        let Some(json) = write_entry(alloc, item, key, content)? else {
            return Ok(None);
        };
        all.push(json)?;
    }
    Ok(Some(Json::Array(all)))
}

/// Returns the array of a key and a value.
#[cycle(write)]
fn write_entry(
    alloc: Global,
    entry: &Value,
    key: &Schema,
    content: &Schema,
) -> Result<Option<Json>, AllocError>
    ensures { IfOk result (λ o. IfSome o (λ j. Some (view j) ≡ entry_json
        (json_of (layout_of key.now)) (json_of (layout_of content.now)) (tree entry.now))) }
{
    let Value::Group(pair) = entry else {
        return Ok(None);
    };
    if pair.len() != 2 {
        return Ok(None);
    }
    let Some(first) = write(alloc, &pair[0], key)? else {
        return Ok(None);
    };
    let Some(second) = write(alloc, &pair[1], content)? else {
        return Ok(None);
    };
    let both = vec![in alloc; first, second]?;
    Ok(Some(Json::Array(both)))
}

/// Returns the JSON of a tuple, which is `null` for the unit.
#[cycle(write)]
fn write_tuple(
    alloc: Global,
    items: &Vec<Value>,
    parts: &Vec<Schema>,
) -> Result<Option<Json>, AllocError>
    ensures { IfOk result (λ o. IfSome o (λ j. Some (view j) ≡ parts_json
        (writers (layouts_of parts.now.items)) (trees (map tree items.now.items)))) }
{
    if parts.len() != items.len() {
        return Ok(None);
    }
    let mut all = Vec::new(alloc);
    for (i, item) in items.iter().enumerate() {
        let Some(part) = parts.get(i) else {
            return Ok(None);
        };
        let Some(json) = write(alloc, item, part)? else {
            return Ok(None);
        };
        all.push(json)?;
    }
    if all.is_empty() {
        return Ok(Some(Json::Null));
    }
    Ok(Some(Json::Array(all)))
}

/// Returns the object of the fields of a struct, or `None` if two have the same name.
#[cycle(write)]
fn write_struct(
    alloc: Global,
    items: &Vec<Value>,
    fields: &Vec<Field>,
) -> Result<Option<Json>, AllocError>
    ensures { IfOk result (λ o. IfSome o (λ j. Some (view j) ≡ fields_json
        (field_writers (fields_of fields.now.items)) (trees (map tree items.now.items)))) }
{
    if fields.len() != items.len() {
        return Ok(None);
    }
    let mut members = Map::new(alloc);
    for (i, item) in items.iter().enumerate() {
        let Some(field) = fields.get(i) else {
            return Ok(None);
        };
        let Some(json) = write(alloc, item, &field.content)? else {
            return Ok(None);
        };
        if members.contains_key(field.name.as_str()) {
            return Ok(None);
        }
        put(&mut members, alloc, &field.name, json)?;
    }
    Ok(Some(Json::Object(members)))
}

#[cycle(write)]
fn write_variant(
    alloc: Global,
    value: &Value,
    variant: &Variant,
) -> Result<Option<Json>, AllocError>
    ensures { IfOk result (λ o. IfSome o (λ j. Some (view j)
        ≡ variant_json (string_bytes variant.now.name) (layout_of variant.now.content)
        (json_of (layout_of variant.now.content)) (tree value.now))) }
{
    if is_unit(&variant.content) {
        return Ok(Some(Json::try_from_str(alloc, &variant.name)?));
    }
    let Some(json) = write(alloc, value, &variant.content)? else {
        return Ok(None);
    };
    Ok(Some(alone(alloc, &variant.name, json)?))
}
