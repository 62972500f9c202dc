//! Writing the type expression of a schema: [`schema_text`].

ghost use Rattle.std.specs.Prelude.{◌≡◌, ◌⊎◌, ◌++◌, IfErr, IfOk, OnOk, string_bytes};
ghost use Rattle.postcard_schema.specs.Views.{enum_view, struct_view, tuple_view};
ghost use Rattle.postcard_schema_text.specs.{HasNoExpression, IsExpressible, IsExpression};
ghost use Rattle.postcard_schema_text.specs.{IsTextRefusal};
ghost use Rattle.postcard_schema_text.specs.{named_text, named_views, view, views};

use crate::error::TextError;
use crate::expressible::check;
use postcard_schema::{Field, Schema, Variant};
use std::alloc::{AllocError, Global};
use std::fmt::Write;

/// How deep types may nest in brackets, where the outermost type has depth 1.
const MAX_DEPTH: usize = 64;

/// Returns the type expression of a schema, without blanks, such as `{id:u16,label:str,}`.
/// [`crate::parse`] reads the text as a schema of the same type. `postcard_key::named_key` is a
/// checksum of this text.
///
/// Each part of a tuple and each field has a `,` after it. An option is `Option<T>`. An enum is in
/// parentheses, as `(|Boot(())|Reading(u8))`.
///
/// # Errors
///
/// Fails with the reason why the schema has no such expression, one of [`TextError`]. Names are
/// checked: a field with the name `a:u8,b` never prints as two fields. A schema that `parse` gave
/// fails with nothing but `TooDeep` or `OutOfMemory`.
///
/// # Examples
///
/// ```text
/// let schema = parse(alloc, "{ id: u16, on: bool? }")?;
/// let text = schema_text(alloc, &schema)?;
/// assert_eq!(rt; text.as_str(), "{id:u16,on:Option<bool>,}");
/// ```
pub fn schema_text(alloc: Global, schema: &Schema) -> Result<String, TextError>
    ensures text { IfOk result (λ text. string_bytes text ≡ named_text (view schema.now)) }
    ensures expression { IfOk result (λ text. IsExpression schema.now (string_bytes text)) }
    ensures expressible { OnOk result (IsExpressible (view schema.now)) }
    ensures refused { IfErr result (λ e. IsTextRefusal e (view schema.now)) }
    ensures inexpressible { IfErr result (λ e. (e ≡ TextError.OutOfMemory)
        ⊎ (IsExpressible (view schema.now) → ⊥)) }
    ensures no_expression { IfErr result (λ e. (e ≡ TextError.OutOfMemory)
        ⊎ ((e ≡ TextError.TooDeep) ⊎ HasNoExpression schema.now)) }
{
    check(schema, MAX_DEPTH)?;
    let mut text = String::new(alloc);
    match add_type(schema, &mut text) {
        Ok(()) => Ok(text),
        Err(AllocError) => Err(TextError::OutOfMemory),
    }
}

/// Adds the text of a type.
#[cycle(add_type)]
fn add_type(schema: &Schema, text: &mut String) -> Result<(), AllocError>
    ensures { OnOk result (string_bytes text.new
        ≡ string_bytes text.old ++ named_text (view schema.now)) }
{
    match schema {
        Schema::Leaf(leaf) => write!(text, "{leaf}"),
        Schema::Option(content) => {
            text.push_str("Option<")?;
            add_type(content, text)?;
            text.push_str(">")
        }
        Schema::Seq(element) => {
            text.push_str("[")?;
            add_type(element, text)?;
            text.push_str("]")
        }
        Schema::Map(key, value) => {
            text.push_str("{")?;
            add_type(key, text)?;
            text.push_str("=>")?;
            add_type(value, text)?;
            text.push_str("}")
        }
        Schema::Array(element, count) => {
            text.push_str("[")?;
            add_type(element, text)?;
            write!(text, ";{count}]")
        }
        Schema::Tuple(parts) => add_parts(parts, text),
        Schema::Struct(fields) => add_fields(fields, text),
        Schema::Enum(variants) => add_variants(variants, text),
    }
}

/// Adds the text of a tuple.
#[cycle(add_type)]
fn add_parts(parts: &Vec<Schema>, text: &mut String) -> Result<(), AllocError>
    ensures { OnOk result (string_bytes text.new
        ≡ string_bytes text.old ++ named_text (tuple_view (views parts.now.items))) }
{
    text.push_str("(")?;
    for part in parts {
        add_type(part, text)?;
        text.push_str(",")?;
    }
    text.push_str(")")
}

/// Adds the text of a struct.
#[cycle(add_type)]
fn add_fields(fields: &Vec<Field>, text: &mut String) -> Result<(), AllocError>
    ensures { OnOk result (string_bytes text.new
        ≡ string_bytes text.old ++ named_text (struct_view (named_views fields.now.items))) }
{
    text.push_str("{")?;
    for field in fields {
        text.push_str(&field.name)?;
        text.push_str(":")?;
        add_type(&field.content, text)?;
        text.push_str(",")?;
    }
    text.push_str("}")
}

/// Adds the text of an enum.
#[cycle(add_type)]
fn add_variants(variants: &Vec<Variant>, text: &mut String) -> Result<(), AllocError>
    ensures { OnOk result (string_bytes text.new
        ≡ string_bytes text.old ++ named_text (enum_view (named_views variants.now.items))) }
{
    text.push_str("(")?;
    if variants.is_empty() {
        text.push_str("|")?;
    }
    for variant in variants {
        text.push_str("|")?;
        text.push_str(&variant.name)?;
        text.push_str("(")?;
        add_type(&variant.content, text)?;
        text.push_str(")")?;
    }
    text.push_str(")")
}
