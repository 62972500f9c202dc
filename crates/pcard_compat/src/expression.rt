//! The expression of a type: [`expression_of`].

use postcard_schema::{Field, Schema, Variant};
use std::alloc::{AllocError, Global};

/// Returns the expression of a type. No contract says so: [`crate::host`] reads the expression
/// again to be sure.
///
/// # Errors
///
/// Fails if an allocation fails.
#[cycle(expression_of)]
pub(crate) fn expression_of(alloc: Global, schema: &Schema) -> Result<String, AllocError> {
    match schema {
        Schema::Leaf(leaf) => format!(in alloc; "{leaf}"),
        Schema::Option(content) => {
            let text = expression_of(alloc, content)?;
            match &**content {
                Schema::Enum(_) => format!(in alloc; "({text})?"),
                _ => format!(in alloc; "{text}?"),
            }
        }
        Schema::Seq(element) => {
            let element = expression_of(alloc, element)?;
            format!(in alloc; "[{element}]")
        }
        Schema::Map(key, value) => {
            let key = expression_of(alloc, key)?;
            let value = expression_of(alloc, value)?;
            format!(in alloc; "{{{key} => {value}}}")
        }
        Schema::Array(element, count) => {
            let element = expression_of(alloc, element)?;
            format!(in alloc; "[{element}; {count}]")
        }
        Schema::Tuple(parts) => tuple(alloc, parts),
        Schema::Struct(fields) => fields_of(alloc, fields),
        Schema::Enum(variants) => enum_of(alloc, variants),
    }
}

#[cycle(expression_of)]
fn tuple(alloc: Global, parts: &Vec<Schema>) -> Result<String, AllocError> {
    let mut text = String::new(alloc);
    for part in parts {
        let part = expression_of(alloc, part)?;
        push_after(", ", &part, &mut text)?;
    }
    match parts.len() {
        1 => format!(in alloc; "({text},)"),
        _ => format!(in alloc; "({text})"),
    }
}

#[cycle(expression_of)]
fn fields_of(alloc: Global, fields: &Vec<Field>) -> Result<String, AllocError> {
    let mut text = String::new(alloc);
    for field in fields {
        let content = expression_of(alloc, &field.content)?;
        let field = format!(in alloc; "{name}: {content}", name = &field.name)?;
        push_after(", ", &field, &mut text)?;
    }
    format!(in alloc; "{{{text}}}")
}

#[cycle(expression_of)]
fn enum_of(alloc: Global, variants: &Vec<Variant>) -> Result<String, AllocError> {
    let mut text = String::new(alloc);
    for variant in variants {
        let content = content_of(alloc, &variant.content)?;
        let variant = format!(in alloc; "{name}{content}", name = &variant.name)?;
        push_after(" | ", &variant, &mut text)?;
    }
    match variants.len() {
        1 => format!(in alloc; "| {text}"),
        _ => Ok(text),
    }
}

/// Returns the expression of a variant's content, as it stands after the variant's name.
#[cycle(expression_of)]
fn content_of(alloc: Global, content: &Schema) -> Result<String, AllocError> {
    let text = expression_of(alloc, content)?;
    match content {
        Schema::Tuple(parts) if parts.is_empty() => Ok(String::new(alloc)),
        Schema::Tuple(_) | Schema::Struct(_) => Ok(text),
        _ => format!(in alloc; "({text})"),
    }
}

/// Appends a text. If the string is not empty, appends a sign before it.
fn push_after(sign: &str, part: &str, text: &mut String) -> Result<(), AllocError> {
    if !text.is_empty() {
        text.push_str(sign)?;
    }
    text.push_str(part)
}
