//! Printing a value with the names of its schema: [`Shown`].

ghost use Rattle.std.specs.Prelude.{◌≡◌, ◌++◌, true, codes, map};
ghost use Rattle.postcard_value_text.specs.{DisplaysOnOk, Named, Schema, WritesOnOk, contents};
ghost use Rattle.postcard_value_text.specs.{each_by, entries_text, entry_text, field_text};
ghost use Rattle.postcard_value_text.specs.{field_texts, fields_of, fields_text, group};
ghost use Rattle.postcard_value_text.specs.{has_brackets, is_unit, items_text, layout_of};
ghost use Rattle.postcard_value_text.specs.{layouts_of, lead, no_types, option_text, parts_text};
ghost use Rattle.postcard_value_text.specs.{string_bytes, text, texts, tree, trees, tuple_end};
ghost use Rattle.postcard_value_text.specs.{type_of, variant_text};

use crate::leaves::show_leaf;
use postcard_schema::{Field, Schema, Variant};
use postcard_value::value::Value;
use std::fmt;
use std::fmt::{Display, Formatter, Write};

/// A value together with its schema, which is printed as a text on one line.
///
/// Printing fails if the value has another form than the schema, or if the writer fails. The count
/// of an array is not checked.
#[derive(Clone, Copy)]
pub struct Shown<'a> {
    /// The type of the value, with the names of fields and variants.
    pub schema: &'a Schema,
    /// The value.
    pub value: &'a Value,
}

impl Display for Shown<'_> {
    ghost output = { λ s. text (layout_of s.schema.now) (tree s.value.now) };

    fn fmt<W: Write>(&self, f: &mut Formatter<W>) -> fmt::Result {
        show(self.value, self.schema, f)
    }
}

#[cycle(show)]
fn show<W: Write>(value: &Value, schema: &Schema, f: &mut Formatter<W>) -> fmt::Result
    ensures { DisplaysOnOk W.write_str_gives f.old result
        (text (layout_of schema.now) (tree value.now)) f.new }
{
    match (schema, value) {
        (Schema::Leaf(leaf), _) => show_leaf(*leaf, value, f),
        (Schema::Option(content), _) => show_option(value, content, f),
        (Schema::Seq(element), Value::Seq(items)) => show_list(items, element, f),
        (Schema::Array(element, _), Value::Group(items)) => show_list(items, element, f),
        (Schema::Map(key, content), Value::Seq(items)) => show_map(items, key, content, f),
        (Schema::Tuple(parts), Value::Group(items)) => show_tuple(items, parts, f),
        (Schema::Struct(fields), Value::Group(items)) => show_struct(items, fields, f),
        (Schema::Enum(variants), Value::Variant(index, content)) => {
            match variants.get(*index as usize) {
                Some(variant) => show_variant(content, variant, f),
                None => Err(fmt::Error),
            }
        }
        _ => Err(fmt::Error),
    }
}

/// Prints `None` or `Some(..)`.
#[cycle(show)]
#[tactic(auto, using(crate::proofs::Joined::displays_failed))]
fn show_option<W: Write>(value: &Value, content: &Schema, f: &mut Formatter<W>) -> fmt::Result
    ensures { DisplaysOnOk W.write_str_gives f.old result
        (option_text (text (layout_of content.now)) (tree value.now)) f.new }
{
    match value {
        Value::Absent => f.write_str("None"),
        Value::Present(held) => {
            f.write_str("Some(")?;
            show(held, content, f)?;
            f.write_str(")")
        }
        _ => Err(fmt::Error),
    }
}

/// Prints the separator, or nothing before the first part, whose index is 0.
fn separate<W: Write>(index: usize, separator: &str, f: &mut Formatter<W>) -> fmt::Result
    ensures { WritesOnOk W.write_str_gives f.old result (lead index separator.now) f.new }
{
    if index == 0 {
        return Ok(());
    }
    f.write_str(separator)
}

#[cycle(show)]
fn show_list<W: Write>(items: &Vec<Value>, element: &Schema, f: &mut Formatter<W>) -> fmt::Result
    ensures { DisplaysOnOk W.write_str_gives f.old result
        (items_text (text (layout_of element.now)) (trees (map tree items.now.items))) f.new }
{
    f.write_str("[")?;
    for (i, item) in items.iter().enumerate() {
        separate(i, ", ", f)?;
        show(item, element, f)?;
    }
    f.write_str("]")
}

#[cycle(show)]
fn show_map<W: Write>(
    items: &Vec<Value>,
    key: &Schema,
    content: &Schema,
    f: &mut Formatter<W>,
) -> fmt::Result
    ensures { DisplaysOnOk W.write_str_gives f.old result
        (entries_text (entry_text (text (layout_of key.now)) (text (layout_of content.now)))
        (trees (map tree items.now.items))) f.new }
{
    f.write_str("{")?;
    for (i, item) in items.iter().enumerate() {
        separate(i, ", ", f)?;
        show_entry(item, key, content, f)?;
    }
    f.write_str("}")
}

/// Prints a key, `=>` and a value.
#[cycle(show)]
fn show_entry<W: Write>(
    entry: &Value,
    key: &Schema,
    content: &Schema,
    f: &mut Formatter<W>,
) -> fmt::Result
    ensures { DisplaysOnOk W.write_str_gives f.old result
        (entry_text (text (layout_of key.now)) (text (layout_of content.now)) (tree entry.now))
        f.new }
{
    let Value::Group(pair) = entry else {
        return Err(fmt::Error);
    };
    if pair.len() != 2 {
        return Err(fmt::Error);
    }
    show(&pair[0], key, f)?;
    f.write_str(" => ")?;
    show(&pair[1], content, f)
}

/// Prints a tuple. In a tuple of one part, a `,` follows the part. Fails if the numbers of types and
/// values differ.
#[cycle(show)]
#[tactic(auto, using(crate::proofs::Joined::displays_failed))]
fn show_tuple<W: Write>(
    items: &Vec<Value>,
    parts: &Vec<Schema>,
    f: &mut Formatter<W>,
) -> fmt::Result
    ensures { DisplaysOnOk W.write_str_gives f.old result (parts_text (layouts_of parts.now.items)
        (texts (layouts_of parts.now.items)) (trees (map tree items.now.items))) f.new }
{
    if parts.len() != items.len() {
        return Err(fmt::Error);
    }
    f.write_str("(")?;
    for (i, item) in items.iter().enumerate() {
        separate(i, ", ", f)?;
        match parts.get(i) {
            Some(part) => show(item, part, f)?,
            None => return Err(fmt::Error),
        }
    }
    f.write_str(tuple_end(parts))
}

/// Returns the text after the parts of a tuple: `)`, or `,)` if it has one part.
fn tuple_end(parts: &Vec<Schema>) -> &'static str
    ensures { result.now ≡ tuple_end (layouts_of parts.now.items) }
{
    if parts.len() == 1 { ",)" } else { ")" }
}

/// Prints a struct. Fails if the numbers of fields and values differ.
#[cycle(show)]
#[tactic(auto, using(crate::proofs::Joined::displays_failed))]
fn show_struct<W: Write>(
    items: &Vec<Value>,
    fields: &Vec<Field>,
    f: &mut Formatter<W>,
) -> fmt::Result
    ensures { DisplaysOnOk W.write_str_gives f.old result
        (fields_text (field_texts (fields_of fields.now.items)) (trees (map tree items.now.items)))
        f.new }
{
    if fields.len() != items.len() {
        return Err(fmt::Error);
    }
    f.write_str("{")?;
    for (i, item) in items.iter().enumerate() {
        separate(i, ", ", f)?;
        match fields.get(i) {
            Some(field) => show_field(item, field, f)?,
            None => return Err(fmt::Error),
        }
    }
    f.write_str("}")
}

#[cycle(show)]
fn show_field<W: Write>(item: &Value, field: &Field, f: &mut Formatter<W>) -> fmt::Result
    ensures { DisplaysOnOk W.write_str_gives f.old result
        (field_text (string_bytes field.now.name) (text (layout_of field.now.content))
        (tree item.now)) f.new }
{
    f.write_str(&field.name)?;
    f.write_str(": ")?;
    show(item, &field.content, f)
}

/// Prints the name of a variant and its content: nothing for the unit, a tuple or a struct, or
/// another value in parentheses.
#[cycle(show)]
#[tactic(auto, using(crate::proofs::Joined::displays_failed))]
fn show_variant<W: Write>(content: &Value, variant: &Variant, f: &mut Formatter<W>) -> fmt::Result
    ensures { DisplaysOnOk W.write_str_gives f.old result
        (variant_text (string_bytes variant.now.name) (layout_of variant.now.content)
        (text (layout_of variant.now.content)) (tree content.now)) f.new }
{
    f.write_str(&variant.name)?;
    if is_unit(&variant.content) {
        return Ok(());
    }
    if has_brackets(&variant.content) {
        return show(content, &variant.content, f);
    }
    f.write_str("(")?;
    show(content, &variant.content, f)?;
    f.write_str(")")
}

/// Returns whether the type is the unit. Of a variant with this content, only the name is printed.
pub fn is_unit(schema: &Schema) -> bool
    ensures empty { result ≡ is_unit (layout_of schema.now) }
    ensures unit { result ≡ true → type_of schema.now ≡ group no_types }
{
    match schema {
        Schema::Tuple(parts) => parts.is_empty(),
        _ => false,
    }
}

/// Returns whether the type is a tuple or a struct. The text of such values has brackets of its
/// own, so that none are added to it after the name of a variant.
pub fn has_brackets(schema: &Schema) -> bool
    ensures { result ≡ has_brackets (layout_of schema.now) }
{
    matches!(schema, Schema::Tuple(_) | Schema::Struct(_))
}
