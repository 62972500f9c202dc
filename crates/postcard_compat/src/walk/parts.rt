//! The parts of a row, and the contents of variants.

use postcard_schema::Schema;

/// What a variant of a type holds.
#[derive(Clone, Copy)]
pub(crate) enum Content<'a> {
    /// A value of this type.
    Of(&'a Schema),
    /// Nothing: the option without a value.
    Empty,
    /// There is no such variant.
    Unknown,
}

/// Returns what the variant with an index holds, of an enum or an option.
pub(crate) fn content_of(schema: &Schema, index: usize) -> Content<'_> {
    match schema {
        Schema::Enum(variants) => match variants.get(index) {
            Some(variant) => Content::Of(&variant.content),
            None => Content::Unknown,
        },
        Schema::Option(content) => match index {
            0 => Content::Empty,
            1 => Content::Of(content),
            _ => Content::Unknown,
        },
        _ => Content::Unknown,
    }
}

/// A part of a flattened type, and its name.
#[derive(Clone, Copy)]
pub(crate) struct Part<'a> {
    pub(crate) name: &'a str,
    pub(crate) content: &'a Schema,
}

/// Returns the part of a row at an index. A type that is no row is its own only part, without a
/// name.
pub(crate) fn part_of(schema: &Schema, index: usize) -> Option<Part<'_>> {
    match schema {
        Schema::Struct(fields) => match fields.get(index) {
            Some(field) => Some(Part {
                name: &field.name,
                content: &field.content,
            }),
            None => None,
        },
        Schema::Tuple(_) => None,
        _ => {
            if index > 0 {
                return None;
            }
            Some(Part {
                name: "",
                content: schema,
            })
        }
    }
}
