//! Adds the text of a type's shape to a digest, without making a string of it.

ghost use Rattle.postcard_schema.specs.Meaning.{choice, contents, group, type_of, types_of};
ghost use Rattle.postcard_key.specs.{Continues, shape_text};

use crate::text::{add, add_count, add_leaf};
use crc::Digest;
use postcard_schema::{Field, Schema, Variant};

/// Adds the text of a type's shape.
#[cycle(add_shape)]
pub(crate) fn add_shape(schema: &Schema, digest: &mut Digest<'_, u64>)
    ensures { Continues digest.old (shape_text (type_of schema.now)) digest.new }
{
    match schema {
        Schema::Leaf(leaf) => add_leaf(*leaf, digest),
        Schema::Option(content) => {
            add("Option<", digest);
            add_shape(content, digest);
            add(">", digest);
        }
        Schema::Seq(element) => {
            add("[", digest);
            add_shape(element, digest);
            add("]", digest);
        }
        Schema::Map(key, value) => {
            add("[(", digest);
            add_shape(key, digest);
            add(",", digest);
            add_shape(value, digest);
            add(",)]", digest);
        }
        Schema::Array(element, count) => {
            add("[", digest);
            add_shape(element, digest);
            add(";", digest);
            add_count(*count, digest);
            add("]", digest);
        }
        Schema::Tuple(parts) => add_parts(parts, digest),
        Schema::Struct(fields) => add_fields(fields, digest),
        Schema::Enum(variants) => add_variants(variants, digest),
    }
}

/// Adds the text of a tuple.
#[cycle(add_shape)]
fn add_parts(parts: &Vec<Schema>, digest: &mut Digest<'_, u64>)
    ensures { Continues digest.old (shape_text (group (types_of parts.now.items))) digest.new }
{
    add("(", digest);
    for part in parts {
        add_shape(part, digest);
        add(",", digest);
    }
    add(")", digest);
}

/// Adds the text of a struct, which is that of the tuple of its fields.
#[cycle(add_shape)]
fn add_fields(fields: &Vec<Field>, digest: &mut Digest<'_, u64>)
    ensures { Continues digest.old (shape_text (group (types_of (contents fields.now.items))))
        digest.new }
{
    add("(", digest);
    for field in fields {
        add_shape(&field.content, digest);
        add(",", digest);
    }
    add(")", digest);
}

/// Adds the text of an enum.
#[cycle(add_shape)]
fn add_variants(variants: &Vec<Variant>, digest: &mut Digest<'_, u64>)
    ensures { Continues digest.old (shape_text (choice (types_of (contents variants.now.items))))
        digest.new }
{
    add("<", digest);
    for variant in variants {
        add("|", digest);
        add_shape(&variant.content, digest);
    }
    add(">", digest);
}
