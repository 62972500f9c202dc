//! Adds the text of a type with its names to a digest, without making a string of it.

ghost use Rattle.postcard_schema.specs.Views.{enum_view, named_views, struct_view, tuple_view};
ghost use Rattle.postcard_schema.specs.Views.{view, views};
ghost use Rattle.postcard_key.specs.{Continues, named_text};

use crate::text::{add, add_count, add_leaf};
use crc::Digest;
use postcard_schema::{Field, Schema, Variant};

/// Adds the text of a type with its names.
#[cycle(add_named)]
pub(crate) fn add_named(schema: &Schema, digest: &mut Digest<'_, u64>)
    ensures { Continues digest.old (named_text (view schema.now)) digest.new }
{
    match schema {
        Schema::Leaf(leaf) => add_leaf(*leaf, digest),
        Schema::Option(content) => {
            add("Option<", digest);
            add_named(content, digest);
            add(">", digest);
        }
        Schema::Seq(element) => {
            add("[", digest);
            add_named(element, digest);
            add("]", digest);
        }
        Schema::Map(key, value) => {
            add("{", digest);
            add_named(key, digest);
            add("=>", digest);
            add_named(value, digest);
            add("}", digest);
        }
        Schema::Array(element, count) => {
            add("[", digest);
            add_named(element, digest);
            add(";", digest);
            add_count(*count, digest);
            add("]", digest);
        }
        Schema::Tuple(parts) => add_parts(parts, digest),
        Schema::Struct(fields) => add_fields(fields, digest),
        Schema::Enum(variants) => add_variants(variants, digest),
    }
}

/// Adds the text of a tuple.
#[cycle(add_named)]
fn add_parts(parts: &Vec<Schema>, digest: &mut Digest<'_, u64>)
    ensures { Continues digest.old (named_text (tuple_view (views parts.now.items))) digest.new }
{
    add("(", digest);
    for part in parts {
        add_named(part, digest);
        add(",", digest);
    }
    add(")", digest);
}

/// Adds the text of a struct.
#[cycle(add_named)]
fn add_fields(fields: &Vec<Field>, digest: &mut Digest<'_, u64>)
    ensures { Continues digest.old (named_text (struct_view (named_views fields.now.items)))
        digest.new }
{
    add("{", digest);
    for field in fields {
        add(&field.name, digest);
        add(":", digest);
        add_named(&field.content, digest);
        add(",", digest);
    }
    add("}", digest);
}

/// Adds the text of an enum.
#[cycle(add_named)]
fn add_variants(variants: &Vec<Variant>, digest: &mut Digest<'_, u64>)
    ensures { Continues digest.old (named_text (enum_view (named_views variants.now.items)))
        digest.new }
{
    if variants.is_empty() {
        add("(|)", digest);
        return;
    }
    add("(", digest);
    for variant in variants {
        add("|", digest);
        add(&variant.name, digest);
        add("(", digest);
        add_named(&variant.content, digest);
        add(")", digest);
    }
    add(")", digest);
}
