//! The least and the greatest size of a type: [`sizes_of`].

ghost use Rattle.std.specs.Prelude.{◌≡◌, Some};
ghost use Rattle.postcard_schema_size.specs.{IsGroup, IsLeastSize, IsVariant, IsVariantAt};
ghost use Rattle.postcard_schema_size.specs.{contents, len_of, limit, limit_all, limit_of_choice};
ghost use Rattle.postcard_schema_size.specs.{reads, reads_all, reads_at, sum_of, type_of, types_of};

use crate::sizes::{Sizes, array_sizes, both, either, exactly, leaf_sizes};
use postcard_max::sizes::{sum, varint_len};
use postcard_schema::{Field, Schema, Variant};

/// Returns the sizes of the type's messages: what `min_size` and `max_size` return.
#[cycle(walk)]
pub fn sizes_of(schema: &Schema) -> Sizes
    ensures least { IsLeastSize result.least (reads (type_of schema.now)) }
    ensures greatest { result.greatest ≡ (limit (type_of schema.now)).greatest }
{
    match schema {
        Schema::Leaf(leaf) => leaf_sizes(*leaf),
        Schema::Option(content) => Sizes {
            least: Some(1),
            greatest: sum(Some(1), sizes_of(content).greatest),
        },
        Schema::Seq(_) | Schema::Map(_, _) => Sizes {
            least: Some(1),
            greatest: None,
        },
        Schema::Array(element, count) => array_sizes(*count, sizes_of(element)),
        Schema::Tuple(parts) => tuple_sizes(parts),
        Schema::Struct(fields) => struct_sizes(fields),
        Schema::Enum(variants) => enum_sizes(variants),
    }
}

#[cycle(walk)]
fn tuple_sizes(parts: &Vec<Schema>) -> Sizes
    ensures least { IsLeastSize result.least (IsGroup (reads_all (types_of parts.now.items))) }
    ensures greatest { result.greatest ≡ (limit_all (types_of parts.now.items)).greatest }
{
    let mut total = exactly(0);
    for part in parts {
        total = both(total, sizes_of(part));
    }
    total
}

#[cycle(walk)]
fn struct_sizes(fields: &Vec<Field>) -> Sizes
    ensures least { IsLeastSize result.least
        (IsGroup (reads_all (types_of (contents fields.now.items)))) }
    ensures greatest { result.greatest
        ≡ (limit_all (types_of (contents fields.now.items))).greatest }
{
    let mut total = exactly(0);
    for field in fields {
        total = both(total, sizes_of(&field.content));
    }
    total
}

/// Returns the sizes of one of the variants, its index included.
#[cycle(walk)]
fn enum_sizes(variants: &Vec<Variant>) -> Sizes
    ensures least { IsLeastSize result.least
        (IsVariant (reads_at (types_of (contents variants.now.items)))) }
    ensures greatest { result.greatest
        ≡ (limit_of_choice (types_of (contents variants.now.items))).greatest }
{
    if variants.is_empty() {
        return Sizes {
            least: None,
            greatest: None,
        };
    }
    let mut sizes = Sizes {
        least: None,
        greatest: Some(0),
    };
    for (index, variant) in variants.iter().enumerate() {
        sizes = either(sizes, variant_sizes(index, &variant.content));
    }
    sizes
}

/// Returns the sizes of the variant at an index. No message has one at an index of more than 32
/// bits.
#[cycle(walk)]
fn variant_sizes(index: usize, content: &Schema) -> Sizes
    ensures least { IsLeastSize result.least (IsVariantAt index (reads (type_of content.now))) }
    ensures greatest { result.greatest
        ≡ sum_of (Some (len_of index)) (limit (type_of content.now)).greatest }
{
    let sizes = both(exactly(varint_len(index)), sizes_of(content));
    if index > u32::MAX as usize {
        return Sizes {
            least: None,
            greatest: sizes.greatest,
        };
    }
    sizes
}
