//! The walk over a value: the lines of each kind of part.
//!
//! A function reads the part that its name says from the start of the bytes, adds the part's lines,
//! and returns the remaining bytes. In a list, the elements after the first `most` share one line.
//! A function fails with `OutOfMemory` if an allocation fails, and with the error of a part that
//! can't be read, once its line is added.

ghost use Rattle.std.specs.Prelude.{◌≡◌, ◌-◌, ℕ, Box};
ghost use Rattle.postcard_explain.specs.{AsLeaf, Enum, ExplainsElements, ExplainsItem};
ghost use Rattle.postcard_explain.specs.{ExplainsMore, ExplainsRow, Global, HasItems, Option};
ghost use Rattle.postcard_explain.specs.{RefusesElements, RefusesItem, RefusesMore, RefusesRow};
ghost use Rattle.postcard_explain.specs.{Schema, Walks, WalksValue, at_element, item_of, parts_of};
ghost use Rattle.postcard_explain.specs.{plain_label};

use crate::line::{Expected, Label, LineKind};
use crate::row::{Item, Row, skip_item};
use crate::walk::{Place, Walk, front_of, inside, open_parts, push, push_more, refuse};
use postcard_schema::{Leaf, Schema, Variant};
use postcard_value::take_from_bytes;
use postcard_wire::{Error, Result};

/// Adds the lines of a value of the schema.
#[cycle(explain)]
pub(crate) fn explain_part<'a>(
    walk: &mut Walk<'a>,
    most: u64,
    schema: &'a Schema,
    place: Place<'a>,
    bytes: &'a [u8],
) -> Result<&'a [u8]>
    ensures { WalksValue most place.entry.depth (plain_label place.entry.label) schema.now
        walk.old.lines.items bytes.now walk.new.lines.items result }
{
    match schema {
        Schema::Leaf(leaf) => explain_leaf(walk, schema, *leaf, place, bytes),
        Schema::Option(content) => explain_option(walk, most, content, place, bytes),
        Schema::Seq(element) => explain_list(walk, most, Item::Value(element), place, bytes),
        Schema::Map(key, value) => explain_list(walk, most, Item::Entry(key, value), place, bytes),
        Schema::Array(element, count) => {
            let depth = open_parts(walk, place)?;
            let item = Item::Value(element);
            explain_elements(walk, most, item, *count as u64, depth, bytes)
        }
        Schema::Tuple(parts) => explain_row(walk, most, Row::Tuple(parts), place, bytes),
        Schema::Struct(fields) => explain_row(walk, most, Row::Struct(fields), place, bytes),
        Schema::Enum(variants) => explain_variant(walk, most, variants, place, bytes),
    }
}

fn explain_leaf<'a>(
    walk: &mut Walk<'a>,
    schema: &'a Schema,
    leaf: Leaf,
    place: Place<'a>,
    bytes: &'a [u8],
) -> Result<&'a [u8]>
    ensures { (most : ℕ) → schema.now ≡ AsLeaf leaf
        → WalksValue most place.entry.depth (plain_label place.entry.label) schema.now
        walk.old.lines.items bytes.now walk.new.lines.items result }
{
    match take_from_bytes(walk.alloc, schema, bytes) {
        Ok((value, rest)) => {
            push(
                walk,
                place,
                LineKind::Value(schema, value),
                front_of(bytes, rest),
            )?;
            Ok(rest)
        }
        Err(error) => refuse(walk, Expected::Leaf(leaf), place, bytes, error),
    }
}

/// Adds the line of an option's first byte, and the lines of its content.
#[cycle(explain)]
fn explain_option<'a>(
    walk: &mut Walk<'a>,
    most: u64,
    content: &'a Schema,
    place: Place<'a>,
    bytes: &'a [u8],
) -> Result<&'a [u8]>
    ensures { (s : Schema) (held : Box Schema Global) → s ≡ Option held → held.value ≡ content.now
        → WalksValue most place.entry.depth (plain_label place.entry.label) s
        walk.old.lines.items bytes.now walk.new.lines.items result }
{
    let Some((first, rest)) = bytes.split_first() else {
        let error = Error::DeserializeUnexpectedEnd;
        return refuse(walk, Expected::Option, place, bytes, error);
    };
    match *first {
        0 => {
            push(walk, place, LineKind::Absent, front_of(bytes, rest))?;
            Ok(rest)
        }
        1 => {
            push(walk, place, LineKind::Present, front_of(bytes, rest))?;
            explain_part(walk, most, content, inside(place), rest)
        }
        _ => {
            let error = Error::DeserializeBadOption;
            refuse(walk, Expected::Option, place, bytes, error)
        }
    }
}

/// Adds the line of the count of a list or a map, and the lines of its items.
#[cycle(explain)]
fn explain_list<'a>(
    walk: &mut Walk<'a>,
    most: u64,
    item: Item<'a>,
    place: Place<'a>,
    bytes: &'a [u8],
) -> Result<&'a [u8]>
    ensures { (s : Schema) → HasItems s (item_of item.entry)
        → WalksValue most place.entry.depth (plain_label place.entry.label) s
        walk.old.lines.items bytes.now walk.new.lines.items result }
{
    match postcard_de::take_from_bytes::<u64>(walk.alloc, bytes) {
        Ok((count, rest)) => {
            push(walk, place, LineKind::Count(count), front_of(bytes, rest))?;
            explain_elements(walk, most, item, count, inside(place).depth, rest)
        }
        Err(error) => refuse(walk, Expected::Count, place, bytes, error),
    }
}

/// Adds the lines of `count` items, at this depth.
#[cycle(explain)]
fn explain_elements<'a>(
    walk: &mut Walk<'a>,
    most: u64,
    item: Item<'a>,
    count: u64,
    depth: usize,
    bytes: &'a [u8],
) -> Result<&'a [u8]>
    ensures { Walks (ExplainsElements most depth (item_of item.entry) count)
        (RefusesElements most depth (item_of item.entry) count)
        walk.old.lines.items bytes.now walk.new.lines.items result }
{
    let mut rest = bytes;
    for i in 0..count.min(most) {
        let place = Place {
            depth,
            label: Label::Element(i),
        };
        rest = explain_item(walk, most, item, place, rest)?;
    }
    explain_more(walk, most, item, count, depth, rest)
}

/// Adds one line for the items after the first `most` of `count`, if there are some. If one of them
/// can't be read, the line is that of those before it, and the refused item has lines of its own.
#[cycle(explain)]
fn explain_more<'a>(
    walk: &mut Walk<'a>,
    most: u64,
    item: Item<'a>,
    count: u64,
    depth: usize,
    bytes: &'a [u8],
) -> Result<&'a [u8]>
    ensures { Walks (ExplainsMore depth (at_element most) (item_of item.entry) (count - most))
        (RefusesMore most depth (item_of item.entry) count)
        walk.old.lines.items bytes.now walk.new.lines.items result }
{
    let place = Place {
        depth,
        label: Label::Element(most),
    };
    let mut rest = bytes;
    for i in most..count {
        match skip_item(walk.alloc, item, rest) {
            Ok(after) => rest = after,
            Err(error) => {
                push_more(walk, place, i - most, front_of(bytes, rest))?;
                let refused = Place {
                    depth,
                    label: Label::Element(i),
                };
                explain_item(walk, most, item, refused, rest)?;
                return Err(error);
            }
        }
    }
    push_more(
        walk,
        place,
        count.saturating_sub(most),
        front_of(bytes, rest),
    )?;
    Ok(rest)
}

/// Adds the lines of an item of a list, an array or a map.
#[cycle(explain)]
fn explain_item<'a>(
    walk: &mut Walk<'a>,
    most: u64,
    item: Item<'a>,
    place: Place<'a>,
    bytes: &'a [u8],
) -> Result<&'a [u8]>
    ensures { Walks (ExplainsItem most place.entry.depth (plain_label place.entry.label)
        (item_of item.entry))
        (RefusesItem most place.entry.depth (plain_label place.entry.label) (item_of item.entry))
        walk.old.lines.items bytes.now walk.new.lines.items result }
{
    match item {
        Item::Value(schema) => explain_part(walk, most, schema, place, bytes),
        Item::Entry(key, value) => explain_row(walk, most, Row::Entry(key, value), place, bytes),
    }
}

/// Adds the line before parts, and the lines of each part.
#[cycle(explain)]
fn explain_row<'a>(
    walk: &mut Walk<'a>,
    most: u64,
    row: Row<'a>,
    place: Place<'a>,
    bytes: &'a [u8],
) -> Result<&'a [u8]>
    ensures { Walks (ExplainsRow most place.entry.depth (plain_label place.entry.label)
        (parts_of row.entry))
        (RefusesRow most place.entry.depth (plain_label place.entry.label) (parts_of row.entry))
        walk.old.lines.items bytes.now walk.new.lines.items result }
{
    let depth = open_parts(walk, place)?;
    let mut rest = bytes;
    for i in 0..row.len() {
        let (label, part) = row.part(i);
        rest = explain_part(walk, most, part, Place { depth, label }, rest)?;
    }
    Ok(rest)
}

/// Adds the line of a variant's index, and the lines of its content.
#[cycle(explain)]
fn explain_variant<'a>(
    walk: &mut Walk<'a>,
    most: u64,
    variants: &'a Vec<Variant>,
    place: Place<'a>,
    bytes: &'a [u8],
) -> Result<&'a [u8]>
    ensures { (s : Schema) → s ≡ Enum variants.now
        → WalksValue most place.entry.depth (plain_label place.entry.label) s
        walk.old.lines.items bytes.now walk.new.lines.items result }
{
    let (index, rest) = match postcard_de::take_from_bytes::<u32>(walk.alloc, bytes) {
        Ok(read) => read,
        Err(error) => return refuse(walk, Expected::Variant, place, bytes, error),
    };
    let Some(variant) = variants.get(index as usize) else {
        return refuse(walk, Expected::Variant, place, bytes, Error::SerdeDeCustom);
    };
    let kind = LineKind::Variant(index, &variant.name);
    push(walk, place, kind, front_of(bytes, rest))?;
    explain_part(walk, most, &variant.content, inside(place), rest)
}
