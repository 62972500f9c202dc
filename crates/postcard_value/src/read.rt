//! Reading a value of a schema from a source: [`read_value`]. The functions below it fail as it
//! does.

ghost use Rattle.std.specs.Prelude.{◌≡◌, ◌++◌, ◌∷◌, [], IfOk, IfErr, OnOk};
ghost use Rattle.postcard_value.specs.{AreRead, AreTrees, DeserializesTree, IsArray, IsGroup};
ghost use Rattle.postcard_value.specs.{IsOption, IsSeq, IsTree, IsVariant, Reads, ReadsOnto};
ghost use Rattle.postcard_value.specs.{SpellsAll, contents, leaf_reads, memory, reads};
ghost use Rattle.postcard_value.specs.{reads_all, reads_at, source_of, type_of, types_of};

use crate::numbers::{read_bits, read_float, read_integer};
use crate::value::Value;
use postcard_de::{Deserializer, Error, Flavor, Result};
use postcard_schema::{Field, Leaf, Schema, Variant};
use std::alloc::Global;

/// Reads a value of the schema from the source, as `Deserialize::deserialize` does for a type of
/// the program.
///
/// # Errors
///
/// Fails with the error of the first part that can't be read. That is an error of a `deserialize_*`
/// call of [`Deserializer`], or `SerdeDeCustom` if an index has no variant. Fails with
/// `OutOfMemory` if an allocation fails. A count or a length in the message alone never decides how
/// much memory is requested.
#[cycle(read)]
pub fn read_value<'de, F: Flavor>(
    alloc: Global,
    schema: &Schema,
    d: &mut Deserializer<'de, F>,
) -> Result<Value>
    ensures { DeserializesTree F.Flavor (reads (type_of schema.now)) IsTree memory
        d.old result d.new }
{
    match schema {
        Schema::Leaf(leaf) => read_leaf(alloc, *leaf, d),
        Schema::Option(content) => read_option(alloc, content, d),
        Schema::Seq(element) => read_list(alloc, element, d),
        Schema::Map(key, value) => {
            let count = d.deserialize_u64()?;
            let mut items = Vec::new(alloc);
            for _ in 0..count {
                let mut pair = Vec::new(alloc);
                read_part(alloc, key, &mut pair, d)?;
                read_part(alloc, value, &mut pair, d)?;
                push(&mut items, Value::Group(pair))?;
            }
            Ok(Value::Seq(items))
        }
        Schema::Array(element, count) => read_array(alloc, element, *count, d),
        Schema::Tuple(parts) => read_tuple(alloc, parts, d),
        Schema::Struct(fields) => read_struct(alloc, fields, d),
        Schema::Enum(variants) => read_variant(alloc, variants, d),
    }
}

/// Reads a value and appends it to `items`.
#[cycle(read)]
fn read_part<'de, F: Flavor>(
    alloc: Global,
    schema: &Schema,
    items: &mut Vec<Value>,
    d: &mut Deserializer<'de, F>,
) -> Result<()>
    ensures { ReadsOnto F.Flavor (reads (type_of schema.now)) items.old.items (source_of d.old)
        result items.new.items (source_of d.new) }
{
    let item = read_value(alloc, schema, d)?;
    push(items, item)?;
    Ok(())
}

#[cycle(read)]
fn read_option<'de, F: Flavor>(
    alloc: Global,
    content: &Schema,
    d: &mut Deserializer<'de, F>,
) -> Result<Value>
    ensures { DeserializesTree F.Flavor (IsOption (reads (type_of content.now))) IsTree memory
        d.old result d.new }
{
    match d.deserialize_u8()? {
        0 => Ok(Value::Absent),
        1 => {
            let value = read_value(alloc, content, d)?;
            let held = boxed(alloc, value)?;
            Ok(Value::Present(held))
        }
        _ => Err(Error::DeserializeBadOption),
    }
}

#[cycle(read)]
fn read_list<'de, F: Flavor>(
    alloc: Global,
    element: &Schema,
    d: &mut Deserializer<'de, F>,
) -> Result<Value>
    ensures { DeserializesTree F.Flavor (IsSeq (reads (type_of element.now))) IsTree memory
        d.old result d.new }
{
    let count = d.deserialize_u64()?;
    let items = read_elements(alloc, element, count, d)?;
    Ok(Value::Seq(items))
}

#[cycle(read)]
fn read_array<'de, F: Flavor>(
    alloc: Global,
    element: &Schema,
    count: usize,
    d: &mut Deserializer<'de, F>,
) -> Result<Value>
    ensures { DeserializesTree F.Flavor (IsArray count (reads (type_of element.now))) IsTree memory
        d.old result d.new }
{
    let items = read_elements(alloc, element, count as u64, d)?;
    Ok(Value::Group(items))
}

#[cycle(read)]
fn read_elements<'de, F: Flavor>(
    alloc: Global,
    element: &Schema,
    count: u64,
    d: &mut Deserializer<'de, F>,
) -> Result<Vec<Value>>
    ensures { Reads F.Flavor SpellsAll (AreRead count (reads (type_of element.now))) AreTrees memory
        (source_of d.old) result (source_of d.new) }
{
    let mut items = Vec::new(alloc);
    for _ in 0..count {
        read_part(alloc, element, &mut items, d)?;
    }
    Ok(items)
}

#[cycle(read)]
fn read_tuple<'de, F: Flavor>(
    alloc: Global,
    parts: &Vec<Schema>,
    d: &mut Deserializer<'de, F>,
) -> Result<Value>
    ensures { DeserializesTree F.Flavor (IsGroup (reads_all (types_of parts.now.items)))
        IsTree memory d.old result d.new }
{
    let mut items = Vec::new(alloc);
    for part in parts {
        read_part(alloc, part, &mut items, d)?;
    }
    Ok(Value::Group(items))
}

#[cycle(read)]
fn read_struct<'de, F: Flavor>(
    alloc: Global,
    fields: &Vec<Field>,
    d: &mut Deserializer<'de, F>,
) -> Result<Value>
    ensures { DeserializesTree F.Flavor (IsGroup (reads_all (types_of (contents fields.now.items))))
        IsTree memory d.old result d.new }
{
    let mut items = Vec::new(alloc);
    for field in fields {
        read_part(alloc, &field.content, &mut items, d)?;
    }
    Ok(Value::Group(items))
}

#[cycle(read)]
fn read_variant<'de, F: Flavor>(
    alloc: Global,
    variants: &Vec<Variant>,
    d: &mut Deserializer<'de, F>,
) -> Result<Value>
    ensures { DeserializesTree F.Flavor
        (IsVariant (reads_at (types_of (contents variants.now.items))))
        IsTree memory d.old result d.new }
{
    let index = d.deserialize_enum("", &[])?;
    let Some(variant) = variants.get(index as usize) else {
        return Err(Error::SerdeDeCustom);
    };
    let content = read_value(alloc, &variant.content, d)?;
    let held = boxed(alloc, content)?;
    Ok(Value::Variant(index, held))
}

#[inline(always)]
fn push(items: &mut Vec<Value>, item: Value) -> Result<()>
    ensures added { OnOk result (items.new.items ≡ items.old.items ++ item ∷ []) }
    ensures only_out_of_memory { IfErr result (λ e. e ≡ Error.OutOfMemory) }
{
    match items.push(item) {
        Ok(()) => Ok(()),
        Err(_) => Err(Error::OutOfMemory),
    }
}

fn boxed(alloc: Global, value: Value) -> Result<Box<Value>>
    ensures held { IfOk result (λ held. held.value ≡ value) }
    ensures only_out_of_memory { IfErr result (λ e. e ≡ Error.OutOfMemory) }
{
    match Box::new(alloc, value) {
        Ok(held) => Ok(held),
        Err(_) => Err(Error::OutOfMemory),
    }
}

fn read_leaf<'de, F: Flavor>(
    alloc: Global,
    leaf: Leaf,
    d: &mut Deserializer<'de, F>,
) -> Result<Value>
    ensures { DeserializesTree F.Flavor (leaf_reads leaf) IsTree memory d.old result d.new }
{
    match leaf {
        Leaf::Bool => Ok(Value::Bool(d.deserialize_bool()?)),
        Leaf::Integer(integer) => Ok(Value::Integer(integer, read_integer(integer, d)?)),
        Leaf::Float(float) => Ok(Value::Float(float, read_float(alloc, float, d)?)),
        Leaf::Char => Ok(Value::Char(d.deserialize_char()?)),
        Leaf::Str => Ok(Value::Str(d.deserialize_string(alloc)?)),
        Leaf::Bytes => Ok(Value::Bytes(d.deserialize_byte_buf(alloc)?)),
        Leaf::Fixed(order, integer) => Ok(Value::Fixed(
            order,
            integer,
            read_bits(alloc, order, integer, d)?,
        )),
    }
}
