//! Reading a value from its text: [`read_text`]. A function that returns a [`Stop`] stops where the
//! text isn't what it takes, and with `Memory` if an allocation fails.

ghost use Rattle.std.specs.Prelude.{◌≡◌, ◌≢◌, ℕ, ◌<◌, Bool, List, [], ◌∷◌, ◌++◌, length, get_or};
ghost use Rattle.std.specs.Prelude.{IfOk, IfErr, OnOk, MatchResult, string_bytes};
ghost use Rattle.postcard_value_text.specs.{AreNamed, EndsWord, Group, HasDistinctNames};
ghost use Rattle.postcard_value_text.specs.{HaveDistinctNames, InParentheses, IsArray, IsGroup};
ghost use Rattle.postcard_value_text.specs.{IsOption, IsPlaceIn, IsSeq, IsVariant, IsWord, Named};
ghost use Rattle.postcard_value_text.specs.{NamesDiffer, ReadsItems, ReadsTree, Schema};
ghost use Rattle.postcard_value_text.specs.{SpellsArray, SpellsAt, SpellsChoice, SpellsContent};
ghost use Rattle.postcard_value_text.specs.{SpellsGroup, SpellsList, SpellsOption, SpellsTree};
ghost use Rattle.postcard_value_text.specs.{SpellsValue, TakesPhrase, contents, field_phrases};
ghost use Rattle.postcard_value_text.specs.{fields_of, layout_of, layouts_of, option_word};
ghost use Rattle.postcard_value_text.specs.{part_phrases, reads, reads_all, reads_at, tree, trees};
ghost use Rattle.postcard_value_text.specs.{type_of, types_of};

use crate::error::{Stop, TextError};
use crate::expected::Expected;
use crate::leaves::read_leaf;
use crate::show::{has_brackets, is_unit};
use crate::words::{close_parts, expect, separate, take_arrow, take_label, take_name};
use postcard_schema::{Field, Schema, Variant};
use postcard_schema_text::scan::{skip_blanks, take, take_word};
use postcard_value::value::Value;
use std::alloc::Global;

/// Reads the value of the schema that the text denotes: each name, number, string and bracket, in
/// order. White space of ASCII may come before any word or sign and at the end.
///
/// # Errors
///
/// Fails with `NotAValue` if the text is no value of the schema. The error has the place and what
/// is expected there. Fails with `OutOfMemory` if an allocation fails.
pub fn read_text<'a>(alloc: Global, schema: &'a Schema, text: &str) -> Result<Value, TextError<'a>>
    ensures value { IfOk result (λ v. reads (type_of schema.now) (tree v)) }
    ensures spelled { IfOk result (λ v. SpellsValue schema.now v text.now) }
    ensures accepted { HasDistinctNames (layout_of schema.now) → (v : Value)
        → reads (type_of schema.now) (tree v) → SpellsValue schema.now v text.now
        → MatchResult result (λ read. tree v ≡ tree read) (λ e. e ≡ TextError.OutOfMemory) }
    ensures place { IfErr result (IsPlaceIn text.now) }
{
    let mut rest = text.as_bytes();
    match read_whole(alloc, schema, &mut rest) {
        Ok(value) => Ok(value),
        Err(stop) => Err(stop.error_in(text)),
    }
}

/// Reads a value, after which only blanks may follow.
fn read_whole<'a>(alloc: Global, schema: &'a Schema, rest: &mut &[u8]) -> Result<Value, Stop<'a>>
    ensures value { IfOk result (λ v. reads (type_of schema.now) (tree v)) }
    ensures spelled { IfOk result (λ v. SpellsValue schema.now v rest.old.now) }
    ensures accepted { HasDistinctNames (layout_of schema.now) → (v : Value)
        → reads (type_of schema.now) (tree v) → SpellsValue schema.now v rest.old.now
        → MatchResult result (λ read. tree v ≡ tree read) (λ stop. stop ≡ Stop.Memory) }
{
    let value = read(alloc, schema, rest)?;
    skip_blanks(rest);
    if !rest.is_empty() {
        return Err(Stop::here(rest, Expected::End));
    }
    Ok(value)
}

fn push(items: &mut Vec<Value>, item: Value) -> Result<(), Stop<'static>>
    ensures added { OnOk result (items.new.items ≡ items.old.items ++ item ∷ []) }
    ensures only_out_of_memory { IfErr result (λ stop. stop ≡ Stop.Memory) }
{
    match items.push(item) {
        Ok(()) => Ok(()),
        Err(_) => Err(Stop::Memory),
    }
}

fn boxed(alloc: Global, value: Value) -> Result<Box<Value>, Stop<'static>>
    ensures held { IfOk result (λ held. held.value ≡ value) }
    ensures only_out_of_memory { IfErr result (λ stop. stop ≡ Stop.Memory) }
{
    match Box::new(alloc, value) {
        Ok(held) => Ok(held),
        Err(_) => Err(Stop::Memory),
    }
}

/// Returns an entry of a map: the group of a key and a value.
fn entry(alloc: Global, key: Value, value: Value) -> Result<Value, Stop<'static>>
    ensures both { IfOk result (λ whole.
        tree whole ≡ Group (trees (tree key ∷ tree value ∷ []))) }
    ensures only_out_of_memory { IfErr result (λ stop. stop ≡ Stop.Memory) }
{
    let mut items = Vec::new(alloc);
    push(&mut items, key)?;
    push(&mut items, value)?;
    Ok(Value::Group(items))
}

#[cycle(text)]
fn read<'a>(alloc: Global, schema: &'a Schema, rest: &mut &[u8]) -> Result<Value, Stop<'a>>
    ensures { ReadsTree (HasDistinctNames (layout_of schema.now)) (reads (type_of schema.now))
        (SpellsTree (layout_of schema.now)) rest.old.now result rest.new.now }
{
    match schema {
        Schema::Leaf(leaf) => read_leaf(alloc, *leaf, rest),
        Schema::Option(content) => read_option(alloc, content, rest),
        Schema::Seq(element) => read_list(alloc, element, rest),
        Schema::Map(key, value) => {
            expect(rest, b'{', Expected::Sign(b'{'))?;
            let mut items = Vec::new(alloc);
            for _ in 0..rest.len() {
                if take(rest, b'}') {
                    return Ok(Value::Seq(items));
                }
                let first = read(alloc, key, rest)?;
                take_arrow(rest)?;
                let second = read(alloc, value, rest)?;
                push(&mut items, entry(alloc, first, second)?)?;
                if !take(rest, b',') {
                    expect(rest, b'}', Expected::CommaOr(b'}'))?;
                    return Ok(Value::Seq(items));
                }
            }
            Err(Stop::here(rest, Expected::CommaOr(b'}')))
        }
        Schema::Array(element, count) => read_array(alloc, element, *count, rest),
        Schema::Tuple(parts) => read_tuple(alloc, parts, rest),
        Schema::Struct(fields) => read_struct(alloc, fields, rest),
        Schema::Enum(variants) => read_variant(alloc, variants, rest),
    }
}

/// Reads `None` or `Some(..)`.
#[cycle(text)]
fn read_option<'a>(alloc: Global, content: &'a Schema, rest: &mut &[u8]) -> Result<Value, Stop<'a>>
    ensures { ReadsTree (HasDistinctNames (layout_of content.now))
        (IsOption (reads (type_of content.now)))
        (SpellsOption (SpellsTree (layout_of content.now))) rest.old.now result rest.new.now }
{
    let some = take_option(rest)?;
    if !some {
        return Ok(Value::Absent);
    }
    let value = read_enclosed(alloc, content, rest)?;
    Ok(Value::Present(boxed(alloc, value)?))
}

/// Takes `None` or `Some`, and returns whether it is `Some`.
fn take_option(rest: &mut &[u8]) -> Result<bool, Stop<'static>>
    ensures taken { IfOk result (λ some.
        TakesPhrase (IsWord (option_word some)) rest.old.now rest.new.now) }
    ensures accepted { (some : Bool) (after : List ℕ)
        → TakesPhrase (IsWord (option_word some)) rest.old.now after → EndsWord after
        → MatchResult result (λ read. (read ≡ some) × (rest.new.now ≡ after)) (λ stop. ⊥) }
{
    skip_blanks(rest);
    if take_name(rest, b"None".as_slice()) {
        return Ok(false);
    }
    if take_name(rest, b"Some".as_slice()) {
        return Ok(true);
    }
    Err(Stop::here(rest, Expected::NoneOrSome))
}

/// Reads a value in parentheses.
#[cycle(text)]
fn read_enclosed<'a>(
    alloc: Global,
    content: &'a Schema,
    rest: &mut &[u8],
) -> Result<Value, Stop<'a>>
    ensures { ReadsTree (HasDistinctNames (layout_of content.now)) (reads (type_of content.now))
        (InParentheses (SpellsTree (layout_of content.now))) rest.old.now result rest.new.now }
{
    expect(rest, b'(', Expected::Sign(b'('))?;
    let value = read(alloc, content, rest)?;
    expect(rest, b')', Expected::Sign(b')'))?;
    Ok(value)
}

#[cycle(text)]
fn read_list<'a>(alloc: Global, element: &'a Schema, rest: &mut &[u8]) -> Result<Value, Stop<'a>>
    ensures { ReadsTree (HasDistinctNames (layout_of element.now))
        (IsSeq (reads (type_of element.now)))
        (SpellsList 91 93 (SpellsTree (layout_of element.now))) rest.old.now result rest.new.now }
{
    expect(rest, b'[', Expected::Sign(b'['))?;
    Ok(Value::Seq(read_items(alloc, element, rest)?))
}

#[cycle(text)]
fn read_array<'a>(
    alloc: Global,
    element: &'a Schema,
    count: usize,
    rest: &mut &[u8],
) -> Result<Value, Stop<'a>>
    ensures { ReadsTree (HasDistinctNames (layout_of element.now))
        (IsArray count (reads (type_of element.now)))
        (SpellsArray (SpellsTree (layout_of element.now))) rest.old.now result rest.new.now }
{
    expect(rest, b'[', Expected::Sign(b'['))?;
    let start = *rest;
    let items = read_items(alloc, element, rest)?;
    if items.len() != count {
        return Err(Stop::here(start, Expected::Elements(count)));
    }
    Ok(Value::Group(items))
}

/// Reads the elements of a list or an array, and `]`. A `,` may follow the last.
#[cycle(text)]
fn read_items<'a>(
    alloc: Global,
    element: &'a Schema,
    rest: &mut &[u8],
) -> Result<Vec<Value>, Stop<'a>>
    ensures { ReadsItems (HasDistinctNames (layout_of element.now)) (reads (type_of element.now))
        (SpellsTree (layout_of element.now)) 93 rest.old.now result rest.new.now }
{
    let mut items = Vec::new(alloc);
    for _ in 0..rest.len() {
        if take(rest, b']') {
            return Ok(items);
        }
        push(&mut items, read(alloc, element, rest)?)?;
        if !take(rest, b',') {
            expect(rest, b']', Expected::CommaOr(b']'))?;
            return Ok(items);
        }
    }
    Err(Stop::here(rest, Expected::CommaOr(b']')))
}

/// Reads a tuple. A `,` may follow the last part.
#[cycle(text)]
fn read_tuple<'a>(
    alloc: Global,
    parts: &'a Vec<Schema>,
    rest: &mut &[u8],
) -> Result<Value, Stop<'a>>
    ensures { ReadsTree (HaveDistinctNames (layouts_of parts.now.items))
        (IsGroup (reads_all (types_of parts.now.items)))
        (SpellsGroup 40 41 (part_phrases (layouts_of parts.now.items)))
        rest.old.now result rest.new.now }
{
    expect(rest, b'(', Expected::Sign(b'('))?;
    let mut items = Vec::new(alloc);
    for part in parts {
        separate(rest, items.is_empty(), Expected::Sign(b','))?;
        push(&mut items, read(alloc, part, rest)?)?;
    }
    close_parts(rest, items.is_empty(), b')')?;
    Ok(Value::Group(items))
}

/// Reads a struct. A `,` may follow the last field.
#[cycle(text)]
fn read_struct<'a>(
    alloc: Global,
    fields: &'a Vec<Field>,
    rest: &mut &[u8],
) -> Result<Value, Stop<'a>>
    ensures { ReadsTree (AreNamed (fields_of fields.now.items))
        (IsGroup (reads_all (types_of (contents fields.now.items))))
        (SpellsGroup 123 125 (field_phrases (fields_of fields.now.items)))
        rest.old.now result rest.new.now }
{
    expect(rest, b'{', Expected::Sign(b'{'))?;
    let mut items = Vec::new(alloc);
    for field in fields {
        let name = field.name.as_str();
        separate(rest, items.is_empty(), Expected::NextField(name))?;
        take_label(rest, name)?;
        push(&mut items, read(alloc, &field.content, rest)?)?;
    }
    close_parts(rest, items.is_empty(), b'}')?;
    Ok(Value::Group(items))
}

#[cycle(text)]
fn read_variant<'a>(
    alloc: Global,
    variants: &'a Vec<Variant>,
    rest: &mut &[u8],
) -> Result<Value, Stop<'a>>
    ensures { ReadsTree (NamesDiffer (fields_of variants.now.items)
        × AreNamed (fields_of variants.now.items))
        (IsVariant (reads_at (types_of (contents variants.now.items))))
        (SpellsChoice (SpellsAt (fields_of variants.now.items))) rest.old.now result rest.new.now }
{
    skip_blanks(rest);
    let start = *rest;
    let index = index_of(variants, take_word(rest));
    let Some(variant) = variants.get(index) else {
        return Err(Stop::here(start, Expected::Variant));
    };
    let Ok(index) = u32::try_from(index) else {
        return Err(Stop::here(start, Expected::Variant));
    };
    let content = read_content(alloc, &variant.content, rest)?;
    Ok(Value::Variant(index, boxed(alloc, content)?))
}

/// Returns the index of the variant with this name, or the number of variants if none has it.
fn index_of(variants: &Vec<Variant>, name: &[u8]) -> usize
    ensures found { result < length variants.now.items →
        (n : Named Schema) × (n ≡ get_or variants.now.items result n)
        × (string_bytes n.name ≡ name.now) }
    ensures first { (i : ℕ) (n : Named Schema) → i < length variants.now.items → i < result
        → n ≡ get_or variants.now.items i n → string_bytes n.name ≢ name.now }
{
    for (i, variant) in variants.iter().enumerate() {
        if variant.name.as_bytes() == name {
            return i;
        }
    }
    variants.len()
}

/// Reads the content of a variant after its name: nothing for the unit, a tuple or a struct, or
/// another value in parentheses.
#[cycle(text)]
fn read_content<'a>(alloc: Global, content: &'a Schema, rest: &mut &[u8]) -> Result<Value, Stop<'a>>
    ensures { ReadsTree (HasDistinctNames (layout_of content.now)) (reads (type_of content.now))
        (SpellsContent (layout_of content.now) (SpellsTree (layout_of content.now)))
        rest.old.now result rest.new.now }
{
    if is_unit(content) {
        return Ok(Value::Group(Vec::new(alloc)));
    }
    if has_brackets(content) {
        return read(alloc, content, rest);
    }
    read_enclosed(alloc, content, rest)
}
