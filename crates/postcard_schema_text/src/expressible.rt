//! Which schemas have a type expression: the check before one is printed.

ghost use Rattle.std.specs.Prelude.{◌≡◌, ◌^◌, ◌<◌, Decides, MatchBool, MatchResult};
ghost use Rattle.postcard_schema.specs.{has_bytes, type_of};
ghost use Rattle.postcard_schema.specs.Meaning.{entry_of};
ghost use Rattle.postcard_schema_text.specs.{AllHaveText, AreSomeNames, ElementHasFlaw};
ghost use Rattle.postcard_schema_text.specs.{ElementHasText, EntryHasFlaw, EntryHasText, HasFlaw};
ghost use Rattle.postcard_schema_text.specs.{HasNamesFlaw, HasText, IsFreeIn, IsNameFor, IsTakenBy};
ghost use Rattle.postcard_schema_text.specs.{LeafHasFlaw, LeafHasText, NamedHaveFlaw, NamedHaveText};
ghost use Rattle.postcard_schema_text.specs.{SomeHasFlaw, named_views, view, views};

use crate::error::TextError;
use crate::scan::{is_identifier, is_of_word, is_variant_name};
use postcard_schema::{Leaf, Named, Schema};

/// What a name names.
#[derive(Clone, Copy)]
pub(crate) enum Kind {
    /// A field of a struct.
    Field,
    /// A variant of an enum.
    Variant,
}

/// Checks that the schema has a type expression with brackets nested at most `depth` deep.
#[cycle(check)]
pub(crate) fn check(schema: &Schema, depth: usize) -> Result<(), TextError>
    ensures { MatchResult result (λ u. HasText depth (view schema.now))
        (λ e. HasFlaw e depth (view schema.now)) }
{
    if depth == 0 {
        return Err(TextError::TooDeep);
    }
    let inner = depth - 1;
    match schema {
        Schema::Leaf(leaf) => check_leaf(*leaf, inner),
        Schema::Option(content) => check(content, inner),
        Schema::Seq(element) => check_element(element, inner),
        Schema::Map(key, value) => check_entry(key, value, inner),
        Schema::Array(element, count) => check_array(element, *count, inner),
        Schema::Tuple(parts) => check_parts(parts, inner),
        Schema::Struct(fields) => check_named(fields, Kind::Field, inner),
        Schema::Enum(_) if inner == 0 => Err(TextError::TooDeep),
        Schema::Enum(variants) => check_named(variants, Kind::Variant, inner - 1),
    }
}

/// Checks a type without parts.
fn check_leaf(leaf: Leaf, depth: usize) -> Result<(), TextError>
    ensures { MatchResult result (λ u. LeafHasText depth leaf) (λ e. LeafHasFlaw e depth leaf) }
{
    match leaf {
        Leaf::Fixed(_, _) if depth == 0 => Err(TextError::TooDeep),
        Leaf::Fixed(_, integer) if integer.size() == 1 => Err(TextError::NarrowNumber),
        _ => Ok(()),
    }
}

/// Checks the type of the elements of a list or an array.
#[cycle(check)]
fn check_element(element: &Schema, depth: usize) -> Result<(), TextError>
    ensures { MatchResult result (λ u. ElementHasText depth (view element.now))
        (λ e. ElementHasFlaw e depth (view element.now)) }
{
    if !element.has_bytes() {
        return Err(TextError::NoBytes);
    }
    check(element, depth)
}

/// Checks the type of the elements of an array. The count is below 2^64, as each `usize`.
#[cycle(check)]
fn check_array(element: &Schema, count: usize, depth: usize) -> Result<(), TextError>
    ensures { MatchResult result
        (λ u. (count < 2 ^ 64) × ElementHasText depth (view element.now))
        (λ e. ElementHasFlaw e depth (view element.now)) }
{
    check_element(element, depth)
}

/// Checks the types of the keys and the values of a map.
#[cycle(check)]
fn check_entry(key: &Schema, value: &Schema, depth: usize) -> Result<(), TextError>
    ensures { MatchResult result (λ u. EntryHasText depth (view key.now) (view value.now))
        (λ e. EntryHasFlaw e depth (view key.now) (view value.now)) }
{
    if !entry_has_bytes(key, value) {
        return Err(TextError::NoBytes);
    }
    check(key, depth)?;
    check(value, depth)
}

/// Returns whether a key or a value has at least one byte in every message.
fn entry_has_bytes(key: &Schema, value: &Schema) -> bool
    ensures { result ≡ has_bytes (entry_of (type_of key.now) (type_of value.now)) }
{
    key.has_bytes() || value.has_bytes()
}

/// Checks the parts of a tuple.
#[cycle(check)]
fn check_parts(parts: &Vec<Schema>, depth: usize) -> Result<(), TextError>
    ensures { MatchResult result (λ u. AllHaveText depth (views parts.now.items))
        (λ e. SomeHasFlaw e depth (views parts.now.items)) }
{
    for part in parts {
        check(part, depth)?;
    }
    Ok(())
}

/// Checks the fields of a struct, or the variants of an enum: their names, and then their types.
#[cycle(check)]
fn check_named(named: &Vec<Named<Schema>>, kind: Kind, depth: usize) -> Result<(), TextError>
    ensures { MatchResult result (λ u. NamedHaveText depth kind (named_views named.now.items))
        (λ e. NamedHaveFlaw e depth kind (named_views named.now.items)) }
{
    check_names(named, kind)?;
    for part in named {
        check(&part.content, depth)?;
    }
    Ok(())
}

/// Checks the names of fields or variants: there is one, all are names of this kind, and no two
/// are equal.
fn check_names(named: &Vec<Named<Schema>>, kind: Kind) -> Result<(), TextError>
    ensures { MatchResult result (λ u. AreSomeNames kind (named_views named.now.items))
        (λ e. HasNamesFlaw e kind (named_views named.now.items)) }
{
    if named.is_empty() {
        return Err(TextError::Empty);
    }
    for (i, part) in named.iter().enumerate() {
        if !is_name(&part.name, kind) {
            return Err(TextError::Name);
        }
        if is_taken(&named[i + 1..], &part.name) {
            return Err(TextError::NameTwice);
        }
    }
    Ok(())
}

/// Returns whether an expression may have the name.
fn is_name(name: &str, kind: Kind) -> bool
    ensures { Decides result (IsNameFor kind name.now) }
{
    let bytes = name.as_bytes();
    let begins = match kind {
        Kind::Field => is_identifier(bytes),
        Kind::Variant => is_variant_name(bytes),
    };
    begins && bytes.iter().all(|byte| is_of_word(*byte))
}

/// Returns whether one of the fields or variants has the name.
fn is_taken(named: &[Named<Schema>], name: &str) -> bool
    ensures { MatchBool result (IsTakenBy (named_views named.now) name.now)
        (IsFreeIn (named_views named.now) name.now) }
{
    for other in named {
        if other.name.as_bytes() == name.as_bytes() {
            return true;
        }
    }
    false
}
