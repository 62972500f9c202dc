//! Reading a type and its parts, by the grammar of [`crate::expression`].
//!
//! A function reads its part from the start of `rest`, in which types may nest `depth` deep in
//! brackets. It takes the only prefix of `rest` that is such a part, and fails as [`crate::parse`]
//! does if there is none (`Reads` in `specs/Fronts.antt`).

ghost use Rattle.std.specs.Prelude.{◌≡◌, ℕ, List, true, length, IfErr, OnOk, OnErr};
ghost use Rattle.postcard_schema_text.specs.{Anything, EndsWord, GoesOnBy, IsAngledRest};
ghost use Rattle.postcard_schema_text.specs.{IsBracesRest, IsContent, IsEndedBy, IsEnumText};
ghost use Rattle.postcard_schema_text.specs.{IsField, IsFieldsRest, IsListRest, IsMapRest, IsNew};
ghost use Rattle.postcard_schema_text.specs.{IsNewTo, IsOfOne, IsOfTwo, IsPlain, IsReferred};
ghost use Rattle.postcard_schema_text.specs.{IsSign, IsTakenIn, IsTupleRest, IsType, IsVariantText};
ghost use Rattle.postcard_schema_text.specs.{IsWorded, ReadsNamed, ReadsType, TakesPhrase};
ghost use Rattle.postcard_schema_text.specs.{follows_type, follows_variant};

use crate::ahead::{begins_enum, begins_field, or_colon};
use crate::angled::{Angled, Holder, Pair, map_of};
use crate::error::Problem;
use crate::names::TypeName;
use crate::scan::{
    ProblemAt, boxed, expect, is_identifier, is_variant_name, named, problem_at, push,
    skip_lifetime, take, take_count, take_word,
};
use postcard_schema::{Field, Named, Schema, Variant};
use std::alloc::Global;

/// The most `?` after a type.
const MAX_OPTIONS: usize = 4;

/// Reads a type: an enum, or another type with up to `MAX_OPTIONS` `?` after it.
#[cycle(types)]
pub fn read_type(alloc: Global, rest: &mut &[u8], depth: usize) -> Result<Schema, ProblemAt>
    ensures { ReadsType (GoesOnBy follows_type) (IsType depth) rest.old.now result rest.new.now }
{
    let start = rest.trim_ascii_start();
    if depth == 0 {
        return Err(problem_at(Problem::TooDeep, start));
    }
    if begins_enum(rest) {
        return read_enum(alloc, rest, depth - 1);
    }
    let mut schema = read_referred(alloc, rest, depth - 1)?;
    for _ in 0..MAX_OPTIONS {
        if !take(rest, b'?') {
            return Ok(schema);
        }
        schema = Schema::Option(boxed(alloc, schema, rest)?);
    }
    let start = rest.trim_ascii_start();
    if take(rest, b'?') {
        return Err(problem_at(Problem::TooDeep, start));
    }
    Ok(schema)
}

/// Reads a type that is no enum, without the `?` after it.
#[cycle(types)]
fn read_referred(alloc: Global, rest: &mut &[u8], depth: usize) -> Result<Schema, ProblemAt>
    ensures { ReadsType EndsWord (IsReferred (IsType depth)) rest.old.now result rest.new.now }
{
    'references: while take(rest, b'&') {
        skip_lifetime(rest)?;
    }
    read_plain(alloc, rest, depth)
}

/// Reads a type that is no enum, without the `&` before it and the `?` after it.
#[cycle(types)]
fn read_plain(alloc: Global, rest: &mut &[u8], depth: usize) -> Result<Schema, ProblemAt>
    ensures { ReadsType EndsWord (IsPlain (IsType depth)) rest.old.now result rest.new.now }
{
    if take(rest, b'[') {
        return read_list(alloc, rest, depth);
    }
    if take(rest, b'(') {
        return read_tuple(alloc, rest, depth);
    }
    if take(rest, b'{') {
        return read_braces(alloc, rest, depth);
    }
    read_worded(alloc, rest, depth)
}

/// Reads a type that begins with its name.
#[cycle(types)]
fn read_worded(alloc: Global, rest: &mut &[u8], depth: usize) -> Result<Schema, ProblemAt>
    ensures { ReadsType EndsWord (IsWorded (IsType depth)) rest.old.now result rest.new.now }
{
    let start = rest.trim_ascii_start();
    let word = take_word(rest);
    if word.is_empty() {
        return Err(problem_at(Problem::TypeExpected, start));
    }
    let Some(name) = TypeName::from_word(word) else {
        return Err(problem_at(Problem::UnknownType, start));
    };
    match name {
        TypeName::Leaf(leaf) => Ok(Schema::Leaf(leaf)),
        TypeName::Angled(kind) => {
            open_angle(rest, start)?;
            read_angled(alloc, kind, rest, depth)
        }
    }
}

/// Takes the `<` after the name of a type. Fails with `UnknownType` at the name, with which `name`
/// begins, if something else follows it.
fn open_angle(rest: &mut &[u8], name: &[u8]) -> Result<(), ProblemAt>
    ensures taken { OnOk result (TakesPhrase (IsSign 60) rest.old.now rest.new.now) }
    ensures none { OnErr result ((after : List ℕ)
        → TakesPhrase (IsSign 60) rest.old.now after → ⊥) }
{
    if take(rest, b'<') {
        return Ok(());
    }
    Err(problem_at(Problem::UnknownType, name))
}

/// Reads the types of such a type after its `<`.
#[cycle(types)]
fn read_angled(
    alloc: Global,
    kind: Angled,
    rest: &mut &[u8],
    depth: usize,
) -> Result<Schema, ProblemAt>
    ensures { ReadsType Anything (IsAngledRest (IsType depth) kind)
        rest.old.now result rest.new.now }
{
    match kind {
        Angled::Holder(holder) => read_holder(alloc, holder, rest, depth),
        Angled::Pair(pair) => read_pair(alloc, pair, rest, depth),
    }
}

/// Reads a type and `>`, and returns the type of the holder.
#[cycle(types)]
fn read_holder(
    alloc: Global,
    holder: Holder,
    rest: &mut &[u8],
    depth: usize,
) -> Result<Schema, ProblemAt>
    ensures { ReadsType Anything (IsOfOne holder (IsEndedBy (IsType depth) 62))
        rest.old.now result rest.new.now }
{
    let start = rest.trim_ascii_start();
    let inner = read_ended(alloc, rest, depth, b'>', Problem::GreaterExpected)?;
    holder.of_type(alloc, inner, start)
}

/// Reads two types, with `,` between them, and `>`, and returns the type of the pair.
#[cycle(types)]
fn read_pair(alloc: Global, pair: Pair, rest: &mut &[u8], depth: usize) -> Result<Schema, ProblemAt>
    ensures { ReadsType Anything
        (IsOfTwo pair (IsEndedBy (IsType depth) 44) (IsEndedBy (IsType depth) 62))
        rest.old.now result rest.new.now }
{
    let start = rest.trim_ascii_start();
    let first = read_ended(alloc, rest, depth, b',', Problem::CommaExpected)?;
    let second = read_ended(alloc, rest, depth, b'>', Problem::GreaterExpected)?;
    pair.of_types(alloc, first, second, start)
}

/// Reads a type and then the byte `sign`. Fails with `problem` if another byte follows the type.
#[cycle(types)]
fn read_ended(
    alloc: Global,
    rest: &mut &[u8],
    depth: usize,
    sign: u8,
    problem: Problem,
) -> Result<Schema, ProblemAt>
    requires { follows_type sign ≡ true }
    ensures { ReadsType Anything (IsEndedBy (IsType depth) sign) rest.old.now result rest.new.now }
{
    let schema = read_type(alloc, rest, depth)?;
    expect(rest, sign, problem)?;
    Ok(schema)
}

/// Reads a list or an array after its `[`.
#[cycle(types)]
fn read_list(alloc: Global, rest: &mut &[u8], depth: usize) -> Result<Schema, ProblemAt>
    ensures { ReadsType Anything (IsListRest (IsType depth)) rest.old.now result rest.new.now }
{
    let start = rest.trim_ascii_start();
    let element = read_type(alloc, rest, depth)?;
    if !element.has_bytes() {
        return Err(problem_at(Problem::NoBytes, start));
    }
    let element = boxed(alloc, element, rest)?;
    if take(rest, b';') {
        let count = take_count(rest)?;
        expect(rest, b']', Problem::BracketExpected)?;
        return Ok(Schema::Array(element, count));
    }
    expect(rest, b']', Problem::SemicolonOrBracket)?;
    Ok(Schema::Seq(element))
}

/// Reads a tuple after its `(`. A single type without `,` is returned as that type.
#[cycle(types)]
fn read_tuple(alloc: Global, rest: &mut &[u8], depth: usize) -> Result<Schema, ProblemAt>
    ensures { ReadsType Anything (IsTupleRest (IsType depth)) rest.old.now result rest.new.now }
{
    let mut parts = Vec::new(alloc);
    if take(rest, b')') {
        return Ok(Schema::Tuple(parts));
    }
    let first = read_type(alloc, rest, depth)?;
    if take(rest, b')') {
        return Ok(first);
    }
    push(&mut parts, first, rest)?;
    for _ in 0..rest.len() {
        expect(rest, b',', Problem::CommaOrParenthesis)?;
        if take(rest, b')') {
            return Ok(Schema::Tuple(parts));
        }
        let part = read_type(alloc, rest, depth)?;
        push(&mut parts, part, rest)?;
        if take(rest, b')') {
            return Ok(Schema::Tuple(parts));
        }
    }
    Err(problem_at(Problem::CommaOrParenthesis, rest))
}

/// Reads a struct or a map after its `{`. It is a struct if a word and `:` come first.
#[cycle(types)]
fn read_braces(alloc: Global, rest: &mut &[u8], depth: usize) -> Result<Schema, ProblemAt>
    ensures { ReadsType Anything (IsBracesRest (IsType depth)) rest.old.now result rest.new.now }
{
    if begins_field(rest) {
        return read_fields(alloc, rest, depth);
    }
    let start = *rest;
    match read_map(alloc, rest, depth) {
        Ok(schema) => Ok(schema),
        Err(found) => Err(or_colon(found, start)),
    }
}

/// Reads the fields of a struct after its `{`.
#[cycle(types)]
fn read_fields(alloc: Global, rest: &mut &[u8], depth: usize) -> Result<Schema, ProblemAt>
    ensures { ReadsType Anything (IsFieldsRest (IsType depth)) rest.old.now result rest.new.now }
{
    let mut fields = Vec::new(alloc);
    for _ in 0..rest.len() {
        let field = read_field(alloc, &fields, rest, depth)?;
        push(&mut fields, field, rest)?;
        let comma = take(rest, b',');
        if take(rest, b'}') {
            return Ok(Schema::Struct(fields));
        }
        if !comma {
            return Err(problem_at(Problem::CommaOrBrace, rest.trim_ascii_start()));
        }
    }
    Err(problem_at(Problem::FieldExpected, rest))
}

/// Reads a field, whose name must differ from those of the fields before it.
#[cycle(types)]
fn read_field(
    alloc: Global,
    before: &Vec<Field>,
    rest: &mut &[u8],
    depth: usize,
) -> Result<Field, ProblemAt>
    ensures { ReadsNamed (GoesOnBy follows_type) (IsNew before.now.items (IsField (IsType depth)))
        rest.old.now result rest.new.now }
{
    let start = rest.trim_ascii_start();
    let name = take_word(rest);
    if !is_identifier(name) {
        return Err(problem_at(Problem::FieldExpected, start));
    }
    check_new(before, name, start)?;
    expect(rest, b':', Problem::ColonExpected)?;
    let content = read_type(alloc, rest, depth)?;
    named(alloc, name, content, start)
}

/// Reads a map after its `{`.
#[cycle(types)]
fn read_map(alloc: Global, rest: &mut &[u8], depth: usize) -> Result<Schema, ProblemAt>
    ensures { ReadsType Anything (IsMapRest (IsType depth)) rest.old.now result rest.new.now }
{
    let start = rest.trim_ascii_start();
    let key = read_ended(alloc, rest, depth, b'=', Problem::ArrowExpected)?;
    expect(rest, b'>', Problem::ArrowExpected)?;
    let value = read_ended(alloc, rest, depth, b'}', Problem::BraceExpected)?;
    map_of(alloc, key, value, start)
}

/// Reads an enum.
#[cycle(types)]
fn read_enum(alloc: Global, rest: &mut &[u8], depth: usize) -> Result<Schema, ProblemAt>
    ensures { ReadsType (GoesOnBy follows_type) (IsEnumText (IsType depth))
        rest.old.now result rest.new.now }
{
    let start = rest.trim_ascii_start();
    let leads = take(rest, b'|');
    let mut variants = Vec::new(alloc);
    for _ in 0..rest.len() {
        let variant = read_variant(alloc, &variants, rest, depth)?;
        push(&mut variants, variant, rest)?;
        if !take(rest, b'|') {
            if variants.len() == 1 && !leads {
                return Err(problem_at(Problem::UnknownType, start));
            }
            return Ok(Schema::Enum(variants));
        }
    }
    Err(problem_at(Problem::VariantExpected, rest))
}

/// Reads a variant, whose name must differ from those of the variants before it.
#[cycle(types)]
fn read_variant(
    alloc: Global,
    before: &Vec<Variant>,
    rest: &mut &[u8],
    depth: usize,
) -> Result<Variant, ProblemAt>
    ensures { ReadsNamed (GoesOnBy follows_variant)
        (IsNew before.now.items (IsVariantText (IsType depth)))
        rest.old.now result rest.new.now }
{
    let start = rest.trim_ascii_start();
    let name = take_word(rest);
    if !is_variant_name(name) {
        return Err(problem_at(Problem::VariantExpected, start));
    }
    check_new(before, name, start)?;
    let content = read_content(alloc, rest, depth)?;
    named(alloc, name, content, start)
}

/// Reads the content of a variant after its name: a tuple, fields, or nothing.
#[cycle(types)]
fn read_content(alloc: Global, rest: &mut &[u8], depth: usize) -> Result<Schema, ProblemAt>
    ensures { ReadsType (GoesOnBy follows_variant) (IsContent (IsType depth))
        rest.old.now result rest.new.now }
{
    if take(rest, b'(') {
        return read_tuple(alloc, rest, depth);
    }
    if take(rest, b'{') {
        return read_fields(alloc, rest, depth);
    }
    Ok(Schema::Tuple(Vec::new(alloc)))
}

/// Fails with `NameTwice` at `start` if one of the fields or variants has the name already.
fn check_new(before: &Vec<Named<Schema>>, name: &[u8], start: &[u8]) -> Result<(), ProblemAt>
    ensures new { OnOk result (IsNewTo before.now.items name.now) }
    ensures twice { IfErr result (λ found. (found.problem ≡ Problem.NameTwice)
        × (found.left ≡ length start.now) × IsTakenIn before.now.items name.now) }
{
    for other in before {
        if other.name.as_bytes() == name {
            return Err(problem_at(Problem::NameTwice, start));
        }
    }
    Ok(())
}
