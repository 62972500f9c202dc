//! The contents of values: the items of a list, and the parts of a tuple, a struct or an entry.

ghost use Rattle.std.specs.Prelude.{◌≡◌, ◌<◌, ◌++◌, ℕ, List, IfErr, IfOk, MatchResult, get_or};
ghost use Rattle.std.specs.Prelude.{length};
ghost use Rattle.postcard_explain.specs.{FrontSpells, IsReadError, item_of, item_type, memory};
ghost use Rattle.postcard_explain.specs.{parts_of, plain_label, type_of};

use crate::line::Label;
use postcard_schema::{Field, Schema};
use postcard_value::take_from_bytes;
use postcard_wire::{Error, Result};
use std::alloc::Global;

/// An item of a list, a map or an array.
#[derive(Clone, Copy)]
pub(crate) enum Item<'a> {
    /// A value of the type.
    Value(&'a Schema),
    /// An entry of a map: its key and its value.
    Entry(&'a Schema, &'a Schema),
}

/// Parts one after another.
#[derive(Clone, Copy)]
pub(crate) enum Row<'a> {
    Tuple(&'a Vec<Schema>),
    Struct(&'a Vec<Field>),
    /// The key and the value of an entry.
    Entry(&'a Schema, &'a Schema),
}

impl<'a> Row<'a> {
    /// Returns the number of parts.
    pub fn len(self) -> usize
        ensures { result ≡ length (parts_of self.entry) }
    {
        match self {
            Row::Tuple(parts) => parts.len(),
            Row::Struct(fields) => fields.len(),
            Row::Entry(_, _) => 2,
        }
    }

    /// Returns what the part at this index is called, and its type.
    pub fn part(self, index: usize) -> (Label<'a>, &'a Schema)
        requires { index < length (parts_of self) }
        ensures { (plain_label result.0, result.1.now)
            ≡ get_or (parts_of self.entry) index (plain_label result.0, result.1.now) }
    {
        match self {
            Row::Tuple(parts) => (Label::Part(index), &parts[index]),
            Row::Struct(fields) => {
                let field = &fields[index];
                (Label::Field(&field.name), &field.content)
            }
            Row::Entry(key, value) => match index {
                0 => (Label::Part(index), key),
                _ => (Label::Part(index), value),
            },
        }
    }
}

/// Returns the bytes after the item with which the bytes begin. Fails as [`take_from_bytes`] does.
pub(crate) fn skip_item<'a>(alloc: Global, item: Item<'_>, bytes: &'a [u8]) -> Result<&'a [u8]>
    ensures skipped { IfOk result (λ rest. (front : List ℕ)
        × FrontSpells (item_type (item_of item.entry)) front × (bytes.now ≡ front ++ rest.now)) }
    ensures accepts { (front rest : List ℕ) → FrontSpells (item_type (item_of item.entry)) front
        → bytes.now ≡ front ++ rest →
        MatchResult result (λ after. after.now ≡ rest) (λ e. e ≡ Error.OutOfMemory) }
    ensures named_error { IfErr result (IsReadError memory) }
{
    match item {
        Item::Value(schema) => skip(alloc, schema, bytes),
        Item::Entry(key, value) => {
            let rest = skip(alloc, key, bytes)?;
            skip(alloc, value, rest)
        }
    }
}

fn skip<'a>(alloc: Global, schema: &Schema, bytes: &'a [u8]) -> Result<&'a [u8]>
    ensures skipped { IfOk result (λ rest. (front : List ℕ)
        × FrontSpells (type_of schema.now) front × (bytes.now ≡ front ++ rest.now)) }
    ensures accepts { (front rest : List ℕ) → FrontSpells (type_of schema.now) front
        → bytes.now ≡ front ++ rest →
        MatchResult result (λ after. after.now ≡ rest) (λ e. e ≡ Error.OutOfMemory) }
    ensures named_error { IfErr result (IsReadError memory) }
{
    match take_from_bytes(alloc, schema, bytes) {
        Ok((_, rest)) => Ok(rest),
        Err(error) => Err(error),
    }
}
