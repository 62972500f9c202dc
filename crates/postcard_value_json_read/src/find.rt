//! What JSON is and has: its items and members, and the variant whose form it has.

ghost use Rattle.std.specs.Prelude.{◌≡◌, ℕ, ◌<◌, length, get_or, string_bytes, true, false, Some};
ghost use Rattle.std.specs.Prelude.{IfSome, IfNone};
ghost use Rattle.postcard_value_json_read.specs.{Data, HasFields, HasMembers, IsExpected};
ghost use Rattle.postcard_value_json_read.specs.{IsJsonOfVariant};
ghost use Rattle.postcard_value_json_read.specs.{IsLengthError, IsNameIn, IsNewTo, IsTakenIn};
ghost use Rattle.postcard_value_json_read.specs.{Items};
ghost use Rattle.postcard_value_json_read.specs.{Named, Schema, Tree, alone, get, items_len};
ghost use Rattle.postcard_value_json_read.specs.{items_view, pair, string, view};
ghost use Rattle.serde_json.specs.Data as values;

use crate::error::{Expected, JsonError};
use postcard_schema::{Field, Step, Variant};
use postcard_value_text::is_unit;
use serde_json::Value as Json;
use std::alloc::Global;

/// Returns the items of an array of this length, or `None` if the JSON isn't one.
pub(crate) fn items_in<'a>(json: &'a Json, count: usize) -> Option<&'a Vec<Json>>
    ensures found { IfSome result (λ items.
        (view json.now ≡ values.array (items_view items.now.items)) × (length items.now.items ≡ count)) }
    ensures none { IfNone result ((ds : Items) → view json.now ≡ values.array ds
        → items_len ds ≡ count → ⊥) }
{
    let Some(items) = json.as_array() else {
        return None;
    };
    if items.len() != count {
        return None;
    }
    Some(items)
}

/// Returns the two items of an array of two, or `None` if the JSON isn't one.
pub(crate) fn pair_in<'a>(json: &'a Json) -> Option<(&'a Json, &'a Json)>
    ensures found { IfSome result (λ items. view json.now ≡ pair (view items.0.now)
        (view items.1.now)) }
    ensures none { IfNone result ((d e : Data) → view json.now ≡ pair d e → ⊥) }
{
    match items_in(json, 2) {
        Some(items) => Some((&items[0], &items[1])),
        None => None,
    }
}

/// Returns whether the JSON is an object with this number of members.
pub(crate) fn has_members(json: &Json, count: usize) -> bool
    ensures long { result ≡ true → HasMembers count (view json.now) }
    ensures other { result ≡ false → HasMembers count (view json.now) → ⊥ }
{
    match json.as_object() {
        Some(members) => members.len() == count,
        None => false,
    }
}

/// Returns the member with this name if the JSON is an object with this member alone, and else
/// `None`.
pub(crate) fn only_member<'a>(json: &'a Json, name: &str) -> Option<&'a Json>
    ensures found { IfSome result (λ found. view json.now ≡ alone name.now (view found.now)) }
    ensures none { IfNone result ((e : Data) → view json.now ≡ alone name.now e → ⊥) }
{
    let Some(members) = json.as_object() else {
        return None;
    };
    if members.len() != 1 {
        return None;
    }
    json.get(name)
}

/// Returns whether the JSON is this string.
pub(crate) fn is_text(json: &Json, text: &str) -> bool
    ensures same { result ≡ true → view json.now ≡ string text.now }
    ensures other { result ≡ false → view json.now ≡ string text.now → ⊥ }
{
    match json.as_str() {
        Some(found) => found == text,
        None => false,
    }
}

/// Returns the error for JSON that isn't an object with one member for each field. It names the
/// first field that an object lacks, or else a member that is no field.
pub(crate) fn length_error<'a>(
    alloc: Global,
    fields: &'a Vec<Field>,
    json: &'a Json,
) -> JsonError<'a>
    ensures { IsLengthError fields.now.items (view json.now) result }
{
    let Some(members) = json.as_object() else {
        return JsonError::here(alloc, Expected::ObjectOf(fields.len()));
    };
    if let Some(name) = missing(fields, json) {
        return JsonError::here(alloc, Expected::Present).within(Step::Name(name));
    }
    for name in members.keys() {
        if !has_field(fields, name.as_bytes()) {
            return unknown(alloc, name);
        }
    }
    JsonError::here(alloc, Expected::ObjectOf(fields.len()))
}

/// Returns the name of the first field that JSON has no member for, or `None` if it has all.
fn missing<'a>(fields: &'a Vec<Field>, json: &Json) -> Option<&'a str>
    ensures some { IfSome result (λ name. IsTakenIn fields.now.items name.now
        × ((e : Data) → get name.now (view json.now) ≡ Some e → ⊥)) }
    ensures none { IfNone result (HasFields fields.now.items (view json.now)) }
{
    for field in fields {
        if json.get(field.name.as_str()).is_none() {
            return Some(field.name.as_str());
        }
    }
    None
}

fn has_field(fields: &Vec<Field>, name: &[u8]) -> bool
    ensures { result ≡ false → IsNewTo fields.now.items name.now }
{
    for field in fields {
        if field.name.as_bytes() == name {
            return true;
        }
    }
    false
}

/// Returns the error of a member that is no field. Its name is left out if it is empty, or isn't
/// letters and digits of ASCII and `_`, so that no control character is printed.
fn unknown<'a>(alloc: Global, name: &'a str) -> JsonError<'a>
    ensures { IsExpected Expected.Absent result }
{
    let error = JsonError::here(alloc, Expected::Absent);
    let is_plain = |byte: &u8| byte.is_ascii_alphanumeric() || *byte == b'_';
    if !name.is_empty() && name.as_bytes().iter().all(is_plain) {
        error.within(Step::Name(name))
    } else {
        error
    }
}

/// Returns the index of the first variant whose form and name the JSON has, or the number of
/// variants if there is none.
pub(crate) fn index_of(variants: &Vec<Variant>, json: &Json) -> usize
    ensures found { result < length variants.now.items → (n : Named Schema)
        × (n ≡ get_or variants.now.items result n)
        × IsNameIn (string_bytes n.name) (view json.now) }
    ensures first { (i : ℕ) (n : Named Schema) → i < length variants.now.items → i < result
        → n ≡ get_or variants.now.items i n → (t : Tree)
        → IsJsonOfVariant n t (view json.now) → ⊥ }
{
    for (i, variant) in variants.iter().enumerate() {
        if is_called(json, variant) {
            return i;
        }
    }
    variants.len()
}

/// Returns whether the JSON has the form of the variant. If the variant's content is the unit, that
/// is its name as a string. Otherwise it is an object with a member of this name alone.
fn is_called(json: &Json, variant: &Variant) -> bool
    ensures called { result ≡ true → IsNameIn (string_bytes variant.now.name) (view json.now) }
    ensures other { result ≡ false → (t : Tree)
        → IsJsonOfVariant variant.now t (view json.now) → ⊥ }
{
    if is_unit(&variant.content) {
        is_text(json, &variant.name)
    } else {
        only_member(json, &variant.name).is_some()
    }
}
