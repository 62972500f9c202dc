//! Finds where a part of a JSON text begins, to give the character of an error.

ghost use Rattle.std.specs.Prelude.{◌≡◌, ◌-◌, List, ℕ, ◌∷◌, ◌++◌, length, true, false, IfOk};
ghost use Rattle.std.specs.Prelude.{IsUtf8, Some, ◌≤◌};
ghost use Rattle.postcard_value_json_read.specs.{AreLines, IsEndOf, IsItemAt, IsLine, IsMemberAt};
ghost use Rattle.postcard_value_json_read.specs.{IsPartAt, IsString, LeadsTo, plain_path};
ghost use Rattle.postcard_value_json_read.specs.{plain_step};
ghost use Rattle.postcard_value_json_read.specs.{read, string, unblank};

use crate::skip::{after_string, after_value};
use postcard_schema::{Path, Step};
use postcard_schema_text::scan::{skip_blanks, take};
use serde_json::Value as Json;
use std::alloc::{AllocError, Global};

/// Returns what is left of a JSON text from the part with this path on. If the text lacks that
/// part, it is what is left from the last part on the way to it. Fails if an allocation fails.
pub(crate) fn from_part<'a>(
    alloc: Global,
    text: &'a [u8],
    path: &Path<'_>,
) -> Result<&'a [u8], AllocError>
    ensures part { IfOk result (λ found. (rest : List ℕ)
        → IsPartAt (plain_path path.now) text.now rest → found.now ≡ rest) }
    ensures end { IfOk result (λ found. IsEndOf text.now found.now) }
{
    let mut rest = text;
    skip_blanks(&mut rest);
    for step in &path.steps {
        rest = from_step(alloc, rest, *step)?;
    }
    Ok(rest)
}

/// Returns what is left of the text of an array or an object from the part to which the step leads.
/// Fails if an allocation fails.
fn from_step<'a>(alloc: Global, text: &'a [u8], step: Step<'_>) -> Result<&'a [u8], AllocError>
    ensures part { IfOk result (λ found. (rest : List ℕ)
        → LeadsTo (plain_step step.entry) text.now rest → found.now ≡ rest) }
    ensures end { IfOk result (λ found. IsEndOf text.now found.now) }
{
    match step {
        Step::Name(name) => from_member(alloc, text, name.as_bytes()),
        Step::Part(index) => Ok(from_item(text, index as u64)),
        Step::Element(index) => Ok(from_item(text, index)),
        Step::Each => Ok(text),
    }
}

/// Returns what is left of an array from the item at this index on.
fn from_item(array: &[u8], index: u64) -> &[u8]
    ensures item { (rest : List ℕ) → IsItemAt index array.now rest → result.now ≡ rest }
    ensures end { IsEndOf array.now result.now }
{
    let mut rest = array;
    let _ = take(&mut rest, b'[');
    skip_blanks(&mut rest);
    for _ in 0..index {
        rest = after_value(rest);
        let _ = take(&mut rest, b',');
        skip_blanks(&mut rest);
    }
    rest
}

/// Returns what is left of an object from the last value with this name on, or the object if it has
/// none. Fails if an allocation fails.
fn from_member<'a>(alloc: Global, object: &'a [u8], name: &[u8]) -> Result<&'a [u8], AllocError>
    ensures member { IfOk result (λ found. (rest : List ℕ)
        → IsMemberAt name.now object.now rest → found.now ≡ rest) }
    ensures end { IfOk result (λ found. IsEndOf object.now found.now) }
{
    let mut found = object;
    let mut rest = object;
    let _ = take(&mut rest, b'{');
    let mut more = true;
    'members: while more {
        let key = take_string(&mut rest);
        if !take(&mut rest, b':') {
            return Ok(found);
        }
        skip_blanks(&mut rest);
        if is_string(alloc, key, name)? {
            found = rest;
        }
        rest = after_value(rest);
        more = take(&mut rest, b',');
    }
    Ok(found)
}

/// Takes blanks and a string, and returns the string.
fn take_string<'a>(rest: &mut &'a [u8]) -> &'a [u8]
    ensures taken { (quoted : List ℕ) (after : List ℕ) → IsString quoted
        → unblank rest.old.now ≡ quoted ++ after
        → (result.now ≡ quoted) × (rest.new.now ≡ after) }
    ensures shorter { length rest.new.now ≤ length rest.old.now - 1 }
    ensures end { IsEndOf rest.old.now rest.new.now }
{
    skip_blanks(rest);
    let text = *rest;
    let after = after_string(text);
    let (quoted, _) = text.split_at(text.len().saturating_sub(after.len()));
    *rest = after;
    quoted
}

/// Returns whether a text is a JSON string of this name, which may be written with escapes. Fails
/// if an allocation fails.
fn is_string(alloc: Global, text: &[u8], name: &[u8]) -> Result<bool, AllocError>
    ensures is { IfOk result (λ is. is ≡ true → read text.now ≡ Some (string name.now)) }
    ensures other { IfOk result (λ is. is ≡ false → IsUtf8 text.now
        → read text.now ≡ Some (string name.now) → ⊥) }
{
    let Ok(text) = str::from_utf8(text) else {
        return Ok(false);
    };
    match Json::from_str(alloc, text) {
        Ok(json) => Ok(json.as_str().map(str::as_bytes) == Some(name)),
        Err(error) => if error.is_memory() {
            Err(AllocError)
        } else {
            Ok(false)
        },
    }
}

/// Returns what is left of a text from this line and column on, each counted from 1. Columns are
/// counted in bytes.
pub(crate) fn from_line(text: &[u8], line: usize, column: usize) -> &[u8]
    ensures { (lines : List ℕ) (before : List ℕ) (rest : List ℕ) → AreLines (line - 1) lines
        → length before ≡ column - 1 → text.now ≡ lines ++ (before ++ rest) → result.now ≡ rest }
{
    let mut rest = text;
    for _ in 1..line {
        rest = after_line(rest);
    }
    after(rest, column.saturating_sub(1))
}

/// Returns what follows the first line feed, or nothing if there is none.
fn after_line(text: &[u8]) -> &[u8]
    ensures { (line : List ℕ) (rest : List ℕ) → IsLine line → text.now ≡ line ++ 10 ∷ rest
        → result.now ≡ rest }
{
    let mut left = text;
    'bytes: while let Some((byte, rest)) = left.split_first() {
        left = rest;
        if *byte == b'\n' {
            return left;
        }
    }
    left
}

/// Returns what follows this number of bytes, or nothing if there are fewer.
fn after(text: &[u8], count: usize) -> &[u8]
    ensures { (before : List ℕ) (rest : List ℕ) → length before ≡ count
        → text.now ≡ before ++ rest → result.now ≡ rest }
{
    text.split_at(count.min(text.len())).1
}
