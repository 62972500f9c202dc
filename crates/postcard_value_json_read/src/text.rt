//! Reading a value from a JSON text: [`read_json`].

ghost use Rattle.std.specs.Prelude.{◌≡◌, ◌-◌, Some, IfOk, IfErr, MatchResult, length, take};
ghost use Rattle.std.specs.Prelude.{[], string_bytes};
ghost use Rattle.postcard_value_json_read.specs.{Category, HasDistinctNames, HasPath, IsErrorIn};
ghost use Rattle.postcard_value_json_read.specs.{IsJsonText, IsMemory, IsPlaceAfter, IsPlaceIn};
ghost use Rattle.postcard_value_json_read.specs.{IsPlaceOf, IsTextError, Tree, category, characters};
ghost use Rattle.postcard_value_json_read.specs.{layout_of, path_text, plain_path, reads, text_error_text};
ghost use Rattle.postcard_value_json_read.specs.{tree, type_of};

use crate::error::{Expected, JsonError, colon_after};
use crate::place::{from_line, from_part};
use crate::read::from_json;
use postcard_schema::{Path, Schema};
use postcard_schema_text::scan::character_of;
use postcard_value::value::Value;
use serde_json::{Error, Value as Json};
use std::alloc::Global;
use std::fmt;

/// The error of reading a value from a JSON text. It is printed as `bad value at character 5:
/// [1]: expected u8`.
#[derive(Debug, Drop)]
pub enum JsonTextError {
    /// The text is no JSON of a value of the schema.
    NotAValue {
        /// The place, counted from 1, where the text stops being JSON, or else where the first part
        /// begins that is no value. At the end of the text it is the number of characters plus 1.
        character: usize,
        /// The path to that part, as `samples[1].id`, or to the member that is missing or unknown.
        /// Empty for the whole, and for a text that isn't JSON.
        path: String,
        /// What is expected there.
        expected: Expected,
    },
    /// An allocation failed.
    OutOfMemory,
}

impl fmt::Display for JsonTextError {
    ghost output = { λ e. Some (text_error_text e) };

    fn fmt<W: fmt::Write>(&self, f: &mut fmt::Formatter<W>) -> fmt::Result {
        match self {
            JsonTextError::NotAValue {
                character,
                path,
                expected,
            } => {
                let colon = colon_after(path.is_empty());
                write!(
                    f,
                    "bad value at character {character}: {path}{colon}{expected}"
                )
            }
            JsonTextError::OutOfMemory => f.write_str("out of memory"),
        }
    }
}

/// Reads the value of the schema that the JSON text denotes, by [`from_json`].
///
/// # Errors
///
/// Fails with `NotAValue` if the text is no JSON of a value of the schema. The error has the place
/// and what is expected there. Fails with `OutOfMemory` if an allocation fails.
pub fn read_json(alloc: Global, schema: &Schema, text: &str) -> Result<Value, JsonTextError>
    ensures value { IfOk result (λ v. reads (type_of schema.now) (tree v)) }
    ensures spelled { IfOk result (λ v. IsJsonText (layout_of schema.now) (tree v) text.now) }
    ensures accepted { HasDistinctNames (layout_of schema.now) → (t : Tree)
        → reads (type_of schema.now) t → IsJsonText (layout_of schema.now) t text.now
        → MatchResult result (λ v. t ≡ tree v) (λ e. e ≡ JsonTextError.OutOfMemory) }
    ensures place { IfErr result (IsPlaceIn text.now) }
    ensures part { IfErr result (IsTextError text.now) }
{
    let json = match Json::from_str(alloc, text) {
        Ok(json) => json,
        Err(error) => return Err(syntax_error(alloc, text, &error)),
    };
    match from_json(alloc, schema, &json) {
        Ok(value) => Ok(value),
        Err(error) => Err(error_in(alloc, text, error)),
    }
}

/// Returns the error for a text that isn't JSON.
fn syntax_error(alloc: Global, text: &str, error: &Error) -> JsonTextError
    ensures place { IsPlaceIn text.now result }
    ensures memory { IsMemory error.now → result ≡ JsonTextError.OutOfMemory }
    ensures end { category error.now ≡ Category.Eof
        → IsPlaceAfter (characters text.now) result }
    ensures path { HasPath [] Expected.Json result }
{
    if error.is_memory() {
        return JsonTextError::OutOfMemory;
    }
    let left = if error.is_eof() {
        0
    } else {
        from_line(text.as_bytes(), error.line(), error.column()).len()
    };
    not_a_value(text, left, String::new(alloc), Expected::Json)
}

/// Returns the error for JSON that is no value of the schema.
fn error_in(alloc: Global, text: &str, error: JsonError<'_>) -> JsonTextError
    ensures place { IsPlaceIn text.now result }
    ensures same { IsErrorIn text.now error.entry result }
{
    match error {
        JsonError::NotAValue { path, expected } => part_error(alloc, text, &path, expected),
        JsonError::OutOfMemory => JsonTextError::OutOfMemory,
    }
}

/// Returns the error of the part with this path.
fn part_error(alloc: Global, text: &str, path: &Path<'_>, expected: Expected) -> JsonTextError
    ensures place { IsPlaceIn text.now result }
    ensures path { HasPath (path_text path.now.steps.items) expected result }
    ensures part { IsPlaceOf (plain_path path.now) text.now result }
{
    let Ok(printed) = format!(in alloc; "{path}") else {
        return JsonTextError::OutOfMemory;
    };
    match from_part(alloc, text.as_bytes(), path) {
        Ok(rest) => not_a_value(text, rest.len(), printed, expected),
        Err(_) => JsonTextError::OutOfMemory,
    }
}

/// Returns the error of the part with this path, at the character that begins `left` bytes before
/// the end of the text.
fn not_a_value(text: &str, left: usize, path: String, expected: Expected) -> JsonTextError
    ensures place { IsPlaceIn text.now result }
    ensures after { IsPlaceAfter (characters (take (length text.now - left) text.now)) result }
    ensures path { HasPath (string_bytes path) expected result }
{
    JsonTextError::NotAValue {
        character: character_of(text.as_bytes(), left),
        path,
        expected,
    }
}
