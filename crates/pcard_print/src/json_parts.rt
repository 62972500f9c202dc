//! Parts of lines of JSON: [`json_of`], [`quote`] and [`field_of`].

ghost use Rattle.std.specs.Prelude.{◌≡◌, ◌⊎◌, IfErr, IfOk, string_bytes};
ghost use Rattle.pcard_print.specs.{IsJsonOf, NoJson, OutOfMemory, field_member, quoted};

use crate::error::PrintError;
use postcard_schema::Schema;
use postcard_value::Value;
use postcard_value_json::{json_text, to_json};
use serde_json::Value as Json;
use std::alloc::{AllocError, Global};

/// Returns the JSON of a value, as text.
///
/// # Errors
///
/// Fails with `NoJson` if the value has none, and with `OutOfMemory` if an allocation fails.
pub fn json_of(alloc: Global, schema: &Schema, value: &Value) -> Result<String, PrintError>
    ensures text { IfOk result (λ text. IsJsonOf schema.now value.now (string_bytes text)) }
    ensures only_out_of_memory_or_no_json { IfErr result
        (λ e. (e ≡ OutOfMemory) ⊎ (e ≡ NoJson)) }
{
    let Some(json) = to_json(alloc, schema, value)? else {
        return Err(PrintError::NoJson);
    };
    let text = json_text(alloc, &json)?;
    Ok(text)
}

/// Returns a text as a string of JSON, with its quotes. Fails if an allocation fails.
pub fn quote(alloc: Global, text: &str) -> Result<String, AllocError>
    ensures { IfOk result (λ shown. string_bytes shown ≡ quoted text.now) }
{
    let json = Json::try_from_str(alloc, text)?;
    json.to_string(alloc)
}

/// Returns the member `field` with the path of a part, after the comma before it. Returns nothing
/// if the path is empty. Fails if an allocation fails.
pub fn field_of(alloc: Global, path: &str) -> Result<String, AllocError>
    ensures { IfOk result (λ field. string_bytes field ≡ field_member path.now) }
{
    if path.is_empty() {
        return Ok(String::new(alloc));
    }
    let name = quote(alloc, path)?;
    let field = format!(in alloc; ",\"field\":{name}")?;
    Ok(field)
}
