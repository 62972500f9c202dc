//! A comparison as a line of JSON: [`json_line`].

ghost use Rattle.std.specs.Prelude.{◌≡◌, IfErr, IfOk, string_bytes, true};
ghost use Rattle.pcard_compat.specs.{AreEach, FailsToShow, IsExampleMember, IsJson, IsMember};
ghost use Rattle.pcard_compat.specs.{IsObject, IsOther, IsReadingMembers, bytes_member, codes};

use crate::text::{bytes_after, verdict_name};
use crate::version::Version;
use pcard_print::{PrintError, Reason, field_of, json_of, quote};
use postcard_compat::{Comparison, Difference, Example, Reading};
use std::alloc::{AllocError, Global};

/// Returns the line of a comparison of what the writer writes with what the reader reads. It is an
/// object with the word of the verdict, and with the differences, the notes and the example that
/// there are.
///
/// # Errors
///
/// Fails with `OutOfMemory` if an allocation fails, and with `NoJson` if a value of the example has
/// no JSON.
pub fn json_line(
    alloc: Global,
    writer: Version<'_>,
    reader: Version<'_>,
    comparison: &Comparison,
) -> Result<String, PrintError>
    ensures json { IfOk result
        (λ line. IsJson writer.entry reader.entry comparison.now (string_bytes line)) }
    ensures refused { IfErr result (FailsToShow true) }
{
    let word = verdict_name(comparison.verdict);
    let differences = member(alloc, "differences", &comparison.differences)?;
    let notes = member(alloc, "notes", &comparison.notes)?;
    let example = example_member(alloc, writer, reader, comparison)?;
    let line = format!(in alloc; "{{\"verdict\":\"{word}\"{differences}{notes}{example}}}\n")?;
    Ok(line)
}

/// Returns the member with this name that has differences. Returns nothing if there are none.
fn member(alloc: Global, name: &str, differences: &[Difference]) -> Result<String, AllocError>
    ensures { IfOk result (λ member. IsMember name.now differences.now (string_bytes member)) }
{
    let Some((first, others)) = differences.split_first() else {
        return Ok(String::new(alloc));
    };
    let first = object(alloc, first)?;
    let others = others_of(alloc, others)?;
    format!(in alloc; ",\"{name}\":[{first}{others}]")
}

/// Returns the objects of differences, each after a comma.
fn others_of(alloc: Global, differences: &[Difference]) -> Result<String, AllocError>
    ensures { IfOk result (λ text. AreEach IsOther differences.now (string_bytes text)) }
{
    let mut text = String::new(alloc);
    for difference in differences {
        let object = object(alloc, difference)?;
        let other = format!(in alloc; ",{object}")?;
        text.push_str(&other)?;
    }
    Ok(text)
}

fn object(alloc: Global, difference: &Difference) -> Result<String, AllocError>
    ensures { IfOk result (λ object. IsObject difference.now (string_bytes object)) }
{
    let what = format!(in alloc; "{what}", what = &difference.what)?;
    let what = quote(alloc, &what)?;
    let field = field_of(alloc, &difference.path)?;
    format!(in alloc; "{{\"what\":{what}{field}}}")
}

/// Returns the member with the example.
fn example_member(
    alloc: Global,
    writer: Version<'_>,
    reader: Version<'_>,
    comparison: &Comparison,
) -> Result<String, PrintError>
    ensures member { IfOk result (λ member. IsExampleMember writer.entry reader.entry
        comparison.now.example (string_bytes member)) }
    ensures refused { IfErr result (FailsToShow true) }
{
    let Some(example) = &comparison.example else {
        return Ok(String::new(alloc));
    };
    let digits = hex::encode(alloc, example.bytes.as_slice())?;
    let value = json_of(alloc, writer.schema, &example.value)?;
    let reading = reading_members(alloc, reader, example)?;
    let member = format!(in alloc;
        ",\"example\":{{\"bytes\":\"{digits}\",\"old\":{value}{reading}}}"
    )?;
    Ok(member)
}

/// Returns the members that say what the reader makes of the bytes.
fn reading_members(
    alloc: Global,
    reader: Version<'_>,
    example: &Example,
) -> Result<String, PrintError>
    ensures members { IfOk result (λ members. IsReadingMembers reader.entry example.now.bytes.items
        example.now.reading (string_bytes members)) }
    ensures refused { IfErr result (FailsToShow true) }
{
    match &example.reading {
        Reading::Refused {
            error,
            offset,
            path,
        } => {
            let reason = Reason::Unread(error.clone()?);
            let why = reason.text();
            let field = field_of(alloc, path)?;
            Ok(format!(in alloc; ",\"at\":{offset},\"error\":\"{why}\"{field}")?)
        }
        Reading::Read { value, left } => {
            let value = json_of(alloc, reader.schema, value)?;
            let rest = rest_member(alloc, bytes_after(&example.bytes, *left))?;
            Ok(format!(in alloc; ",\"new\":{value}{rest}")?)
        }
    }
}

/// Returns the member with the bytes after a value. Returns nothing if there are none.
fn rest_member(alloc: Global, rest: &[u8]) -> Result<String, AllocError>
    ensures { IfOk result
        (λ member. string_bytes member ≡ bytes_member (codes "rest") rest.now) }
{
    if rest.is_empty() {
        return Ok(String::new(alloc));
    }
    let digits = hex::encode(alloc, rest)?;
    format!(in alloc; ",\"rest\":\"{digits}\"")
}
