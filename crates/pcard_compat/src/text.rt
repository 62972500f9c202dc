//! A comparison as lines of text: [`text_lines`].

ghost use Rattle.std.specs.Prelude.{◌≡◌, IfOk, string_bytes};
ghost use Rattle.pcard_compat.specs.{AreEach, IsExampleText, IsLine, IsReadingText, IsText, Shows};
ghost use Rattle.pcard_compat.specs.{after_name, before_name, bytes_after, encode_lower, first_line};
ghost use Rattle.pcard_compat.specs.{layout_of, more_text, noun_of, place_name, place_text, text};
ghost use Rattle.pcard_compat.specs.{tree, verdict_name};

use crate::version::{Side, Version};
use pcard_print::Reason;
use postcard_compat::{Comparison, Difference, Example, Reading, Verdict};
use postcard_schema::Schema;
use postcard_value::Value;
use postcard_value_text::Shown;
use std::alloc::{AllocError, Global};

/// Returns the lines of a comparison of what the writer writes with what the reader reads. They
/// have the verdict's word and its meaning, the differences, the notes, and the example.
///
/// # Errors
///
/// Fails if an allocation fails.
pub fn text_lines(
    alloc: Global,
    writer: Version<'_>,
    reader: Version<'_>,
    comparison: &Comparison,
) -> Result<String, AllocError>
    ensures { IfOk result
        (λ text. IsText writer.entry reader.entry comparison.now (string_bytes text)) }
{
    let first = first_line(alloc, writer.side, comparison)?;
    let differences = lines_of(alloc, &comparison.differences)?;
    let notes = lines_of(alloc, &comparison.notes)?;
    let example = example_text(alloc, writer, reader, comparison)?;
    format!(in alloc; "{first}{differences}{notes}{example}")
}

/// Returns the word of a verdict.
pub fn verdict_name(verdict: Verdict) -> &'static str
    ensures { result.now ≡ verdict_name verdict }
{
    match verdict {
        Verdict::Same => "same",
        Verdict::Front => "front",
        Verdict::Refuses => "refuses",
        Verdict::Misread => "misread",
        Verdict::Differs => "differs",
    }
}

/// Returns the first line: the verdict's word and its meaning.
fn first_line(alloc: Global, side: Side, comparison: &Comparison) -> Result<String, AllocError>
    ensures { IfOk result (λ line. string_bytes line ≡ first_line side comparison.now) }
{
    let word = verdict_name(comparison.verdict);
    let (before, name, after) = (before_name(comparison), side.name(), after_name(comparison));
    format!(in alloc; "{word}: {before} {name} {after}\n")
}

/// Returns the meaning of the verdict's word, up to the name of the writer.
fn before_name(comparison: &Comparison) -> &'static str
    ensures { result.now ≡ before_name comparison.now }
{
    match (comparison.verdict, &comparison.example) {
        (Verdict::Same | Verdict::Front, _) => "each message of",
        (Verdict::Misread, _) => "some message of",
        (Verdict::Differs, None) => "the types differ, and no message of",
        _ => "some messages of",
    }
}

/// Returns the meaning of the verdict's word, after the name of the writer.
fn after_name(comparison: &Comparison) -> &'static str
    ensures { result.now ≡ after_name comparison.now }
{
    match (comparison.verdict, &comparison.example) {
        (Verdict::Same, _) => "is read as the same value",
        (Verdict::Front, _) => "is read as its first parts, and bytes after them are left",
        (Verdict::Refuses, _) => "are refused, and none is read as another value",
        (Verdict::Misread, _) => "is read as another value",
        (Verdict::Differs, None) => "was found that shows it",
        (Verdict::Differs, Some(_)) => "are refused or not read to their end",
    }
}

/// Returns a line for each difference.
fn lines_of(alloc: Global, differences: &[Difference]) -> Result<String, AllocError>
    ensures { IfOk result (λ text. AreEach IsLine differences.now (string_bytes text)) }
{
    let mut text = String::new(alloc);
    for difference in differences {
        let line = line_of(alloc, difference)?;
        text.push_str(&line)?;
    }
    Ok(text)
}

fn line_of(alloc: Global, difference: &Difference) -> Result<String, AllocError>
    ensures { IfOk result (λ line. IsLine difference.now (string_bytes line)) }
{
    let what = format!(in alloc; "{what}", what = &difference.what)?;
    let place = place_name(&difference.path);
    format!(in alloc; "{place}: {what}\n")
}

/// Returns the path of a part, or a word for the whole, whose path is empty.
fn place_name(path: &str) -> &str
    ensures { result.now ≡ place_name path.now }
{
    if path.is_empty() { "the value" } else { path }
}

/// Returns the lines of the comparison's example, or nothing if it has none.
fn example_text(
    alloc: Global,
    writer: Version<'_>,
    reader: Version<'_>,
    comparison: &Comparison,
) -> Result<String, AllocError>
    ensures { IfOk result (λ text. IsExampleText writer.entry reader.entry
        comparison.now.example (string_bytes text)) }
{
    let Some(example) = &comparison.example else {
        return Ok(String::new(alloc));
    };
    let name = writer.side.name();
    let shown = shown(alloc, writer.schema, &example.value)?;
    let digits = hex::encode(alloc, example.bytes.as_slice())?;
    let reading = reading_text(alloc, reader, example)?;
    format!(in alloc; "{name} writes {shown} as {digits}\n{reading}")
}

/// Returns the text of a value.
fn shown(alloc: Global, schema: &Schema, value: &Value) -> Result<String, AllocError>
    ensures { IfOk result (λ shown.
        Shows (text (layout_of schema.now) (tree value.now)) (string_bytes shown)) }
{
    let value = Shown { schema, value };
    format!(in alloc; "{value}")
}

/// Returns the text that says what the reader makes of the bytes.
fn reading_text(alloc: Global, reader: Version<'_>, example: &Example) -> Result<String, AllocError>
    ensures { IfOk result (λ text. IsReadingText reader.entry example.now.bytes.items
        example.now.reading (string_bytes text)) }
{
    let name = reader.side.name();
    match &example.reading {
        Reading::Refused {
            error,
            offset,
            path,
        } => {
            let place = place_text(alloc, path)?;
            let reason = Reason::Unread(error.clone()?);
            let why = reason.text();
            format!(in alloc; "{name} refuses it at byte {offset}: {place}{why}\n")
        }
        Reading::Read { value, left } => {
            let shown = shown(alloc, reader.schema, value)?;
            let more = more_text(alloc, bytes_after(&example.bytes, *left))?;
            format!(in alloc; "{name} reads {shown}{more}\n")
        }
    }
}

fn place_text(alloc: Global, path: &str) -> Result<String, AllocError>
    ensures { IfOk result (λ text. string_bytes text ≡ place_text path.now) }
{
    if path.is_empty() {
        return Ok(String::new(alloc));
    }
    format!(in alloc; "{path}: ")
}

/// Returns the last `left` bytes, or all if there are fewer.
pub(crate) fn bytes_after(bytes: &[u8], left: usize) -> &[u8]
    ensures { result.now ≡ bytes_after bytes.now left }
{
    &bytes[bytes.len().saturating_sub(left)..]
}

/// Returns the text for the bytes after a value. Returns nothing if there are none.
fn more_text(alloc: Global, rest: &[u8]) -> Result<String, AllocError>
    ensures { IfOk result (λ text. string_bytes text ≡ more_text rest.now) }
{
    if rest.is_empty() {
        return Ok(String::new(alloc));
    }
    let count = rest.len();
    let noun = noun(count);
    let digits = hex::encode(alloc, rest)?;
    format!(in alloc; " and {count} {noun} more: {digits}")
}

fn noun(count: usize) -> &'static str
    ensures { result.now ≡ noun_of count }
{
    if count == 1 { "byte" } else { "bytes" }
}
