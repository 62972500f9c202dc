//! The outcome of a call, and the lines that it prints: [`outcome_of`].

ghost use Rattle.std.specs.Prelude.{◌≡◌, IfErr, IfOk, string_bytes};
ghost use Rattle.pcard_compat.specs.{FailsToShow, IsBothWays, IsHostLine, IsOutcome, IsShown, IsWay};
ghost use Rattle.pcard_compat.specs.{is_safe};

use crate::host::host_expression;
use crate::object::json_line;
use crate::request::Options;
use crate::text::text_lines;
use crate::version::{Side, Version};
use pcard_print::{PrintError, quote};
use postcard_compat::{Comparison, Verdict, compare};
use postcard_schema::Schema;
use std::alloc::{AllocError, Global};

/// The outcome of a call.
#[derive(Debug, Drop)]
pub struct Outcome {
    /// The lines that it prints.
    pub text: String,
    /// Whether the verdict is good enough for the options, as the exit status says.
    pub is_safe: bool,
}

/// Compares two types by the options of a call. With `both`, the lines of the other direction
/// follow. Then comes a type for a host that reads both versions, if one is found.
///
/// # Errors
///
/// Fails with `OutOfMemory` if an allocation fails. As JSON fails with `NoJson` if a value has none.
pub fn outcome_of(
    alloc: Global,
    options: Options,
    old: &Schema,
    new: &Schema,
) -> Result<Outcome, PrintError>
    ensures outcome { IfOk result (λ outcome. IsOutcome options old.now new.now
        (string_bytes outcome.text) outcome.is_safe) }
    ensures refused { IfErr result (FailsToShow options.json) }
{
    let writer = Version {
        side: Side::Old,
        schema: old,
    };
    let reader = Version {
        side: Side::New,
        schema: new,
    };
    if options.both {
        both_ways(alloc, options, writer, reader)
    } else {
        one_way(alloc, options, writer, reader)
    }
}

/// Compares two types in both directions, and searches for a type by which a host reads both.
fn both_ways(
    alloc: Global,
    options: Options,
    old: Version<'_>,
    new: Version<'_>,
) -> Result<Outcome, PrintError>
    ensures outcome { IfOk result (λ outcome. IsBothWays options old.entry new.entry
        (string_bytes outcome.text) outcome.is_safe) }
    ensures refused { IfErr result (FailsToShow options.json) }
{
    let forth = one_way(alloc, options, old, new)?;
    let back = one_way(alloc, options, new, old)?;
    let host = host_line(alloc, options.json, old.schema, new.schema)?;
    let text = format!(in alloc;
        "{forth}{back}{host}",
        forth = &forth.text,
        back = &back.text
    )?;
    Ok(Outcome {
        text,
        is_safe: forth.is_safe && back.is_safe,
    })
}

/// Compares what the writer writes with what the reader reads.
fn one_way(
    alloc: Global,
    options: Options,
    writer: Version<'_>,
    reader: Version<'_>,
) -> Result<Outcome, PrintError>
    ensures outcome { IfOk result (λ outcome. IsWay options writer.entry reader.entry
        (string_bytes outcome.text) outcome.is_safe) }
    ensures refused { IfErr result (FailsToShow options.json) }
{
    let comparison = compare(alloc, writer.schema, reader.schema)?;
    let text = shown(alloc, options.json, writer, reader, &comparison)?;
    Ok(Outcome {
        text,
        is_safe: is_safe(options.framed, comparison.verdict),
    })
}

/// Returns the lines of a comparison.
fn shown(
    alloc: Global,
    json: bool,
    writer: Version<'_>,
    reader: Version<'_>,
    comparison: &Comparison,
) -> Result<String, PrintError>
    ensures shown { IfOk result (λ text. IsShown json writer.entry reader.entry comparison.now
        (string_bytes text)) }
    ensures refused { IfErr result (FailsToShow json) }
{
    if json {
        return json_line(alloc, writer, reader, comparison);
    }
    let text = text_lines(alloc, writer, reader, comparison)?;
    Ok(text)
}

/// Returns whether the verdict is good enough: `same`, or in frames also `front`.
fn is_safe(framed: bool, verdict: Verdict) -> bool
    ensures { result ≡ is_safe framed verdict }
{
    match verdict {
        Verdict::Same => true,
        Verdict::Front => framed,
        Verdict::Refuses | Verdict::Misread | Verdict::Differs => false,
    }
}

/// Returns the line with a type for a host. Returns nothing if none is found.
fn host_line(alloc: Global, json: bool, old: &Schema, new: &Schema) -> Result<String, AllocError>
    ensures { IfOk result (λ line. IsHostLine json old.now new.now (string_bytes line)) }
{
    let Some(host) = host_expression(alloc, old, new)? else {
        return Ok(String::new(alloc));
    };
    if !json {
        return format!(in alloc; "both: a host reads either version as {host}\n");
    }
    let quoted = quote(alloc, &host)?;
    format!(in alloc; "{{\"both\":{quoted}}}\n")
}
