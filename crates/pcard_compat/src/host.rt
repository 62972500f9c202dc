//! A type by which a host reads both versions of a type: [`host_expression`].

ghost use Rattle.std.specs.Prelude.{◌≡◌, IfOk, IfSome, true, string_bytes};
ghost use Rattle.pcard_compat.specs.{IsHostOf, Serves, type_of};

use crate::expression::expression_of;
use postcard_compat::{Verdict, both, compare};
use postcard_schema::Schema;
use postcard_schema_text::{Problem, parse};
use std::alloc::{AllocError, Global};

/// Returns an expression of a type that reads each message of both types as the same. Its names are
/// those of the types. Returns `None` if none is found. `None` promises nothing.
///
/// # Errors
///
/// Fails if an allocation fails.
pub fn host_expression(
    alloc: Global,
    old: &Schema,
    new: &Schema,
) -> Result<Option<String>, AllocError>
    ensures { IfOk result
        (λ found. IfSome found (λ text. IsHostOf old.now new.now (string_bytes text))) }
{
    if let Some(joined) = both(alloc, old, new)? {
        if let Some(text) = host_text(alloc, &joined, old, new)? {
            return Ok(Some(text));
        }
    }
    if let Some(text) = host_text(alloc, new, old, new)? {
        return Ok(Some(text));
    }
    host_text(alloc, old, old, new)
}

/// Returns the expression of a type if that type reads both types. The expression is parsed again
/// and compared, so that the contract speaks of the text itself.
fn host_text(
    alloc: Global,
    host: &Schema,
    old: &Schema,
    new: &Schema,
) -> Result<Option<String>, AllocError>
    ensures { IfOk result
        (λ found. IfSome found (λ text. IsHostOf old.now new.now (string_bytes text))) }
{
    let text = expression_of(alloc, host)?;
    let host = match parse(alloc, text.as_str()) {
        Ok(host) => host,
        Err(error) => {
            return match error.problem {
                Problem::OutOfMemory => Err(AllocError),
                _ => Ok(None),
            };
        }
    };
    if !reads_same(alloc, old, &host)? {
        return Ok(None);
    }
    if !reads_same(alloc, new, &host)? {
        return Ok(None);
    }
    Ok(Some(text))
}

/// Returns `true` only if the new type reads each message of the old one as the same, by the same
/// names.
fn reads_same(alloc: Global, old: &Schema, new: &Schema) -> Result<bool, AllocError>
    ensures { IfOk result (λ same. same ≡ true → Serves (type_of new.now) (type_of old.now)) }
{
    let comparison = compare(alloc, old, new)?;
    Ok(comparison.verdict == Verdict::Same)
}
