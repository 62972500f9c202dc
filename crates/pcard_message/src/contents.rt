//! The data of a message: a value and its checksum, read by [`read_data`].

ghost use Rattle.std.specs.Prelude.{◌≢◌, IfOk};
ghost use Rattle.pcard_message.specs.{HasNoFront, IsDataAnswer, IsReadError, MemoryLacks};
ghost use Rattle.pcard_message.specs.{ReadsValue, memory, plain_answer};

use crate::format::Format;
use pcard_bytes::Checksum;
use pcard_print::{Answer, Reason, Refusal};
use postcard_schema::Path;
use postcard_value::{RefusedPart, Value, refused_at, take_from_bytes};
use postcard_wire::Error;
use std::alloc::{AllocError, Global};

/// Returns the value with which some data begins, and the bytes after the value and its checksum.
/// If there is no value, returns why. The offset of a refusal is counted from the first byte of the
/// data.
///
/// # Errors
///
/// Fails if an allocation fails.
pub fn read_data<'a>(
    alloc: Global,
    format: &'a Format,
    content: &'a [u8],
) -> Result<Answer<'a>, AllocError>
    ensures { IfOk result (λ answer. IsDataAnswer format.now content.now (plain_answer answer)) }
{
    match take_from_bytes(alloc, &format.schema, content) {
        Ok((value, behind)) => Ok(check(alloc, format, content, value, behind)),
        Err(Error::OutOfMemory) => Err(AllocError),
        Err(error) => refuse(alloc, format, content, error),
    }
}

/// Returns the answer to data that begins with a value: the bytes after its checksum, if that
/// follows.
fn check<'a>(
    alloc: Global,
    format: &Format,
    content: &[u8],
    value: Value,
    behind: &'a [u8],
) -> Answer<'a>
    requires { ReadsValue format.now.schema content.now value behind.now }
    ensures { IsDataAnswer format.now content.now (plain_answer result) }
{
    let Some(checksum) = format.checksum else {
        return Answer::Value(value, behind);
    };
    let end = content.len() - behind.len();
    match checksum.after_trailer(&content[..end], behind) {
        Ok(rest) => Answer::Value(value, rest),
        Err(_) => Answer::Refused(Refusal {
            offset: end,
            reason: Reason::BadChecksum,
            path: Path {
                steps: Vec::new(alloc),
            },
            shown: None,
        }),
    }
}

/// Returns the refusal of data that begins with no value, for the error of reading it.
fn refuse<'a>(
    alloc: Global,
    format: &'a Format,
    content: &[u8],
    error: Error,
) -> Result<Answer<'a>, AllocError>
    requires no_front { HasNoFront format.now.schema content.now }
    requires named { IsReadError memory error }
    requires not_memory { error ≢ MemoryLacks }
    ensures { IfOk result (λ answer. IsDataAnswer format.now content.now (plain_answer answer)) }
{
    let Ok(RefusedPart { offset, path }) = refused_at(alloc, &format.schema, content) else {
        return Err(AllocError);
    };
    Ok(Answer::Refused(Refusal {
        offset,
        reason: Reason::Unread(error),
        path,
        shown: None,
    }))
}
