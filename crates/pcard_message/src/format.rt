//! How messages are written: [`Format`].

ghost use Rattle.std.specs.Prelude.{◌≡◌, IfErr, IfOk};
ghost use Rattle.pcard_message.specs.{FormatFails, IsExpression, IsFormat, IsNameFailure, TypeFails};
ghost use Rattle.pcard_message.specs.{checksum_name, given_of};

use crate::failure::Failure;
use pcard_bytes::Checksum;
use pcard_call::Options;
use pcard_print::Notation;
use postcard_schema::Schema;
use postcard_schema_text::{Problem, parse};
use postcard_wire::Error;
use std::alloc::Global;

/// How messages are written, as bytes and as lines.
#[derive(Debug, Drop)]
pub struct Format {
    /// The type of a message.
    pub schema: Schema,
    /// The checksum that follows a message, if one does.
    pub checksum: Option<Checksum>,
    /// Whether a message and its checksum are in a COBS frame.
    pub framed: bool,
    /// How a value is written for people or programs.
    pub notation: Notation,
}

/// Returns the format of these options and of the type expression `kind`. The name of the checksum
/// is looked up first.
///
/// # Errors
///
/// Fails as [`checksum_of`] and [`schema_of`] do.
pub fn format_of<'a>(
    alloc: Global,
    options: &Options<'a>,
    kind: &str,
) -> Result<Format, Failure<'a>>
    ensures format { IfOk result (IsFormat (given_of options.now) kind.now) }
    ensures refused { IfErr result (FormatFails (given_of options.now) kind.now) }
{
    let checksum = match options.checksum {
        Some(name) => Some(checksum_of(name)?),
        None => None,
    };
    let schema = schema_of(alloc, kind)?;
    Ok(Format {
        schema,
        checksum,
        framed: options.frame,
        notation: if options.json {
            Notation::Json
        } else {
            Notation::Text
        },
    })
}

/// Returns the type that an expression describes.
///
/// # Errors
///
/// Fails with `BadType` if the expression is misspelled, and with `Library(OutOfMemory)`.
pub fn schema_of(alloc: Global, text: &str) -> Result<Schema, Failure<'static>>
    ensures spelled { IfOk result (λ schema. IsExpression schema text.now) }
    ensures refused { IfErr result (TypeFails text.now) }
{
    match parse(alloc, text) {
        Ok(schema) => Ok(schema),
        Err(error) => match error.problem {
            Problem::OutOfMemory => Err(Failure::Library(Error::OutOfMemory)),
            _ => Err(Failure::BadType(error)),
        },
    }
}

/// Returns the checksum with this name. Fails with `UnknownChecksum` if there is none.
pub fn checksum_of<'a>(name: &'a str) -> Result<Checksum, Failure<'a>>
    ensures named { IfOk result (λ checksum. name.now ≡ checksum_name checksum) }
    ensures refused { IfErr result (IsNameFailure name.now) }
{
    match Checksum::from_name(name) {
        Some(checksum) => Ok(checksum),
        None => Err(Failure::UnknownChecksum(name)),
    }
}
