//! The call [`explain`].

ghost use Rattle.std.specs.Prelude.{◌≡◌, ◌≢◌, None, IfErr, IfOk, IfSome};
ghost use Rattle.postcard_explain.specs.{HasNoFront, IsExplained, IsExplainedUpTo, IsReadError};
ghost use Rattle.postcard_explain.specs.{bytes_of, memory};

use crate::line::Line;
use crate::part::explain_part;
use crate::walk::{WHOLE, Walk, push_rest};
use postcard_schema::Schema;
use postcard_wire::{Error, Result};
use std::alloc::Global;

/// An explanation of bytes, line by line.
#[derive(Debug, Drop)]
pub struct Explanation<'a> {
    /// The lines, in the order of their bytes.
    pub lines: Vec<Line<'a>>,
    /// The error of the part that can't be read, or `None` if the bytes begin with a message of the
    /// type.
    pub refused: Option<Error>,
}

/// Describes each byte, line by line, as a part of a value of the schema. Each byte is on one line,
/// in order.
///
/// The lines are those of the value at the start of the bytes, as `postcard_value::take_from_bytes`
/// reads it. Each value without parts, count, index and byte of an option has a line. Each tuple,
/// struct or array in another value and each entry of a map has one without bytes. The bytes after
/// the value are the last line, if there are some. If a part can't be read, its line is the last,
/// and has all remaining bytes. In a list, a map or an array, the first `most` elements have lines
/// of their own, and the others share one line.
///
/// # Errors
///
/// Fails with `OutOfMemory` if an allocation fails.
pub fn explain<'a>(
    alloc: Global,
    schema: &'a Schema,
    most: u64,
    bytes: &'a [u8],
) -> Result<Explanation<'a>>
    ensures every_byte { IfOk result (λ told. bytes_of told.lines.items ≡ bytes.now) }
    ensures read { IfOk result (λ told. told.refused ≡ None
        → IsExplained most schema.now bytes.now told.lines.items) }
    ensures stopped { IfOk result (λ told. IfSome told.refused (λ error.
        HasNoFront schema.now bytes.now × IsReadError memory error × (error ≢ Error.OutOfMemory))) }
    ensures stopped_lines { IfOk result (λ told. IfSome told.refused (λ error.
        IsExplainedUpTo most schema.now told.lines.items)) }
    ensures only_out_of_memory { IfErr result (λ e. e ≡ Error.OutOfMemory) }
{
    let mut walk = Walk {
        alloc,
        lines: Vec::new(alloc),
    };
    match explain_part(&mut walk, most, schema, WHOLE, bytes) {
        Ok(rest) => {
            push_rest(&mut walk, rest)?;
            Ok(Explanation {
                lines: walk.lines,
                refused: None,
            })
        }
        Err(error) => match error {
            Error::OutOfMemory => Err(error),
            _ => Ok(Explanation {
                lines: walk.lines,
                refused: Some(error),
            }),
        },
    }
}
