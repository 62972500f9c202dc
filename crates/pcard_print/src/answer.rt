//! The result of reading a message or a frame, and its line: [`Answer`].

ghost use Rattle.std.specs.Prelude.{IfErr, OnOk};
ghost use Rattle.pcard_print.specs.{AnswerFails, PrintsAnswer, plain_answer};

use crate::error::PrintError;
use crate::notation::Notation;
use crate::refusal::Refusal;
use crate::refusal_line::print_refusal;
use crate::value_line::print_value;
use postcard_schema::Schema;
use postcard_value::Value;
use std::alloc::Global;
use std::io::Write;

/// The result of reading the bytes of a message or a frame.
#[derive(Debug, Drop)]
pub enum Answer<'a> {
    /// A value, and the bytes of the data after it.
    Value(Value, &'a [u8]),
    /// No value.
    Refused(Refusal<'a>),
}

/// Prints the line of an answer to bytes that begin at the offset `start`.
///
/// # Errors
///
/// Fails as [`print_value`] and [`print_refusal`] do.
pub fn print_answer<W: Write>(
    alloc: Global,
    notation: Notation,
    schema: &Schema,
    start: u64,
    answer: &Answer<'_>,
    output: &mut W,
) -> Result<(), PrintError>
    ensures printed { OnOk result (PrintsAnswer notation schema.now start (plain_answer answer.now)
        (W.contents output.old) (W.contents output.new)) }
    ensures refused { IfErr result (AnswerFails notation (plain_answer answer.now)
        (W.contents output.old) (W.contents output.new)) }
{
    match answer {
        Answer::Value(value, rest) => {
            print_value(alloc, notation, schema, start, value, rest, output)
        }
        Answer::Refused(refusal) => print_refusal(alloc, notation, start, refusal, output),
    }
}
