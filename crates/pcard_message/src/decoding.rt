//! The commands `dec` and `decs`: [`decode`] and [`decode_all`].

ghost use Rattle.std.specs.Prelude.{◌≡◌, ◌-◌, ◌<◌, IfErr, IfOk, IsFalse, IsTrue, OnOk, length};
ghost use Rattle.pcard_message.specs.{DecodeAllFails, DecodeFails, LacksBytes, NextFails};
ghost use Rattle.pcard_message.specs.{PrintsAll, PrintsNext, PrintsOne};

use crate::failure::Failure;
use crate::first::next;
use crate::format::Format;
use pcard_print::{Answer, print_first, print_refusal, print_value};
use std::alloc::Global;
use std::io::Write;

/// Prints the value of the first message or frame of some bytes, and the bytes after it.
///
/// # Errors
///
/// - `Refused` if there is no value, once a line that says so is printed.
/// - `Output` if the output can't be written.
/// - `Library(OutOfMemory)` if an allocation fails.
/// - `Library(WontImplement)` if the value has no JSON.
pub fn decode<W: Write>(
    alloc: Global,
    format: &Format,
    bytes: &[u8],
    output: &mut W,
) -> Result<(), Failure<'static>>
    ensures printed { OnOk result (PrintsOne format.now bytes.now
        (W.contents output.old) (W.contents output.new)) }
    ensures refused { IfErr result (DecodeFails format.now bytes.now
        (W.contents output.old) (W.contents output.new)) }
{
    let mut room = Vec::new(alloc);
    let (answer, after) = next(alloc, format, bytes, &mut room)?;
    match answer {
        Answer::Value(value, rest) => {
            let schema = &format.schema;
            print_first(
                alloc,
                format.notation,
                format.framed,
                schema,
                &value,
                rest,
                after,
                output,
            )?;
            Ok(())
        }
        Answer::Refused(refusal) => {
            print_refusal(alloc, format.notation, 0, &refusal, output)?;
            Err(Failure::Refused)
        }
    }
}

/// Prints the values of messages or frames in a row, until no byte is left.
///
/// # Errors
///
/// Fails with `NoBytes` if messages may have no bytes, and otherwise as [`decode`] does. The lines
/// of the values before a failure are printed.
pub fn decode_all<W: Write>(
    alloc: Global,
    format: &Format,
    bytes: &[u8],
    output: &mut W,
) -> Result<(), Failure<'static>>
    ensures printed { OnOk result (PrintsAll format.now bytes.now
        (W.contents output.old) (W.contents output.new)) }
    ensures refused { IfErr result (DecodeAllFails format.now bytes.now
        (W.contents output.old) (W.contents output.new)) }
{
    if lacks_bytes(format) {
        return Err(Failure::NoBytes);
    }
    let mut room = Vec::new(alloc);
    let mut rest = bytes;
    'values: while !rest.is_empty() {
        rest = print_next(alloc, format, bytes, rest, &mut room, output)?;
    }
    Ok(())
}

/// Returns whether messages may have no bytes. That is so without a frame and a checksum, if the
/// type may have no bytes.
fn lacks_bytes(format: &Format) -> bool
    ensures lacks { IsTrue result → LacksBytes format.now }
    ensures has { IsFalse result → LacksBytes format.now → ⊥ }
{
    !format.framed && format.checksum.is_none() && !format.schema.has_bytes()
}

/// Prints the line of the first message or frame of `rest`, the end of `all`, and returns the bytes
/// after it. Fails as [`decode`] does.
fn print_next<'a, W: Write>(
    alloc: Global,
    format: &'a Format,
    all: &[u8],
    rest: &'a [u8],
    room: &mut Vec<u8>,
    output: &mut W,
) -> Result<&'a [u8], Failure<'static>>
    ensures printed { IfOk result (λ after. PrintsNext format.now
        (length all.now - length rest.now) rest.now after.now
        (W.contents output.old) (W.contents output.new)) }
    ensures refused { IfErr result (NextFails format.now
        (length all.now - length rest.now) rest.now
        (W.contents output.old) (W.contents output.new)) }
{
    let start = all.len().saturating_sub(rest.len()) as u64;
    let (answer, after) = next(alloc, format, rest, room)?;
    match answer {
        Answer::Value(value, behind) => {
            let schema = &format.schema;
            print_value(
                alloc,
                format.notation,
                schema,
                start,
                &value,
                behind,
                output,
            )?;
            Ok(after)
        }
        Answer::Refused(refusal) => {
            print_refusal(alloc, format.notation, start, &refusal, output)?;
            Err(Failure::Refused)
        }
    }
}
