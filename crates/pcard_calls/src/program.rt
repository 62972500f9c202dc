//! The work of the program: from the words of a call to its output and exit status.

ghost use Rattle.std.specs.Prelude.{◌≡◌, ◌≤◌, IfErr, OnOk, map, string_bytes};
ghost use Rattle.pcard_calls.specs.{Answers, AnswersFailure, Appends, ChecksumsFail, EndsAs, EndsPlain};
ghost use Rattle.pcard_calls.specs.{EndsOther, EndsTyped, is_typed};
ghost use Rattle.pcard_calls.specs.{IsNoCall, IsReported, NamedFails, PrintsCall, PrintsChecksums};
ghost use Rattle.pcard_calls.specs.{PrintsNamed, READS, Reports, exit_status, form_of, given_of};
ghost use Rattle.pcard_calls.specs.{last_line};

use crate::convert::{Task, convert, decode};
use crate::messages::perform;
use crate::names::{TypeWord, ValueType};
use crate::request::{Request, first, second};
use crate::syntax::SYNTAX;
use crate::{checksums, frames, key, size, syntax};
use pcard_call::{Call, Verb};
use pcard_message::{Failure, format_of};
use postcard_de_flavors::Reader;
use std::alloc::Global;
use std::io;
use std::io::Write;

/// Runs the call of these words, which come after the program's name, and returns the exit status:
///
/// - 0 if it succeeds;
/// - 1 if the library fails to encode or decode, or if an allocation fails, except one for the
///   frames of `frames`;
/// - 2 if the words are no call, or if TYPE, VALUE, HEX or NAME is wrong;
/// - 3 if the input isn't read to its end, if an allocation for the frames of `frames` fails, or if
///   the output can't be written.
///
/// Words that are no call print the usage on `output`, and why they are none on `errors`. Nothing
/// else is written there.
pub fn run<R: Reader, W: Write, E: Write>(
    alloc: Global,
    words: &[String],
    input: &mut R,
    output: &mut W,
    errors: &mut E,
) -> u8
    ensures status { result ≤ 3 }
    ensures answers { Answers SYNTAX.now READS (R.steady input.old) (map string_bytes words.now)
        (R.remaining input.old) (R.remaining input.new)
        (W.contents output.old) (W.contents output.new) result }
    ensures usage { IsNoCall (map string_bytes words.now)
        → AnswersFailure Failure.Usage (W.contents output.old) (W.contents output.new) result }
    ensures printed { result ≡ 0 → PrintsCall SYNTAX.now (map string_bytes words.now)
        (R.remaining input.old) (R.remaining input.new)
        (W.contents output.old) (W.contents output.new) }
    ensures no_errors { (IsNoCall (map string_bytes words.now) → ⊥) → errors.new ≡ errors.old }
{
    match Request::parse(words) {
        Ok(request) => answer(alloc, &request, input, output),
        Err(why) => {
            let _ = writeln!(errors, "pcard: {why}");
            report(Err(Failure::Usage), output)
        }
    }
}

/// Ends a call: prints the text of its failure on a line, if it failed, flushes the output, and
/// returns the exit status, which is 3 if the output can't be written.
pub fn report<W: Write>(outcome: Result<(), Failure<'_>>, output: &mut W) -> u8
    ensures { Reports outcome.entry (W.contents output.old) (W.contents output.new) result }
{
    match print_end(&outcome, output) {
        Ok(()) => status_of(&outcome),
        Err(_) => Failure::Output.status(),
    }
}

/// Prints the line of a failure, unless it is that of a refusal, which is printed before. Flushes
/// the output.
fn print_end<W: Write>(outcome: &Result<(), Failure<'_>>, output: &mut W) -> io::Result<()>
    ensures { OnOk result (Appends (W.contents output.old) (W.contents output.new)
        (last_line outcome.now)) }
{
    match outcome {
        Ok(()) | Err(Failure::Refused) => {}
        Err(failure) => writeln!(output, "{failure}")?,
    }
    output.flush()
}

fn status_of(outcome: &Result<(), Failure<'_>>) -> u8
    ensures { result ≡ exit_status outcome.now }
{
    match outcome {
        Ok(()) => 0,
        Err(failure) => failure.status(),
    }
}

/// Does a call, and ends it.
fn answer<R: Reader, W: Write>(
    alloc: Global,
    request: &Request<'_>,
    input: &mut R,
    output: &mut W,
) -> u8
    ensures { IsReported (EndsAs SYNTAX.now READS (R.steady input.old)
        request.now.call.verb (given_of request.now.call.options)
        (map string_bytes request.now.call.operands.now) request.now.kind
        (R.remaining input.old) (R.remaining input.new) (W.contents output.old))
        (W.contents output.new) result }
{
    let call = &request.call;
    match request.kind {
        TypeWord::Named(kind) => {
            let text = second(call.operands);
            report(do_named(alloc, call.verb, kind, text, output), output)
        }
        TypeWord::Expression => answer_plain(alloc, call, input, output),
    }
}

/// Does a call that has no TYPE, or one that is an expression, and ends it.
fn answer_plain<R: Reader, W: Write>(
    alloc: Global,
    call: &Call<'_>,
    input: &mut R,
    output: &mut W,
) -> u8
    ensures { IsReported (EndsPlain SYNTAX.now READS (R.steady input.old)
        call.now.verb (given_of call.now.options) (map string_bytes call.now.operands.now)
        (R.remaining input.old) (R.remaining input.new) (W.contents output.old))
        (W.contents output.new) result }
{
    if is_typed(call.verb, call.operands) {
        return answer_typed(alloc, call, input, output);
    }
    answer_other(alloc, call, input, output)
}

/// Returns whether a call is about messages of a type.
fn is_typed(verb: Verb, operands: &[String]) -> bool
    ensures { result ≡ is_typed verb (map string_bytes operands.now) }
{
    match operands {
        [] => !matches!(
            verb,
            Verb::Types | Verb::Size | Verb::Key | Verb::Checksum | Verb::Frames
        ),
        [_, ..] => !matches!(verb, Verb::Types | Verb::Size | Verb::Key | Verb::Checksum),
    }
}

/// Does a call that is not about messages of a type, and ends it: `types`, `size`, `key`, `crc`, or
/// else `frames` alone.
fn answer_other<R: Reader, W: Write>(
    alloc: Global,
    call: &Call<'_>,
    input: &mut R,
    output: &mut W,
) -> u8
    ensures { IsReported (EndsOther SYNTAX.now READS (R.steady input.old)
        call.now.verb (given_of call.now.options) (map string_bytes call.now.operands.now)
        (R.remaining input.old) (R.remaining input.new) (W.contents output.old))
        (W.contents output.new) result }
{
    match call.verb {
        Verb::Types => report(do_types(output), output),
        Verb::Size => report(size::print(alloc, first(call.operands), output), output),
        Verb::Key => {
            let names = call.options.names;
            report(
                key::print(alloc, first(call.operands), names, output),
                output,
            )
        }
        Verb::Checksum => report(do_checksum(alloc, call.operands, input, output), output),
        _ => report(frames::print(alloc, input, output), output),
    }
}

/// Does a call with an expression, and ends it.
fn answer_typed<R: Reader, W: Write>(
    alloc: Global,
    call: &Call<'_>,
    input: &mut R,
    output: &mut W,
) -> u8
    ensures { IsReported (EndsTyped READS (R.steady input.old)
        call.now.verb (given_of call.now.options) (map string_bytes call.now.operands.now)
        (R.remaining input.old) (R.remaining input.new) (W.contents output.old))
        (W.contents output.new) result }
{
    match format_of(alloc, &call.options, first(call.operands)) {
        Ok(format) => report(perform(alloc, call, &format, input, output), output),
        Err(failure) => report(Err(failure), output),
    }
}

/// Encodes or decodes a value of a type that has a name.
fn do_named<W: Write>(
    alloc: Global,
    verb: Verb,
    kind: ValueType,
    text: &str,
    output: &mut W,
) -> Result<(), Failure<'static>>
    ensures printed { OnOk result (PrintsNamed verb (form_of kind) text.now
        (W.contents output.old) (W.contents output.new)) }
    ensures refused { IfErr result (NamedFails verb (form_of kind) text.now) }
{
    match verb {
        Verb::Encode => convert(alloc, kind, Task::Encode(text), output),
        _ => decode(alloc, kind, text, output),
    }
}

/// Prints the checksum of the words NAME and HEX, or without words the catalogue.
fn do_checksum<'a, R: Reader, W: Write>(
    alloc: Global,
    operands: &'a [String],
    input: &mut R,
    output: &mut W,
) -> Result<(), Failure<'a>>
    ensures printed { OnOk result (PrintsChecksums (map string_bytes operands.now)
        (R.remaining input.old) (R.remaining input.new)
        (W.contents output.old) (W.contents output.new)) }
    ensures refused { IfErr result (ChecksumsFail READS (R.steady input.old)
        (map string_bytes operands.now) (R.remaining input.old) (R.remaining input.new)) }
{
    if operands.is_empty() {
        checksums::print_catalog(output)?;
        return Ok(());
    }
    checksums::print(alloc, first(operands), second(operands), input, output)
}

fn do_types<W: Write>(output: &mut W) -> Result<(), Failure<'static>>
    ensures printed { OnOk result (Appends (W.contents output.old) (W.contents output.new)
        SYNTAX.now) }
    ensures only_output { IfErr result (λ e. e ≡ Failure.Output) }
{
    syntax::print(output)?;
    Ok(())
}
