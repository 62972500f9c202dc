//! The call `pcard compat`: what it prints, and its exit status.

ghost use Rattle.std.specs.Prelude.{◌≤◌, map, string_bytes};
ghost use Rattle.pcard_compat.specs.{Answers, EndsCall, PrintsOutcome, RefusesType, RefusesWords};

use crate::outcome::{Outcome, outcome_of};
use crate::request::{Misuse, Request};
use crate::type_word::{NoType, type_of_word};
use pcard_calls::report;
use pcard_files::Files;
use pcard_files::call::tell;
use pcard_message::Failure;
use pcard_print::PrintError;
use std::alloc::Global;
use std::io::Write;

/// The exit status if the answer or the error can't be written.
const UNWRITTEN: u8 = 3;

/// Runs `pcard compat` with these arguments, and returns the exit status:
///
/// - 0 if the answer is `same`, with `--framed` also if it is `front`, and with `--both` only if both
///   answers are so;
/// - 1 for other answers, or if an allocation fails;
/// - 2 if the arguments are invalid, or if one of the two types is wrong;
/// - 3 if the answer or the error can't be written.
///
/// For invalid arguments the usage is printed on `output`, and what is wrong on `errors`. A line on
/// `errors` says what is wrong with a file, and one on `output` what is wrong with an expression.
/// Otherwise nothing is printed to `output` before the types are compared.
pub fn answer<F: Files, W: Write, E: Write>(
    alloc: Global,
    words: &[String],
    files: &F,
    output: &mut W,
    errors: &mut E,
) -> u8
    ensures status { result ≤ 3 }
    ensures answers { Answers (F.gives files.now) (F.lacks files.now) (map string_bytes words.now)
        (W.contents output.old) (W.contents output.new)
        (E.contents errors.old) (E.contents errors.new) result }
{
    let request = match Request::parse(words) {
        Ok(request) => request,
        Err(misuse) => return refuse_words(misuse, output, errors),
    };
    let old = match type_of_word(alloc, request.old, files) {
        Ok(old) => old,
        Err(why) => return refuse_type(why, output, errors),
    };
    let new = match type_of_word(alloc, request.new, files) {
        Ok(new) => new,
        Err(why) => return refuse_type(why, output, errors),
    };
    end_call(outcome_of(alloc, request.options, &old, &new), output)
}

/// Prints the usage, and what is wrong with the arguments. Returns the exit status.
fn refuse_words<W: Write, E: Write>(misuse: Misuse<'_>, output: &mut W, errors: &mut E) -> u8
    ensures { RefusesWords misuse.entry (W.contents output.old) (W.contents output.new)
        (E.contents errors.old) (E.contents errors.new) result }
{
    match writeln!(errors, "pcard: {misuse}") {
        Ok(()) => report(Err(Failure::Usage), output),
        Err(_) => UNWRITTEN,
    }
}

/// Prints why an argument stands for no type, and returns the exit status.
fn refuse_type<W: Write, E: Write>(why: NoType<'_>, output: &mut W, errors: &mut E) -> u8
    ensures { RefusesType why.entry (W.contents output.old) (W.contents output.new)
        (E.contents errors.old) (E.contents errors.new) result }
{
    match why {
        NoType::File(file, fault) => tell(file, fault, errors),
        NoType::Expression(failure) => report(Err(failure), output),
    }
}

/// Prints the outcome of a call, or the line of its failure, and returns the exit status.
fn end_call<W: Write>(outcome: Result<Outcome, PrintError>, output: &mut W) -> u8
    ensures { EndsCall outcome (W.contents output.old) (W.contents output.new) result }
{
    match outcome {
        Ok(outcome) => print_outcome(&outcome, output),
        Err(error) => report(Err(Failure::from(error)), output),
    }
}

/// Prints the outcome of a call, and returns the exit status.
fn print_outcome<W: Write>(outcome: &Outcome, output: &mut W) -> u8
    ensures { PrintsOutcome outcome.now (W.contents output.old) (W.contents output.new) result }
{
    let printed = output.write_all(outcome.text.as_bytes());
    match printed.and(output.flush()) {
        Ok(()) if outcome.is_safe => 0,
        Ok(()) => 1,
        Err(_) => UNWRITTEN,
    }
}
