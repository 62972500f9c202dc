//! The call of some words, which with `--raw` may read its bytes from a file that its second operand
//! names.

ghost use Rattle.std.specs.Prelude.{◌≡◌, ◌≤◌, map, string_bytes};
ghost use Rattle.pcard_calls.specs.{READS};
ghost use Rattle.pcard_files.specs.{AnswersCall, open_fault};

use crate::call;
use crate::fault::TypeFault;
use crate::files::{Files, ReadError};
use crate::operand::input_name;
use pcard_calls::syntax::SYNTAX;
use postcard_de_flavors::Reader;
use std::alloc::Global;
use std::io::Write;

/// Runs the call of these words, which come after the program's name, as [`call::run`] does, and
/// returns the exit status. With `--raw` a call of `dec`, `decs`, `explain` or `frames` may have a
/// second operand `@FILE`. It then reads the file in the place of `input`.
///
/// If the file can't be opened, a line on `errors` says why, nothing is read, and nothing is
/// printed to `output`. The status is then 1, 2 or 3, as there for a file of types.
pub fn run<F: Files, R: Reader, W: Write, E: Write>(
    alloc: Global,
    words: &mut [String],
    files: &F,
    input: &mut R,
    output: &mut W,
    errors: &mut E,
) -> u8
    ensures status { result ≤ 3 }
    ensures answers { AnswersCall F.Opened.remaining F.Opened.steady
        (F.gives files.now) (F.lacks files.now) SYNTAX.now READS
        (R.steady input.old) (map string_bytes words.old)
        (R.remaining input.old) (R.remaining input.new)
        (W.contents output.old) (W.contents output.new)
        (E.contents errors.old) (E.contents errors.new) result }
{
    let Some(name) = input_name(words) else {
        return call::run(alloc, words, files, input, output, errors);
    };
    match files.open(name) {
        Ok(mut opened) => call::run(alloc, words, files, &mut opened, output, errors),
        Err(error) => call::tell(name, fault_of(error), errors),
    }
}

fn fault_of(error: ReadError) -> TypeFault
    ensures { result ≡ open_fault error }
{
    match error {
        ReadError::Failed => TypeFault::Unreadable,
        ReadError::OutOfMemory => TypeFault::OutOfMemory,
    }
}
