//! The call of some words, in which TYPE may be the name of a type in a file.

ghost use Rattle.std.specs.Prelude.{◌≡◌, ◌<◌, ◌≤◌, ℕ, List, Option, length, map, string_bytes};
ghost use Rattle.std.specs.Prelude.{IfNone, IfSome};
ghost use Rattle.pcard_calls.specs.{READS};
ghost use Rattle.pcard_files.specs.{AnswersNamed, NamesType, Tells, bytes_of};

use crate::fault::TypeFault;
use crate::files::Files;
use crate::operand::type_index;
use crate::type_name::TypeName;
use pcard_calls::syntax::SYNTAX;
use postcard_de_flavors::Reader;
use std::alloc::Global;
use std::io::Write;

/// The exit status if what there is to print can't be written.
const UNWRITTEN: u8 = 3;

/// Runs the call of these words, which come after the program's name, as [`pcard_calls::run`] does,
/// and returns the exit status. If TYPE is `@FILE:NAME` or `@FILE`, it is replaced by an expression
/// of the type that the file declares with this name, or has as a schema message.
///
/// If there is no such type, a line on `errors` says why, no input is read, and nothing is printed to
/// `output`. The status is then 1 if memory runs out, 3 if the line can't be written, and else 2.
pub fn run<F: Files, R: Reader, W: Write, E: Write>(
    alloc: Global,
    words: &mut [String],
    files: &F,
    input: &mut R,
    output: &mut W,
    errors: &mut E,
) -> u8
    ensures status { result ≤ 3 }
    ensures answers { AnswersNamed (F.gives files.now) (F.lacks files.now) SYNTAX.now READS
        (R.steady input.old) (map string_bytes words.old)
        (R.remaining input.old) (R.remaining input.new)
        (W.contents output.old) (W.contents output.new)
        (E.contents errors.old) (E.contents errors.new) result }
{
    let Some((index, name)) = named_type(words) else {
        return pcard_calls::run(alloc, words, input, output, errors);
    };
    match name.expression(alloc, files) {
        Ok(text) => {
            words[index] = text;
            pcard_calls::run(alloc, words, input, output, errors)
        }
        Err(fault) => tell(name.file, fault, errors),
    }
}

/// Prints a line that says what is wrong with this file, and returns the exit status.
pub fn tell<E: Write>(file: &str, fault: TypeFault, errors: &mut E) -> u8
    ensures { Tells file.now fault (E.contents errors.old) (E.contents errors.new) result }
{
    let printed = writeln!(errors, "pcard: {file}: {fault}");
    match printed.and(errors.flush()) {
        Ok(()) => fault.status(),
        Err(_) => UNWRITTEN,
    }
}

/// Returns the index of the word TYPE and the name of a type in a file that it is, or `None` if it is
/// none.
fn named_type(words: &[String]) -> Option<(usize, TypeName<'_>)>
    ensures found { IfSome result (λ found. NamesType (map string_bytes words.now)
        found.0 found.1.file.now (bytes_of found.1.name)) }
    ensures none { IfNone result ((i : ℕ) (file : List ℕ) (name : Option (List ℕ))
        → NamesType (map string_bytes words.now) i file name → ⊥) }
    ensures inside { IfSome result (λ found. found.0 < length words.now) }
{
    let Some(index) = type_index(words) else {
        return None;
    };
    match TypeName::from_word(words[index].as_str()) {
        Some(name) => Some((index, name)),
        None => None,
    }
}
