//! The call `pcard impl FILE`: what it prints, and its exit status.

ghost use Rattle.std.specs.Prelude.{◌≡◌, ◌≢◌, ◌≤◌, ℕ, List, Some, IfOk, string_bytes};
ghost use Rattle.pcard_impl.specs.{Appends, IsMarked, Tells, TellsPath, file_problem_status};
ghost use Rattle.pcard_impl.specs.{impl_failure_status, impl_failure_text, impl_problem_status};

use crate::marks::{BEGIN, END};
use crate::{Home, ImplError, ImplProblem, impl_file};
use postcard_schema_text::Problem;
use postcard_source::FileProblem;
use std::alloc::Global;
use std::fmt;
use std::io::Write;

/// Why a call prints no impls.
#[derive(Clone, Copy, Debug, PartialEq, Eq)]
pub enum ImplFailure<'a> {
    /// The path of the file is none of the form `CRATE/src/MODULE.rt`.
    NoHome,
    /// The file is no UTF-8.
    NoText,
    /// No impls are written of the types of the file.
    Wrong(ImplError<'a>),
}

impl fmt::Display for ImplFailure<'_> {
    ghost output = { λ failure. Some (impl_failure_text failure) };

    fn fmt<W: fmt::Write>(&self, f: &mut fmt::Formatter<W>) -> fmt::Result {
        match self {
            ImplFailure::NoHome => f.write_str("write the file as CRATE/src/MODULE.rt"),
            ImplFailure::NoText => f.write_str("the file is not UTF-8"),
            ImplFailure::Wrong(error) => write!(f, "{error}"),
        }
    }
}

impl ImplFailure<'_> {
    /// Returns the exit status of this failure: 1 for out of memory, and else 2.
    fn status(&self) -> u8
        ensures { result ≡ impl_failure_status self.now }
    {
        match self {
            ImplFailure::Wrong(error) => status_of(error.problem),
            _ => 2,
        }
    }
}

/// Returns the exit status of a problem: 1 for out of memory, and else 2.
fn status_of(problem: ImplProblem) -> u8
    ensures { result ≡ impl_problem_status problem }
{
    match problem {
        ImplProblem::File(problem) => file_status(problem),
        _ => 2,
    }
}

fn file_status(problem: FileProblem) -> u8
    ensures { result ≡ file_problem_status problem }
{
    match problem {
        FileProblem::Expression(Problem::OutOfMemory) => 1,
        _ => 2,
    }
}

/// Prints the file with these bytes and the impls of its types, and returns the exit status. It is
/// 0, or 1 out of memory, 3 if the output can't be written, and 2 if there are no impls for another
/// reason. At 1 and 2 a line on `errors` says why, and nothing is printed. `path` is that of the
/// file.
pub fn answer<W: Write, E: Write>(
    alloc: Global,
    path: &str,
    bytes: &[u8],
    output: &mut W,
    errors: &mut E,
) -> u8
    ensures status { result ≤ 3 }
    ensures printed { result ≡ 0 → (written : List ℕ)
        × IsMarked BEGIN.now END.now bytes.now written
        × Appends (W.contents output.old) (W.contents output.new) written }
    ensures nothing_printed { result ≢ 0 → result ≢ 3
        → W.contents output.new ≡ W.contents output.old }
    ensures told { result ≢ 0 → TellsPath path.now
        (E.contents errors.old) (E.contents errors.new) result }
    ensures nothing_told { result ≡ 0 → E.contents errors.new ≡ E.contents errors.old }
{
    match file_with_impls(alloc, path, bytes) {
        Ok(written) => {
            let printed = output.write_all(written.as_bytes());
            match printed.and(output.flush()) {
                Ok(()) => 0,
                Err(_) => 3,
            }
        }
        Err(failure) => tell(path, failure, errors),
    }
}

/// Prints a line that says what is wrong with the file with this path, and returns the exit status.
fn tell<E: Write>(path: &str, failure: ImplFailure, errors: &mut E) -> u8
    ensures { Tells path.now failure.entry
        (E.contents errors.old) (E.contents errors.new) result }
{
    let printed = writeln!(errors, "pcard: {path}: {failure}");
    match printed.and(errors.flush()) {
        Ok(()) => failure.status(),
        Err(_) => 3,
    }
}

/// Returns the file with these bytes and the impls of its types, or why there is none.
fn file_with_impls<'a>(
    alloc: Global,
    path: &str,
    bytes: &'a [u8],
) -> Result<String, ImplFailure<'a>>
    ensures { IfOk result (λ written. IsMarked BEGIN.now END.now bytes.now
        (string_bytes written)) }
{
    let Some(home) = Home::of_path(path) else {
        return Err(ImplFailure::NoHome);
    };
    let Ok(file) = str::from_utf8(bytes) else {
        return Err(ImplFailure::NoText);
    };
    match impl_file(alloc, home, file) {
        Ok(written) => Ok(written),
        Err(error) => Err(ImplFailure::Wrong(error)),
    }
}
