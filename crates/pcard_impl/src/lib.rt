//! Puts the impls of the types that a file of Rattle declares into the text of that file:
//! [`impl_file`].
//!
//! Of the items of a file the declarations are read, `struct`, `enum` and `type`, with lifetimes,
//! parameters, attributes, comments and visibilities. The impls are written between two marks
//! ([`marks`]), after the text of a file that has none. What is between the marks isn't read, and
//! what is outside of them is kept as it is, so that a second run replaces just the impls. They
//! name all that they use by its path, and no `use` line of the file.
//!
//! | A type | Its impls |
//! |---|---|
//! | an alias | none |
//! | with a lifetime and a parameter | `Repr`, `FromRepr`, `SerializeRepr` |
//! | any other | `Shaped` by `via`, `Serialize`, `Deserialize`, and `DeserializeOwned` if nothing borrows |
//!
//! A struct goes via the tuple of its fields, and an enum via its variants in a row. More than six
//! fields go via tuples of five. A struct or an enum with a signed number in a field has `FromParts`,
//! too, and so has an enum of more than three variants. It is read by its parts, since without them
//! the prover might give up. A type that has no impls that would be proved is refused with the place
//! of the field, by one of [`ImplProblem`].
//!
//! The impls are made in four steps: the items of the file (`read`), what their types are (`found`),
//! which impls each has (`form`), and their text (`write`, by `structs` and `enums`).
#![tactic(auto)]

ghost use Rattle.std.specs.Prelude.{◌≡◌, ◌-◌, ◌||◌, ltb, leb, length, IfOk, IfErr, string_bytes};
ghost use Rattle.pcard_impl.specs.{IsIn, IsMarked, IsPlain, plain_byte};

pub mod command;
mod enums;
pub mod error;
mod fields;
mod form;
mod found;
mod heads;
pub mod home;
mod item;
pub mod marks;
mod memory;
mod parameters;
mod pieces;
mod read;
mod recursion;
mod refusal;
mod scan;
mod structs;
mod text;
mod write;

use error::ImplProblemAt;
pub use error::{ImplError, ImplProblem};
use form::forms;
use found::mark;
pub use home::Home;
use marks::{BEGIN, END, Outside};
use postcard_source::FileProblem;
use postcard_source::declaration::declarations;
use postcard_source::error::ProblemAt;
use postcard_source::kept::kept;
use postcard_source::lex::tokens;
use postcard_source::place::error_at;
use read::items;
use scan::text_at;
use std::alloc::Global;
use write::impls;

/// Returns the file with the impls of its types between its marks. What is outside of the marks is
/// kept; in a file without marks, they are put at its end. `home` is the place of the file.
///
/// # Errors
///
/// Fails with what is wrong, one of [`ImplProblem`], and the line and column where it is.
pub fn impl_file<'a>(alloc: Global, home: Home, file: &'a str) -> Result<String, ImplError<'a>>
    ensures marked { IfOk result (λ written. IsMarked BEGIN.now END.now file.now
        (string_bytes written)) }
    ensures place { IfErr result (IsIn file.now) }
{
    match written(alloc, home, file) {
        Ok(written) => Ok(written),
        Err(problem_at) => Err(error_of(file, problem_at)),
    }
}

/// Does what [`impl_file`] does. The functions below fail as it does.
fn written(alloc: Global, home: Home, file: &str) -> Result<String, ImplProblemAt>
    ensures { IfOk result (λ written. IsMarked BEGIN.now END.now file.now
        (string_bytes written)) }
{
    let outside = Outside::of(file)?;
    let generated = generated(alloc, home, file, outside)?;
    let written = outside.around(alloc, generated.as_str())?;
    if outside.is_of(written.as_str()) {
        return Ok(written);
    }
    Err(ImplProblemAt {
        problem: ImplProblem::MarkLost,
        left: outside.after.len(),
        length: 0,
    })
}

/// Returns the impls of the types that the file declares outside of its marks.
fn generated(
    alloc: Global,
    home: Home,
    file: &str,
    outside: Outside,
) -> Result<String, ImplProblemAt> {
    let plain = plain(alloc, file, outside)?;
    let all = tokens(alloc, plain.as_slice())?;
    let kept = kept(alloc, all.as_slice())?;
    let known = declarations(alloc, kept.as_slice())?;
    let mut items = items(alloc, file, all.as_slice(), known.as_slice())?;
    mark(all.as_slice(), items.as_mut_slice());
    let forms = forms(alloc, file, all.as_slice(), items.as_slice())?;
    impls(alloc, home, items.as_slice(), forms.as_slice())
}

/// Returns the bytes of the file, with blanks for what is between its marks.
fn plain(alloc: Global, file: &str, outside: Outside) -> Result<Vec<u8>, ImplProblemAt>
    ensures { IfOk result (λ plain. IsPlain (length outside.entry.before.now)
        (length file.now - length outside.entry.after.now) file.now plain.items) }
{
    let start = outside.before.len();
    let end = file.len().saturating_sub(outside.after.len());
    let bytes = file.as_bytes();
    let mut plain = Vec::new(alloc);
    for at in 0..bytes.len() {
        plain.push(plain_byte(bytes[at], is_outside(at, start, end)))?;
    }
    Ok(plain)
}

/// Returns whether the index is before `start`, or not before `end`.
fn is_outside(at: usize, start: usize, end: usize) -> bool
    ensures { result ≡ (ltb at start || leb end at) }
{
    at < start || end <= at
}

/// Returns what a byte of the file stands for, outside of its marks or between them.
fn plain_byte(byte: u8, is_outside: bool) -> u8
    ensures { result ≡ plain_byte is_outside byte }
{
    match byte {
        b'\n' => b'\n',
        _ if !is_outside => b' ',
        _ => byte,
    }
}

/// Returns the error of what is wrong.
fn error_of(file: &str, problem_at: ImplProblemAt) -> ImplError<'_>
    ensures problem { result.problem ≡ problem_at.problem }
    ensures place { IsIn file.now result }
{
    let place = error_at(
        file.as_bytes(),
        ProblemAt {
            problem: FileProblem::NotDeclared,
            left: problem_at.left,
        },
    );
    ImplError {
        problem: problem_at.problem,
        line: place.line,
        column: place.column,
        what: text_at(file, problem_at.left, problem_at.length),
    }
}
