//! Types of messages that a file declares, in Rust's own form: [`find`].
//!
//! A file has the declarations of a program's source, so that these may be pasted. A name stands
//! for its declaration, wherever in the file that is. Each name in the place of a type is replaced
//! by what its declaration stands for. The type expression that is left is read by
//! [`postcard_schema_text::parse`].
//!
//! | A declaration | What it stands for |
//! |---|---|
//! | `struct A;` | `()` |
//! | `struct A(T, U);` | `(T, U)`, and also `(T)` for `struct A(T,);` |
//! | `struct A { a: T, b: U }` | `{ a: T, b: U }`, or `()` if there are no fields |
//! | `enum A { B, C(T), D { a: U } = 5 }` | `(\| B \| C(T) \| D { a: U })` |
//! | `type A = T;` | `(T)` |
//!
//! Passed over are comments, which may have others in them, attributes, lifetimes, `pub` and its
//! scope, as `pub(crate)`, and paths before a name. So are the comma after the last part of a tuple
//! struct or a tuple variant, a comma before `>`, and the discriminant of a variant. That may be
//! any expression: it ends with the first `,` outside of its brackets, or the `}` of the enum. An
//! item ends with its first `;` or `}` outside of all brackets; one that doesn't begin with
//! `struct`, `enum` or `type` is passed over. Types with parameters aren't supported. With its
//! names replaced, a type has at most 65,536 words and signs, and in it names stand for one another
//! at most 64 deep.
//!
//! A file is read in five steps, one module each. [`lex`] makes its tokens, [`kept`] those that are
//! kept, and [`declaration`] the declarations. [`expand`] makes the words of a type with its names
//! replaced, by [`words`] for each token, and then their text is made. [`place`] has the line and
//! column of an error.
#![tactic(auto)]

ghost use Rattle.std.specs.Prelude.{IfOk, IfErr, string_bytes};
ghost use Rattle.postcard_source.specs.{HasProblemOf, IsExpression, IsExpressionOf, IsTypeOf};
ghost use Rattle.postcard_source.specs.{IsWithin, Opens, Schema};

pub mod declaration;
pub mod error;
pub mod expand;
pub mod kept;
pub mod lex;
pub mod place;
mod raw;
pub mod token;
pub mod words;

use declaration::declarations;
use error::ProblemAt;
pub use error::{FileError, FileProblem};
use expand::words_of;
use kept::kept;
use lex::tokens;
use place::{error_at, left_of, problem_of, spelled};
use postcard_schema::Schema;
use postcard_schema_text::parse;
use std::alloc::Global;

/// Returns the type with this name, which the file declares.
///
/// # Errors
///
/// Fails with what is wrong, one of [`FileProblem`], and the line and column where it is. The
/// file's tokens and declarations are looked at first, to its end, and then the bodies of the
/// declaration of the name and of those that it needs. What is wrong in another one isn't found.
pub fn find(alloc: Global, file: &str, name: &str) -> Result<Schema, FileError>
    ensures found { IfOk result (λ schema. IsTypeOf file.now name.now schema) }
    ensures problem { IfErr result (λ e. HasProblemOf file.now name.now e.problem) }
    ensures place { IfErr result (λ e. IsWithin file.now e) }
{
    match read(alloc, file.as_bytes(), name.as_bytes()) {
        Ok(found) => Ok(found.schema),
        Err(problem_at) => Err(error_at(file.as_bytes(), problem_at)),
    }
}

/// Returns what the declaration with this name stands for, a type expression that begins with `(`
/// or `{`.
///
/// # Errors
///
/// Fails as [`find`] does.
pub fn expression(alloc: Global, file: &str, name: &str) -> Result<String, FileError>
    ensures spelled { IfOk result (λ text. IsExpressionOf file.now name.now (string_bytes text)) }
    ensures read { IfOk result (λ text. (schema : Schema) × IsExpression schema (string_bytes text)) }
    ensures opens { IfOk result (λ text. Opens (string_bytes text)) }
    ensures problem { IfErr result (λ e. HasProblemOf file.now name.now e.problem) }
    ensures place { IfErr result (λ e. IsWithin file.now e) }
{
    match read(alloc, file.as_bytes(), name.as_bytes()) {
        Ok(found) => Ok(found.text),
        Err(problem_at) => Err(error_at(file.as_bytes(), problem_at)),
    }
}

/// A type, and a type expression of it.
#[derive(Drop)]
struct Found {
    text: String,
    schema: Schema,
}

/// Returns the type with this name, and its expression. Fails as [`find`] does.
fn read(alloc: Global, file: &[u8], name: &[u8]) -> Result<Found, ProblemAt>
    ensures spelled { IfOk result (λ found. IsExpressionOf file.now name.now
        (string_bytes found.text)) }
    ensures read { IfOk result (λ found. IsExpression found.schema (string_bytes found.text)) }
    ensures opens { IfOk result (λ found. Opens (string_bytes found.text)) }
    ensures problem { IfErr result (λ e. HasProblemOf file.now name.now e.problem) }
{
    let all = tokens(alloc, file)?;
    let kept = kept(alloc, all.as_slice())?;
    let known = declarations(alloc, kept.as_slice())?;
    let words = words_of(alloc, kept.as_slice(), known.as_slice(), name)?;
    let text = spelled(alloc, words.as_slice())?;
    match parse(alloc, text.as_str()) {
        Ok(schema) => Ok(Found { text, schema }),
        Err(e) => Err(ProblemAt {
            problem: problem_of(words.as_slice(), &e),
            left: left_of(words.as_slice(), e.character),
        }),
    }
}
