//! Reading a type expression: [`parse`].
//!
//! The grammar, in which white space may come before any word or sign and at the end:
//!
//! ```text
//! type     = {"&" ["'" lifetime]} plain {"?"} | ["|"] variant {"|" variant}
//! plain    = word | holder "<" type ">" | pair "<" type "," type ">"
//!          | "[" type "]" | "[" type ";" count "]" | tuple
//!          | "{" fields "}" | "{" type "=>" type "}"
//! holder   = "Box" | "Vec" | "Option" | "LE" | "BE"
//! pair     = "BTreeMap" | "HashMap" | "Result"
//! tuple    = "(" [type {"," type} [","]] ")"
//! fields   = name ":" type {"," name ":" type} [","]
//! variant  = Name [tuple | "{" fields "}"]
//! ```
//!
//! An enum with a single variant needs the leading `|`. `(T)` is the type `T`, and `(T,)` is a
//! tuple of one part. The fields of a struct have different names, and so have the variants of an
//! enum; a count is an integer literal below 2^64.
//!
//! A word is the name of a type without parts ([`crate::names`]), or of one that has types in `<`
//! and `>` ([`crate::angled`]). A type that begins with a capital letter is an enum if `|`, `(` or
//! `{` follows its first word. Otherwise that word names a type of Rust. So `String | Number` is an
//! enum, and `[String]` is a list of strings. `&T` is the type `T`, since a reference is written as
//! what it refers to; the name of a lifetime begins with no digit.

ghost use Rattle.std.specs.Prelude.{◌≡◌, ◌+◌, ◌≤◌, IfOk, IfErr};
ghost use Rattle.postcard_schema.specs.{type_of};
ghost use Rattle.postcard_schema.specs.Bounds.{ElementsHaveBytes, depth as depth_of};
ghost use Rattle.postcard_schema.specs.declared.schema.Schema.{Schema};
ghost use Rattle.postcard_schema_text.specs.{IsExpression, IsRefusal, characters};

use crate::error::{ExpressionError, Problem};
use crate::scan::{ProblemAt, character_of, or_letter, problem_at, skip_blanks};
use crate::types::read_type;
use postcard_schema::Schema;
use std::alloc::Global;

/// How deep types may nest in brackets, where the outermost type has depth 1.
const MAX_DEPTH: usize = 64;

/// Reads a type expression, such as `{id: u16, label: str, samples: [i32]}`, and returns its type.
/// It accepts the grammar of this module, within the limits that [`Problem`] names.
///
/// # Errors
///
/// Fails with what is wrong, one of [`Problem`], and the character where it is, counted from 1.
/// `AsciiExpected` is at the letter beyond ASCII. `NoBytes` is a problem since a short message
/// could then hold any number of elements.
pub fn parse(alloc: Global, text: &str) -> Result<Schema, ExpressionError>
    ensures spelled { IfOk result (λ schema. IsExpression schema text.now) }
    ensures one { IfOk result (λ schema. (other : Schema)
        → IsExpression other text.now → type_of other ≡ type_of schema) }
    ensures refused { IfErr result (λ e. IsRefusal e.problem
        ((other : Schema) × IsExpression other text.now)) }
    ensures elements_have_bytes { IfOk result (λ schema. ElementsHaveBytes (type_of schema)) }
    ensures deep { IfOk result (λ schema. depth_of (type_of schema) ≤ 384) }
    ensures place { IfErr result (λ e. (1 ≤ e.character)
        × (e.character ≤ characters text.now + 1)) }
{
    let mut rest = text.as_bytes();
    match read_whole(alloc, &mut rest) {
        Ok(schema) => Ok(schema),
        Err(found) => {
            let ProblemAt { problem, left } = or_letter(found, text.as_bytes());
            Err(ExpressionError {
                problem,
                character: character_of(text.as_bytes(), left),
            })
        }
    }
}

/// Reads a type, after which only blanks may follow.
fn read_whole(alloc: Global, rest: &mut &[u8]) -> Result<Schema, ProblemAt>
    ensures spelled { IfOk result (λ schema. IsExpression schema rest.old.now) }
    ensures one { IfOk result (λ schema. (other : Schema)
        → IsExpression other rest.old.now → type_of other ≡ type_of schema) }
    ensures refused { IfErr result (λ found. IsRefusal found.problem
        ((other : Schema) × IsExpression other rest.old.now)) }
{
    let schema = read_type(alloc, rest, MAX_DEPTH)?;
    skip_blanks(rest);
    if !rest.is_empty() {
        return Err(problem_at(Problem::EndExpected, rest));
    }
    Ok(schema)
}
