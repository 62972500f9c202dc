//! The expression of a type in a file, as a word of a call: [`written`].

ghost use Rattle.std.specs.Prelude.{◌≡◌, IfErr, IfOk, string_bytes, true};
ghost use Rattle.pcard_files.specs.{IsExpression, IsTextRefusal, is_word, view};

use postcard_schema::{Leaf, Schema};
use postcard_schema_text::{TextError, schema_text};
use std::alloc::{AllocError, Global};

/// Returns a type expression of a schema. It is in brackets if it is one word, as `(u16)`: a call may
/// take a word alone for the name of a type, which has other values.
///
/// # Errors
///
/// Fails as [`schema_text`] does.
pub(crate) fn written(alloc: Global, schema: &Schema) -> Result<String, TextError>
    ensures expression { IfOk result (λ text. IsExpression schema.now (string_bytes text)) }
    ensures refused { IfErr result (λ error. IsTextRefusal error (view schema.now)) }
{
    match schema {
        Schema::Leaf(leaf) if is_word(*leaf) => match bracketed(alloc, *leaf) {
            Ok(text) => Ok(text),
            Err(_) => Err(TextError::OutOfMemory),
        },
        _ => schema_text(alloc, schema),
    }
}

/// Returns whether the name of a type without parts is one word.
fn is_word(leaf: Leaf) -> bool
    ensures { result ≡ is_word leaf }
{
    !matches!(leaf, Leaf::Fixed(_, _))
}

/// Returns the name of a type without parts in brackets.
fn bracketed(alloc: Global, leaf: Leaf) -> Result<String, AllocError>
    requires { is_word leaf ≡ true }
    ensures { IfOk result (λ text. IsExpression (Schema.Leaf leaf) (string_bytes text)) }
{
    format!(in alloc; "({leaf})")
}
